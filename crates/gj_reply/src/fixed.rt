//! The replies that stand where no reply can be made.
ghost use Rattle.std.specs.Prelude.{◌≡◌};
ghost use Rattle.gj_reply.specs.FixedTexts.{fixed_text};

/// A reply that is there whatever memory is left. Its status is `Unavailable`.
///
/// Where memory is wanting: `Accepted` stands exactly where the message's batch is in the history, `NotAccepted` for
/// every other message whose route is `Interactions`, and `Memory` for everything else. So a client that posts always
/// knows whether its batch counts.
#[derive(Clone, Copy, Debug, PartialEq, Eq)]
pub enum Fixed {
    /// Want of memory where nothing was posted.
    Memory,
    /// Want of memory for a post whose batch is not in the history.
    NotAccepted,
    /// Want of memory after the post's batch has entered the history.
    Accepted,
    /// The published history could not be looked at.
    NoLook,
}

/// The body of the fixed reply. It takes no memory.
pub fn fixed_body(which: Fixed) -> &'static [u8]
    ensures { result.now ≡ fixed_text which }
{
    match which {
        Fixed::Memory => b"{\"error\":\"memory\"}",
        Fixed::NotAccepted => b"{\"error\":\"memory\",\"accepted\":false}",
        Fixed::Accepted => b"{\"error\":\"memory\",\"accepted\":true}",
        Fixed::NoLook => b"{\"error\":\"no_look\"}",
    }
}
