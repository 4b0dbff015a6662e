//! What a caller of the framer learns, whose message is given back.

ghost use Rattle.gj_http.specs.Taken.{IsTaken};

use gj_http::{Framer, Refused, Step};

/// The length of the next body, or the refusal, or nothing where more is needed. What follows the message is left.
pub fn next_length(framer: &mut Framer) -> Result<usize, Option<Refused>>
    ensures { IsTaken framer.old framer.new result }
{
    match framer.take_next() {
        Step::Message(message) => Ok(message.body.len()),
        Step::NeedMore => Err(None),
        Step::Refused(why) => Err(Some(why)),
    }
}
