//! Why a request is refused.

use crate::name::Name;
use gj_base::Memory;

/// Why a body or a path asks for nothing. Of several reasons it is the first, in the order of the tables.
#[derive(Clone, Copy, Debug, PartialEq, Eq)]
pub enum Reason {
    /// The body has no reading as a JSON text.
    Json,
    /// The field is missing and has no default, or its value has the wrong form.
    Field(Name),
    /// The field's value has the right form and is out of range.
    Range(Name),
}

/// Why a request is not read: for a `Reason`, or for want of memory, which no request has as its reason.
#[derive(Clone, Copy, Debug, PartialEq, Eq)]
pub enum Refusal {
    /// The body has no reading as a JSON text.
    Json,
    /// The field is missing and has no default, or its value has the wrong form.
    Field(Name),
    /// The field's value has the right form and is out of range.
    Range(Name),
    /// No memory was found. It may come in place of any other answer.
    Memory,
}

impl From<Reason> for Refusal {
    ghost use Rattle.std.specs.Prelude.{◌≡◌};
    ghost use Rattle.gj_request.specs.Results.{refusal_for};

    ghost from_gives = { λ reason why. why ≡ refusal_for reason };

    fn from(reason: Reason) -> Refusal {
        match reason {
            Reason::Json => Refusal::Json,
            Reason::Field(name) => Refusal::Field(name),
            Reason::Range(name) => Refusal::Range(name),
        }
    }
}

impl From<Memory> for Refusal {
    ghost use Rattle.std.specs.Prelude.{◌≡◌};
    ghost use Rattle.gj_request.specs.declared.refusal.Refusal.TheVariants as refusals;

    ghost from_gives = { λ _ why. why ≡ refusals.Memory };

    fn from(_none: Memory) -> Refusal {
        Refusal::Memory
    }
}
