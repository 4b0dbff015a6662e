//! The names of fields.

/// A field of a body, or what stands in for one in a refusal: the body itself, a name that no field has, or what a path
/// ends in, which is an identifier or the place from which a page is asked for.
#[derive(Clone, Copy, Debug, PartialEq, Eq)]
pub enum Name {
    Items,
    User,
    Post,
    Kind,
    At,
    Seeds,
    Steps,
    Seed,
    Kinds,
    Reset,
    Top,
    Proof,
    Hide,
    Since,
    NotBefore,
    Iterations,
    Weight,
    Least,
    Producer,
    Number,
    From,
    Body,
    Unknown,
    Id,
}

impl Name {
    ghost use Rattle.std.specs.Prelude.{◌≡◌};
    ghost use Rattle.gj_request.specs.Names.{name_text};

    /// Its text, in lower case.
    pub fn text(self) -> &'static str
        ensures { result.now ≡ name_text self }
    {
        match self {
            Name::Items => "items",
            Name::User => "user",
            Name::Post => "post",
            Name::Kind => "kind",
            Name::At => "at",
            Name::Seeds => "seeds",
            Name::Steps => "steps",
            Name::Seed => "seed",
            Name::Kinds => "kinds",
            Name::Reset => "reset",
            Name::Top => "top",
            Name::Proof => "proof",
            Name::Hide => "hide",
            Name::Since => "since",
            Name::NotBefore => "not_before",
            Name::Iterations => "iterations",
            Name::Weight => "weight",
            Name::Least => "least",
            Name::Producer => "producer",
            Name::Number => "number",
            Name::From => "from",
            Name::Body => "body",
            Name::Unknown => "unknown",
            Name::Id => "id",
        }
    }
}
