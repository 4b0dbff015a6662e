//! How often a reader's place was refused.
ghost use Rattle.std.specs.Prelude.{◌≡◌, ◌+◌, ◌<◌, ◌^◌};

use std::marker::Model;

/// How often an opening found no reader's place in the copies. Contracts see the number, which `open_index` alone raises.
#[derive(Drop)]
pub struct Grants {
    refused: u64,
}

impl Model for Grants {
    ghost use Rattle.std.specs.Prelude.{ℕ};

    ghost Value = { ℕ };

    ghost view = { λ g. g.refused };
}

impl Grants {
    /// None was refused yet.
    pub fn new() -> Grants
        ensures { result ≡ 0 }
    {
        Grants { refused: 0 }
    }

    /// How often a place was refused.
    pub fn refused(&self) -> u64
        ensures { result ≡ self.now }
    {
        self.refused
    }

    // One more.
    pub(crate) fn raise(&mut self)
        requires { self.old < 2 ^ 40 }
        ensures { self.new ≡ self.old + 1 }
    {
        self.refused += 1;
    }
}
