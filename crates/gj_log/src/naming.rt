//! The names of an opening.
ghost use Rattle.std.specs.Prelude.{◌≡◌};

use crate::pages::BlankBook;
use std::marker::Brand;
use std::sync::ledger::{Blank, Ledger};

/// Names an opening by what it fixes. A function that opens is generic over it, and its caller calls it at `Brand`, with
/// these members picked from a `Naming` and from what is opened.
pub trait Opening: Ledger {
    ghost use Rattle.std.specs.Prelude.{ℕ, Option};
    ghost use Rattle.logbook.specs.Pages.{Book};
    ghost use Rattle.gj_base.specs.Configuration.{Configuration};
    ghost use Rattle.gj_base.specs.declared.history.History.{History};

    // The book of its history.
    ghost book: { Book };

    // The number of its seats, each of which has one part of its ledger.
    ghost places: { ℕ };

    // Its configuration.
    ghost conf: { Configuration };

    // The history that it begins with, where the keeper tells that before its rows are read.
    ghost opening: { Option History };
}

impl Opening for Brand {
    ghost use Rattle.std.specs.Prelude.{None};

    ghost book = { record { number = 0; log_name = 0; cells_name = 0 } };

    ghost places = { 0 };

    ghost conf = { record { capacity = 0; segments = 0 } };

    ghost opening = { None };
}

/// A ledger and a book that have no name yet. One opening uses it up. It has no bytes.
#[derive(Drop)]
pub struct Naming {
    pub blank: Blank,
    pub history: BlankBook,
}

impl Naming {
    /// One for so many seats.
    pub fn new(places: u32) -> Naming
        ensures { result.blank.parts ≡ places }
    {
        Naming {
            blank: Blank::new(u64::from(places)),
            history: BlankBook::new(),
        }
    }
}
