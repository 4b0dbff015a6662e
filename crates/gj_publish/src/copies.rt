//! The published copies, as their one writer sees them.
ghost use Rattle.std.specs.Prelude.{◌≡◌, [], MatchResult};
ghost use Rattle.left_right.specs.Handles.{published, pending};

use gj_base::History;
use left_right::{Absorb, WriteHandle};
use std::sync::Wait;

/// What shows operations to all seats at once. It hides from the writer which graph is shown.
pub trait Copies: Drop {
    /// What changes the copies.
    type Operation: Drop;

    ghost use Rattle.gj_base.specs.declared.history.History.{History};
    ghost use Rattle.std.specs.Prelude.{◌≡◌, MatchResult};

    // The history that is shown.
    ghost shown: { Self → History };

    // What an operation does to it.
    ghost applied: { History → Self.Operation → History };

    // Nothing is on its way.
    ghost quiet: { Self → Type 0 };

    /// Shows the operation, or hands it back where there is no memory. It may wait for looks that began before.
    fn show(&mut self, operation: Self::Operation) -> Result<(), Self::Operation>
        requires { quiet self.old }
        ensures quiet { quiet self.new }
        ensures shown { MatchResult result (λ _. shown self.new ≡ applied (shown self.old) operation) (λ o. (o ≡ operation) × (shown self.new ≡ shown self.old)) };
}

impl<O: Drop, T: Absorb<O, State = History> + Drop, R: Wait + Drop> Copies
    for WriteHandle<T, O, R> {
    type Operation = O;

    ghost use Rattle.std.specs.Prelude.{◌≡◌, []};
    ghost use Rattle.left_right.specs.Handles.{published, pending};

    ghost shown = { λ w. T.state (published w) };

    ghost applied = { λ s o. T.applied s o };

    ghost quiet = { λ w. (pending w ≡ []) × T.never_fails };

    fn show(&mut self, operation: O) -> Result<(), O>
        requires { (pending self.old ≡ []) × T.never_fails }
        ensures quiet { (pending self.new ≡ []) × T.never_fails }
        ensures shown { MatchResult result (λ _. T.state (published self.new) ≡ T.applied (T.state (published self.old)) operation) (λ o. (o ≡ operation) × (T.state (published self.new) ≡ T.state (published self.old))) }
    {
        self.append(operation)?;
        match self.publish() {
            Ok(()) => Ok(()),
            Err(_) => unreachable!(),
        }
    }
}
