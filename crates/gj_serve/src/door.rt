//! Where connections come from.

use gj_base::{Failed, Link};
use gj_session::Done;

/// Where connections come from, and where they go back to.
pub trait Door {
    /// A connection.
    type Link: Link + Send;

    ghost use Rattle.std.specs.Prelude.{ℕ, Bool, List, ◌≡◌, ◌+◌, ◌^◌, ◌<◌, ◌≤◌, ◌++◌, ◌∷◌, IsTrue, IsOk, [], OnErr};
    ghost use Rattle.gj_base.specs.Causes.{HasCause};
    ghost use Rattle.gj_serve.specs.Doors.{HandsOut};
    ghost use Rattle.gj_session.specs.declared.done.Done.{Done};

    // How many links were handed out.
    ghost handed: { Self → ℕ };

    // How many of them came back.
    ghost back: { Self → ℕ };

    // How often it answered that it is closed.
    ghost nones: { Self → ℕ };

    // How much entered by the sessions of those that came back.
    ghost entered: { Self → ℕ };

    // Whether it tells the sessions of those that came back. Memory does, a real door doesn't.
    ghost tells: { Self → Bool };

    // These sessions, in the order of their return, where they are told.
    ghost given: { Self → List (Done Self.Link) };

    // How often a call failed.
    ghost faults: { Self → ℕ };

    // Whether no call fails from here on.
    ghost steady: { Self → Bool };

    /// Opens the door at the port.
    fn listen(&mut self, port: u16) -> Result<(), Failed>
        requires fresh { (handed self.old ≡ 0) × (back self.old ≡ 0) × (nones self.old ≡ 0) }
        ensures same { (handed self.new ≡ 0) × (back self.new ≡ 0) × (nones self.new ≡ 0) }
        ensures entered { entered self.new ≡ entered self.old }
        ensures given { (tells self.new ≡ tells self.old) × (given self.new ≡ given self.old) }
        ensures cause { HasCause (faults self.old) (faults self.new) result }
        ensures steady { IsTrue (steady self.old) → IsOk result × IsTrue (steady self.new) };

    /// The next connection, or none where the door is closed. It may wait where the door is real.
    fn next_link(&mut self) -> Result<Option<Self::Link>, Failed>
        requires in_range { (handed self.old < 2 ^ 40) × (nones self.old < 2 ^ 40) }
        ensures handed { HandsOut Self.Link.tells Self.Link.stream Self.Link.written (handed self.old) (handed self.new) (nones self.old) (nones self.new) result }
        ensures back { back self.new ≡ back self.old }
        ensures entered { entered self.new ≡ entered self.old }
        ensures given { (tells self.new ≡ tells self.old) × (given self.new ≡ given self.old) }
        ensures cause { HasCause (faults self.old) (faults self.new) result }
        ensures steady { IsTrue (steady self.old) → IsOk result × IsTrue (steady self.new) };

    /// Takes a connection back that was served.
    fn give_back(&mut self, done: Done<Self::Link>)
        requires some { back self.old < handed self.old }
        requires in_range { back self.old < 2 ^ 40 }
        ensures back { back self.new ≡ back self.old + 1 }
        ensures entered { entered self.new ≡ entered self.old + done.entered }
        ensures told { tells self.new ≡ tells self.old }
        ensures given { IsTrue (tells self.old) → given self.new ≡ given self.old ++ done ∷ [] }
        ensures others { (handed self.new ≡ handed self.old) × (nones self.new ≡ nones self.old) }
        ensures later { faults self.old ≤ faults self.new }
        ensures steady { IsTrue (steady self.old) → IsTrue (steady self.new) };
}
