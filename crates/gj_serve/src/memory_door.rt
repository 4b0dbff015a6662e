//! A door over connections in memory.
ghost use Rattle.std.specs.Prelude.{◌≡◌, ◌+◌, ◌^◌, ◌<◌, ◌≤◌, vec_len, vec_capacity, All};
ghost use Rattle.gj_serve.specs.Fresh.{IsFreshLink};

use crate::door::Door;
use gj_base::{Calls, Failed, Memory, MemoryLink};
use gj_session::Done;
use std::alloc::Global;

/// A door that hands out the links of a list in order, keeps those that come back, and is closed when none is left. It
/// numbers its calls of `listen` and `next_link` together from 1, and fails those that a list names.
#[derive(Drop)]
pub struct MemoryDoor {
    links: Vec<MemoryLink>,
    done: Vec<Done<MemoryLink>>,
    calls: Calls,
    handed: u64,
    back: u64,
    nones: u64,
    ghost fresh: { All IsFreshLink links.items },
    ghost kept: { vec_len done ≡ back },
    ghost room: { handed + vec_len links ≤ vec_capacity done },
}

impl MemoryDoor {
    ghost use Rattle.std.specs.Prelude.{◌≡◌, [], All, IfOk, IsTrue};
    ghost use Rattle.gj_serve.specs.Fresh.{IsFreshLink};
    ghost use Rattle.gj_serve.specs.MemoryDoors.{handed_by, back_at, nones_of, entered_by, given_to, faults_at, is_steady_door};

    /// A door of these links. It takes memory for those that come back.
    pub fn new(alloc: Global, links: Vec<MemoryLink>, fails: Vec<u64>) -> Result<Self, Memory>
        requires { All IsFreshLink links.items }
        ensures fresh { IfOk result (λ d. (handed_by d ≡ 0) × (back_at d ≡ 0) × (nones_of d ≡ 0) × (faults_at d ≡ 0) × (entered_by d ≡ 0) × (given_to d ≡ [])) }
        ensures steady { fails.items ≡ [] → IfOk result (λ d. IsTrue (is_steady_door d)) }
    {
        match Vec::with_capacity(alloc, links.len()) {
            Ok(done) => Ok(MemoryDoor {
                links,
                done,
                calls: Calls::new(fails),
                handed: 0,
                back: 0,
                nones: 0,
            }),
            Err(_) => Err(Memory),
        }
    }

    /// Those that came back, in the order of their return. It takes no memory.
    pub fn into_back(self) -> Vec<Done<MemoryLink>> {
        self.done
    }
}

impl Door for MemoryDoor {
    type Link = MemoryLink;

    ghost use Rattle.std.specs.Prelude.{◌≡◌, ◌+◌, ◌^◌, ◌<◌, ◌≤◌, ◌++◌, ◌∷◌, [], true, IsTrue};
    ghost use Rattle.gj_serve.specs.MemoryDoors.{handed_by, back_at, nones_of, entered_by, given_to, faults_at, is_steady_door};

    ghost handed = { handed_by };

    ghost back = { back_at };

    ghost nones = { nones_of };

    ghost entered = { entered_by };

    ghost tells = { λ _. true };

    ghost given = { given_to };

    ghost faults = { faults_at };

    ghost steady = { is_steady_door };

    fn listen(&mut self, _port: u16) -> Result<(), Failed> {
        self.calls.count()
    }

    fn next_link(&mut self) -> Result<Option<MemoryLink>, Failed> {
        self.calls.count()?;
        if self.links.is_empty() {
            self.nones += 1;
            return Ok(None);
        }
        let link = self.links.remove(0);
        self.handed += 1;
        Ok(Some(link))
    }

    fn give_back(&mut self, done: Done<MemoryLink>)
        requires some { back_at self.old < handed_by self.old }
        requires in_range { back_at self.old < 2 ^ 40 }
        ensures back { back_at self.new ≡ back_at self.old + 1 }
        ensures entered { entered_by self.new ≡ entered_by self.old + done.entered }
        ensures told { true ≡ true }
        ensures given { IsTrue true → given_to self.new ≡ given_to self.old ++ done ∷ [] }
        ensures others { (handed_by self.new ≡ handed_by self.old) × (nones_of self.new ≡ nones_of self.old) }
        ensures later { faults_at self.old ≤ faults_at self.new }
        ensures steady { IsTrue (is_steady_door self.old) → IsTrue (is_steady_door self.new) }
    {
        self.done.push_reserved(done);
        self.back += 1;
    }
}
