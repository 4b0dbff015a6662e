//! Where one keeper in memory is at home.
ghost use Rattle.std.specs.Prelude.{◌≡◌, ◌+◌, ◌≤◌};
ghost use Rattle.std.specs.Option.{ForSome};
ghost use Rattle.gj_keep.specs.MemoryStores.{kept_by};

use crate::memory_keeper::MemoryKeeper;
use gj_base::{Calls, KeepError, Keepers};
use std::alloc::Global;
use std::snapshot::Snapshot;

/// Hands out its one keeper, whatever the path. It fails the calls of `keeper_at` whose numbers, from 1, are in the list
/// `fails`.
#[derive(Drop)]
pub struct MemoryKeepers {
    kept: Option<MemoryKeeper>,
    last: Snapshot<MemoryKeeper>,
    calls: Calls,
    own: u64,
    faults: u64,
    ghost same: { ForSome kept (λ k. kept_by k ≡ kept_by last.value) },
    ghost known: { ForSome kept (λ k. faults ≤ own + k.faults) },
}

impl MemoryKeepers {
    ghost use Rattle.std.specs.Prelude.{IsTrue, []};
    ghost use Rattle.gj_keep.specs.MemoryStores.{kept_by, faults_by, IsSteady};
    ghost use Rattle.gj_keep.specs.MemoryHomes.{stored_by, is_home, own_faults, faults_known, calls_on, AreSteady};

    /// The keeper is at home. It takes no memory.
    pub fn new(kept: MemoryKeeper, fails: Vec<u64>) -> Self
        ensures home { IsTrue (is_home result) }
        ensures stored { stored_by result ≡ kept_by kept }
        ensures own { own_faults result ≡ 0 }
        ensures faults { faults_known result ≡ faults_by kept }
        ensures calls { calls_on result ≡ record { made = 0; fails = fails.items; faults = 0 } }
        ensures steady { fails.items ≡ [] → IsSteady kept → AreSteady result }
    {
        let last = Snapshot::of(&kept);
        let faults = kept.faults;
        MemoryKeepers {
            kept: Some(kept),
            last,
            calls: Calls::new(fails),
            own: 0,
            faults,
        }
    }
}

impl Keepers for MemoryKeepers {
    type Kept = MemoryKeeper;

    ghost use Rattle.std.specs.Prelude.{◌≡◌, ◌≤◌, ◌+◌, ◌↔◌, true, false, IfOk, OnErr, IsErr, IsErrOf, IsTrue};
    ghost use Rattle.gj_base.specs.declared.keeper.KeepError.TheVariants.{Failed, Memory};
    ghost use Rattle.gj_base.specs.Causes.{faults_after};
    ghost use Rattle.gj_base.specs.CallNumbers.{counted, fails_next};
    ghost use Rattle.gj_keep.specs.MemoryStores.{kept_by, faults_by, IsSteady};
    ghost use Rattle.gj_keep.specs.MemoryHomes.{stored_by, is_home, own_faults, faults_known, calls_on, are_steady, AreSteady};

    ghost stored = { stored_by };

    ghost home = { is_home };

    ghost own = { own_faults };

    ghost faults = { faults_known };

    ghost steady = { are_steady };

    fn keeper_at(&mut self, _alloc: Global, _path: &str) -> Result<MemoryKeeper, KeepError>
        requires { IsTrue (is_home self.old) }
        ensures stored { stored_by self.new ≡ stored_by self.old }
        ensures ok { IfOk result (λ k. (is_home self.new ≡ false) × (kept_by k ≡ stored_by self.old)) }
        ensures known { IfOk result (λ k. faults_known self.new ≤ own_faults self.new + faults_by k) }
        ensures err { OnErr result (is_home self.new ≡ true) }

        ensures failed { IsErr result ↔ IsTrue (fails_next (calls_on self.old)) }
        ensures calls { calls_on self.new ≡ counted (calls_on self.old) }
        ensures only { IsErrOf result Memory → ⊥ }
        ensures own { own_faults self.new ≡ faults_after (own_faults self.old) result }
        ensures count { faults_known self.new ≡ faults_after (faults_known self.old) result }
        ensures later { faults_known self.old ≤ faults_known self.new }
        ensures steady { AreSteady self.old → (IsErrOf result Failed → ⊥) × AreSteady self.new × IfOk result IsSteady }
    {
        if let Err(_) = self.calls.count() {
            self.own = self.own.saturating_add(1);
            self.faults = self.faults.saturating_add(1);
            return Err(KeepError::Failed);
        }
        match self.kept.take() {
            Some(kept) => Ok(kept),
            None => unreachable!(),
        }
    }

    fn take_back(&mut self, kept: MemoryKeeper) {
        let mut kept = kept;
        self.faults = self.faults.max(self.own.saturating_add(kept.faults));
        kept.faults = kept.faults.max(self.faults.saturating_sub(self.own));
        self.last = Snapshot::of(&kept);
        self.kept = Some(kept);
    }
}
