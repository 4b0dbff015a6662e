//! The store of a program that has none.

use gj_base::{Item, KeepError, Keeper, Keepers, KeptConf, KeptItem};
use std::alloc::Global;

/// Keeps nothing, and never fails.
#[derive(Clone, Copy, Debug)]
pub struct NoKeeper;

impl Keeper for NoKeeper {
    ghost use Rattle.std.specs.Prelude.{true, false, None, [], refl};

    ghost kept = { λ _. record { bare = true; tells = false; conf = None; rows = [] } };

    ghost untold = { λ _ _. refl };

    ghost faults = { λ _. 0 };

    ghost steady = { λ _. true };

    fn conf(&mut self) -> Result<Option<KeptConf>, KeepError> {
        Ok(None)
    }

    fn set_conf(&mut self, _conf: KeptConf) -> Result<(), KeepError> {
        Ok(())
    }

    fn rows(&mut self, alloc: Global) -> Result<Vec<KeptItem>, KeepError> {
        Ok(Vec::new(alloc))
    }

    fn append(&mut self, _from: u64, _items: &[Item]) -> Result<(), KeepError> {
        Ok(())
    }

    fn trim(&mut self, _below: u64) -> Result<(), KeepError> {
        Ok(())
    }

    fn migrate(&mut self) -> Result<(), KeepError> {
        Ok(())
    }
}

/// Hands out a `NoKeeper`, whatever the path.
#[derive(Debug, Drop)]
pub struct NoKeepers {
    home: bool,
}

impl NoKeepers {
    ghost use Rattle.std.specs.Prelude.{IsTrue};

    /// Its keeper is at home.
    pub fn new() -> Self
        ensures { IsTrue result.home }
    {
        NoKeepers { home: true }
    }
}

impl Keepers for NoKeepers {
    type Kept = NoKeeper;

    ghost use Rattle.std.specs.Prelude.{true, false, None, []};

    ghost stored = { λ _. record { bare = true; tells = false; conf = None; rows = [] } };

    ghost home = { λ s. s.home };

    ghost own = { λ _. 0 };

    ghost faults = { λ _. 0 };

    ghost steady = { λ _. true };

    fn keeper_at(&mut self, _alloc: Global, _path: &str) -> Result<NoKeeper, KeepError> {
        self.home = false;
        Ok(NoKeeper)
    }

    fn take_back(&mut self, _kept: NoKeeper) {
        self.home = true;
    }
}
