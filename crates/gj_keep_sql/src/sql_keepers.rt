//! Where the keeper over a file is found by its path.

use crate::file_keeper::FileKeeper;
use gj_base::{KeepError, Keepers};
use std::alloc::Global;
use std::marker::Model;

/// Hands out the keeper over the file at a path, which is made where it isn't there. Contracts see whether its keeper is
/// at home, and the counts of faults.
#[derive(Drop)]
pub struct SqlKeepers<'rt> {
    rt: &'rt HostRuntime,
    home: bool,
    /// How often a call on it failed.
    own: u64,
    /// The count of its keeper, as that was last at home.
    kept: u64,
}

impl<'rt> Model for SqlKeepers<'rt> {
    ghost use Rattle.gj_keep_sql.specs.Stores.{Stores};

    ghost Value = { Stores };

    ghost view = { λ s. record { home = s.home; own = s.own; kept = s.kept } };
}

impl<'rt> SqlKeepers<'rt> {
    ghost use Rattle.std.specs.Prelude.{◌≡◌, true};

    /// Its keeper is at home, and no call has failed yet.
    pub fn new(rt: &'rt HostRuntime) -> Self
        ensures { result ≡ record { home = true; own = 0; kept = 0 } }
    {
        SqlKeepers {
            rt,
            home: true,
            own: 0,
            kept: 0,
        }
    }
}

impl<'rt> Keepers for SqlKeepers<'rt> {
    type Kept = FileKeeper;

    ghost use Rattle.std.specs.Prelude.{false, None, []};
    ghost use Rattle.gj_keep_sql.specs.Stores.{faults_of};

    ghost stored = { λ _. record { bare = false; tells = false; conf = None; rows = [] } };

    ghost home = { λ stores. stores.home };

    ghost own = { λ stores. stores.own };

    ghost faults = { faults_of };

    ghost steady = { λ _. false };

    fn keeper_at(&mut self, alloc: Global, path: &str) -> Result<FileKeeper, KeepError> {
        let keeper = FileKeeper::open(self.rt, alloc, path, self.kept, &mut self.own)?;
        self.home = false;
        Ok(keeper)
    }

    fn take_back(&mut self, kept: FileKeeper) {
        self.kept = self.kept.max(kept.close());
        self.home = true;
    }
}
