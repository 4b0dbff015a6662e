//! A keeper over a file.

use crate::append::{AppendRows, DropBelow, WriteConf};
use crate::calls::Call;
use crate::migrate::Migrate;
use crate::reading::{ReadConf, ReadRows};
use crate::sql_keeper::SqlKeeper;
use gj_base::{Item, KeepError, Keeper, KeptConf, KeptItem};
use sqlite::{Connection, File, FileStore};
use std::alloc::Global;
use std::marker::Model;

/// Keeps the window in an SQLite file. Contracts see the count of its faults.
pub struct FileKeeper {
    keeper: SqlKeeper<FileStore<File>>,
}

// Written out, so that a caller doesn't prove again how each part is dropped.
impl Drop for FileKeeper {
    fn drop(self) {
        let FileKeeper { keeper } = self;
        keeper.let_go();
    }
}

impl Model for FileKeeper {
    ghost use Rattle.std.specs.Prelude.{ℕ};

    ghost Value = { ℕ };

    ghost view = { λ k. k.keeper };
}

impl FileKeeper {
    ghost use Rattle.std.specs.Prelude.{◌≡◌, ◌≤◌, IfOk};
    ghost use Rattle.gj_base.specs.Causes.{faults_after};

    /// The keeper over the file at the path, which is made where it isn't there. Its count goes on from this one; refusals
    /// are counted in `faults`.
    pub(crate) fn open(
        rt: &HostRuntime,
        alloc: Global,
        path: &str,
        count: u64,
        faults: &mut u64,
    ) -> Result<FileKeeper, KeepError>
        ensures ok { IfOk result (λ keeper. keeper ≡ count) }
        ensures count { faults.new ≡ faults_after faults.old result }
    {
        let opened = Connection::open(rt, path);
        let keeper = SqlKeeper::adopt_files(alloc, opened, count, faults)?;
        Ok(FileKeeper { keeper })
    }

    /// Copies the log beside the file into it, closes both, and gives the count. Where the copy fails, all is in the log.
    pub(crate) fn close(self) -> u64
        ensures { result ≡ self }
    {
        let FileKeeper { keeper } = self;
        keeper.close()
    }

    /// Makes the call. Each call comes through here, so that the connection's type is met in one proof alone.
    fn run<C: Call>(&mut self, call: C) -> Result<C::Answer, KeepError>
        ensures count { self.new ≡ faults_after self.old result }
        ensures later { self.old ≤ self.new }
    {
        self.keeper.run_files(call)
    }
}

impl Keeper for FileKeeper {
    ghost use Rattle.std.specs.Prelude.{false, None, [], refl};

    ghost kept = { λ _. record { bare = false; tells = false; conf = None; rows = [] } };

    ghost untold = { λ _ _. refl };

    ghost faults = { λ keeper. keeper };

    ghost steady = { λ _. false };

    fn conf(&mut self) -> Result<Option<KeptConf>, KeepError> {
        self.run(ReadConf)
    }

    fn set_conf(&mut self, conf: KeptConf) -> Result<(), KeepError> {
        self.run(WriteConf { conf })
    }

    fn rows(&mut self, alloc: Global) -> Result<Vec<KeptItem>, KeepError> {
        self.run(ReadRows { alloc })
    }

    fn append(&mut self, from: u64, items: &[Item]) -> Result<(), KeepError> {
        self.run(AppendRows { from, items })
    }

    fn trim(&mut self, below: u64) -> Result<(), KeepError> {
        self.run(DropBelow { below })
    }

    fn migrate(&mut self) -> Result<(), KeepError> {
        self.run(Migrate {
            alloc: self.keeper.alloc,
        })
    }
}
