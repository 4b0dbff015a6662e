//! A keeper over one connection.

use crate::answers::counted;
use crate::append::{AppendRows, DropBelow, WriteConf};
use crate::calls::Call;
use crate::migrate::Migrate;
use crate::reading::{ReadConf, ReadRows};
use crate::tables::make_tables;
use gj_base::{Item, KeepError, Keeper, KeptConf, KeptItem};
use sqlite::{Alter, Connection, Error, FileStore};
use sqlite_disk::Disk;
use std::alloc::Global;
use std::marker::Model;

/// Keeps the window in the tables of a connection, of which `F` are the files. Contracts see the count of its faults.
pub struct SqlKeeper<F: Alter> {
    connection: Connection<F>,
    pub(crate) alloc: Global,
    faults: u64,
}

// Written out, so that a caller doesn't prove again how each part is dropped.
impl<F: Alter + Drop> Drop for SqlKeeper<F> {
    fn drop(self) {
        let SqlKeeper {
            connection: _connection,
            alloc: _,
            faults: _,
        } = self;
    }
}

impl<F: Alter> Model for SqlKeeper<F> {
    ghost use Rattle.std.specs.Prelude.{ℕ};

    ghost Value = { ℕ };

    ghost view = { λ k. k.faults };
}

impl<F: Alter + Drop> SqlKeeper<F> {
    ghost use Rattle.std.specs.Prelude.{◌≡◌, ◌≤◌, IfOk};
    ghost use Rattle.gj_base.specs.Causes.{faults_after};

    /// The keeper over a connection that the caller has opened, and that is in no transaction. The tables are made where
    /// they aren't there. `Failed` comes at a refusal that is counted in `faults`, and `Memory` for want of memory. The
    /// keeper's own count is 0.
    pub fn adopt(
        alloc: Global,
        connection: Connection<F>,
        faults: &mut u64,
    ) -> Result<SqlKeeper<F>, KeepError>
        ensures ok { IfOk result (λ keeper. keeper ≡ 0) }
        ensures count { faults.new ≡ faults_after faults.old result }
        ensures later { faults.old ≤ faults.new }
    {
        let mut connection = connection;
        counted(make_tables(&mut connection), faults)?;
        Ok(SqlKeeper {
            connection,
            alloc,
            faults: 0,
        })
    }

    /// The keeper over what came of an opening, where its count goes on from this one. Refusals are counted in `faults`.
    pub(crate) fn adopt_from(
        alloc: Global,
        opened: Result<Connection<F>, Error>,
        count: u64,
        faults: &mut u64,
    ) -> Result<SqlKeeper<F>, KeepError>
        ensures ok { IfOk result (λ keeper. keeper ≡ count) }
        ensures count { faults.new ≡ faults_after faults.old result }
    {
        let connection = counted(opened, faults)?;
        let mut keeper = SqlKeeper::adopt(alloc, connection, faults)?;
        keeper.faults = count;
        Ok(keeper)
    }
}

impl<F: Alter> SqlKeeper<F> {
    ghost use Rattle.std.specs.Prelude.{◌≡◌, ◌≤◌};
    ghost use Rattle.gj_base.specs.Causes.{faults_after};

    /// The connection, for a caller that goes on without a keeper, and the count of the keeper's faults.
    pub fn release(self) -> (Connection<F>, u64)
        ensures { result.1 ≡ self }
    {
        let SqlKeeper {
            connection,
            alloc: _,
            faults,
        } = self;
        (connection, faults)
    }

    /// Makes the call, and counts a refusal, unless it is for want of memory.
    pub(crate) fn run<C: Call>(&mut self, call: C) -> Result<C::Answer, KeepError>
        ensures count { self.new ≡ faults_after self.old result }
        ensures later { self.old ≤ self.new }
    {
        counted(call.run(&mut self.connection), &mut self.faults)
    }
}

impl<F: Alter> Keeper for SqlKeeper<F> {
    ghost use Rattle.std.specs.Prelude.{false, None, [], refl};

    ghost kept = { λ _. record { bare = false; tells = false; conf = None; rows = [] } };

    ghost untold = { λ _ _. refl };

    ghost faults = { λ keeper. keeper };

    ghost steady = { λ _. false };

    fn conf(&mut self) -> Result<Option<KeptConf>, KeepError> {
        self.run(ReadConf)
    }

    fn set_conf(&mut self, conf: KeptConf) -> Result<(), KeepError> {
        self.run(WriteConf { conf })
    }

    fn rows(&mut self, alloc: Global) -> Result<Vec<KeptItem>, KeepError> {
        self.run(ReadRows { alloc })
    }

    fn append(&mut self, from: u64, items: &[Item]) -> Result<(), KeepError> {
        self.run(AppendRows { from, items })
    }

    fn trim(&mut self, below: u64) -> Result<(), KeepError> {
        self.run(DropBelow { below })
    }

    fn migrate(&mut self) -> Result<(), KeepError> {
        self.run(Migrate { alloc: self.alloc })
    }
}

impl<D: Disk + Drop> SqlKeeper<FileStore<D>> {
    ghost use Rattle.std.specs.Prelude.{◌≡◌, ◌≤◌, IfOk};
    ghost use Rattle.gj_base.specs.Causes.{faults_after};

    /// As `adopt_from`. A caller that knows the disks comes through here.
    pub(crate) fn adopt_files(
        alloc: Global,
        opened: Result<Connection<FileStore<D>>, Error>,
        count: u64,
        faults: &mut u64,
    ) -> Result<SqlKeeper<FileStore<D>>, KeepError>
        ensures ok { IfOk result (λ keeper. keeper ≡ count) }
        ensures count { faults.new ≡ faults_after faults.old result }
    {
        SqlKeeper::adopt_from(alloc, opened, count, faults)
    }

    /// As `run`. A caller that knows the disks comes through here.
    pub(crate) fn run_files<C: Call>(&mut self, call: C) -> Result<C::Answer, KeepError>
        ensures count { self.new ≡ faults_after self.old result }
        ensures later { self.old ≤ self.new }
    {
        self.run(call)
    }

    /// Drops it. A caller that knows the disks comes through here.
    pub(crate) fn let_go(self) {
        drop(self);
    }

    /// Copies the log beside the file into it, closes both, and gives the count. Where the copy fails, all is in the log.
    pub(crate) fn close(self) -> u64
        ensures { result ≡ self }
    {
        let SqlKeeper {
            connection,
            alloc: _,
            faults,
        } = self;
        let _ = connection.close();
        faults
    }
}
