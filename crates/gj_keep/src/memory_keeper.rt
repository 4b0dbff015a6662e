//! A keeper that keeps its rows in memory.
ghost use Rattle.std.specs.Prelude.{◌≡◌, ◌≤◌, ◌+◌, ◌∷◌, [], ◌++◌, ◌^◌, length, map, filter, nat_le, IfOk, OnOk, OnErr, IsErrOf};
ghost use Rattle.gj_base.specs.declared.keeper.KeepError.TheVariants.{Failed};
ghost use Rattle.gj_base.specs.Kept.{placed, row_of, without_moment};

use gj_base::{Calls, Item, KeepError, Keeper, KeptConf, KeptItem, STORE_VERSION};
use std::alloc::Global;

/// A keeper that tells all that it keeps. It fails the calls whose numbers, from 1, are in the list `fails`, and such a
/// call changes nothing.
#[derive(Debug, Drop)]
pub struct MemoryKeeper {
    conf: Option<KeptConf>,
    rows: Vec<KeptItem>,
    calls: Calls,
    pub(crate) faults: u64,
}

impl MemoryKeeper {
    ghost use Rattle.std.specs.Prelude.{◌≡◌, None, [], true, false, IsErrOf};
    ghost use Rattle.gj_base.specs.declared.keeper.KeepError.TheVariants.{Memory};
    ghost use Rattle.gj_keep.specs.MemoryStores.{kept_by, faults_by, calls_by, IsCall, IsSteady};

    /// A keeper that keeps nothing yet. It takes no memory.
    pub fn new(alloc: Global, fails: Vec<u64>) -> Self
        ensures kept { kept_by result ≡ record { bare = false; tells = true; conf = None; rows = [] } }
        ensures faults { faults_by result ≡ 0 }
        ensures calls { calls_by result ≡ record { made = 0; fails = fails.items; faults = 0 } }
        ensures steady { fails.items ≡ [] → IsSteady result }
    {
        MemoryKeeper::of(None, Vec::new(alloc), fails)
    }

    /// A keeper that keeps these, whatever they are. It takes no memory.
    pub fn of(conf: Option<KeptConf>, rows: Vec<KeptItem>, fails: Vec<u64>) -> Self
        ensures kept { kept_by result ≡ record { bare = false; tells = true; conf = conf; rows = rows.items } }
        ensures faults { faults_by result ≡ 0 }
        ensures calls { calls_by result ≡ record { made = 0; fails = fails.items; faults = 0 } }
        ensures steady { fails.items ≡ [] → IsSteady result }
    {
        MemoryKeeper {
            conf,
            rows,
            calls: Calls::new(fails),
            faults: 0,
        }
    }

    /// Counts a call, which may be one that fails.
    fn call(&mut self) -> Result<(), KeepError>
        ensures call { IsCall self.old self.new result }
        ensures only { IsErrOf result Memory → ⊥ }
        ensures same { kept_by self.new ≡ kept_by self.old }
    {
        match self.calls.count() {
            Ok(()) => Ok(()),
            Err(_) => {
                self.faults = self.faults.saturating_add(1);
                Err(KeepError::Failed)
            }
        }
    }
}

/// Gives each row the moment 0.
fn forget_moments(rows: &mut [KeptItem])
    ensures { rows.new ≡ map without_moment rows.old }
{
    for row in rows.iter_mut() {
        row.moment = 0;
    }
}

/// The row of an interaction at a place.
fn row_at(place: u64, item: &Item) -> KeptItem
    ensures { result ≡ row_of place item.now }
{
    KeptItem {
        place,
        user: item.user,
        post: item.post,
        kind: u64::from(item.kind.number()),
        moment: item.at,
    }
}

/// Puts the row behind the others, or changes nothing.
fn push_row(rows: &mut Vec<KeptItem>, row: KeptItem) -> Result<(), KeepError>
    ensures ok { OnOk result (rows.new.items ≡ rows.old.items ++ row ∷ []) }
    ensures err { OnErr result (rows.new.items ≡ rows.old.items) }
    ensures only { IsErrOf result Failed → ⊥ }
{
    match rows.push(row) {
        Ok(()) => Ok(()),
        Err(_) => Err(KeepError::Memory),
    }
}

/// Puts the rows of the items behind the others, or changes nothing.
fn push_rows(rows: &mut Vec<KeptItem>, from: u64, items: &[Item]) -> Result<(), KeepError>
    requires room { from + length items.now ≤ 2 ^ 48 }
    ensures ok { OnOk result (rows.new.items ≡ rows.old.items ++ placed from items.now) }
    ensures err { OnErr result (rows.new.items ≡ rows.old.items) }
    ensures only { IsErrOf result Failed → ⊥ }
{
    let before = rows.len();
    for (i, item) in items.iter().enumerate() {
        if let Err(why) = push_row(rows, row_at(from + i as u64, item)) {
            rows.truncate(before);
            return Err(why);
        }
    }
    Ok(())
}

/// Drops the rows below the place.
fn drop_below(rows: &mut Vec<KeptItem>, below: u64)
    ensures { rows.new.items ≡ filter (λ row. nat_le below row.place) rows.old.items }
{
    rows.retain(|row| below <= row.place);
}

/// A copy of the rows.
fn copy_of(alloc: Global, rows: &[KeptItem]) -> Result<Vec<KeptItem>, KeepError>
    ensures ok { IfOk result (λ copy. copy.items ≡ rows.now) }
    ensures only { IsErrOf result Failed → ⊥ }
{
    let mut copy = Vec::new(alloc);
    match copy.extend_from_slice(rows) {
        Ok(()) => Ok(copy),
        Err(_) => Err(KeepError::Memory),
    }
}

impl Keeper for MemoryKeeper {
    ghost use Rattle.std.specs.Prelude.{◌≡◌, ◌≤◌, ◌+◌, ◌++◌, ◌^◌, length, filter, nat_le, IfOk, OnOk, OnErr, IsErrOf};
    ghost use Rattle.std.proofs.lemmas.Bool.{false≢true};
    ghost use Rattle.gj_base.specs.declared.keeper.KeepError.TheVariants.{Memory};
    ghost use Rattle.gj_base.specs.Kept.{with_rows, with_conf, migrated, placed, next_place};
    ghost use Rattle.gj_keep.specs.MemoryStores.{kept_by, faults_by, steady_by, IsCall};

    ghost kept = { kept_by };

    ghost untold = { λ k bare. absurd (false≢true bare) };

    ghost faults = { faults_by };

    ghost steady = { steady_by };

    fn conf(&mut self) -> Result<Option<KeptConf>, KeepError>
        ensures same { kept_by self.new ≡ kept_by self.old }
        ensures told { IfOk result (λ c. c ≡ (kept_by self.old).conf) }
        ensures call { IsCall self.old self.new result }
        ensures only { IsErrOf result Memory → ⊥ }
    {
        self.call()?;
        Ok(self.conf)
    }

    fn set_conf(&mut self, conf: KeptConf) -> Result<(), KeepError>
        ensures ok { OnOk result (kept_by self.new ≡ with_conf (kept_by self.old) conf) }
        ensures err { OnErr result (kept_by self.new ≡ kept_by self.old) }
        ensures call { IsCall self.old self.new result }
        ensures only { IsErrOf result Memory → ⊥ }
    {
        self.call()?;
        self.conf = Some(conf);
        Ok(())
    }

    fn rows(&mut self, alloc: Global) -> Result<Vec<KeptItem>, KeepError>
        ensures same { kept_by self.new ≡ kept_by self.old }
        ensures told { IfOk result (λ rows. rows.items ≡ (kept_by self.old).rows) }
        ensures call { IsCall self.old self.new result }
    {
        self.call()?;
        copy_of(alloc, &self.rows)
    }

    fn append(&mut self, from: u64, items: &[Item]) -> Result<(), KeepError>
        requires room { from + length items.now ≤ 2 ^ 48 }
        ensures ok { OnOk result (kept_by self.new ≡ with_rows (kept_by self.old) ((kept_by self.old).rows ++ placed from items.now)) }
        ensures err { OnErr result (kept_by self.new ≡ kept_by self.old) }
        ensures call { IsCall self.old self.new result }
    {
        self.call()?;
        push_rows(&mut self.rows, from, items)
    }

    fn trim(&mut self, below: u64) -> Result<(), KeepError>
        ensures ok { OnOk result (kept_by self.new ≡ with_rows (kept_by self.old) (filter (λ row. nat_le below row.place) (kept_by self.old).rows)) }
        ensures err { OnErr result (kept_by self.new ≡ kept_by self.old) }
        ensures call { IsCall self.old self.new result }
        ensures only { IsErrOf result Memory → ⊥ }
    {
        self.call()?;
        drop_below(&mut self.rows, below);
        Ok(())
    }

    fn migrate(&mut self) -> Result<(), KeepError>
        ensures ok { OnOk result (kept_by self.new ≡ migrated (kept_by self.old)) }
        ensures err { OnErr result (kept_by self.new ≡ kept_by self.old) }
        ensures call { IsCall self.old self.new result }
        ensures only { IsErrOf result Memory → ⊥ }
    {
        self.call()?;
        if let Some(conf) = self.conf {
            if conf.version == 1 {
                self.conf = Some(KeptConf {
                    version: STORE_VERSION,
                    ..conf
                });
                forget_moments(&mut self.rows);
            }
        }
        Ok(())
    }
}
