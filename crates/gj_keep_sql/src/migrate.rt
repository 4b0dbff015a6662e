//! A store of the first version, brought to the second.

use crate::answers::IN_TRANSACTION;
use crate::append::{INSERT, insert_row};
use crate::calls::Call;
use crate::numbers::{number_at, unsigned_at};
use crate::reading::CONF;
use gj_base::FIRST_VERSION;
use sqlite::{Alter, Connection, Error, Row, Rows, Statement, Transaction};
use std::alloc::Global;

const FIRST_ROWS: &str = "SELECT place, usr, post, kind FROM kept ORDER BY place";

const EMPTY: &str = "DELETE FROM kept";

const SECOND_VERSION: &str = "UPDATE conf SET version = 2 WHERE one = 1";

/// A row of the first version.
#[derive(Clone, Copy)]
struct FirstRow {
    place: i64,
    user: i64,
    post: i64,
    kind: i64,
}

fn first_row(row: &Row) -> Result<FirstRow, Error> {
    Ok(FirstRow {
        place: unsigned_at(row, 0)?,
        user: unsigned_at(row, 1)?,
        post: unsigned_at(row, 2)?,
        kind: unsigned_at(row, 3)?,
    })
}

fn is_first(row: &Row) -> Result<bool, Error> {
    Ok(number_at(row, 0)? == FIRST_VERSION)
}

fn is_first_version<F: Alter>(store: &mut Transaction<'_, F>) -> Result<bool, Error> {
    match store.query_row(CONF, &[]) {
        Ok(row) => is_first(&row),
        Err(Error::QueryReturnedNoRows) => Ok(false),
        Err(error) => Err(error),
    }
}

/// Adds the rows that are left, one at a time.
fn read_first<F: Alter>(rows: &mut Rows<'_, F>, kept: &mut Vec<FirstRow>) -> Result<(), Error> {
    for _ in 0..u64::MAX {
        let Some(row) = rows.next()? else {
            break;
        };
        kept.push(first_row(row)?)?;
    }
    Ok(())
}

fn first_rows<F: Alter>(
    store: &mut Transaction<'_, F>,
    alloc: Global,
) -> Result<Vec<FirstRow>, Error> {
    let mut kept = Vec::new(alloc);
    let mut rows = store.query(FIRST_ROWS, &[])?;
    read_first(&mut rows, &mut kept)?;
    Ok(kept)
}

fn insert_first<F: Alter>(
    store: &mut Transaction<'_, F>,
    insert: &Statement,
    rows: &[FirstRow],
) -> Result<(), Error> {
    for row in rows {
        insert_row(store, insert, [row.place, row.user, row.post, row.kind, 0])?;
    }
    Ok(())
}

/// Writes the rows under the second version, with the moment 0.
fn write_rows<F: Alter>(store: &mut Transaction<'_, F>, rows: &[FirstRow]) -> Result<(), Error> {
    let insert = store.prepare(INSERT)?;
    insert_first(store, &insert, rows)
}

fn move_rows<F: Alter>(store: &mut Transaction<'_, F>, alloc: Global) -> Result<(), Error> {
    let rows = first_rows(store, alloc)?;
    write_rows(store, &rows)
}

fn bring_to_second<F: Alter>(store: &mut Transaction<'_, F>, alloc: Global) -> Result<(), Error> {
    move_rows(store, alloc)?;
    store.execute(EMPTY, &[])?;
    store.execute(SECOND_VERSION, &[])?;
    Ok(())
}

/// Where the version is the first, writes its rows under the second, in one transaction. A row with a negative number
/// is refused.
pub struct Migrate {
    pub alloc: Global,
}

impl Call for Migrate {
    type Answer = ();

    fn run<F: Alter>(self, connection: &mut Connection<F>) -> Result<(), Error> {
        let Migrate { alloc } = self;
        if !connection.is_autocommit() {
            return Err(IN_TRANSACTION);
        }
        let mut store = connection.transaction();
        if !is_first_version(&mut store)? {
            return Ok(());
        }
        bring_to_second(&mut store, alloc)?;
        store.commit()
    }
}
