//! What a store holds, read.

use crate::calls::Call;
use crate::numbers::number_at;
use gj_base::{KeptConf, KeptItem};
use sqlite::{Alter, Connection, Error, Row, Rows};
use std::alloc::Global;

/// The configuration.
pub const CONF: &str = "SELECT version, capacity, segments FROM conf WHERE one = 1";

const ROWS: &str = "SELECT place, usr, post, kind, moment FROM kept2 ORDER BY place";

fn conf_of(row: &Row) -> Result<KeptConf, Error> {
    Ok(KeptConf {
        version: number_at(row, 0)?,
        capacity: number_at(row, 1)?,
        segments: number_at(row, 2)?,
    })
}

/// Reads the configuration, where one is kept.
pub struct ReadConf;

impl Call for ReadConf {
    type Answer = Option<KeptConf>;

    fn run<F: Alter>(self, connection: &mut Connection<F>) -> Result<Option<KeptConf>, Error> {
        let ReadConf = self;
        match connection.query_row(CONF, &[]) {
            Ok(row) => Ok(Some(conf_of(&row)?)),
            Err(Error::QueryReturnedNoRows) => Ok(None),
            Err(error) => Err(error),
        }
    }
}

fn kept_item(row: &Row) -> Result<KeptItem, Error> {
    Ok(KeptItem {
        place: number_at(row, 0)?,
        user: number_at(row, 1)?,
        post: number_at(row, 2)?,
        kind: number_at(row, 3)?,
        moment: number_at(row, 4)?,
    })
}

/// Adds the rows that are left, one at a time.
fn read_rows<F: Alter>(rows: &mut Rows<'_, F>, kept: &mut Vec<KeptItem>) -> Result<(), Error> {
    for _ in 0..u64::MAX {
        let Some(row) = rows.next()? else {
            break;
        };
        kept.push(kept_item(row)?)?;
    }
    Ok(())
}

/// Reads all rows of the second version, by their places.
pub struct ReadRows {
    pub alloc: Global,
}

impl Call for ReadRows {
    type Answer = Vec<KeptItem>;

    fn run<F: Alter>(self, connection: &mut Connection<F>) -> Result<Vec<KeptItem>, Error> {
        let ReadRows { alloc } = self;
        let mut kept = Vec::new(alloc);
        let mut rows = connection.query(ROWS, &[])?;
        read_rows(&mut rows, &mut kept)?;
        Ok(kept)
    }
}
