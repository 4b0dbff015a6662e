//! What is written to a store.
ghost use Rattle.std.specs.Prelude.{◌+◌, ◌^◌, ◌<◌, ◌≤◌, length};

use crate::answers::IN_TRANSACTION;
use crate::calls::Call;
use crate::numbers::signed;
use gj_base::{Item, KeptConf};
use sqlite::{Alter, Connection, Error, Statement, Transaction, params};

const SET_CONF: &str = "INSERT INTO conf (one, version, capacity, segments) VALUES (1, ?1, ?2, ?3)";

/// A row of the second version.
pub const INSERT: &str =
    "INSERT INTO kept2 (place, usr, post, kind, moment) VALUES (?1, ?2, ?3, ?4, ?5)";

const TRIM: &str = "DELETE FROM kept2 WHERE place < ?1";

/// Writes the configuration.
pub struct WriteConf {
    pub conf: KeptConf,
}

impl Call for WriteConf {
    type Answer = ();

    fn run<F: Alter>(self, connection: &mut Connection<F>) -> Result<(), Error> {
        let WriteConf { conf } = self;
        let version = signed(conf.version, 0)?;
        let capacity = signed(conf.capacity, 1)?;
        let segments = signed(conf.segments, 2)?;
        connection.execute(SET_CONF, params![version, capacity, segments])?;
        Ok(())
    }
}

/// Writes a row by `INSERT`, whose parameters are in its order.
pub fn insert_row<F: Alter>(
    batch: &mut Transaction<'_, F>,
    insert: &Statement,
    row: [i64; 5],
) -> Result<(), Error> {
    let [place, user, post, kind, moment] = row;
    batch.execute_prepared(insert, params![place, user, post, kind, moment])?;
    Ok(())
}

fn insert_item<F: Alter>(
    batch: &mut Transaction<'_, F>,
    insert: &Statement,
    place: u64,
    item: Item,
) -> Result<(), Error>
    requires { place < 2 ^ 48 }
{
    let (user, post, moment) = (item.user as i64, item.post as i64, item.at as i64);
    let kind = i64::from(item.kind.number());
    insert_row(batch, insert, [place as i64, user, post, kind, moment])
}

fn insert_items<F: Alter>(
    batch: &mut Transaction<'_, F>,
    insert: &Statement,
    from: u64,
    items: &[Item],
) -> Result<(), Error>
    requires { from + length items.now ≤ 2 ^ 48 }
{
    for i in 0..items.len() {
        insert_item(batch, insert, from + i as u64, items[i])?;
    }
    Ok(())
}

/// Writes the items at the places from `from` on, in one transaction.
pub struct AppendRows<'a> {
    pub from: u64,
    pub items: &'a [Item],
    ghost room: { from + length items.now ≤ 2 ^ 48 },
}

impl Call for AppendRows<'_> {
    type Answer = ();

    fn run<F: Alter>(self, connection: &mut Connection<F>) -> Result<(), Error> {
        let AppendRows { from, items } = self;
        if !connection.is_autocommit() {
            return Err(IN_TRANSACTION);
        }
        let mut batch = connection.transaction();
        let insert = batch.prepare(INSERT)?;
        insert_items(&mut batch, &insert, from, items)?;
        batch.commit()
    }
}

/// Drops the rows below the place.
pub struct DropBelow {
    pub below: u64,
}

impl Call for DropBelow {
    type Answer = ();

    fn run<F: Alter>(self, connection: &mut Connection<F>) -> Result<(), Error> {
        let DropBelow { below } = self;
        let below = signed(below, 0)?;
        connection.execute(TRIM, params![below])?;
        Ok(())
    }
}
