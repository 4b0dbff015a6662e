//! The tables of a store, each made where it isn't there.
ghost use Rattle.std.specs.Prelude.{◌≡◌, IsTrue};
ghost use Rattle.sqlite.specs.Held.{state};

use crate::answers::IN_TRANSACTION;
use sqlite::{Alter, Connection, Error, ErrorCode, Transaction, params};

/// The version of the layout and the configuration, in one row.
const CONF: &str =
    "CREATE TABLE conf (one INTEGER PRIMARY KEY CHECK (one = 1), version INTEGER NOT NULL, capacity INTEGER NOT NULL, segments INTEGER NOT NULL) STRICT";

/// The rows of the first version. A later one leaves it empty.
const KEPT: &str =
    "CREATE TABLE kept (place INTEGER PRIMARY KEY, usr INTEGER NOT NULL, post INTEGER NOT NULL, kind INTEGER NOT NULL) STRICT";

/// The rows of the second version.
const KEPT2: &str =
    "CREATE TABLE kept2 (place INTEGER PRIMARY KEY, usr INTEGER NOT NULL, post INTEGER NOT NULL, kind INTEGER NOT NULL, moment INTEGER NOT NULL) STRICT";

const IS_THERE: &str = "SELECT count(*) FROM sqlite_schema WHERE type = 'table' AND name = ?1";

fn count_of<F: Alter>(store: &mut Transaction<'_, F>, name: &str) -> Result<i64, Error> {
    store.query_row(IS_THERE, params![name])?.get(0)
}

fn make_table<F: Alter>(
    store: &mut Transaction<'_, F>,
    name: &str,
    statement: &str,
) -> Result<(), Error> {
    if count_of(store, name)? == 0 {
        store.execute(statement, &[])?;
    }
    Ok(())
}

fn make_each<F: Alter>(store: &mut Transaction<'_, F>) -> Result<(), Error> {
    make_table(store, "conf", CONF)?;
    make_table(store, "kept", KEPT)?;
    make_table(store, "kept2", KEPT2)
}

/// Makes the three tables of a store where they aren't there, in one transaction. Over a store that has them it writes
/// nothing. It takes memory.
pub fn make_tables<F: Alter>(connection: &mut Connection<F>) -> Result<(), Error>
    ensures refused { IsTrue (state F.Store connection.old).in_transaction → (result ≡ Err (Error.SqliteFailure ErrorCode.TransactionState)) × (connection.new ≡ connection.old) }
{
    if !connection.is_autocommit() {
        return Err(IN_TRANSACTION);
    }
    let mut store = connection.transaction();
    make_each(&mut store)?;
    store.commit()
}
