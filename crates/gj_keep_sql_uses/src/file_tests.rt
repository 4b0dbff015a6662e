//! A store in a file, and one in memory.
//!
//! What is done to a keeper is done through a borrow, over a store of any type, and of files over any disks: at their own
//! types a step is dear to prove.

use gj_base::{Item, KeepError, Keeper, Keepers, KeptConf, KeptItem, Kind, MAX_ID};
use gj_keep_sql::{FileKeeper, SqlKeeper, SqlKeepers};
use sqlite::{Alter, Connection, Error, FileStore};
use sqlite_disk::Disk;
use std::alloc::Global;
use std::process::{self, Abort};
use std::test::Fail;
use std::{env, fs};

const CONF: KeptConf = KeptConf {
    version: 2,
    capacity: 16,
    segments: 2,
};

/// A new folder of the test's own.
fn folder(rt: &HostRuntime, test: &str) -> Result<String, Fail> {
    let id = process::id(rt.process());
    let root = env::temp_dir(rt)?;
    let path = format!(in rt.alloc(); "{}/gj_keep_sql_{test}_{id}", root.as_str())?;
    if fs::exists(rt, path.as_str())? {
        fs::remove_dir_all(rt, path.as_str())?;
    }
    fs::create_dir_all(rt, path.as_str())?;
    Ok(path)
}

fn run_all<F: Alter>(connection: &mut Connection<F>, text: &str) -> Result<(), Error> {
    connection.execute_batch(text)
}

fn number<F: Alter>(connection: &mut Connection<F>, query: &str) -> Result<i64, Error> {
    connection.query_row(query, &[])?.get(0)
}

/// Keeps one interaction at the place.
fn keep(
    keeper: &mut FileKeeper,
    rt: &impl Abort,
    place: u64,
    user: u64,
    kind: Kind,
    at: u64,
) -> Result<(), KeepError> {
    let item = Item::make(user, 10, kind, at).expect(rt, "all are in range");
    assert!(rt; place < 100);
    keeper.append(place, &[item])
}

fn row(place: u64, user: u64, kind: u64, moment: u64) -> KeptItem {
    KeptItem {
        place,
        user,
        post: 10,
        kind,
        moment,
    }
}

/// Keeps the configuration and three posts, where nothing is kept.
fn keep_three(rt: &impl Abort, keeper: &mut FileKeeper) -> Result<(), KeepError> {
    assert_eq!(rt; keeper.conf()?, None);
    keeper.set_conf(CONF)?;
    keep(keeper, rt, 0, 1, Kind::Click, 100)?;
    keep(keeper, rt, 1, 0, Kind::Tweet, 0)?;
    keep(keeper, rt, 2, MAX_ID, Kind::Favorite, MAX_ID)
}

fn find_three(rt: &impl Abort, alloc: Global, keeper: &mut FileKeeper) -> Result<(), KeepError> {
    assert_eq!(rt; keeper.conf()?, Some(CONF));
    let rows = keeper.rows(alloc)?;
    let kept = [
        row(0, 1, 0, 100),
        row(1, 0, 4, 0),
        row(2, MAX_ID, 1, MAX_ID),
    ];
    assert_eq!(rt; rows.as_slice(), kept.as_slice());
    Ok(())
}

#[test]
fn three_posts_are_found_again_with_their_moments(rt: HostRuntime) -> Result<(), Fail> {
    let alloc = rt.alloc();
    let path = folder(&rt, "three")?;
    let store = format!(in alloc; "{path}/store")?;
    let mut stores = SqlKeepers::new(&rt);
    let mut keeper = stores.keeper_at(alloc, store.as_str())?;
    let kept = keep_three(&rt, &mut keeper);
    stores.take_back(keeper);
    kept?;

    let mut again = stores.keeper_at(alloc, store.as_str())?;
    let found = find_three(&rt, alloc, &mut again);
    stores.take_back(again);
    found?;
    fs::remove_dir_all(&rt, path.as_str())?;
    Ok(())
}

/// A store of the first version, as that wrote it.
fn write_first_version<F: Alter>(connection: &mut Connection<F>) -> Result<(), Error> {
    run_all(
        connection,
        "CREATE TABLE conf (one INTEGER PRIMARY KEY CHECK (one = 1), version INTEGER NOT NULL,
           capacity INTEGER NOT NULL, segments INTEGER NOT NULL) STRICT;
         CREATE TABLE kept (place INTEGER PRIMARY KEY, usr INTEGER NOT NULL, post INTEGER NOT NULL,
           kind INTEGER NOT NULL) STRICT;
         INSERT INTO conf (one, version, capacity, segments) VALUES (1, 1, 16, 2);
         INSERT INTO kept (place, usr, post, kind) VALUES (16, 1, 10, 1), (17, 2, 10, 4), (18, 3, 10, 0)",
    )
}

fn write_first_on<F: Alter + Drop>(opened: Result<Connection<F>, Error>) -> Result<(), Error> {
    let mut connection = opened?;
    write_first_version(&mut connection)
}

fn write_first_over<D: Disk + Drop>(
    opened: Result<Connection<FileStore<D>>, Error>,
) -> Result<(), Error> {
    write_first_on(opened)
}

fn write_first_file(rt: &HostRuntime, path: &str) -> Result<(), Error> {
    write_first_over(Connection::open(rt, path))
}

fn first_rows_on<F: Alter + Drop>(opened: Result<Connection<F>, Error>) -> Result<i64, Error> {
    let mut connection = opened?;
    number(&mut connection, "SELECT count(*) FROM kept")
}

fn first_rows_over<D: Disk + Drop>(
    opened: Result<Connection<FileStore<D>>, Error>,
) -> Result<i64, Error> {
    first_rows_on(opened)
}

fn first_rows_in(rt: &HostRuntime, path: &str) -> Result<i64, Error> {
    first_rows_over(Connection::open(rt, path))
}

fn migrate(rt: &impl Abort, alloc: Global, keeper: &mut FileKeeper) -> Result<(), KeepError> {
    keeper.migrate()?;
    assert_eq!(rt; keeper.conf()?, Some(CONF));
    let rows = keeper.rows(alloc)?;
    let kept = [row(16, 1, 1, 0), row(17, 2, 4, 0), row(18, 3, 0, 0)];
    assert_eq!(rt; rows.as_slice(), kept.as_slice());
    Ok(())
}

fn migrate_twice(rt: &impl Abort, alloc: Global, keeper: &mut FileKeeper) -> Result<(), KeepError> {
    assert_eq!(rt; keeper.conf()?, Some(KeptConf { version: 1, ..CONF }));
    migrate(rt, alloc, keeper)?;
    migrate(rt, alloc, keeper)
}

#[test]
fn a_file_of_the_first_version_is_migrated(rt: HostRuntime) -> Result<(), Fail> {
    let alloc = rt.alloc();
    let path = folder(&rt, "first")?;
    let store = format!(in alloc; "{path}/store")?;
    write_first_file(&rt, store.as_str())?;
    let mut stores = SqlKeepers::new(&rt);
    let mut keeper = stores.keeper_at(alloc, store.as_str())?;
    let migrated = migrate_twice(&rt, alloc, &mut keeper);
    stores.take_back(keeper);
    migrated?;
    assert_eq!(rt; first_rows_in(&rt, store.as_str())?, 0);
    fs::remove_dir_all(&rt, path.as_str())?;
    Ok(())
}

/// Nothing is migrated where a user is negative.
fn fail_to_migrate<F: Alter>(
    rt: &impl Abort,
    alloc: Global,
    keeper: &mut SqlKeeper<F>,
) -> Result<(), KeepError> {
    assert_eq!(rt; keeper.migrate(), Err(KeepError::Failed));
    assert_eq!(rt; keeper.conf()?, Some(KeptConf { version: 1, ..CONF }));
    assert_eq!(rt; keeper.rows(alloc)?.len(), 0);
    Ok(())
}

fn write_negative<F: Alter>(rt: &impl Abort, connection: &mut Connection<F>) -> Result<(), Error> {
    assert_eq!(rt; number(connection, "SELECT count(*) FROM kept")?, 3);
    run_all(connection, "INSERT INTO kept2 VALUES (0, -1, 10, -9, 5)")
}

fn find_largest<F: Alter>(
    rt: &impl Abort,
    alloc: Global,
    keeper: &mut SqlKeeper<F>,
) -> Result<(), KeepError> {
    let rows = keeper.rows(alloc)?;
    assert_eq!(rt; rows.as_slice(), [row(0, u64::MAX, u64::MAX, 5)].as_slice());
    Ok(())
}

/// The connection is adopted, and released again.
fn migrate_negative<F: Alter + Drop>(
    rt: &impl Abort,
    alloc: Global,
    connection: Connection<F>,
) -> Result<Connection<F>, KeepError> {
    let mut faults = 0;
    let mut keeper = SqlKeeper::adopt(alloc, connection, &mut faults)?;
    assert_eq!(rt; faults, 0);
    fail_to_migrate(rt, alloc, &mut keeper)?;
    let (connection, _) = keeper.release();
    Ok(connection)
}

fn hand_on_negative<F: Alter + Drop>(
    rt: &impl Abort,
    alloc: Global,
    connection: Connection<F>,
) -> Result<(), KeepError> {
    let mut faults = 0;
    let mut keeper = SqlKeeper::adopt(alloc, connection, &mut faults)?;
    find_largest(rt, alloc, &mut keeper)
}

fn negative_over<F: Alter + Drop>(
    rt: &impl Abort,
    alloc: Global,
    mut connection: Connection<F>,
) -> Result<(), Fail> {
    write_first_version(&mut connection)?;
    run_all(&mut connection, "UPDATE kept SET usr = -1 WHERE place = 18")?;
    let mut connection = migrate_negative(rt, alloc, connection)?;
    write_negative(rt, &mut connection)?;
    hand_on_negative(rt, alloc, connection)?;
    Ok(())
}

#[test]
fn a_negative_number_is_handed_on_as_the_largest_and_stops_a_migration(
    rt: HostRuntime,
) -> Result<(), Fail> {
    let connection = Connection::open_in_memory(rt.alloc())?;
    negative_over(&rt, rt.alloc(), connection)
}

fn keep_four<F: Alter>(rt: &impl Abort, keeper: &mut SqlKeeper<F>) -> Result<(), KeepError> {
    let item = Item::make(1, 10, Kind::Click, 0).expect(rt, "all are in range");
    for place in 0..4 {
        keeper.append(place, &[item])?;
    }
    Ok(())
}

fn trim_four<F: Alter>(
    rt: &impl Abort,
    alloc: Global,
    keeper: &mut SqlKeeper<F>,
) -> Result<(), KeepError> {
    keep_four(rt, keeper)?;
    for (below, left) in [(0, 4), (3, 1), (2, 1), (MAX_ID, 0)] {
        keeper.trim(below)?;
        let rows = keeper.rows(alloc)?;
        assert_eq!(rt; rows.len(), left, "below {below}");
    }
    assert_eq!(rt; keeper.trim(MAX_ID + 1), Err(KeepError::Failed));
    Ok(())
}

fn trim_over<F: Alter + Drop>(
    rt: &impl Abort,
    alloc: Global,
    connection: Connection<F>,
) -> Result<(), KeepError> {
    let mut faults = 0;
    let mut keeper = SqlKeeper::adopt(alloc, connection, &mut faults)?;
    trim_four(rt, alloc, &mut keeper)
}

#[test]
fn a_trim_drops_what_is_below_it(rt: HostRuntime) -> Result<(), Fail> {
    let connection = Connection::open_in_memory(rt.alloc())?;
    trim_over(&rt, rt.alloc(), connection)?;
    Ok(())
}

/// Why the connection is refused once the text was run.
fn refusal_after<F: Alter + Drop>(
    alloc: Global,
    mut connection: Connection<F>,
    text: &str,
    faults: &mut u64,
) -> Result<Option<KeepError>, Error> {
    run_all(&mut connection, text)?;
    Ok(SqlKeeper::adopt(alloc, connection, faults).err())
}

/// A connection in a transaction, and one where a table's name is taken.
#[test]
fn what_adopt_refuses_is_counted(rt: HostRuntime) -> Result<(), Fail> {
    let mut faults = 7;
    for text in ["BEGIN", "CREATE VIEW kept2 AS SELECT 1"] {
        let connection = Connection::open_in_memory(rt.alloc())?;
        let refusal = refusal_after(rt.alloc(), connection, text, &mut faults)?;
        assert_eq!(rt; refusal, Some(KeepError::Failed), "{text}");
    }
    assert_eq!(rt; faults, 9);
    Ok(())
}

/// Why the store at the path is refused.
fn refusal_at(rt: &HostRuntime, path: &str) -> Option<KeepError> {
    SqlKeepers::new(rt).keeper_at(rt.alloc(), path).err()
}

#[test]
fn what_is_no_store_is_a_fault_and_so_is_one_that_is_in_use(rt: HostRuntime) -> Result<(), Fail> {
    let alloc = rt.alloc();
    let path = folder(&rt, "refused")?;
    let text = format!(in alloc; "{path}/text")?;
    fs::write(
        &rt,
        text.as_str(),
        "no database, and long enough to have a header of one hundred bytes; so it goes on and on and on and on",
    )?;
    let missing = format!(in alloc; "{path}/missing/store")?;
    let used = format!(in alloc; "{path}/used")?;
    let mut user = SqlKeepers::new(&rt);
    let keeper = user.keeper_at(alloc, used.as_str())?;
    for path in [
        path.as_str(),
        text.as_str(),
        missing.as_str(),
        used.as_str(),
        "",
        ":memory:",
    ] {
        assert_eq!(rt; refusal_at(&rt, path), Some(KeepError::Failed), "{path}");
    }
    user.take_back(keeper);
    let keeper = user.keeper_at(alloc, used.as_str())?;
    user.take_back(keeper);
    fs::remove_dir_all(&rt, path.as_str())?;
    Ok(())
}
