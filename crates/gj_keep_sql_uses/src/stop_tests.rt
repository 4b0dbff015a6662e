//! A store over disks in memory, stopped at each call of a disk in turn.
use gj_base::{Item, KeepError, Keeper, KeptConf, KeptItem, Kind};
use gj_keep_sql::{SqlKeeper, make_tables};
use sqlite::{Alter, Connection, Error, FileStore, Files, Options};
use sqlite_disk::{Crash, Disk, Fuse, Memory};
use std::alloc::Global;
use std::process::Abort;
use std::test::Fail;

const CONF: KeptConf = KeptConf {
    version: 2,
    capacity: 16,
    segments: 1,
};

type Disks = Files<Fuse<Memory>>;

/// What came of a run over disks that stop: the last length that was answered, whether nothing stopped it, and the disks.
#[derive(Drop)]
struct Run<D: Disk> {
    length: u64,
    whole: bool,
    disks: Files<D>,
}

fn connect<D: Disk + Drop>(
    alloc: Global,
    disks: Files<D>,
) -> Result<Connection<FileStore<D>>, Files<D>> {
    if !disks.may_be_used() {
        return Err(disks);
    }
    let mut options = Options::new(1);
    options.cache_pages = 20;
    match Connection::open_files(alloc, disks, options) {
        Ok(connection) => Ok(connection),
        Err((_, left)) => Err(left.into_files()),
    }
}

fn give_back<D: Disk + Drop>(connection: Connection<FileStore<D>>) -> Files<D> {
    connection.into_store().close()
}

/// The keeper over the connection, or the connection where its disks stopped before. Over a store that has its tables,
/// `adopt` calls no disk.
fn keeper_on<F: Alter + Drop>(
    alloc: Global,
    mut connection: Connection<F>,
) -> Result<Result<SqlKeeper<F>, Connection<F>>, KeepError> {
    if make_tables(&mut connection).is_err() {
        return Ok(Err(connection));
    }
    let mut faults = 0;
    Ok(Ok(SqlKeeper::adopt(alloc, connection, &mut faults)?))
}

/// What is done over the disks.
#[derive(Clone, Copy)]
enum Work {
    /// Five posts of 8 items at capacity 16 and 1 segment. The fourth drops the first segment.
    Posts,
    /// The migration of a store with 16 rows.
    Migration,
}

/// The row of the place, whose moment is so many times that.
fn row_at(place: u64, pace: u64) -> KeptItem {
    KeptItem {
        place,
        user: place % 3,
        post: place.wrapping_mul(2),
        kind: place % 5,
        moment: place.wrapping_mul(pace),
    }
}

fn item_at(rt: &impl Abort, place: u64) -> Item {
    let row = row_at(place, 1000);
    let kind = Kind::from_number(row.kind).expect(rt, "there are five");
    Item::make(row.user, row.post, kind, row.moment).expect(rt, "all are in range")
}

fn post_eight<F: Alter>(
    rt: &impl Abort,
    alloc: Global,
    keeper: &mut SqlKeeper<F>,
    from: u64,
) -> Result<bool, Fail> {
    let mut items = Vec::new(alloc);
    for i in 0..8 {
        items.push(item_at(rt, from.wrapping_add(i)))?;
    }
    assert!(rt; items.len() == 8 && from < 100);
    Ok(keeper.append(from, &items).is_ok())
}

/// Answers the last length that was answered.
fn post_five<F: Alter>(
    rt: &impl Abort,
    alloc: Global,
    keeper: &mut SqlKeeper<F>,
) -> Result<u64, Fail> {
    if keeper.set_conf(CONF).is_err() {
        return Ok(0);
    }
    for from in [0, 8, 16, 24, 32] {
        if from == 24 && keeper.trim(16).is_err() {
            return Ok(from);
        }
        if !post_eight(rt, alloc, keeper, from)? {
            return Ok(from);
        }
    }
    Ok(40)
}

/// Answers the last length that was answered, and whether nothing stopped the work.
fn work_on<F: Alter>(
    rt: &impl Abort,
    alloc: Global,
    keeper: &mut SqlKeeper<F>,
    work: Work,
) -> Result<(u64, bool), Fail> {
    match work {
        Work::Posts => {
            let length = post_five(rt, alloc, keeper)?;
            Ok((length, length == 40))
        }
        Work::Migration => Ok((16, keeper.migrate().is_ok())),
    }
}

/// The same over a connection, which is given back.
fn work_through<F: Alter + Drop>(
    rt: &impl Abort,
    alloc: Global,
    connection: Connection<F>,
    work: Work,
) -> Result<(u64, bool, Connection<F>), Fail> {
    match keeper_on(alloc, connection)? {
        Ok(mut keeper) => {
            let (length, whole) = work_on(rt, alloc, &mut keeper, work)?;
            let (connection, _) = keeper.release();
            Ok((length, whole, connection))
        }
        Err(connection) => Ok((0, false, connection)),
    }
}

fn run_over<D: Disk + Drop>(
    rt: &impl Abort,
    alloc: Global,
    disks: Files<D>,
    work: Work,
) -> Result<Run<D>, Fail> {
    match connect(alloc, disks) {
        Ok(connection) => {
            let (length, whole, connection) = work_through(rt, alloc, connection, work)?;
            Ok(Run {
                length,
                whole,
                disks: give_back(connection),
            })
        }
        Err(disks) => Ok(Run {
            length: 0,
            whole: false,
            disks,
        }),
    }
}

/// A disk that holds the bytes and passes so many calls on.
fn disk_of(alloc: Global, bytes: &[u8], calls: u64) -> Result<Fuse<Memory>, Fail> {
    let mut disk = Memory::new(alloc);
    disk.write_at(0, bytes)?;
    disk.sync()?;
    Ok(Fuse::new(disk, calls))
}

fn no_store(alloc: Global) -> Result<Disks, Fail> {
    Ok(Files {
        log: disk_of(alloc, &[], u64::MAX)?,
        db: disk_of(alloc, &[], u64::MAX)?,
    })
}

/// Writes a store of the first version, as that wrote it.
fn write_first<F: Alter + Drop>(mut connection: Connection<F>) -> Result<Connection<F>, Error> {
    connection.execute_batch(
        "CREATE TABLE conf (one INTEGER PRIMARY KEY CHECK (one = 1), version INTEGER NOT NULL,
           capacity INTEGER NOT NULL, segments INTEGER NOT NULL) STRICT;
         CREATE TABLE kept (place INTEGER PRIMARY KEY, usr INTEGER NOT NULL, post INTEGER NOT NULL,
           kind INTEGER NOT NULL) STRICT;
         INSERT INTO conf (one, version, capacity, segments) VALUES (1, 1, 16, 1);
         INSERT INTO kept WITH RECURSIVE n (i) AS (SELECT 0 UNION ALL SELECT i + 1 FROM n)
           SELECT i, i % 3, i * 2, i % 5 FROM n LIMIT 16",
    )?;
    Ok(connection)
}

fn write_first_over<D: Disk + Drop>(alloc: Global, disks: Files<D>) -> Result<Files<D>, Fail> {
    let Ok(connection) = connect(alloc, disks) else {
        return Err("no file becomes a database".into());
    };
    Ok(give_back(write_first(connection)?))
}

fn first_store(alloc: Global) -> Result<Disks, Fail> {
    write_first_over(alloc, no_store(alloc)?)
}

/// Copies of the disks, of which the one with the log or the other stops after so many calls.
fn stopping(alloc: Global, disks: &Disks, log_stops: bool, calls: u64) -> Result<Disks, Fail> {
    let (log, db) = if log_stops {
        (calls, u64::MAX)
    } else {
        (u64::MAX, calls)
    };
    Ok(Files {
        log: disk_of(alloc, disks.log.inner().bytes(), log)?,
        db: disk_of(alloc, disks.db.inner().bytes(), db)?,
    })
}

/// The version and the rows that the keeper has, which it migrates.
fn migrated<F: Alter>(
    alloc: Global,
    keeper: &mut SqlKeeper<F>,
) -> Result<(u64, Vec<KeptItem>), KeepError> {
    let version = keeper.conf()?.map_or(0, |conf| conf.version);
    keeper.migrate()?;
    Ok((version, keeper.rows(alloc)?))
}

/// The version and the rows that a next run finds through the connection, which migrates them.
fn found_through<F: Alter + Drop>(
    alloc: Global,
    connection: Connection<F>,
) -> Result<(u64, Vec<KeptItem>), Fail> {
    let Ok(mut keeper) = keeper_on(alloc, connection)? else {
        return Err("what is left is a database".into());
    };
    Ok(migrated(alloc, &mut keeper)?)
}

fn found<D: Disk + Drop>(alloc: Global, disks: Files<D>) -> Result<(u64, Vec<KeptItem>), Fail> {
    let Ok(connection) = connect(alloc, disks) else {
        return Err("what is left is a database".into());
    };
    found_through(alloc, connection)
}

/// What is found after a kill, which leaves what was written, and after a loss of power, which leaves what was synced.
fn found_twice(alloc: Global, disks: Disks) -> Result<[(u64, Vec<KeptItem>); 2], Fail> {
    let killed = found(alloc, stopping(alloc, &disks, true, u64::MAX)?)?;
    let Files { mut log, mut db } = disks;
    log.crash();
    db.crash();
    Ok([killed, found(alloc, Files { log, db })?])
}

/// The rows follow each other from a segment's begin up to the length, and none of the window is missing.
fn reach(rows: &[KeptItem], length: u64, pace: u64) -> bool {
    let first = rows.first().map_or(0, |row| row.place);
    let mut next = first;
    for row in rows {
        if *row != row_at(next, pace) {
            return false;
        }
        next = next.wrapping_add(1);
    }
    next == length && first % 16 == 0 && first <= length.saturating_sub(1) / 16 * 16
}

/// All that was answered is there, and of the rest a whole post or nothing, or all rows under one version.
fn is_good(work: Work, length: u64, whole: bool, version: u64, rows: &[KeptItem]) -> bool {
    match work {
        Work::Posts => reach(rows, length, 1000) || reach(rows, length.wrapping_add(8), 1000),
        Work::Migration => (version == 2 || version == 1 && !whole) && reach(rows, 16, 0),
    }
}

/// Stops the work at each call of a disk in turn, until nothing stops it.
fn stop_each(
    rt: &impl Abort,
    alloc: Global,
    start: &Disks,
    work: Work,
    log_stops: bool,
) -> Result<(), Fail> {
    for calls in 0..10_000 {
        let Run {
            length,
            whole,
            disks,
        } = run_over(rt, alloc, stopping(alloc, start, log_stops, calls)?, work)?;
        for (version, rows) in found_twice(alloc, disks)? {
            assert!(rt;
                is_good(work, length, whole, version, &rows),
                "call {calls}, length {length}, version {version}"
            );
        }
        if whole {
            return Ok(());
        }
    }
    Err("the work ends".into())
}

#[test]
fn posts_that_are_stopped_leave_the_rows_that_were_answered(rt: HostRuntime) -> Result<(), Fail> {
    let start = no_store(rt.alloc())?;
    stop_each(&rt, rt.alloc(), &start, Work::Posts, true)?;
    stop_each(&rt, rt.alloc(), &start, Work::Posts, false)
}

#[test]
fn a_migration_that_is_stopped_leaves_one_version_with_all_rows(
    rt: HostRuntime,
) -> Result<(), Fail> {
    let start = first_store(rt.alloc())?;
    stop_each(&rt, rt.alloc(), &start, Work::Migration, true)?;
    stop_each(&rt, rt.alloc(), &start, Work::Migration, false)
}
