ghost use Rattle.std.specs.Prelude.{◌+◌, ◌^◌, ◌<◌, IfOk, IsTrue};
ghost use Rattle.gj_base.specs.declared.history.History.{History};
ghost use Rattle.gj_keep.specs.Locals.{LocalKeeps};
ghost use Rattle.gj_keep.specs.MemoryHomes.{is_home};

use gj_base::{
    Conf, Graph, Grow, HISTORY_END, Index, IndexError, Item, KeepError, Keeper, Keepers, KeptConf,
    KeptItem, Kind, ListGraph, MAX_ID, Receipt, Side,
};
use gj_keep::{Book, Local, MemoryKeeper, MemoryKeepers, NoKeepers, OpenError, OpenRefused};
use std::alloc::{AllocError, Global};
use std::process::Abort;
use std::test::Fail;

type Rows = Local<MemoryKeeper, ListGraph>;

fn item(rt: &impl Abort, user: u64) -> Item {
    Item::make(user, 10, Kind::Favorite, 5).expect(rt, "all are identifiers")
}

fn row(place: u64) -> KeptItem {
    KeptItem {
        place,
        user: 1,
        post: 10,
        kind: 1,
        moment: 5,
    }
}

/// So many rows from a place on.
fn rows_at(alloc: Global, first: u64, count: u64) -> Result<Vec<KeptItem>, AllocError>
    requires { first + count < 2 ^ 64 }
{
    let mut rows = Vec::new(alloc);
    for i in 0..count {
        rows.push(row(first + i))?;
    }
    Ok(rows)
}

fn kept(version: u64, capacity: u64, segments: u64) -> Option<KeptConf> {
    Some(KeptConf {
        version,
        capacity,
        segments,
    })
}

/// The index over the keeper, under 16 interactions a segment.
fn open(
    rt: &impl Abort,
    alloc: Global,
    segments: u32,
    keeper: MemoryKeeper,
) -> Result<Rows, OpenRefused<MemoryKeeper>> {
    let conf = Conf::make(16, segments).expect(rt, "both are in range");
    Local::open_local(alloc, conf, keeper)
}

fn index_of(rt: &impl Abort, alloc: Global, segments: u32, keeper: MemoryKeeper) -> Rows {
    match open(rt, alloc, segments, keeper) {
        Ok(index) => index,
        Err(refused) => panic!(rt; "{:?}", refused.why),
    }
}

/// Opens the index again: it keeps each history that it kept, whatever its last post answered.
fn again<K: Keeper, W: Grow + Drop>(
    alloc: Global,
    index: Local<K, W>,
) -> Result<Local<K, W>, OpenRefused<K>>
    ensures { (h : History) → IsTrue index.book.kept.tells → LocalKeeps (W.shown index.graph) index.book h
        → IfOk result (λ l. LocalKeeps (W.shown l.graph) l.book h) }
{
    let conf = index.view().conf();
    Local::open_local(alloc, conf, index.into_keeper())
}

fn refused(
    rt: &impl Abort,
    alloc: Global,
    segments: u32,
    keeper: MemoryKeeper,
) -> (OpenError, MemoryKeeper) {
    match open(rt, alloc, segments, keeper) {
        Ok(_) => panic!(rt; "it was opened"),
        Err(refused) => (refused.why, refused.keeper),
    }
}

#[test]
fn a_batch_that_passes_the_last_place_is_full(rt: HostRuntime) -> Result<(), Fail> {
    let alloc = rt.alloc();
    let end = HISTORY_END;
    let rows = rows_at(alloc, end - 32, 31)?;
    let keeper = MemoryKeeper::of(kept(2, 16, 2), rows, Vec::new(alloc));
    let mut index = index_of(&rt, alloc, 2, keeper);
    let x = item(&rt, 1);
    assert_eq!(rt;
        index.post_items(&[x, x]),
        Err(IndexError::Full { length: end - 1 })
    );
    assert_eq!(rt;
        index.post_items(&[x]),
        Ok(Receipt {
            from: end - 1,
            to: end
        })
    );
    assert_eq!(rt;
        index.post_items(&[x]),
        Err(IndexError::Full { length: end })
    );
    Ok(())
}

#[test]
fn a_post_that_is_not_kept_takes_no_place(rt: HostRuntime) -> Result<(), Fail> {
    let alloc = rt.alloc();
    let mut index = index_of(&rt, alloc, 1, MemoryKeeper::new(alloc, vec![in alloc; 5]?));
    assert_eq!(rt;
        index.post_items(&[item(&rt, 1)]),
        Ok(Receipt { from: 0, to: 1 })
    );
    assert_eq!(rt; index.post_items(&[item(&rt, 2)]), Err(IndexError::Store));
    assert_eq!(rt;
        index.post_items(&[item(&rt, 3)]),
        Ok(Receipt { from: 1, to: 2 })
    );
    let Ok(again) = again(alloc, index) else {
        panic!(rt; "it was refused");
    };
    assert_eq!(rt; again.view().length(), 2);
    for (user, count) in [(1, 1), (2, 0), (3, 1)] {
        assert_eq!(rt;
            again.view().count(Side::User, user, gj_base::Mask::all()),
            count,
            "user {user}"
        );
    }
    Ok(())
}

/// Three calls open the store; the five posts append, but the fourth trims first.
#[test]
fn each_call_that_fails_costs_the_opening_or_one_post(rt: HostRuntime) -> Result<(), Fail> {
    let alloc = rt.alloc();
    let batch = [item(&rt, 1); 8];
    for fault in 1..11u64 {
        let keeper = MemoryKeeper::new(alloc, vec![in alloc; fault]?);
        let mut index = if fault < 4 {
            let (why, keeper) = refused(&rt, alloc, 1, keeper);
            assert_eq!(rt; why, OpenError::Store, "call {fault}");
            index_of(&rt, alloc, 1, keeper)
        } else {
            index_of(&rt, alloc, 1, keeper)
        };
        let mut posted = 0u64;
        for _ in 0..5 {
            match index.post_items(&batch) {
                Ok(_) => posted = posted.saturating_add(1),
                Err(why) => assert_eq!(rt; why, IndexError::Store, "call {fault}"),
            }
        }
        let all = fault < 4 || fault == 10;
        assert_eq!(rt; posted, if all { 5 } else { 4 }, "call {fault}");
        let mut keeper = index.into_keeper();
        if fault == 10 {
            assert_eq!(rt; keeper.conf(), Err(KeepError::Failed));
        }
        let again = index_of(&rt, alloc, 1, keeper);
        let shown = (again.view().base(), again.view().length());
        assert_eq!(rt;
            shown,
            if all { (32, 40) } else { (16, 32) },
            "call {fault}"
        );
    }
    Ok(())
}

/// The first bad row, under two segments of 16.
fn bad_row_of(rt: &impl Abort, alloc: Global, rows: Vec<KeptItem>) -> Option<u64> {
    match open(
        rt,
        alloc,
        2,
        MemoryKeeper::of(kept(2, 16, 2), rows, Vec::new(alloc)),
    ) {
        Ok(_) => None,
        Err(refused) => match refused.why {
            OpenError::KeptRow { row } => Some(row),
            _ => panic!(rt; "no row is bad"),
        },
    }
}

#[test]
fn rows_begin_at_an_aligned_place_that_the_window_has_left(rt: HostRuntime) -> Result<(), Fail> {
    let alloc = rt.alloc();
    let runs = [
        (0, 0, None),
        (0, 1, None),
        (16, 17, None),
        (16, 16, Some(0)),
        (8, 40, Some(0)),
        (HISTORY_END - 16, 20, Some(16)),
        (HISTORY_END, 17, Some(0)),
        (u64::MAX - 31, 17, Some(0)),
    ];
    for (first, count, bad) in runs {
        let rows = rows_at(alloc, first, count)?;
        assert_eq!(rt; bad_row_of(&rt, alloc, rows), bad, "from {first}");
    }
    Ok(())
}

#[test]
fn a_row_is_bad_out_of_its_place_or_range(rt: HostRuntime) -> Result<(), Fail> {
    let alloc = rt.alloc();
    let over = MAX_ID + 1;
    let rows = [
        KeptItem { place: 4, ..row(3) },
        KeptItem {
            user: over,
            ..row(3)
        },
        KeptItem {
            post: over,
            ..row(3)
        },
        KeptItem { kind: 5, ..row(3) },
        KeptItem {
            moment: over,
            ..row(3)
        },
    ];
    for bad in rows {
        let mut rows = rows_at(alloc, 0, 3)?;
        rows.push(bad)?;
        assert_eq!(rt; bad_row_of(&rt, alloc, rows), Some(3), "{bad:?}");
    }
    Ok(())
}

#[test]
fn a_store_of_another_configuration_or_a_later_version_is_refused(
    rt: HostRuntime,
) -> Result<(), Fail> {
    let alloc = rt.alloc();
    for (version, capacity, segments) in [(3, 16, 2), (0, 16, 2), (2, 32, 2), (1, 16, 1)] {
        let conf = kept(version, capacity, segments);
        let keeper = MemoryKeeper::of(conf, rows_at(alloc, 0, 1)?, Vec::new(alloc));
        let (why, mut keeper) = refused(&rt, alloc, 2, keeper);
        let asked = KeptConf {
            version: 2,
            capacity: 16,
            segments: 2,
        };
        let kept = conf.expect(&rt, "it is kept");
        assert_eq!(rt; why, OpenError::ConfDiffers { kept, asked });
        assert_eq!(rt; keeper.conf(), Ok(conf));
    }
    Ok(())
}

#[test]
fn a_store_of_the_first_version_is_migrated_by_opening_it(rt: HostRuntime) -> Result<(), Fail> {
    let alloc = rt.alloc();
    let keeper = MemoryKeeper::of(kept(1, 16, 2), rows_at(alloc, 0, 1)?, Vec::new(alloc));
    let index = index_of(&rt, alloc, 2, keeper);
    assert!(rt; index.view().base() == 0 && index.view().length() == 1);
    let shown = index.view().item(0);
    assert_eq!(rt; (shown.kind, shown.at), (Kind::Favorite, 0));
    assert_eq!(rt; index.into_keeper().conf(), Ok(kept(2, 16, 2)));

    let keeper = MemoryKeeper::of(kept(1, 16, 2), rows_at(alloc, 0, 1)?, vec![in alloc; 2]?);
    let (why, mut keeper) = refused(&rt, alloc, 2, keeper);
    assert_eq!(rt; why, OpenError::Store);
    assert_eq!(rt; keeper.conf(), Ok(kept(1, 16, 2)));
    Ok(())
}

#[test]
fn a_book_is_opened_with_two_equal_graphs(rt: HostRuntime) -> Result<(), Fail> {
    let alloc = rt.alloc();
    let conf = Conf::make(16, 2).expect(&rt, "both are in range");
    let keeper = MemoryKeeper::of(None, rows_at(alloc, 0, 40)?, Vec::new(alloc));
    let opened = Book::<MemoryKeeper>::open_book::<ListGraph>(alloc, conf, keeper, 2);
    let Ok((mut book, graphs, _)) = opened else {
        panic!(rt; "it was refused");
    };
    assert_eq!(rt; (book.length(), graphs.len()), (40, 2));
    for graph in &graphs {
        assert_eq!(rt; (graph.base(), graph.length()), (16, 40));
    }
    assert_eq!(rt;
        book.keep(&[item(&rt, 2)]),
        Ok(Receipt { from: 40, to: 41 })
    );
    let mut keeper = book.into_keeper();
    assert_eq!(rt; keeper.conf(), Ok(kept(2, 16, 2)));
    match keeper.rows(alloc) {
        Ok(rows) => assert_eq!(rt; (rows.len(), rows.first().map(|x| x.place)), (25, Some(16))),
        Err(_) => panic!(rt; "no row is told"),
    }
    Ok(())
}

/// Takes the keeper from home, and brings it back.
fn visit(keepers: &mut MemoryKeepers, alloc: Global) -> Result<(), KeepError>
    requires { IsTrue (is_home keepers.old) }
    ensures { IsTrue (is_home keepers.new) }
{
    let keeper = keepers.keeper_at(alloc, "any")?;
    keepers.take_back(keeper);
    Ok(())
}

#[test]
fn a_keeper_leaves_home_and_comes_back(rt: HostRuntime) -> Result<(), Fail> {
    let alloc = rt.alloc();
    let kept = MemoryKeeper::new(alloc, Vec::new(alloc));
    let mut keepers = MemoryKeepers::new(kept, vec![in alloc; 1]?);
    assert_eq!(rt; visit(&mut keepers, alloc), Err(KeepError::Failed));
    assert_eq!(rt; visit(&mut keepers, alloc), Ok(()));
    assert_eq!(rt; visit(&mut keepers, alloc), Ok(()));
    let mut none = NoKeepers::new();
    if let Ok(mut keeper) = none.keeper_at(alloc, "") {
        assert_eq!(rt; keeper.migrate(), Ok(()));
        none.take_back(keeper);
    }
    Ok(())
}
