//! What no clause says of publication: that posts and looks are answered, and by what.
ghost use Rattle.std.specs.Prelude.{◌≡◌, ◌≤◌, ◌<◌, ◌+◌, ◌^◌, Some, length, IfSome};
ghost use Rattle.gj_base.specs.History.{empty_history};
ghost use Rattle.gj_keep.specs.MemoryStores.{kept_by};
ghost use Rattle.gj_keep.specs.Openings.{opening_of};

use super::*;
use gj_base::{Conf, Graph, Item, ItemList, Kind, List, ListGraph, Mask, Receipt, Side};
use gj_keep::{MemoryKeeper, NoKeeper, OpenRefused};
use gj_log::{Naming, Opening};
use gj_publish::{Grants, GraphWriter, NoLook, PostError, Seat, open_index};
use std::alloc::Global;
use std::marker::Brand;
use std::process::Abort;
use std::sync::Wait;
use std::test::Fail;
use std::thread::Threads;

// A day of eight seats, each of which posts 50 batches of two and looks 20 times after each: the length, whether all
// went as it should, and how many places were refused.
fn eight_seats<R: Threads + Wait + Copy + Drop + Send + Sync>(
    rt: R,
    alloc: Global,
    conf: Conf,
) -> Option<(u64, bool, u64)> {
    let mut grants = Grants::new();
    let day = one_day::<NoKeeper, ListGraph, R>(rt, alloc, conf, NoKeeper, 8, 50, 20, &mut grants);
    match day {
        Ok(evening) => Some((evening.length, evening.fine, grants.refused())),
        Err(_refused) => None,
    }
}

#[test]
fn eight_seats_in_threads_see_their_own_and_never_less(rt: HostRuntime) -> Result<(), Fail> {
    let conf = Conf::make(1024, 1).expect(&rt, "1024 and 1 are in range");
    assert_eq!(rt; eight_seats(&rt, rt.alloc(), conf), Some((800, true, 0)));
    Ok(())
}

// So many interactions with the post 7, of the users from `first` on.
fn clicks(alloc: Global, first: u64, count: u64) -> Option<ItemList>
    requires { (first < 2 ^ 32) × (count < 2 ^ 32) }
    ensures { IfSome result (λ items. length items ≡ count) }
{
    let mut items = List::new(alloc);
    for n in 0..count {
        items.push(Item::make(first + n, 7, Kind::Click, 0)?).ok()?;
    }
    Some(items)
}

// A writer over a list graph.
type ListWriter<J, K, R> = GraphWriter<J, K, ListGraph, R>;

// What one post told, and what two seats saw of it.
#[derive(Clone, Copy, Debug, PartialEq)]
struct Seen {
    to: u64,
    poster: u64,
    other: u64,
}

// The first seat posts 16 interactions, and both look.
fn sixteen<J: Opening, R: Wait + Drop>(
    alloc: Global,
    writer: &mut ListWriter<J, NoKeeper, R>,
    poster: &mut Seat<ListGraph, J>,
    other: &mut Seat<ListGraph, J>,
) -> Option<Seen> {
    let receipt = writer.post(poster, clicks(alloc, 1, 16)?).ok()?;
    writer.compact().ok()?;
    writer.confirm(other.front());
    Some(Seen {
        to: receipt.to,
        poster: poster.look(|graph: &ListGraph| graph.length()).ok()?,
        other: other.look(|graph: &ListGraph| graph.length()).ok()?,
    })
}

// Opens for two seats, of which one posts.
fn two_seats<J: Opening, R: Wait + Drop>(
    rt: R,
    alloc: Global,
    naming: Naming,
    conf: Conf,
    grants: &mut Grants,
) -> Option<Seen>
    requires grants { grants.old < 2 ^ 40 }
    requires named { (naming.history ≡ J.book) × (naming.blank.name ≡ J.name) × (naming.blank.parts ≡ J.parts) }
    requires parts { (2 ≡ J.places) × (2 ≡ J.parts) }
    requires conf { conf ≡ J.conf }
    requires opening { J.opening ≡ Some (empty_history 0) }
{
    match open_index::<J, NoKeeper, ListGraph, R>(rt, alloc, naming, conf, NoKeeper, 2, grants) {
        Ok((mut writer, mut seats)) => {
            let mut other = seats.pop().unwrap();
            let mut poster = seats.pop().unwrap();
            sixteen(alloc, &mut writer, &mut poster, &mut other)
        }
        Err(_refused) => None,
    }
}

#[test]
fn the_poster_sees_the_sixteen_interactions_that_it_posted(rt: HostRuntime) -> Result<(), Fail> {
    let conf = Conf::make(16, 2).expect(&rt, "16 and 2 are in range");
    let mut grants = Grants::new();
    let seen = two_seats::<Brand, &HostRuntime>(&rt, rt.alloc(), Naming::new(2), conf, &mut grants);
    let wanted = Seen {
        to: 16,
        poster: 16,
        other: 16,
    };
    assert_eq!(rt; seen, Some(wanted));
    Ok(())
}

// What came of two batches of one seat, of which the first may have found no memory to be shown.
#[derive(Clone, Copy, Debug, PartialEq)]
struct Pair {
    unseen: bool,
    second: Receipt,
    users: (u64, u64),
}

// The users of the two interactions with the post 7, the older first.
fn users_of_two(graph: &ListGraph) -> (u64, u64) {
    if graph.count(Side::Post, 7, Mask::all()) == 2 {
        let (first, _) = graph.edge(Side::Post, 7, Mask::all(), 0);
        let (second, _) = graph.edge(Side::Post, 7, Mask::all(), 1);
        (first, second)
    } else {
        (0, 0)
    }
}

// The seat posts twice, and looks.
fn twice<J: Opening, R: Wait + Drop>(
    alloc: Global,
    writer: &mut ListWriter<J, NoKeeper, R>,
    seat: &mut Seat<ListGraph, J>,
) -> Option<Pair> {
    let unseen = match writer.post(seat, clicks(alloc, 1, 1)?) {
        Ok(_) => false,
        Err(why) => matches!(&why, PostError::KeptUnseen { .. }),
    };
    let second = writer.post(seat, clicks(alloc, 2, 1)?).ok()?;
    let users = seat.look(|graph: &ListGraph| users_of_two(graph)).ok()?;
    Some(Pair {
        unseen,
        second,
        users,
    })
}

// Opens for one seat, which posts twice.
fn two_batches<J: Opening, R: Wait + Drop>(
    rt: R,
    alloc: Global,
    naming: Naming,
    conf: Conf,
    grants: &mut Grants,
) -> Option<Pair>
    requires grants { grants.old < 2 ^ 40 }
    requires named { (naming.history ≡ J.book) × (naming.blank.name ≡ J.name) × (naming.blank.parts ≡ J.parts) }
    requires parts { (1 ≡ J.places) × (1 ≡ J.parts) }
    requires conf { conf ≡ J.conf }
    requires opening { J.opening ≡ Some (empty_history 0) }
{
    match open_index::<J, NoKeeper, ListGraph, R>(rt, alloc, naming, conf, NoKeeper, 1, grants) {
        Ok((mut writer, mut seats)) => {
            let mut seat = seats.pop().unwrap();
            twice(alloc, &mut writer, &mut seat)
        }
        Err(_refused) => None,
    }
}

// Where an allocation fails, one run in which it is that of the first publication passes too: the batch that was owed is
// counted, and shown in its place.
#[test]
fn the_second_batch_comes_behind_the_first(rt: HostRuntime) -> Result<(), Fail> {
    let conf = Conf::make(16, 2).expect(&rt, "16 and 2 are in range");
    let mut grants = Grants::new();
    let pair = two_batches::<Brand, &HostRuntime>(
        &rt,
        rt.alloc(),
        Naming::new(1),
        conf,
        &mut grants,
    ).expect(&rt, "there is memory");
    assert_eq!(rt; pair.second, Receipt { from: 1, to: 2 });
    assert_eq!(rt; pair.users, (1, 2));
    Ok(())
}

// What posts of eight interactions each left.
#[derive(Drop)]
struct Left {
    keeper: MemoryKeeper,
    start: u64,
    accepted: u64,
    refused: u64,
    length: u64,
    // Whether the seat was refused a look once the writer was gone.
    gone: bool,
}

// The seat posts so many batches: how many were accepted, and how many a fault of the keeper refused.
fn posts<J: Opening, R: Wait + Drop>(
    alloc: Global,
    writer: &mut ListWriter<J, MemoryKeeper, R>,
    seat: &mut Seat<ListGraph, J>,
    batches: u64,
) -> (u64, u64) {
    let mut accepted = 0u64;
    let mut refused = 0u64;
    for _ in 0..batches {
        match clicks(alloc, 1, 8) {
            None => {}
            Some(items) => match writer.post(seat, items) {
                Ok(_) => accepted = accepted.wrapping_add(1),
                Err(PostError::Store) => refused = refused.wrapping_add(1),
                Err(_) => {}
            },
        }
    }
    (accepted, refused)
}

// Opens for one seat over a keeper, which posts so many batches.
fn posts_over<J: Opening, R: Wait + Drop>(
    rt: R,
    alloc: Global,
    naming: Naming,
    conf: Conf,
    keeper: MemoryKeeper,
    batches: u64,
    grants: &mut Grants,
) -> Result<Left, OpenRefused<MemoryKeeper>>
    requires grants { grants.old < 2 ^ 40 }
    requires named { (naming.history ≡ J.book) × (naming.blank.name ≡ J.name) × (naming.blank.parts ≡ J.parts) }
    requires parts { (1 ≡ J.places) × (1 ≡ J.parts) }
    requires conf { conf ≡ J.conf }
    requires opening { J.opening ≡ opening_of (kept_by keeper) }
{
    let (mut writer, mut seats) = open_index::<J, MemoryKeeper, ListGraph, R>(
        rt, alloc, naming, conf, keeper, 1, grants,
    )?;
    let mut seat = seats.pop().unwrap();
    let (accepted, refused) = posts(alloc, &mut writer, &mut seat, batches);
    let start = writer.start();
    let length = writer.length();
    let keeper = writer.into_keeper();
    let gone = seat.look(|_: &ListGraph| ()) == Err(NoLook::Refused);
    Ok(Left {
        keeper,
        start,
        accepted,
        refused,
        length,
        gone,
    })
}

// The same, with a name of its own.
fn over<R: Wait + Drop>(
    rt: R,
    alloc: Global,
    conf: Conf,
    keeper: MemoryKeeper,
    batches: u64,
) -> Result<Left, OpenRefused<MemoryKeeper>> {
    posts_over::<Brand, R>(
        rt,
        alloc,
        Naming::new(1),
        conf,
        keeper,
        batches,
        &mut Grants::new(),
    )
}

// What came of five posts over a keeper that fails this call: the number accepted and refused, the length, and the
// length at the next opening. `None` where the first opening was refused by the fault.
fn five_posts<R: Wait + Copy + Drop>(
    rt: R,
    alloc: Global,
    conf: Conf,
    fails: u64,
) -> Option<(u64, u64, u64, u64, bool)> {
    let numbers = vec![in alloc; fails].ok()?;
    let left = over(rt, alloc, conf, MemoryKeeper::new(alloc, numbers), 5).ok()?;
    let Left {
        keeper,
        start: _,
        accepted,
        refused,
        length,
        gone,
    } = left;
    let again = over(rt, alloc, conf, keeper, 0).ok()?;
    Some((accepted, refused, length, again.start, gone))
}

#[test]
fn whichever_call_of_the_keeper_fails_the_next_opening_has_all_that_was_accepted(
    rt: HostRuntime,
) -> Result<(), Fail> {
    let conf = Conf::make(16, 1).expect(&rt, "16 and 1 are in range");
    for fails in [1u64, 2, 3, 4, 5, 6, 7, 8, 9, 99] {
        let came = five_posts(&rt, rt.alloc(), conf, fails);
        let wanted = match fails {
            1..=3 => None,
            4..=9 => Some((4, 1, 32, 32, true)),
            _ => Some((5, 0, 40, 40, true)),
        };
        assert_eq!(rt; came, wanted, "call {fails} fails");
    }
    Ok(())
}
