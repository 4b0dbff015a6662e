//! What no clause says of numbered batches on a writer: that they are answered.
ghost use Rattle.std.specs.Prelude.{◌≡◌, ◌<◌, ◌≤◌, ◌^◌, length, IfSome};
ghost use Rattle.std.specs.List.{All};
ghost use Rattle.gj_keep.specs.MemoryStores.{kept_by};
ghost use Rattle.gj_keep.specs.Openings.{opening_of};
ghost use Rattle.gj_publish.specs.SeatCalls.{IsSeatCall};

use gj_base::{Conf, Item, ItemList, Kind, ListGraph, NotedItems, Receipt};
use gj_keep::{MemoryKeeper, OpenRefused};
use gj_log::{Naming, Opening};
use gj_once::{Call, Noted};
use gj_publish::{Answer, Grants, GraphWriter, NotedError, PostError, Seat, SeatCall, open_index};
use std::alloc::Global;
use std::marker::Brand;
use std::sync::Wait;
use std::test::Fail;

// A call by this seat: the batch of producer 5 with this number, of one interaction.
fn numbered(alloc: Global, seat: usize, number: u64) -> Option<SeatCall>
    requires seat { seat < 2 }
    requires number { (1 ≤ number) × (number < 2 ^ 32) }
    ensures { IfSome result (IsSeatCall 2) }
{
    let mut items = ItemList::new(alloc);
    items.push(Item::make(number, 7, Kind::Click, 0)?).ok()?;
    let asked = NotedItems {
        producer: 5,
        number,
        items,
    };
    Some(SeatCall {
        seat,
        call: Call::Noted(asked),
    })
}

// The calls by these seats with these numbers.
fn calls_of(alloc: Global, asked: &[(usize, u64)]) -> Option<Vec<SeatCall>>
    ensures { IfSome result (λ calls. All (IsSeatCall 2) calls.items) }
{
    let mut calls = Vec::new(alloc);
    for (seat, number) in asked {
        if *seat >= 2 || *number == 0 || *number >= 1 << 32 {
            return None;
        }
        calls.push(numbered(alloc, *seat, *number)?).ok()?;
    }
    Some(calls)
}

// What came of calls by two seats: the answers, the length of the history, and what each seat has seen of it.
#[derive(Drop)]
struct Came {
    answers: Vec<Answer>,
    length: u64,
    seen: (u64, u64),
}

// What two seats have seen.
fn seen_by<J: Opening>(seats: &[Seat<ListGraph, J>]) -> (u64, u64)
    requires { length seats.now ≡ 2 }
{
    (seats[0].seen(), seats[1].seen())
}

// Two seats make these calls.
fn make_calls<J: Opening, R: Wait + Drop>(
    writer: &mut GraphWriter<J, MemoryKeeper, ListGraph, R>,
    seats: &mut [Seat<ListGraph, J>],
    calls: Vec<SeatCall>,
) -> Option<Came>
    requires two { length seats.old ≡ 2 }
    requires calls { All (IsSeatCall (length seats.old)) calls.items }
{
    let answers = writer.post_all(seats, calls).ok()?;
    let seen = seen_by(seats);
    Some(Came {
        answers,
        length: writer.length(),
        seen,
    })
}

// Opens for two seats over a keeper, which make these calls.
fn called_over<J: Opening, R: Wait + Drop>(
    rt: R,
    alloc: Global,
    naming: Naming,
    conf: Conf,
    keeper: MemoryKeeper,
    calls: Vec<SeatCall>,
    grants: &mut Grants,
) -> Option<Came>
    requires calls { All (IsSeatCall 2) calls.items }
    requires grants { grants.old < 2 ^ 40 }
    requires named { (naming.history ≡ J.book) × (naming.blank.name ≡ J.name) × (naming.blank.parts ≡ J.parts) }
    requires parts { (2 ≡ J.places) × (2 ≡ J.parts) }
    requires conf { conf ≡ J.conf }
    requires opening { J.opening ≡ opening_of (kept_by keeper) }
{
    match open_index::<J, MemoryKeeper, ListGraph, R>(rt, alloc, naming, conf, keeper, 2, grants) {
        Ok((mut writer, mut seats)) => make_calls(&mut writer, seats.as_mut_slice(), calls),
        Err(_refused) => None,
    }
}

// The same, with a name of its own, over a keeper that fails the calls with these numbers.
fn called<R: Wait + Drop>(
    rt: R,
    alloc: Global,
    conf: Conf,
    fails: Vec<u64>,
    asked: &[(usize, u64)],
) -> Option<Came> {
    let calls = calls_of(alloc, asked)?;
    called_over::<Brand, R>(
        rt,
        alloc,
        Naming::new(2),
        conf,
        MemoryKeeper::new(alloc, fails),
        calls,
        &mut Grants::new(),
    )
}

fn new(from: u64, to: u64) -> Answer {
    Ok(Noted::New(Receipt { from, to }))
}

fn repeated(from: u64, to: u64) -> Answer {
    Ok(Noted::Repeated(Receipt { from, to }))
}

#[test]
fn a_numbered_batch_enters_once(rt: HostRuntime) -> Result<(), Fail> {
    let alloc = rt.alloc();
    let conf = Conf::make(16, 2).expect(&rt, "16 and 2 are in range");
    let came = called(
        &rt,
        alloc,
        conf,
        Vec::new(alloc),
        &[(0, 1), (0, 1), (0, 3), (0, 2), (0, 1)],
    )
    .expect(&rt, "there is memory");
    let expected = vec![in alloc;
        new(0, 1),
        repeated(0, 1),
        Err(NotedError::Skipped { last: 1 }),
        new(1, 2),
        Err(NotedError::Old { last: 2 }),
    ]?;
    assert_eq!(rt; came.answers.as_slice(), expected.as_slice());
    assert_eq!(rt; came.length, 2);
    Ok(())
}

// The opening asks the keeper three times, and each batch that is fresh once.
#[test]
fn a_batch_that_the_store_refused_is_fresh_again(rt: HostRuntime) -> Result<(), Fail> {
    let alloc = rt.alloc();
    let conf = Conf::make(16, 2).expect(&rt, "16 and 2 are in range");
    let fails = vec![in alloc; 5]?;
    let came = called(&rt, alloc, conf, fails, &[(0, 1), (0, 2), (0, 2)]).expect(
        &rt,
        "there is memory",
    );
    let expected = vec![in alloc;
        new(0, 1),
        Err(NotedError::Post(PostError::Store)),
        new(1, 2),
    ]?;
    assert_eq!(rt; came.answers.as_slice(), expected.as_slice());
    assert_eq!(rt; came.length, 2);
    Ok(())
}

#[test]
fn a_second_seat_repeats_what_the_first_posted_and_has_seen_it(
    rt: HostRuntime,
) -> Result<(), Fail> {
    let alloc = rt.alloc();
    let conf = Conf::make(16, 2).expect(&rt, "16 and 2 are in range");
    let came = called(&rt, alloc, conf, Vec::new(alloc), &[(0, 1), (0, 2), (1, 2)]).expect(
        &rt,
        "there is memory",
    );
    let expected = vec![in alloc; new(0, 1), new(1, 2), repeated(1, 2)]?;
    assert_eq!(rt; came.answers.as_slice(), expected.as_slice());
    assert_eq!(rt; came.seen, (2, 2));
    Ok(())
}

// Whether the second of two calls with one number repeats what the first brought into the history.
fn repeats(first: &Answer, second: &Answer) -> bool {
    match first {
        Ok(Noted::New(receipt)) => *second == repeated(receipt.from, receipt.to),
        Err(NotedError::Post(PostError::KeptUnseen { receipt })) => {
            *second == repeated(receipt.from, receipt.to)
        }
        _ => *second == new(0, 1),
    }
}

// Where an allocation fails, one run in which it is that of the first publication passes too: the batch that is kept and
// not yet shown is noted.
#[test]
fn a_batch_that_is_kept_and_not_shown_is_noted(rt: HostRuntime) -> Result<(), Fail> {
    let alloc = rt.alloc();
    let conf = Conf::make(16, 2).expect(&rt, "16 and 2 are in range");
    let came = called(&rt, alloc, conf, Vec::new(alloc), &[(0, 1), (0, 1)]).expect(
        &rt,
        "there is memory",
    );
    let answers = came.answers.as_slice();
    assert_eq!(rt; answers.len(), 2);
    assert_eq!(rt; repeats(&answers[0], &answers[1]), true);
    assert_eq!(rt; came.length, 1);
    Ok(())
}
