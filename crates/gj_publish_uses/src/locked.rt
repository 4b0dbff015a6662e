//! The writer under its lock, and seats in threads.
ghost use Rattle.std.specs.Prelude.{◌≡◌, ℕ, ◌+◌, ◌<◌, ◌≤◌, ◌^◌, length, slice_index_or, IfOk, IfErr, IfSome, OnOk};
ghost use Rattle.gj_base.specs.declared.history.History.{History};
ghost use Rattle.gj_base.specs.History.{Begins, extend, entries_by, length_of};
ghost use Rattle.gj_publish.specs.declared.refusal.PostError.TheVariants.{Full};
ghost use Rattle.gj_publish.specs.Answers.{after_post};
ghost use Rattle.gj_publish.specs.Writers.{by_seat};

use gj_base::{Graph, Grow, Item, ItemList, Keeper, Kind, List, Mask, Receipt, Side};
use gj_log::Opening;
use gj_publish::{Batch, Copies, PostError, Seat, Writer};
use std::alloc::Global;
use std::sync::{Mutex, Wait};
use std::thread;
use std::thread::Threads;

/// Takes the lock for one post. What is then known of the history is what the seat saw: some history began with all that
/// it had seen, and after that come just the items.
pub fn accept<
    J: Opening,
    C: Copies<Operation = Batch<J>>,
    K: Keeper + Drop,
    W: Grow + Drop,
    R: Wait,
>(
    rt: &R,
    writer: &Mutex<Writer<J, C, K>>,
    seat: &mut Seat<W, J>,
    items: ItemList,
) -> Result<Receipt, PostError>
    requires some { 0 < length items }
    requires few { length items ≤ 4096 }
    ensures ok { IfOk result (λ r. (h : History) × Begins seat.old.front h × (r.from ≡ length_of h) × (r.to ≡ length_of seat.new.front) × (seat.new.front ≡ extend h (entries_by seat.old.number items))) }
    ensures posted { OnOk result ((seat.new.posted ≡ seat.old.posted + length items) × (seat.new.posted ≡ by_seat seat.old.number seat.new.front)) }
    ensures full { IfErr result (λ why. (n : _) → why ≡ Full n → 2 ^ 48 < n + length items) }
    ensures front { Begins seat.old.front seat.new.front }
    ensures numbers { seat.new.numbers ≡ after_post result seat.old.numbers }
    ensures others { seat.new.number ≡ seat.old.number }
{
    writer.lock(rt).post(seat, items)
}

/// A worker's seat, how many batches it posts and how many looks follow each, and whether all went as it should: no look
/// went back, and each showed the worker's own interactions.
#[derive(Drop)]
pub struct Desk<W: Grow + Drop, J: Opening> {
    pub seat: Seat<W, J>,
    pub batches: u64,
    pub looks: u64,
    pub fine: bool,
    pub alloc: Global,
}

// Looks so often, and says whether no look was refused or went back, or missed an own interaction.
fn looks_on<J: Opening, W: Grow + Drop>(seat: &mut Seat<W, J>, times: u64, own: u64) -> bool
    ensures front { Begins seat.old.front seat.new.front }
    ensures others { (seat.new.number ≡ seat.old.number) × (seat.new.posted ≡ seat.old.posted) }
{
    let user = u64::from(seat.number());
    let mut fine = true;
    let mut last = seat.seen();
    for look in 0..times {
        let _ = look;
        match seat.look(|graph: &W| (graph.length(), graph.count(Side::User, user, Mask::all()))) {
            Ok((length, mine)) => {
                if length < last || mine != own {
                    fine = false;
                }
                last = length;
            }
            Err(_) => fine = false,
        }
    }
    fine
}

// Two interactions of one user. `None` is want of memory.
fn pair_by(alloc: Global, user: u32) -> Option<ItemList>
    ensures { IfSome result (λ items. length items ≡ 2) }
{
    let mut items = List::new(alloc);
    let item = Item::make(u64::from(user), 7, Kind::Click, 0)?;
    items.push(item).ok()?;
    items.push(item).ok()?;
    Some(items)
}

// Posts two interactions, and then looks.
fn take_turn<
    J: Opening,
    C: Copies<Operation = Batch<J>>,
    K: Keeper + Drop,
    W: Grow + Drop,
    R: Wait,
>(rt: &R, writer: &Mutex<Writer<J, C, K>>, desk: &mut Desk<W, J>)
    ensures front { Begins desk.old.seat.front desk.new.seat.front }
    ensures number { desk.new.seat.number ≡ desk.old.seat.number }
{
    let Some(items) = pair_by(desk.alloc, desk.seat.number()) else {
        desk.fine = false;
        return;
    };
    let posted = accept(rt, writer, &mut desk.seat, items).is_ok();
    let own = desk.seat.posted();
    let looked = looks_on(&mut desk.seat, desk.looks, own);
    desk.fine = desk.fine & posted & looked;
}

// Takes all turns of a desk.
fn work<J: Opening, C: Copies<Operation = Batch<J>>, K: Keeper + Drop, W: Grow + Drop, R: Wait>(
    rt: &R,
    writer: &Mutex<Writer<J, C, K>>,
    desk: &mut Desk<W, J>,
)
    ensures front { Begins desk.old.seat.front desk.new.seat.front }
    ensures number { desk.new.seat.number ≡ desk.old.seat.number }
{
    for turn in 0..desk.batches {
        let _ = turn;
        take_turn(rt, writer, desk);
    }
}

/// Each desk works in a thread of its own, and no front goes back.
pub fn serve<
    J: Opening + Send + Sync,
    C: Copies<Operation = Batch<J>> + Send,
    K: Keeper + Drop + Send,
    W: Grow + Drop + Send + Sync,
    R: Threads + Wait + Sync,
>(rt: &R, writer: &Mutex<Writer<J, C, K>>, desks: &mut [Desk<W, J>])
    requires { 0 < length desks.old }
    ensures front { (i : ℕ) (d : _) → i < length desks.old → Begins (slice_index_or desks.old i d).seat.front (slice_index_or desks.new i d).seat.front }
{
    let count = desks.len();
    thread::for_each_mut(
        rt,
        desks,
        count,
        &|_, desk: &mut Desk<W, J>| work(rt, writer, desk),
    );
}
