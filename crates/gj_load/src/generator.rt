//! The interactions of a workload.
ghost use Rattle.std.specs.Prelude.{◌≡◌, ◌+◌, ◌<◌, ◌≤◌, ◌^◌, IfOk};
ghost use Rattle.gj_load.specs.Workload.{next_number, number_after, item_from, items_from, interaction};

use gj_base::{Item, Kind, Memory};
use std::alloc::Global;

/// Powers of two, by which a number is taken apart.
const POW_20: u64 = 1_048_576;

const POW_24: u64 = 16_777_216;

const POW_44: u64 = 17_592_186_044_416;

/// The generator's next number.
#[tactic(auto, using(crate::proofs::WorkloadLemmas::wrapped), unfolding(crate::specs::Workload::next_number))]
fn next_number(number: u64) -> u64
    ensures { result ≡ next_number number }
{
    number
        .wrapping_mul(6_364_136_223_846_793_005)
        .wrapping_add(1_442_695_040_888_963_407)
}

/// The kind with this number.
fn kind_at(number: u64) -> Kind
    requires { number < 5 }
    ensures { result ≡ kind_at number }
{
    match number {
        0 => Kind::Click,
        1 => Kind::Favorite,
        2 => Kind::Retweet,
        3 => Kind::Reply,
        _ => Kind::Tweet,
    }
}

ghost use Rattle.gj_load.specs.Workload.{kind_at};

/// The interaction that is made of a number.
#[tactic(auto, unfolding(crate::specs::Workload::item_from))]
fn item_from(number: u64) -> Item
    ensures exact { result ≡ item_from number }
    ensures in_range { (item_from number).user < 10000 }
{
    Item {
        user: number / POW_44 % 10_000,
        post: number / POW_24 % POW_20 % 20_000,
        kind: kind_at(number / POW_20 % 5),
        at: 0,
    }
}

/// The number after so many steps.
#[tactic(auto, using(crate::proofs::WorkloadLemmas::after_next, crate::proofs::WorkloadLemmas::after_none))]
fn number_after(number: u64, steps: u64) -> u64
    ensures { result ≡ number_after number steps }
{
    let mut x = number;
    for _ in 0..steps {
        x = next_number(x);
    }
    x
}

/// The user of the interaction at this place of the workload. It makes the earlier ones again.
pub fn user_at(number: u64, place: u64) -> u64
    requires { place < 2 ^ 63 }
    ensures exact { result ≡ (interaction number place).user }
    ensures in_range { result < 10000 }
{
    item_from(number_after(number, place + 1)).user
}

/// The next interactions of a workload, and the number after them.
#[tactic(auto, using(crate::proofs::WorkloadLemmas::after_next, crate::proofs::WorkloadLemmas::after_none, crate::proofs::WorkloadLemmas::items_next, crate::proofs::WorkloadLemmas::items_none))]
pub fn next_items(alloc: Global, number: u64, count: usize) -> Result<(Vec<Item>, u64), Memory>
    ensures items { IfOk result (λ r. r.0.items ≡ items_from number count) }
    ensures number { IfOk result (λ r. r.1 ≡ number_after number count) }
{
    let Ok(mut items) = Vec::with_capacity(alloc, count) else {
        return Err(Memory);
    };
    let mut x = number;
    for _ in 0..count {
        x = next_number(x);
        if items.push(item_from(x)).is_err() {
            return Err(Memory);
        }
    }
    Ok((items, x))
}
