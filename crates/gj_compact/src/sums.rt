//! Counts of kinds before each block of 64 cells, so that a heavy vertex is counted and searched by blocks.
ghost use Rattle.std.specs.Prelude.{◌≡◌, ◌+◌, ◌-◌, ◌*◌, ◌<◌, ◌≤◌, length, take, drop, count_by, slice_index_or};
ghost use Rattle.gj_base.specs.declared.kind.Kind.{Kind};
ghost use Rattle.gj_base.specs.Kinds.{has_kind, same_kind};
ghost use Rattle.gj_compact.specs.Counting.{counted, kind_count, none_counted};
ghost use Rattle.gj_compact.specs.Sums.{AreCounts, AreSums, IsRoom};

use crate::counts::{Counts, NO_COUNTS};
use gj_base::{Kind, Mask};

/// How many of these kinds, at most 64, are this one. A byte counts them without a branch, so that many are compared at once.
#[inline]
fn count_kind(kinds: &[Kind], kind: Kind) -> u8
    requires few { length kinds.now ≤ 64 }
    ensures exact { result ≡ count_by (same_kind kind) kinds.now }
    ensures in_range { result ≤ 64 }
{
    let mut count: u8 = 0;
    for other in kinds {
        count += u8::from(*other == kind);
    }
    count
}

/// The counts with those of these kinds, at most 64.
#[inline]
fn with_kinds(counts: Counts, kinds: &[Kind]) -> Counts
    requires few { length kinds.now ≤ 64 }
    requires fits { (kind : Kind) → kind_count counts kind < 4294967232 }
    ensures { (kind : Kind) → kind_count result kind ≡ kind_count counts kind + count_by (same_kind kind) kinds.now }
{
    Counts {
        click: counts.click + u32::from(count_kind(kinds, Kind::Click)),
        favorite: counts.favorite + u32::from(count_kind(kinds, Kind::Favorite)),
        retweet: counts.retweet + u32::from(count_kind(kinds, Kind::Retweet)),
        reply: counts.reply + u32::from(count_kind(kinds, Kind::Reply)),
        tweet: counts.tweet + u32::from(count_kind(kinds, Kind::Tweet)),
    }
}

/// The counts after one more block. Where it is a whole one, its length stands in the code.
fn after(counts: Counts, kinds: &[Kind], block: usize) -> Counts
    requires counts { AreCounts counts (take (64 * block) kinds.now) }
    requires few { block < 131073 }
    ensures { AreCounts result (take (64 * (block + 1)) kinds.now) }
{
    let from = 64 * block;
    if from + 64 <= kinds.len() {
        return with_kinds(counts, &kinds[from..from + 64]);
    }
    with_kinds(counts, &kinds[from.min(kinds.len())..])
}

/// Counts the kinds before each block.
pub fn sum_blocks(sums: &mut [Counts], kinds: &[Kind])
    requires { IsRoom sums.old kinds.now }
    ensures { AreSums sums.new kinds.now }
{
    let mut counts = NO_COUNTS;
    for b in 0..sums.len() {
        sums[b] = counts;
        counts = after(counts, kinds, b);
    }
}

/// How many of these kinds the mask has.
fn count_kinds(kinds: &[Kind], mask: Mask) -> usize
    ensures exact { result ≡ count_by (has_kind mask) kinds.now }
    ensures in_range { result ≤ length kinds.now }
{
    kinds.iter().filter(|kind| mask.has(**kind)).count()
}

/// How many of the kinds from one place up to another the mask has.
pub fn count_between(kinds: &[Kind], from: usize, to: usize, mask: Mask) -> usize
    requires order { from ≤ to }
    requires inside { to ≤ length kinds.now }
    ensures exact { result ≡ count_by (has_kind mask) (take (to - from) (drop from kinds.now)) }
    ensures in_range { result ≤ to - from }
{
    count_kinds(&kinds[from..to], mask)
}

/// How many of the kinds before a place the mask has.
pub fn before(sums: &[Counts], kinds: &[Kind], place: usize, mask: Mask) -> usize
    requires room { IsRoom sums.now kinds.now }
    requires sums { AreSums sums.now kinds.now }
    requires inside { place ≤ length kinds.now }
    ensures { result ≡ count_by (has_kind mask) (take place kinds.now) }
{
    let block = place / 64;
    sums[block].of(mask) + count_kinds(&kinds[64 * block..place], mask)
}

/// A block from `low` to `high` before which the mask has at most `goal` of the kinds: the last such one, where the counts
/// rise.
pub fn block_at(sums: &[Counts], mask: Mask, low: usize, high: usize, goal: usize) -> usize
    requires order { low ≤ high }
    requires inside { high < length sums.now }
    requires few { length sums.now ≤ 131073 }
    requires begins { counted mask (slice_index_or sums.now low none_counted) ≤ goal }
    ensures low { low ≤ result }
    ensures high { result ≤ high }
    ensures begins { counted mask (slice_index_or sums.now result none_counted) ≤ goal }
{
    let mut low = low;
    let mut high = high;
    while low < high {
        let middle = low + (high - low + 1) / 2;
        if sums[middle].of(mask) <= goal {
            low = middle;
        } else {
            high = middle - 1;
        }
    }
    low
}
