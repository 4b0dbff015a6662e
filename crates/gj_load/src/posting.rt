//! The posting of a workload.
ghost use Rattle.std.specs.Prelude.{◌≡◌, ◌⊎◌, ℕ, ◌+◌, ◌<◌, ◌≤◌, ◌^◌, IfOk, OnOk, IfErr, OnErr};
ghost use Rattle.gj_base.specs.Causes.{Rose, faults_posted};
ghost use Rattle.gj_base.specs.History.{conf_of, empty_history};
ghost use Rattle.gj_base.specs.declared.index.IndexError.TheVariants as why;
ghost use Rattle.gj_load.specs.Totals.{KeepsBeginning, history_of, totals_of};
ghost use Rattle.gj_load.specs.Workload.{items_from, number_after};

use crate::generator::next_items;
use crate::totals::Totals;
use crate::walks::walk_all;
use gj_base::{Graph, Index, IndexError, MAX_BATCH, Memory};
use std::alloc::Global;

/// Posts so many interactions of the workload from the generator's number on, and answers the number after them.
fn post_batch<I: Index>(
    alloc: Global,
    index: &mut I,
    number: u64,
    batch: u64,
) -> Result<u64, IndexError>
    requires some { (0 < batch) × (batch ≤ 4096) }
    ensures ok { (h : _) → I.keeps index.old h → OnOk result (I.keeps index.new (extend h (entries_by 0 (items_from number batch)))) }
    ensures number { IfOk result (λ x. x ≡ number_after number batch) }
    ensures conf { conf_of (I.viewed index.new) ≡ conf_of (I.viewed index.old) }
    ensures store { IfErr result (λ e. e ≡ why.Store → Rose (I.faults index.old) (I.faults index.new)) }
    ensures count { I.faults index.new ≡ faults_posted (I.faults index.old) result }
    ensures full { IfErr result (λ e. (n : ℕ) → e ≡ why.Full n → 2 ^ 48 < end_of (I.viewed index.old) + batch) }
    ensures err { (h : _) → I.keeps index.old h → OnErr result (I.keeps index.new h) }
{
    let (items, after) = match next_items(alloc, number, batch as usize) {
        Ok(made) => made,
        Err(Memory) => return Err(IndexError::Memory),
    };
    match index.post_items(&items) {
        Ok(_) => Ok(after),
        Err(why) => Err(why),
    }
}

ghost use Rattle.gj_base.specs.History.{end_of, extend, entries_by};

/// Posts the whole workload, and answers how many batches it took.
fn post_all<I: Index>(
    alloc: Global,
    index: &mut I,
    number: u64,
    count: u64,
) -> Result<u64, IndexError>
    requires some { 0 < count }
    requires few { count ≤ 1000000 }
    requires empty { I.keeps index.old (empty_history 0) }
    ensures ok { OnOk result (I.keeps index.new (history_of (items_from number count))) }
    ensures batches { IfOk result (λ batches. batches ≡ (count + 4095) / 4096) }
    ensures count { I.faults index.new ≡ faults_posted (I.faults index.old) result }
    ensures conf { conf_of (I.viewed index.new) ≡ conf_of (I.viewed index.old) }
    ensures store { IfErr result (λ e. e ≡ why.Store → Rose (I.faults index.old) (I.faults index.new)) }
    ensures full { IfErr result (λ e. (n : ℕ) → e ≡ why.Full n → ⊥) }
    ensures err { OnErr result (KeepsBeginning (I.keeps index.new) number count) }
{
    let mut done = 0;
    let mut batches = 0;
    let mut x = number;
    while done < count {
        let batch = (count - done).min(MAX_BATCH as u64);
        x = match post_batch(alloc, index, x, batch) {
            Ok(after) => after,
            Err(why) => return Err(why),
        };
        done += batch;
        batches += 1;
    }
    Ok(batches)
}

ghost use Rattle.std.specs.Prelude.{◌/◌};

/// Makes so many interactions from the number, posts them in batches of 4096 and a last one of the rest, and walks 100
/// times over the window.
pub fn run_load<I: Index>(
    alloc: Global,
    index: &mut I,
    number: u64,
    count: u64,
) -> Result<Totals, IndexError>
    requires some { 0 < count }
    requires few { count ≤ 1000000 }
    requires empty { I.keeps index.old (empty_history 0) }
    ensures ok { IfOk result (λ t. t ≡ totals_of (conf_of (I.viewed index.old)) number count) }
    ensures keeps { OnOk result (I.keeps index.new (history_of (items_from number count))) }
    ensures count { I.faults index.new ≡ faults_posted (I.faults index.old) result }
    ensures store { IfErr result (λ e. e ≡ why.Store → Rose (I.faults index.old) (I.faults index.new)) }
    ensures full { IfErr result (λ e. (n : ℕ) → e ≡ why.Full n → ⊥) }
    ensures leaves { KeepsBeginning (I.keeps index.new) number count }
{
    let batches = post_all(alloc, index, number, count)?;
    let view = index.view();
    let Ok(walked) = walk_all(alloc, view, number, count) else {
        return Err(IndexError::Memory);
    };
    let base = view.conf().base(count);
    Ok(Totals {
        accepted: count,
        batches,
        length: count,
        base,
        window: count - base,
        visits: walked.visits,
        best: walked.best,
    })
}
