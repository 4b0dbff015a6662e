ghost use Rattle.std.specs.Prelude.{◌≡◌, ◌≤◌, ◌^◌, length, IfOk};

use super::*;
use crate::shaky::Shaky;
use gj_base::{
    Conf, Graph, Grow, Index, IndexError, Item, ItemList, Kind, ListGraph, Memory, NotedItems,
    Receipt,
};
use std::alloc::Global;
use std::process::Abort;
use std::test::Fail;

/// A batch of one interaction.
fn one(alloc: Global, rt: &impl Abort, user: u64) -> Result<ItemList, Memory>
    ensures { IfOk result (λ items. length items ≡ 1) }
{
    let mut items = ItemList::new(alloc);
    items.push(Item::make(user, 10, Kind::Click, 0).expect(rt, "all are in range"))?;
    Ok(items)
}

/// The producer's batch of this number, of one interaction.
fn batch(alloc: Global, rt: &impl Abort, producer: u32, number: u64) -> Result<NotedItems, Memory>
    requires producer { (1 ≤ producer) × (producer ≤ 1024) }
    requires number { (1 ≤ number) × (number ≤ 2 ^ 48) }
{
    let items = one(alloc, rt, number)?;
    Ok(NotedItems {
        producer,
        number,
        items,
    })
}

/// An empty index of two segments of 16, whose store fails the posts of these numbers.
fn index_of(rt: &impl Abort, alloc: Global, fails: Vec<u64>) -> Result<OnceIndex<Shaky>, Memory> {
    let conf = Conf::make(16, 2).expect(rt, "16 and 2 are in range");
    let graph = ListGraph::make(alloc, conf, 0)?;
    let once = Once::new(alloc)?;
    Ok(OnceIndex::new(Shaky::new(graph, fails), once))
}

fn new(from: u64, to: u64) -> Answer {
    Ok(Noted::New(Receipt { from, to }))
}

fn repeated(from: u64, to: u64) -> Answer {
    Ok(Noted::Repeated(Receipt { from, to }))
}

#[test]
fn a_numbered_batch_enters_once(rt: HostRuntime) -> Result<(), Fail> {
    let alloc = rt.alloc();
    let mut index = index_of(&rt, alloc, Vec::new(alloc))?;
    let first = batch(alloc, &rt, 5, 1)?;
    assert_eq!(rt; index.post_noted(&first), new(0, 1));
    assert_eq!(rt; index.post_noted(&first), repeated(0, 1));
    assert_eq!(rt;
        index.post_noted(&batch(alloc, &rt, 5, 3)?),
        Err(OnceError::Skipped { last: 1 })
    );
    assert_eq!(rt; index.post_noted(&batch(alloc, &rt, 5, 2)?), new(1, 2));
    assert_eq!(rt; index.post_noted(&first), Err(OnceError::Old { last: 2 }));
    assert_eq!(rt; index.into_index().view().length(), 2);
    Ok(())
}

#[test]
fn a_batch_that_the_store_refused_is_fresh_again(rt: HostRuntime) -> Result<(), Fail> {
    let alloc = rt.alloc();
    let mut index = index_of(&rt, alloc, vec![in alloc; 2]?)?;
    let second = batch(alloc, &rt, 5, 2)?;
    assert_eq!(rt; index.post_noted(&batch(alloc, &rt, 5, 1)?), new(0, 1));
    assert_eq!(rt;
        index.post_noted(&second),
        Err(OnceError::Index(IndexError::Store))
    );
    assert_eq!(rt; index.post_noted(&second), new(1, 2));
    assert_eq!(rt; index.view().length(), 2);
    Ok(())
}

#[test]
fn producers_and_batches_without_numbers_do_not_meet(rt: HostRuntime) -> Result<(), Fail> {
    let alloc = rt.alloc();
    let mut index = index_of(&rt, alloc, Vec::new(alloc))?;
    let calls = vec![in alloc;
        Call::Plain(one(alloc, &rt, 7)?),
        Call::Noted(batch(alloc, &rt, 5, 1)?),
        Call::Noted(batch(alloc, &rt, 1024, 1)?),
        Call::Plain(one(alloc, &rt, 7)?),
        Call::Noted(batch(alloc, &rt, 5, 1)?),
    ]?;
    let answers = post_all(alloc, &mut index, &calls)?;
    let expected = vec![in alloc; new(0, 1), new(1, 2), new(2, 3), new(3, 4), repeated(1, 2)]?;
    assert_eq!(rt; answers.as_slice(), expected.as_slice());
    Ok(())
}
