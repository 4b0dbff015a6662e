//! Links in memory over stated bytes.
ghost use Rattle.std.specs.Prelude.{All, IfSome};
ghost use Rattle.gj_serve.specs.Fresh.{IsFreshLink};

use gj_base::{MemoryLink, MemorySink, MemorySource};
use std::alloc::Global;

/// A post of so many interactions of the user 1 with the post 10, of which the head is given.
pub(crate) fn post_of(alloc: Global, head: &[u8], count: u64) -> Option<Vec<u8>> {
    let mut bytes = head.to_vec(alloc).ok()?;
    bytes.extend_from_slice(b"{\"items\":[").ok()?;
    for i in 0..count {
        if i > 0 {
            bytes.extend_from_slice(b",").ok()?;
        }
        bytes
            .extend_from_slice(b"{\"user\":1,\"post\":10,\"kind\":\"favorite\"}")
            .ok()?;
    }
    bytes.extend_from_slice(b"]}").ok()?;
    Some(bytes)
}

/// A link over the input.
fn link_over(alloc: Global, input: &[u8]) -> Option<MemoryLink>
    ensures { IfSome result IsFreshLink }
{
    let source = MemorySource::new(input.to_vec(alloc).ok()?, 64, Vec::new(alloc));
    let sink = MemorySink::new(alloc, 1024, 1024, Vec::new(alloc)).ok()?;
    Some(MemoryLink::new(source, sink))
}

/// Two links over the two inputs.
pub(crate) fn two_links(alloc: Global, first: &[u8], second: &[u8]) -> Option<Vec<MemoryLink>>
    ensures { IfSome result (λ links. All IsFreshLink links.items) }
{
    let mut links = Vec::new(alloc);
    links.push(link_over(alloc, first)?).ok()?;
    links.push(link_over(alloc, second)?).ok()?;
    Some(links)
}
