//! One half step.
ghost use Rattle.std.specs.Prelude.{◌≡◌, ℕ, ◌+◌, ◌-◌, ◌/◌, ◌%◌, ◌^◌, ◌<◌, min, sum, length, slice_index, slice_set, IfOk};
ghost use Rattle.gj_subgraph.specs.Masses.{half_step};
ghost use Rattle.gj_subgraph.specs.Numbers.{AreNumbered, units_in};

use crate::number::{add, push, with_room, zeros};
use crate::vertices::Vertices;
use gj_base::Memory;
use std::alloc::Global;

/// For each vertex the even part of its units that each edge carries, and how many first edges carry one more.
fn parts_of(alloc: Global, degrees: &[u32], units: &[u32]) -> Result<(Vec<u32>, Vec<u32>), Memory>
    requires same_len { length degrees.now ≡ length units.now }
    requires positive { (u : ℕ) → u < length units.now → 0 < slice_index degrees.now u }
    ensures parts_len { IfOk result (λ r. length r.0.items ≡ length units.now) }
    ensures parts { IfOk result (λ r. (u : ℕ) → u < length units.now → slice_index r.0.items u ≡ slice_index units.now u / slice_index degrees.now u) }
    ensures more_len { IfOk result (λ r. length r.1.items ≡ length units.now) }
    ensures more { IfOk result (λ r. (u : ℕ) → u < length units.now → slice_index r.1.items u ≡ slice_index units.now u % slice_index degrees.now u) }
{
    let mut parts = with_room(alloc, units.len())?;
    let mut more = with_room(alloc, units.len())?;
    for u in 0..units.len() {
        push(&mut parts, units[u] / degrees[u])?;
        push(&mut more, units[u] % degrees[u])?;
    }
    Ok((parts, more))
}

/// What the next edge of a vertex carries.
fn take_part(parts: &[u32], more: &mut Vec<u32>, u: usize) -> u32
    requires parts { u < length parts.now }
    requires more { u < length more.old.items }
    requires fits { slice_index parts.now u < 2 ^ 31 }
    ensures part { result ≡ slice_index parts.now u + min (slice_index more.old.items u) 1 }
    ensures more { more.new.items ≡ slice_set more.old.items u (slice_index more.old.items u - 1) }
{
    let left = more[u];
    more[u] = left.saturating_sub(1);
    parts[u] + left.min(1)
}

/// The units at the vertices of the far side after a half step, by those of the near side: one pass over the edges.
pub fn half_step(
    alloc: Global,
    near: &Vertices,
    far: &Vertices,
    units: &[u32],
) -> Result<Vec<u32>, Memory>
    requires near { AreNumbered near.now }
    requires far { AreNumbered far.now }
    requires edges { length near.now.side.items ≡ length far.now.side.items }
    requires units { length units.now ≡ length near.now.names.items }
    requires small { sum units.now < 2 ^ 31 }
    ensures len { IfOk result (λ out. length out.items ≡ length far.now.names.items) }
    ensures exact { IfOk result (λ out. units_in far.now.names.items out.items
        ≡ half_step near.now.side.items far.now.side.items (units_in near.now.names.items units.now)) }
    ensures kept { IfOk result (λ out. sum out.items ≡ sum units.now) }
{
    let (parts, mut more) = parts_of(alloc, near.degrees.as_slice(), units)?;
    let mut out = zeros(alloc, far.names.len())?;
    let from = near.places.as_slice();
    let to = far.places.as_slice();
    for k in 0..from.len() {
        let part = take_part(parts.as_slice(), &mut more, from[k] as usize);
        add(&mut out, to[k] as usize, part);
    }
    Ok(out)
}
