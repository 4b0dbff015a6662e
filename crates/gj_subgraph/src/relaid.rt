//! Half steps over edges that lie by users, and once more by posts.
ghost use Rattle.std.specs.Prelude.{◌≡◌, ℕ, List, ◌-◌, ◌*◌, ◌^◌, ◌<◌, ◌≤◌, true, length, sum, slice_index, IfOk};
ghost use Rattle.gj_base.specs.Edges.{stands_in};
ghost use Rattle.gj_subgraph.specs.Masses.{vertices, half_step, spread, starting};
ghost use Rattle.gj_subgraph.specs.Numbers.{AreNumbers, AreNumbered, ArePlaced, units_in};
ghost use Rattle.gj_subgraph.specs.Regrouped.{AreRelaid, HaveSameEdges};

use crate::masses::started;
use crate::number::{number_of, push, with_room};
use crate::step::half_step;
use crate::vertices::Vertices;
use gj_base::Memory;
use std::alloc::Global;
use std::collections::HashMap;

/// The numbers of the vertices of a side.
fn numbers_of(alloc: Global, side: &[u64]) -> Result<HashMap<u64, usize>, Memory>
    ensures { IfOk result (λ numbers. AreNumbers numbers (vertices side.now)) }
{
    let mut numbers = HashMap::new(alloc);
    let mut names = Vec::new(alloc);
    for id in side {
        number_of(&mut numbers, &mut names, *id)?;
    }
    Ok(numbers)
}

/// The number of a vertex that has one.
fn number_in(numbers: &HashMap<u64, usize>, id: u64) -> usize
    ensures { (names : List ℕ) → AreNumbers numbers.now names → stands_in names id ≡ true → (result < length names) × (slice_index names result ≡ id) }
{
    match numbers.get(&id).copied() {
        Some(number) => number,
        None => 0,
    }
}

/// For each vertex of one numbering its number in another.
fn matched(alloc: Global, from: &Vertices, to: &Vertices) -> Result<Vec<usize>, Memory>
    requires from { AreNumbered from.now }
    requires known { (k : ℕ) → k < length to.now.names.items → stands_in from.now.names.items (slice_index to.now.names.items k) ≡ true }
    ensures { IfOk result (λ places. ArePlaced to.now.names.items from.now.names.items places.items) }
{
    let numbers = numbers_of(alloc, from.side.as_slice())?;
    let names = to.names.as_slice();
    let mut places = with_room(alloc, names.len())?;
    for k in 0..names.len() {
        push(&mut places, number_in(&numbers, names[k]))?;
    }
    Ok(places)
}

/// The units by the numbers of another numbering.
fn renumbered(alloc: Global, places: &[usize], units: &[u32]) -> Result<Vec<u32>, Memory>
    requires { (k : ℕ) → k < length places.now → slice_index places.now k < length units.now }
    ensures len { IfOk result (λ out. length out.items ≡ length places.now) }
    ensures exact { IfOk result (λ out. (k : ℕ) → k < length places.now → slice_index out.items k ≡ slice_index units.now (slice_index places.now k)) }
{
    let mut out = with_room(alloc, places.len())?;
    for k in 0..places.len() {
        push(&mut out, units[places[k]])?;
    }
    Ok(out)
}

/// The units at the posts after one half step to the users and one back.
fn next_units(
    alloc: Global,
    users: &Vertices,
    posts: &Vertices,
    back_posts: &Vertices,
    back_users: &Vertices,
    to_posts: &[usize],
    to_users: &[usize],
    units: &[u32],
) -> Result<Vec<u32>, Memory>
    requires users { AreNumbered users.now }
    requires posts { AreNumbered posts.now }
    requires back_posts { AreNumbered back_posts.now }
    requires back_users { AreNumbered back_users.now }
    requires relaid { AreRelaid users.now.side.items posts.now.side.items back_posts.now.side.items back_users.now.side.items }
    requires to_posts { ArePlaced back_posts.now.names.items posts.now.names.items to_posts.now }
    requires to_users { ArePlaced users.now.names.items back_users.now.names.items to_users.now }
    requires units { length units.now ≡ length posts.now.names.items }
    requires small { sum units.now < 2 ^ 31 }
    ensures len { IfOk result (λ out. length out.items ≡ length posts.now.names.items) }
    ensures kept { IfOk result (λ out. sum out.items ≡ sum units.now) }
    ensures exact { IfOk result (λ out. (near far : List ℕ)
        → HaveSameEdges users.now.side.items posts.now.side.items near far
        → HaveSameEdges back_posts.now.side.items back_users.now.side.items far near
        → units_in posts.now.names.items out.items ≡ half_step near far (half_step far near (units_in posts.now.names.items units.now))) }
{
    let start = renumbered(alloc, to_posts, units)?;
    let back = half_step(alloc, back_posts, back_users, start.as_slice())?;
    let again = renumbered(alloc, to_users, back.as_slice())?;
    let out = half_step(alloc, users, posts, again.as_slice())?;
    Ok(out)
}

/// The units at the posts after the last half step: those to the posts go by the edges of the users, and those back by the
/// edges of the posts.
pub fn relaid_units(
    alloc: Global,
    users: &Vertices,
    posts: &Vertices,
    back_posts: &Vertices,
    back_users: &Vertices,
    iterations: u32,
) -> Result<Vec<u32>, Memory>
    requires users { AreNumbered users.now }
    requires posts { AreNumbered posts.now }
    requires back_posts { AreNumbered back_posts.now }
    requires back_users { AreNumbered back_users.now }
    requires relaid { AreRelaid users.now.side.items posts.now.side.items back_posts.now.side.items back_users.now.side.items }
    requires few { length users.now.names.items ≤ 1000 }
    requires some { 0 < iterations }
    ensures len { IfOk result (λ units. length units.items ≡ length posts.now.names.items) }
    ensures exact { IfOk result (λ units. (near far : List ℕ)
        → HaveSameEdges users.now.side.items posts.now.side.items near far
        → HaveSameEdges back_posts.now.side.items back_users.now.side.items far near
        → units_in posts.now.names.items units.items ≡ spread (2 * iterations - 1) near far (starting near)) }
{
    let to_posts = matched(alloc, posts, back_posts)?;
    let to_users = matched(alloc, back_users, users)?;
    let start = started(alloc, users.names.len())?;
    let mut units = half_step(alloc, users, posts, start.as_slice())?;
    for _i in 1..iterations {
        units = next_units(
            alloc,
            users,
            posts,
            back_posts,
            back_users,
            to_posts.as_slice(),
            to_users.as_slice(),
            units.as_slice(),
        )?;
    }
    Ok(units)
}
