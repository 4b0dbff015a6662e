//! Numbers for the vertices of a side.
ghost use Rattle.std.specs.Prelude.{◌≡◌, ℕ, ◌+◌, ◌^◌, ◌<◌, ◌≤◌, ◌++◌, ◌∷◌, [], None, nat_eq, if◌then◌else◌, length, slice_index, slice_set, vec_len, vec_capacity, IfOk, OnOk, OnErr};
ghost use Rattle.std.specs.HashMap.{get};
ghost use Rattle.gj_subgraph.specs.Masses.{with_vertex, vertices};
ghost use Rattle.gj_subgraph.specs.Numbers.{AreNumbers, ArePlaced, AreDegrees, AreNumbered};

use crate::vertices::Vertices;
use gj_base::Memory;
use gj_names::Names;
use std::alloc::Global;
use std::collections::HashMap;

/// More edges than any window has.
const MOST_EDGES: usize = 8_388_608;

/// Puts the value at the end.
pub fn push<T: Drop>(values: &mut Vec<T>, x: T) -> Result<(), Memory>
    ensures { OnOk result (values.new.items ≡ values.old.items ++ x ∷ []) }
{
    match values.push(x) {
        Ok(()) => Ok(()),
        Err(_) => Err(Memory),
    }
}

/// An empty list, with room for so many values.
pub fn with_room<T: Drop>(alloc: Global, room: usize) -> Result<Vec<T>, Memory>
    ensures empty { IfOk result (λ values. values.items ≡ []) }
    ensures room { IfOk result (λ values. room ≤ vec_capacity values) }
{
    match Vec::with_capacity(alloc, room) {
        Ok(values) => Ok(values),
        Err(_) => Err(Memory),
    }
}

/// Gives a new vertex the next number.
fn add_name(
    numbers: &mut HashMap<u64, usize>,
    names: &mut Vec<u64>,
    id: u64,
) -> Result<usize, Memory>
    requires numbers { AreNumbers numbers.old names.old.items }
    ensures numbers { OnOk result (AreNumbers numbers.new names.new.items) }
    ensures names { OnOk result (names.new.items ≡ names.old.items ++ id ∷ []) }
    ensures exact { IfOk result (λ n. n ≡ length names.old.items) }
{
    let number = names.len();
    push(names, id)?;
    match numbers.insert(id, number) {
        Ok(_) => Ok(number),
        Err(_) => Err(Memory),
    }
}

/// The number of the vertex, which is the next one where it has none yet.
pub fn number_of(
    numbers: &mut HashMap<u64, usize>,
    names: &mut Vec<u64>,
    id: u64,
) -> Result<usize, Memory>
    requires { AreNumbers numbers.old names.old.items }
    ensures numbers { OnOk result (AreNumbers numbers.new names.new.items) }
    ensures names { OnOk result (names.new.items ≡ with_vertex names.old.items id) }
    ensures in_range { IfOk result (λ n. n < length names.new.items) }
    ensures exact { IfOk result (λ n. slice_index names.new.items n ≡ id) }
{
    match numbers.get(&id).copied() {
        Some(number) => Ok(number),
        None => add_name(numbers, names, id),
    }
}

/// Room for the vertices of a side, of which there are no more than edges. A window has fewer than `MOST_EDGES`.
fn room_for(side: &[u64]) -> Result<u32, Memory>
    ensures { IfOk result (λ room. (length side.now ≤ room) × (1 ≤ room) × (room ≤ MOST_EDGES)) }
{
    let room = side.len().max(1);
    if room > MOST_EDGES {
        return Err(Memory);
    }
    Ok(room as u32)
}

/// The identifiers as a list.
fn listed(alloc: Global, names: &Names) -> Result<Vec<u64>, Memory>
    ensures { IfOk result (λ ids. ids.items ≡ names.now.ids) }
{
    let mut ids = with_room(alloc, names.len() as usize)?;
    for v in 0..names.len() {
        push(&mut ids, names.id_of(v))?;
    }
    Ok(ids)
}

/// The vertices of the side, each once, and for each edge the number of its vertex among them.
fn places_of(alloc: Global, side: &[u64]) -> Result<(Vec<u64>, Vec<u32>), Memory>
    ensures few { IfOk result (λ r. length side.now ≤ MOST_EDGES) }
    ensures names { IfOk result (λ r. r.0.items ≡ vertices side.now) }
    ensures places { IfOk result (λ r. ArePlaced side.now r.0.items r.1.items) }
{
    let mut names = Names::new(alloc, room_for(side)?)?;
    let mut places = with_room(alloc, side.len())?;
    for id in side {
        push(&mut places, names.put(*id))?;
    }
    let ids = listed(alloc, &names)?;
    Ok((ids, places))
}

/// As many zeros.
pub fn zeros(alloc: Global, n: usize) -> Result<Vec<u32>, Memory>
    ensures len { IfOk result (λ v. length v.items ≡ n) }
    ensures zero { IfOk result (λ v. (u : ℕ) → slice_index v.items u ≡ 0) }
{
    match vec![in alloc; 0; n] {
        Ok(v) => Ok(v),
        Err(_) => Err(Memory),
    }
}

/// Adds to the number at a place.
pub fn add(values: &mut Vec<u32>, at: usize, x: u32)
    requires in_range { at < length values.old.items }
    requires fits { slice_index values.old.items at + x < 2 ^ 32 }
    ensures { values.new.items ≡ slice_set values.old.items at (slice_index values.old.items at + x) }
{
    values[at] += x;
}

/// How many edges each vertex has.
fn degrees_of(
    alloc: Global,
    side: &[u64],
    names: &[u64],
    places: &[u32],
) -> Result<Vec<u32>, Memory>
    requires few { length side.now ≤ MOST_EDGES }
    requires names { names.now ≡ vertices side.now }
    requires places { ArePlaced side.now names.now places.now }
    ensures { IfOk result (λ degrees. AreDegrees side.now names.now degrees.items) }
{
    let mut degrees = zeros(alloc, names.len())?;
    for i in 0..places.len() {
        add(&mut degrees, places[i] as usize, 1);
    }
    Ok(degrees)
}

/// The side's vertices by numbers.
pub fn numbered(alloc: Global, side: Vec<u64>) -> Result<Vertices, Memory>
    ensures side { IfOk result (λ v. v.side.items ≡ side.items) }
    ensures numbered { IfOk result AreNumbered }
{
    let (names, places) = places_of(alloc, &side)?;
    let degrees = degrees_of(alloc, &side, &names, &places)?;
    Ok(Vertices {
        side,
        names,
        degrees,
        places,
    })
}
