//! How much room a body needs.

use crate::reply::Reply;
use gj_proof::Ranked;

/// No less than the body's length: the pieces that it is put together from, and 20 digits for each number.
pub(crate) fn room_for(reply: &Reply) -> usize {
    match reply {
        Reply::Walk { results, .. }
        | Reply::Subgraph { results, .. }
        | Reply::Count { results, .. } => room_for_ranking(results.as_slice()),
        Reply::Similar { results, .. } => FRAME.saturating_add(
            results.len().saturating_mul(MEMBER),
        ),
        Reply::User { recent, .. } | Reply::Post { recent, .. } => {
            FRAME.saturating_add(recent.len().saturating_mul(MEMBER))
        }
        Reply::Log { items, .. } => FRAME.saturating_add(items.len().saturating_mul(ITEM)),
        _ => FRAME,
    }
}

/// The room of the longest body without its array.
const FRAME: usize = 320;

/// The room of the longest member of an array, without the proof.
const MEMBER: usize = 96;

/// The room of an interaction of the history, and a comma.
const ITEM: usize = 104;

/// The room of an identifier and a comma.
const ID: usize = 21;

fn room_for_ranking(results: &[Ranked]) -> usize {
    let mut room = FRAME;
    for ranked in results {
        let proof = ranked.proof.len().saturating_mul(ID);
        room = room.saturating_add(MEMBER).saturating_add(proof);
    }
    room
}
