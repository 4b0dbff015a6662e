//! Arrays of a body.
ghost use Rattle.std.specs.Prelude.{◌≡◌, ◌++◌, map, OnOk};
ghost use Rattle.std.specs.Fmt.{decimal};
ghost use Rattle.gj_reply.specs.Arrays.{array, edge_text, item_text, ranked_text, score_text};

use crate::edge::EdgeOf;
use crate::pieces::{put, put_comma, put_member, put_number, put_two};
use gj_base::{Item, Memory};
use gj_proof::Ranked;
use gj_similar::Score;

/// Appends an array of identifiers.
pub(crate) fn put_ids(out: &mut Vec<u8>, ids: &[u64]) -> Result<(), Memory>
    ensures { OnOk result (out.new.items ≡ out.old.items ++ array (map decimal ids.now)) }
{
    put(out, "[")?;
    for (i, id) in ids.iter().enumerate() {
        put_comma(out, i)?;
        put_number(out, *id)?;
    }
    put(out, "]")
}

/// Appends a post of a ranking. `measure` names what it is ranked by.
pub(crate) fn put_ranked(out: &mut Vec<u8>, measure: &str, ranked: &Ranked) -> Result<(), Memory>
    ensures { OnOk result (out.new.items ≡ out.old.items ++ ranked_text measure.now ranked.now) }
{
    put_member(out, "{\"post\":", ranked.id)?;
    put_member(out, measure, ranked.number)?;
    put(out, ",\"proof\":")?;
    put_ids(out, ranked.proof.as_slice())?;
    put(out, "}")
}

/// Appends an array of a ranking's posts.
pub(crate) fn put_ranking(
    out: &mut Vec<u8>,
    measure: &str,
    results: &[Ranked],
) -> Result<(), Memory>
    ensures { OnOk result (out.new.items ≡ out.old.items ++ array (map (ranked_text measure.now) results.now)) }
{
    put(out, "[")?;
    for (i, ranked) in results.iter().enumerate() {
        put_comma(out, i)?;
        put_ranked(out, measure, ranked)?;
    }
    put(out, "]")
}

/// Appends a similar post.
pub(crate) fn put_score(out: &mut Vec<u8>, score: &Score) -> Result<(), Memory>
    ensures { OnOk result (out.new.items ≡ out.old.items ++ score_text score.now) }
{
    put_member(out, "{\"post\":", score.post)?;
    put_member(out, ",\"co\":", score.co)?;
    put_member(out, ",\"degree\":", score.degree)?;
    put(out, "}")
}

/// Appends an array of similar posts.
pub(crate) fn put_scores(out: &mut Vec<u8>, results: &[Score]) -> Result<(), Memory>
    ensures { OnOk result (out.new.items ≡ out.old.items ++ array (map score_text results.now)) }
{
    put(out, "[")?;
    for (i, score) in results.iter().enumerate() {
        put_comma(out, i)?;
        put_score(out, score)?;
    }
    put(out, "]")
}

/// Appends a recent interaction. `across` begins it with the name of the side that it leads to.
pub(crate) fn put_edge(out: &mut Vec<u8>, across: &str, edge: &EdgeOf) -> Result<(), Memory>
    ensures { OnOk result (out.new.items ≡ out.old.items ++ edge_text across.now edge.now) }
{
    put_member(out, across, edge.id)?;
    put(out, ",\"kind\":\"")?;
    put(out, edge.kind.name())?;
    put(out, "\"}")
}

/// Appends an array of recent interactions.
pub(crate) fn put_edges(out: &mut Vec<u8>, across: &str, recent: &[EdgeOf]) -> Result<(), Memory>
    ensures { OnOk result (out.new.items ≡ out.old.items ++ array (map (edge_text across.now) recent.now)) }
{
    put(out, "[")?;
    for (i, edge) in recent.iter().enumerate() {
        put_comma(out, i)?;
        put_edge(out, across, edge)?;
    }
    put(out, "]")
}

/// Appends an interaction of the history.
pub(crate) fn put_item(out: &mut Vec<u8>, item: &Item) -> Result<(), Memory>
    ensures { OnOk result (out.new.items ≡ out.old.items ++ item_text item.now) }
{
    put_two(out, "{\"user\":", item.user, ",\"post\":", item.post)?;
    put(out, ",\"kind\":\"")?;
    put(out, item.kind.name())?;
    put_member(out, "\",\"at\":", item.at)?;
    put(out, "}")
}

/// Appends an array of interactions.
pub(crate) fn put_items(out: &mut Vec<u8>, items: &[Item]) -> Result<(), Memory>
    ensures { OnOk result (out.new.items ≡ out.old.items ++ array (map item_text items.now)) }
{
    put(out, "[")?;
    for (i, item) in items.iter().enumerate() {
        put_comma(out, i)?;
        put_item(out, item)?;
    }
    put(out, "]")
}
