//! The bodies of replies.
ghost use Rattle.std.specs.Prelude.{◌≡◌, ◌++◌, OnOk, codes};
ghost use Rattle.std.specs.Fmt.{decimal};
ghost use Rattle.gj_reply.specs.Bodies.{apart_text, body_of, conf_text, gone_text, kinds_text, log_text, posted_text, ranking_text, repeated_text, similar_text, stats_text, vertex_text};
ghost use Rattle.gj_request.specs.Names.{name_text};

use crate::arrays::{put_edges, put_items, put_ranking, put_scores};
use crate::edge::EdgeOf;
use crate::pieces::{put, put_member, put_two};
use crate::reply::{KindCounts, Reply};
use gj_base::{Conf, Item, Memory};
use gj_proof::Ranked;
use gj_request::Name;
use gj_similar::Score;

fn put_posted(out: &mut Vec<u8>, from: u64, length: u64) -> Result<(), Memory>
    ensures { OnOk result (out.new.items ≡ out.old.items ++ posted_text from length) }
{
    put_member(out, "{\"from\":", from)?;
    put_member(out, ",\"length\":", length)?;
    put(out, "}")
}

fn put_repeated(out: &mut Vec<u8>, from: u64, length: u64) -> Result<(), Memory>
    ensures { OnOk result (out.new.items ≡ out.old.items ++ repeated_text from length) }
{
    put_two(out, "{\"from\":", from, ",\"length\":", length)?;
    put(out, ",\"repeated\":true}")
}

/// Appends what begins with the text, and ends with the number.
fn put_last(out: &mut Vec<u8>, text: &str, number: u64) -> Result<(), Memory>
    ensures { OnOk result (out.new.items ≡ out.old.items ++ (text.now ++ decimal number ++ codes "}")) }
{
    put_member(out, text, number)?;
    put(out, "}")
}

fn put_apart(
    out: &mut Vec<u8>,
    seen: u64,
    shown: u64,
    posted: u64,
    counted: u64,
) -> Result<(), Memory>
    ensures { OnOk result (out.new.items ≡ out.old.items ++ apart_text seen shown posted counted) }
{
    put_two(
        out,
        "{\"error\":\"apart\",\"seen\":",
        seen,
        ",\"shown\":",
        shown,
    )?;
    put_two(out, ",\"posted\":", posted, ",\"counted\":", counted)?;
    put(out, "}")
}

/// Appends a ranking. `measure` names what it is ranked by.
fn put_ranking_of(
    out: &mut Vec<u8>,
    measure: &str,
    length: u64,
    results: &[Ranked],
) -> Result<(), Memory>
    ensures { OnOk result (out.new.items ≡ out.old.items ++ ranking_text measure.now length results.now) }
{
    put_member(out, "{\"length\":", length)?;
    put(out, ",\"results\":")?;
    put_ranking(out, measure, results)?;
    put(out, "}")
}

fn put_similar(out: &mut Vec<u8>, length: u64, results: &[Score]) -> Result<(), Memory>
    ensures { OnOk result (out.new.items ≡ out.old.items ++ similar_text length results.now) }
{
    put_member(out, "{\"length\":", length)?;
    put(out, ",\"results\":")?;
    put_scores(out, results)?;
    put(out, "}")
}

/// Appends a vertex. `side` names its side, and `across` the one that it leads to.
fn put_vertex(
    out: &mut Vec<u8>,
    side: &str,
    across: &str,
    length: u64,
    id: u64,
    degree: u64,
    recent: &[EdgeOf],
) -> Result<(), Memory>
    ensures { OnOk result (out.new.items ≡ out.old.items
        ++ vertex_text side.now across.now length id degree recent.now) }
{
    put_member(out, "{\"length\":", length)?;
    put_member(out, side, id)?;
    put_member(out, ",\"degree\":", degree)?;
    put(out, ",\"recent\":")?;
    put_edges(out, across, recent)?;
    put(out, "}")
}

fn put_kinds(out: &mut Vec<u8>, kinds: &KindCounts) -> Result<(), Memory>
    ensures { OnOk result (out.new.items ≡ out.old.items ++ kinds_text kinds.now) }
{
    put_two(
        out,
        "{\"click\":",
        kinds.click,
        ",\"favorite\":",
        kinds.favorite,
    )?;
    put_two(
        out,
        ",\"retweet\":",
        kinds.retweet,
        ",\"reply\":",
        kinds.reply,
    )?;
    put_member(out, ",\"tweet\":", kinds.tweet)?;
    put(out, "}")
}

fn put_conf(out: &mut Vec<u8>, conf: Conf) -> Result<(), Memory>
    ensures { OnOk result (out.new.items ≡ out.old.items ++ conf_text conf) }
{
    let capacity = u64::from(conf.capacity());
    let segments = u64::from(conf.segments());
    put_two(out, ",\"capacity\":", capacity, ",\"segments\":", segments)
}

fn put_stats(
    out: &mut Vec<u8>,
    length: u64,
    base: u64,
    conf: Conf,
    kinds: &KindCounts,
) -> Result<(), Memory>
    ensures { OnOk result (out.new.items ≡ out.old.items ++ stats_text length base conf kinds.now) }
{
    put_two(out, "{\"length\":", length, ",\"base\":", base)?;
    put_conf(out, conf)?;
    put(out, ",\"kinds\":")?;
    put_kinds(out, kinds)?;
    put(out, "}")
}

fn put_log(out: &mut Vec<u8>, length: u64, from: u64, items: &[Item]) -> Result<(), Memory>
    ensures { OnOk result (out.new.items ≡ out.old.items ++ log_text length from items.now) }
{
    put_two(out, "{\"length\":", length, ",\"from\":", from)?;
    put(out, ",\"items\":")?;
    put_items(out, items)?;
    put(out, "}")
}

fn put_gone(out: &mut Vec<u8>, length: u64, base: u64) -> Result<(), Memory>
    ensures { OnOk result (out.new.items ≡ out.old.items ++ gone_text length base) }
{
    put_two(
        out,
        "{\"error\":\"gone\",\"length\":",
        length,
        ",\"base\":",
        base,
    )?;
    put(out, "}")
}

/// Appends a refusal that begins with the text, and names a field.
fn put_named(out: &mut Vec<u8>, text: &str, name: Name) -> Result<(), Memory>
    ensures { OnOk result (out.new.items ≡ out.old.items ++ (text.now ++ name_text name ++ codes "\"}")) }
{
    put(out, text)?;
    put(out, name.text())?;
    put(out, "\"}")
}

/// Appends the body of the reply.
pub(crate) fn put_reply(out: &mut Vec<u8>, reply: &Reply) -> Result<(), Memory>
    ensures { OnOk result (out.new.items ≡ out.old.items ++ body_of reply.now) }
{
    match reply {
        Reply::Posted { from, length } => put_posted(out, *from, *length),
        Reply::Repeated { from, length } => put_repeated(out, *from, *length),
        Reply::Old { last } => put_last(out, "{\"error\":\"old\",\"last\":", *last),
        Reply::Skipped { last } => put_last(out, "{\"error\":\"skipped\",\"last\":", *last),
        Reply::Full { length } => put_last(out, "{\"error\":\"full\",\"length\":", *length),
        Reply::Behind { length } => put_last(out, "{\"error\":\"behind\",\"length\":", *length),
        Reply::Store => put(out, "{\"error\":\"store\"}"),
        Reply::Apart {
            seen,
            shown,
            posted,
            counted,
        } => put_apart(out, *seen, *shown, *posted, *counted),
        Reply::Walk { length, results } => put_ranking_of(
            out,
            ",\"visits\":",
            *length,
            results.as_slice(),
        ),
        Reply::Subgraph { length, results } => put_ranking_of(
            out,
            ",\"units\":",
            *length,
            results.as_slice(),
        ),
        Reply::Similar { length, results } => put_similar(out, *length, results.as_slice()),
        Reply::Count { length, results } => put_ranking_of(
            out,
            ",\"weight\":",
            *length,
            results.as_slice(),
        ),
        Reply::User {
            length,
            id,
            degree,
            recent,
        } => {
            put_vertex(
                out,
                ",\"user\":",
                "{\"post\":",
                *length,
                *id,
                *degree,
                recent.as_slice(),
            )
        }
        Reply::Post {
            length,
            id,
            degree,
            recent,
        } => {
            put_vertex(
                out,
                ",\"post\":",
                "{\"user\":",
                *length,
                *id,
                *degree,
                recent.as_slice(),
            )
        }
        Reply::Stats {
            length,
            base,
            conf,
            kinds,
        } => put_stats(out, *length, *base, *conf, kinds),
        Reply::Log {
            length,
            from,
            items,
        } => put_log(out, *length, *from, items.as_slice()),
        Reply::Gone { length, base } => put_gone(out, *length, *base),
        Reply::Ahead { length } => put_last(out, "{\"error\":\"ahead\",\"length\":", *length),
        Reply::BadJson => put(out, "{\"error\":\"json\"}"),
        Reply::BadField(name) => put_named(out, "{\"error\":\"field\",\"name\":\"", *name),
        Reply::BadRange(name) => put_named(out, "{\"error\":\"range\",\"name\":\"", *name),
        Reply::NoRoute => put(out, "{\"error\":\"route\"}"),
        Reply::OnlyGet | Reply::OnlyPost => put(out, "{\"error\":\"method\"}"),
        Reply::BadHead => put(out, "{\"error\":\"head\"}"),
        Reply::HeadLong => put(out, "{\"error\":\"head_long\"}"),
        Reply::Coded => put(out, "{\"error\":\"coded\"}"),
        Reply::BadLength => put(out, "{\"error\":\"length\"}"),
        Reply::BodyLong => put(out, "{\"error\":\"body_long\"}"),
    }
}
