//! The steps from a post to its users and on.
ghost use Rattle.std.specs.Prelude.{◌≡◌, ◌<◌, ◌≤◌, [], ◌++◌, length, All, IfOk, OnOk, IfSome};
ghost use Rattle.gj_base.specs.Draw.{words, after};
ghost use Rattle.gj_base.specs.Ends.{ends};
ghost use Rattle.gj_base.specs.Tally.{sum_of};
ghost use Rattle.gj_similar.specs.declared.state.State.TheVariants.{Post};
ghost use Rattle.gj_similar.specs.Similar.{step_of, shared_first, co_visited, shared_of, AreScorable};

use crate::state::State;
use gj_base::{Graph, Hint, Memory, NO_HINT, Side, SimAsk, Tally};
use rand_core::utils::NextWord;
use std::alloc::Global;

/// How often each other post was shared.
pub type Shared = Tally;

/// The post that a step shares, where it shares one, the next state, and a hint to where it stands.
#[tactic(auto, unfolding(crate::specs::Similar::step_of))]
fn step<G: Graph>(
    graph: &G,
    ask: &SimAsk,
    word: u64,
    state: State,
    hint: Hint,
) -> (Option<u64>, State, Hint)
    ensures exact { (result.0, result.1) ≡ step_of (G.shown graph.now).items ask.now word state }
    ensures back { IfSome result.0 (λ post. 0 < length (ends (G.shown graph.now).items Side.Post post ask.now.mask)) }
{
    match state {
        State::Post => match graph.pick_end_near(Side::Post, ask.post, hint, ask.mask, word) {
            (None, _) => (None, State::Post, NO_HINT),
            (Some(user), near) => (None, State::User(user), near),
        },
        State::User(user) => match graph.pick_end_near(Side::User, user, hint, ask.mask, word) {
            (None, _) => (None, State::Post, NO_HINT),
            (Some(other), _) => {
                if other == ask.post {
                    (None, State::Post, NO_HINT)
                } else {
                    (Some(other), State::Post, NO_HINT)
                }
            }
        },
    }
}

/// Puts the shared post at the end, where there is one.
fn note(posts: &mut Vec<u64>, shared: Option<u64>) -> Result<(), Memory>
    ensures { OnOk result (posts.new.items ≡ posts.old.items ++ shared_first shared []) }
{
    match shared {
        None => Ok(()),
        Some(post) => posts.push(post).map_err(|_| Memory),
    }
}

/// The posts that are shared, in order.
fn shared_posts<G: Graph, R: NextWord<u64>>(
    alloc: Global,
    graph: &G,
    ask: &SimAsk,
    generator: &mut R,
) -> Result<Vec<u64>, Memory>
    ensures ok { IfOk result (λ posts. posts.items ≡ co_visited (G.shown graph.now).items ask.now (words R.step ask.now.steps generator.old) Post) }
    ensures further { OnOk result (generator.new ≡ after R.step ask.now.steps generator.old) }
    ensures back { IfOk result (λ posts. All (λ post. 0 < length (ends (G.shown graph.now).items Side.Post post ask.now.mask)) posts.items) }
    ensures few { IfOk result (λ posts. length posts.items ≤ 50000) }
{
    let mut posts = Vec::new(alloc);
    // Every other step shares a post at most.
    if posts.reserve(ask.steps as usize / 2).is_err() {
        return Err(Memory);
    }
    let mut state = State::Post;
    let mut hint = NO_HINT;
    for _ in 0..ask.steps {
        let word = generator.next_word();
        let (shared, next, near) = step(graph, ask, word, state, hint);
        note(&mut posts, shared)?;
        state = next;
        hint = near;
    }
    Ok(posts)
}

/// How often the ask's post shares a user with each other post, by the generator's next `steps` words, one a step. A step
/// calls the graph twice at most and takes no memory; the co-visits are counted at the end. Where memory is wanting,
/// nothing is said of the generator.
pub fn similar<G: Graph, R: NextWord<u64>>(
    alloc: Global,
    graph: &G,
    ask: &SimAsk,
    generator: &mut R,
) -> Result<Shared, Memory>
    ensures ok { IfOk result (λ shared. shared ≡ shared_of (G.shown graph.now).items ask.now (words R.step ask.now.steps generator.old)) }
    ensures further { OnOk result (generator.new ≡ after R.step ask.now.steps generator.old) }
    ensures in_range { IfOk result (λ shared. sum_of shared ≤ 50000) }
    ensures scorable { IfOk result (λ shared. AreScorable (G.shown graph.now).items ask.now.mask shared) }
{
    let posts = shared_posts(alloc, graph, ask, generator)?;
    Tally::of_posts(alloc, posts)
}
