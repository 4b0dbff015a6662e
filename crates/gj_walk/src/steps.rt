//! The steps of a walk.
ghost use Rattle.std.specs.Prelude.{◌≡◌, ◌≤◌, [], ◌++◌, length, slice_index, IfOk, OnOk};
ghost use Rattle.gj_base.specs.Draw.{pick_of, words, after};
ghost use Rattle.gj_base.specs.Tally.{sum_of};
ghost use Rattle.gj_walk.specs.Walk.{step_of, visit_first, walked, visits_of};
ghost use Rattle.gj_walk.specs.declared.state.State.TheVariants.{Seed};

use crate::state::State;
use gj_base::{Graph, Hint, Memory, NO_HINT, Side, Tally, WalkAsk, pick, resets};
use rand_core::utils::NextWord;
use std::alloc::Global;

/// How often a walk visited each post.
pub type Visits = Tally;

/// The seed user that the word picks.
fn seed_user(ask: &WalkAsk, word: u64) -> u64
    ensures { result ≡ slice_index ask.now.seeds (pick_of word (length ask.now.seeds)) }
{
    let seeds = ask.seeds.as_slice();
    seeds[pick(word, seeds.len() as u64) as usize]
}

/// The post that a step visits, where it visits one, the next state, and a hint to where it stands.
#[tactic(auto, unfolding(crate::specs::Walk::step_of))]
fn step<G: Graph>(
    graph: &G,
    ask: &WalkAsk,
    word: u64,
    state: State,
    hint: Hint,
) -> (Option<u64>, State, Hint)
    ensures { (result.0, result.1) ≡ step_of (G.shown graph.now).items ask.now word state }
{
    match state {
        State::Seed => (None, State::User(seed_user(ask, word)), NO_HINT),
        State::User(user) => match graph.pick_end_near(Side::User, user, hint, ask.mask, word) {
            (None, _) => (None, State::Seed, NO_HINT),
            (Some(post), near) => (Some(post), State::Post(post), near),
        },
        State::Post(post) => match graph.pick_end_near(Side::Post, post, hint, ask.mask, word) {
            (None, _) => (None, State::Seed, NO_HINT),
            (Some(user), near) => {
                if resets(word, ask.reset) {
                    (None, State::Seed, NO_HINT)
                } else {
                    (None, State::User(user), near)
                }
            }
        },
    }
}

/// The posts that the walk visits, in order.
fn visited_posts<G: Graph, R: NextWord<u64>>(
    alloc: Global,
    graph: &G,
    ask: &WalkAsk,
    generator: &mut R,
) -> Result<Vec<u64>, Memory>
    ensures ok { IfOk result (λ posts. posts.items ≡ walked (G.shown graph.now).items ask.now (words R.step ask.now.steps generator.old) Seed) }
    ensures further { OnOk result (generator.new ≡ after R.step ask.now.steps generator.old) }
{
    let mut posts = Vec::new(alloc);
    // Every other step visits a post at most.
    if posts.reserve(ask.steps as usize / 2 + 1).is_err() {
        return Err(Memory);
    }
    let mut state = State::Seed;
    let mut hint = NO_HINT;
    for _ in 0..ask.steps {
        let word = generator.next_word();
        let (visited, next, near) = step(graph, ask, word, state, hint);
        note(&mut posts, visited)?;
        state = next;
        hint = near;
    }
    Ok(posts)
}

/// Puts the visited post at the end, where there is one.
fn note(posts: &mut Vec<u64>, visited: Option<u64>) -> Result<(), Memory>
    ensures { OnOk result (posts.new.items ≡ posts.old.items ++ visit_first visited []) }
{
    match visited {
        None => Ok(()),
        Some(post) => posts.push(post).map_err(|_| Memory),
    }
}

/// The visits of the walk from the ask's seed users, by the generator's next `steps` words, one a step. A step calls the
/// graph twice at most and takes no memory; the visits are counted at the end. Where memory is wanting, nothing is said
/// of the generator.
pub fn walk<G: Graph, R: NextWord<u64>>(
    alloc: Global,
    graph: &G,
    ask: &WalkAsk,
    generator: &mut R,
) -> Result<Visits, Memory>
    ensures ok { IfOk result (λ visits. visits ≡ visits_of (G.shown graph.now).items ask.now (words R.step ask.now.steps generator.old)) }
    ensures further { OnOk result (generator.new ≡ after R.step ask.now.steps generator.old) }
    ensures in_range { IfOk result (λ visits. sum_of visits ≤ ask.now.steps) }
{
    let posts = visited_posts(alloc, graph, ask, generator)?;
    Tally::of_posts(alloc, posts)
}
