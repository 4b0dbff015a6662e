//! Sessions: what a message is answered, and what a whole stream of messages is.
//!
//! Contracts see a session as its exchanges, each a message with its answer, over the histories for which an index
//! stands, or which a seat has seen; an answer to a query is the reference reply over the window of such a history. Asks
//! and replies take memory; where none is found, a fixed reply stands. No thread is started; a served session waits for
//! the writer's lock, and both kinds wait where their streams do.
#![tactic(auto)]

mod accepting;
mod answering;
mod done;
mod hall;
mod laws;
mod linked;
mod message;
mod outcome;
mod recent;
mod replaying;
mod replying;
mod sending;
mod served;
mod session;
mod wire;

pub use accepting::{accept_noted_on, accept_on};
pub use done::Done;
pub use hall::{AnswerError, accept, accept_noted, answer};
pub use laws::whole_replies;
pub use outcome::{End, Outcome};
pub use replaying::replay_session;
pub use replying::answer_on;
pub use sending::send;
pub use served::serve_session;
