//! The one history of an opening, as tokens: who may add to it, and beginnings of it that were seen.
//!
//! The history stands in no memory: it is ghost state of a book, whose log grows by whole lots. Contracts see a `Front`
//! as a beginning of it, and the `Scribe` as all of it. What an opening fixes is named by a type `J: Opening`, so that a
//! seat and a writer that name one `J` are known to be of one opening. No call takes memory.
#![tactic(auto)]

mod front;
mod law;
mod naming;
mod pages;
mod scribe;

pub use front::Front;
pub use law::{Law, Posting};
pub use naming::{Naming, Opening};
pub use pages::BlankBook;
pub use scribe::Scribe;
