//! HTTP/1.x: how the bytes of a connection are cut into messages, however they come, the routes of their paths, and the
//! bytes of responses.
//!
//! Contracts see a framer as the bytes that were fed and not yet handed out, and the room for more; texts as lists of
//! codes. `Framer::new`, `Routes::new` and `response` take memory; no other call takes any.
#![tactic(auto)]

mod fixed;
mod found;
mod framer;
mod front;
mod head;
mod laws;
mod message;
mod options;
mod responses;
mod routes;

pub use fixed::fixed_response;
pub use found::{Found, RouteError};
pub use framer::Framer;
pub use laws::{
    beginnings, cut_goes_on, fed_as_cut, front_stays, loop_keeps, one_cut, one_front, some_cut,
    taken_as_cut,
};
pub use message::{Message, Method, Refused, Step};
pub use responses::response;
pub use routes::Routes;
