//! What a worker has.

use crate::naming::Stating;
use crate::pass::Pass;
use gj_base::Grow;
use gj_http::Framer;
use gj_log::Opening;
use gj_publish::Seat;
use std::sync::ledger::Ledger;

/// What a worker has: its seat, its framer and its pass.
#[derive(Drop)]
pub struct Desk<W: Grow + Drop, J: Opening, T: Stating, B: Ledger, O: Ledger, E: Ledger> {
    pub seat: Seat<W, J>,
    pub framer: Framer,
    pub pass: Pass<T, B, O, E>,
}
