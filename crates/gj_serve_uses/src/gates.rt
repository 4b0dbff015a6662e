//! Gates that hold a session until another has come so far, for a bounded number of turns.

use gj_base::Gate;
use std::rt::Clock;
use std::sync::atomic::{AtomicU64, Ordering};
use std::thread;
use std::time::Duration;

/// How many turns of a millisecond a session is held at most.
const TURNS: u32 = 20_000;

/// Waits until the count is 2, and says whether it came to be.
fn waits_for_two<R: Clock>(rt: &R, count: &AtomicU64) -> bool {
    for _ in 0..TURNS {
        if count.load(Ordering::SeqCst) >= 2 {
            return true;
        }
        thread::sleep(rt, Duration::from_millis(1));
    }
    false
}

/// Holds each session before its first message is answered until two have come so far.
#[derive(Drop)]
pub(crate) struct Meeting<R> {
    rt: R,
    come: AtomicU64,
    alone: AtomicU64,
}

impl<R> Meeting<R> {
    pub(crate) fn new(rt: R) -> Self {
        Meeting {
            rt,
            come: AtomicU64::new(0),
            alone: AtomicU64::new(0),
        }
    }

    /// How many sessions were let go though no other had come.
    pub(crate) fn alone(&self) -> u64 {
        self.alone.load(Ordering::SeqCst)
    }
}

impl<R: Clock> Gate for Meeting<R> {
    fn before(&self, _seat: u32, number: u64) {
        if number == 1 {
            self.come.fetch_add(1, Ordering::SeqCst);
            if !waits_for_two(&self.rt, &self.come) {
                self.alone.fetch_add(1, Ordering::SeqCst);
            }
        }
    }

    fn after(&self, _seat: u32, _number: u64) {}
}

/// Holds each session before its second message is answered until the first of both is.
#[derive(Drop)]
pub(crate) struct Turn<R> {
    rt: R,
    answered: AtomicU64,
    early: AtomicU64,
}

impl<R> Turn<R> {
    pub(crate) fn new(rt: R) -> Self {
        Turn {
            rt,
            answered: AtomicU64::new(0),
            early: AtomicU64::new(0),
        }
    }

    /// How many sessions were let go though the other was not answered.
    pub(crate) fn early(&self) -> u64 {
        self.early.load(Ordering::SeqCst)
    }
}

impl<R: Clock> Gate for Turn<R> {
    fn before(&self, _seat: u32, number: u64) {
        if number == 2 && !waits_for_two(&self.rt, &self.answered) {
            self.early.fetch_add(1, Ordering::SeqCst);
        }
    }

    fn after(&self, _seat: u32, number: u64) {
        if number == 1 {
            self.answered.fetch_add(1, Ordering::SeqCst);
        }
    }
}
