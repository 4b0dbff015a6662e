//! The calls on a store, as values: a keeper at one type of connection passes each through one function.

use sqlite::{Alter, Connection, Error};

/// A call on a store.
pub trait Call {
    /// What it answers.
    type Answer;

    /// Makes the call over the connection.
    fn run<F: Alter>(self, connection: &mut Connection<F>) -> Result<Self::Answer, Error>;
}
