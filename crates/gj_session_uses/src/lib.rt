//! Sessions as their callers use them, in tests: reference answers, and sessions that are served over an opening.
#![tactic(auto)]

#[cfg(test)]
mod answer_tests;
#[cfg(test)]
mod form_tests;
#[cfg(test)]
mod noted_tests;
#[cfg(test)]
mod served_tests;
#[cfg(test)]
mod waiting;
