//! Indexes over keepers of any kind, as their callers use them, in tests.
#![tactic(auto)]

#[cfg(test)]
mod keep_tests;
