//! Stores in SQLite as their callers use them, in tests: files, and disks in memory that stop.
#![tactic(auto)]

#[cfg(test)]
mod file_tests;
#[cfg(test)]
mod stop_tests;
