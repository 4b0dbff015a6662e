//! The door and its workers as a server uses them, in tests: two links, two desks, and a gate that holds sessions.
#![tactic(auto)]

#[cfg(test)]
mod gates;
#[cfg(test)]
mod links;
#[cfg(test)]
mod loopback_tests;
#[cfg(test)]
mod serving;
#[cfg(test)]
mod tests;
