//! The texts of requests and replies, their framing, pages and those who follow them, and the program's words, in tests.
#![tactic(auto)]

#[cfg(test)]
mod batch_tests;
#[cfg(test)]
mod calls;
#[cfg(test)]
mod count_tests;
#[cfg(test)]
mod follow_tests;
#[cfg(test)]
mod framing_tests;
#[cfg(test)]
mod page_tests;
#[cfg(test)]
mod reply_tests;
#[cfg(test)]
mod request_tests;
#[cfg(test)]
mod route_tests;
#[cfg(test)]
mod word_tests;
