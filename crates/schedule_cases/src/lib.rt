//! Examples of every fault of a schedule, of the order of the tests, and of writing and reading back.
//!
//! They stand in a crate of their own, so that an edit of an example does not prove the format again.
#![tactic(auto)]

#[cfg(test)]
mod reading;
#[cfg(test)]
mod writing;
