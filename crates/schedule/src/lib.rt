//! Schedules of calls as bytes.
//!
//! One definition says which bytes a schedule is; reading and writing are both held to it, so that
//! what is written reads back the same, and what is accepted is written back the same.
#![tactic(auto)]

mod bytes;
pub mod call;
pub mod fault;
pub mod operation;
pub mod reader;
mod record;
pub mod whole;
pub mod write;
