//! The rules of the cell store, as definitions, and why every run keeps three laws.
//!
//! The plain data of a store stands in `src/`; what a store is, what each call and each labelled step does and
//! when a call is refused stands in `specs/`. It runs nothing: a store is to be held to these definitions.
//! `laws.rt` names what is proved of every history of calls.
#![tactic(auto)]

pub mod cell;
pub mod laws;
pub mod refusal;
pub mod worker;
