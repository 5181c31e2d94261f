//! Waiting lists: three sets of cell numbers for each of the workers 1 to 8.
//! One interface, `WaitingLists`, says what every set is after each call; which member a Take gives is left open there.
//! Three kinds meet it, the bit map, the queue and the pile: one table of 24 sets, each of a kind that says which member is next.
#![tactic(auto)]

pub mod drain;
pub mod kinds;
pub mod table;
pub mod waiting;
