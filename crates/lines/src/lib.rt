//! Sets of cell numbers whose members stand in line to be taken.
//! A kind of set, `CellSet`, is told by where a newcomer joins its line: by its number, at the end or at the head.
//! The first kind packs its members in machine words, the other two keep them in the order in which they were put.
#![tactic(auto)]

pub mod bit_set;
pub mod cell_set;
pub mod lowest_first;
pub mod order;
pub mod put_last;
