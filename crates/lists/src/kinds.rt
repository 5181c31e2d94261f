//! The three kinds of waiting lists.

use crate::table::Table;
use lines::bit_set::BitSet;
use lines::order::Order;
use lines::put_last::Stack;

/// Waiting lists of the cells 1 to 255 whose Take gives the lowest member.
pub type BitMap = Table<BitSet>;

/// Waiting lists of the cells 1 to 255 whose Take gives the member put first.
pub type Queue = Table<Order>;

/// Waiting lists of the cells 1 to 100 whose Take gives the member put last.
pub type Pile = Table<Stack>;
