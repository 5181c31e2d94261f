//! The members of a set of the numbers 1 to 255, in the order in which they were put; a bit for each says whether it is there.

ghost use Rattle.std.specs.Prelude.{◌≡◌, ℕ, ◌≤◌, true, length, take, reverse, ◌==◌, position};
ghost use Rattle.lines.specs.Bits.{held};
ghost use Rattle.lines.specs.Lines.{in_line, orderly, at_end, first};
ghost use Rattle.lines.specs.Numbers.{bounded_255};
ghost use Rattle.lines.specs.InLine.{at_end_adds};

use crate::bit_set::BitSet;
use crate::cell_set::CellSet;
use std::alloc::AllocError;

/// A set of the numbers 1 to 255 that knows the order in which they were put: the member put first is next.
// No `impl Model`, here and at `BitSet`: a law of `CellSet` holds for every value of the type, and with a model any list would be one.
// The cells in an array beside their count, since no vector is `Copy`.
#[derive(Copy)]
pub struct Order {
    cells: [u8; 255],
    count: usize,
    marks: BitSet,
    ghost long: { length cells ≡ 255 },
    ghost fits: { count ≤ 255 },
    ghost stands: { orderly 255 (take count cells) ≡ true },
    ghost marked: { (c : ℕ) → held marks.words c ≡ in_line c (take count cells) },
}

// By hand, so that it is read and tried here: a clone is the same value, and never fails.
impl Clone for Order {
    ghost is_clone = { λ s t. t ≡ s };

    ghost is_infallible = { λ _. Unit {0} };

    fn clone(&self) -> Result<Self, AllocError> {
        Ok(*self)
    }
}

impl CellSet for Order {
    ghost use Rattle.lines.specs.Orders.{order};

    const HIGHEST: u8 = 255;

    ghost HIGHEST = { 255 };

    ghost line = { order };

    ghost joins = { at_end };

    ghost limits = { bounded_255 };

    ghost stands = { λ s. s.stands };

    ghost adds = { at_end_adds };

    fn empty() -> Self {
        Order {
            cells: [0; 255],
            count: 0,
            marks: BitSet::empty(),
        }
    }

    fn put(&mut self, cell: u8) {
        if cell >= 1 && !self.marks.contains(cell) {
            self.cells[self.count] = cell;
            self.count += 1;
            self.marks.insert(cell);
        }
    }

    fn strike(&mut self, cell: u8) {
        if !self.marks.contains(cell) {
            return;
        }
        if let Some(place) = self.place_of(cell) {
            self.cells.copy_within(place + 1..self.count, place);
            self.count -= 1;
            self.marks.remove(cell);
        }
    }

    fn has(&self, cell: u8) -> bool {
        self.marks.contains(cell)
    }

    fn next(&self) -> Option<u8> {
        self.line().first().copied()
    }
}

impl Order {
    ghost use Rattle.lines.specs.Orders.{order};

    /// The member put last.
    pub fn put_last(&self) -> Option<u8>
        ensures { result ≡ first (reverse (order self.now)) }
    {
        self.line().last().copied()
    }

    // The members, in the order in which they were put.
    fn line(&self) -> &[u8]
        ensures { result.now ≡ order self.now }
    {
        &self.cells[..self.count]
    }

    // The place of a member in the order.
    fn place_of(&self, cell: u8) -> Option<usize>
        ensures { result ≡ position (λ other. other == cell) (order self.now) }
    {
        self.line().iter().position(|other| *other == cell)
    }
}
