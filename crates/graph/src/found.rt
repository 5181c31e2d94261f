//! The work list of a search.
ghost use Rattle.std.specs.Prelude.{◌≡◌, ◌+◌, ◌≤◌, length, IfNone, IfSome, slice_get};
ghost use Rattle.graph.specs.Nets.{Within};
ghost use Rattle.graph.specs.Finding.{Lists, JustStarts, Notes};

use arrayvec::ArrayVec;

/// The marks, one byte a cell, and the cells with a mark in the order in which they were found, which is that of their turns.
#[derive(Drop)]
pub(crate) struct Found<'a> {
    marks: &'a mut [u8],
    cells: ArrayVec<u8, 255>,
    /// How many cells had their turn. No iterator: cells are added while it goes on.
    turn: usize,
    ghost small: { length marks.now ≤ 255 },
    ghost lists: { Lists marks.now cells.items },
}

impl<'a> Found<'a> {
    /// Finds the starts, and marks them and nothing else.
    #[tactic(auto, using(crate::proofs::Marks::lists_none))]
    pub(crate) fn of_starts(starts: &[u8], marks: &'a mut [u8]) -> Found<'a>
        requires { (length marks.old ≤ length starts.now) × (length marks.old ≤ 255) }
        ensures long { length result.marks.now ≡ length marks.old }
        ensures starts { JustStarts starts.now result.marks.now }
        ensures first { result.turn ≡ 0 }
    {
        marks.fill(0);
        let starts = &starts[..marks.len()];
        let mut found = Found {
            marks,
            cells: ArrayVec::new(),
            turn: 0,
        };
        for (i, start) in starts.iter().enumerate() {
            if *start != 0 {
                found.note(i as u8 + 1);
            }
        }
        found
    }

    /// Marks a cell that has no mark yet, and puts it last among the cells found.
    pub(crate) fn note(&mut self, cell: u8)
        requires { Within (length self.old.marks.now) cell }
        ensures notes { Notes cell self.old.marks.now self.old.cells.items self.new.marks.now self.new.cells.items }
        ensures turn { self.new.turn ≡ self.old.turn }
    {
        let i = usize::from(cell) - 1;
        if self.marks[i] == 0 {
            self.marks[i] = 1;
            self.cells.push(cell);
        }
    }

    /// The next cell whose turn it is, the first found first.
    pub(crate) fn next_cell(&mut self) -> Option<u8>
        ensures same { (self.new.marks.now ≡ self.old.marks.now) × (self.new.cells.items ≡ self.old.cells.items) }
        ensures none { IfNone result (length self.old.cells.items ≤ self.old.turn) }
        ensures next { IfSome result (λ x. (slice_get self.old.cells.items self.old.turn ≡ Some x) × (self.new.turn ≡ self.old.turn + 1)) }
    {
        let cell = *self.cells.get(self.turn)?;
        self.turn += 1;
        Some(cell)
    }
}
