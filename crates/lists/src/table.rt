//! A table of 24 sets of one kind: waiting lists, whatever the kind.

ghost use Rattle.std.specs.Prelude.{◌≡◌, ℕ, ◌≤◌, []};
ghost use Rattle.lines.specs.Lines.{counted, in_line};
ghost use Rattle.lists.specs.Sets.{takes, cleared, after_fill, after_put, struck, Took};
ghost use Rattle.lists.specs.Tables.{row, row_with, lines, members, members_within, no_lines, after_fill_lines, after_clear_lines, after_put_lines, after_strike_lines, TookFirst};

use crate::waiting::{Set, WaitingLists};
use lines::cell_set::CellSet;

/// A set for each of the workers 1 to 8 and each of a worker's three sets.
// No `impl Model`: its value would be the lines, a function of worker and set, of which the check finds no code. One table of
// 24 and not eight of three: one number names a row.
#[derive(Drop)]
pub struct Table<S> {
    rows: [S; 24],
}

// The row of a set, if it is there. A number and no `&mut S`: what is written through a `&mut` that a function hands out of an array is not proved to stay.
fn row_of(worker: u8, set: Set) -> Option<usize>
    ensures { result ≡ row worker set }
{
    if !(1..=8).contains(&worker) {
        return None;
    }
    Some(3 * (usize::from(worker) - 1) + set as usize)
}

// The row of a set and a cell for it, if the set is there and its kind carries the cell.
fn row_and_cell<S: CellSet>(worker: u8, set: Set, cell: u16) -> Option<(usize, u8)>
    ensures { result ≡ row_with S.HIGHEST worker set cell }
{
    let cell = u8::try_from(cell).ok()?;
    if !(1..=S::HIGHEST).contains(&cell) {
        return None;
    }
    Some((row_of(worker, set)?, cell))
}

// Puts 1, 2, up to `n` in turn into an empty set. By reference, since a set that is given back is copied once more.
fn counted_to<S: CellSet>(cells: &mut S, n: u8)
    requires carried { n ≤ S.HIGHEST }
    requires empty { S.line cells.old ≡ [] }
    ensures { S.line cells.new ≡ counted S.joins n }
{
    for cell in 1..=n {
        cells.put(cell);
    }
}

impl<S: CellSet> Table<S> {
    /// Waiting lists whose sets are all empty.
    pub fn new() -> Self
        ensures { lines S.line result ≡ no_lines }
    {
        let empty = S::empty();
        Table { rows: [empty; 24] }
    }
}

// Each call promises what the trait says of the sets, and by `order` the lines too: where a newcomer joins, and who is next.
impl<S: CellSet> WaitingLists for Table<S> {
    const HIGHEST: u8 = S::HIGHEST;

    ghost HIGHEST = { S.HIGHEST };

    ghost sets = { λ t. members S.HIGHEST (lines S.line t) };

    ghost bounded = { S.limits };

    ghost within = { λ t. members_within S.HIGHEST (lines S.line t) };

    fn has(&self, worker: u8, set: Set, cell: u16) -> bool
        ensures member { result ≡ members S.HIGHEST (lines S.line self.now) worker set cell }
        ensures order { result ≡ in_line cell (lines S.line self.now worker set) }
    {
        match row_and_cell::<S>(worker, set, cell) {
            Some((row, cell)) => self.rows[row].has(cell),
            None => false,
        }
    }

    fn take(&mut self, worker: u8, set: Set) -> Option<u8>
        ensures member { Took (members S.HIGHEST (lines S.line self.old)) worker set result (members S.HIGHEST (lines S.line self.new)) }
        ensures order { TookFirst (lines S.line self.old) worker set result (lines S.line self.new) }
    {
        let row = row_of(worker, set)?;
        let cells = &mut self.rows[row];
        let cell = cells.next()?;
        cells.strike(cell);
        Some(cell)
    }

    fn fill(&mut self, worker: u8, set: Set, n: u16) -> bool
        ensures answer { result ≡ takes S.HIGHEST worker n }
        ensures after { members S.HIGHEST (lines S.line self.new) ≡ after_fill S.HIGHEST (members S.HIGHEST (lines S.line self.old)) worker set n }
        ensures order { lines S.line self.new ≡ after_fill_lines S.joins S.HIGHEST (lines S.line self.old) worker set n }
    {
        let Some((row, n)) = row_and_cell::<S>(worker, set, n) else {
            return false;
        };
        let mut cells = S::empty();
        counted_to(&mut cells, n);
        self.rows[row] = cells;
        true
    }

    fn clear(&mut self, worker: u8, set: Set)
        ensures after { members S.HIGHEST (lines S.line self.new) ≡ cleared (members S.HIGHEST (lines S.line self.old)) worker set }
        ensures order { lines S.line self.new ≡ after_clear_lines (lines S.line self.old) worker set }
    {
        if let Some(row) = row_of(worker, set) {
            self.rows[row] = S::empty();
        }
    }

    fn put(&mut self, worker: u8, set: Set, cell: u16) -> bool
        ensures answer { result ≡ takes S.HIGHEST worker cell }
        ensures after { members S.HIGHEST (lines S.line self.new) ≡ after_put S.HIGHEST (members S.HIGHEST (lines S.line self.old)) worker set cell }
        ensures order { lines S.line self.new ≡ after_put_lines S.joins S.HIGHEST (lines S.line self.old) worker set cell }
    {
        let Some((row, cell)) = row_and_cell::<S>(worker, set, cell) else {
            return false;
        };
        self.rows[row].put(cell);
        true
    }

    fn strike(&mut self, worker: u8, set: Set, cell: u16)
        ensures after { members S.HIGHEST (lines S.line self.new) ≡ struck (members S.HIGHEST (lines S.line self.old)) worker set cell }
        ensures order { lines S.line self.new ≡ after_strike_lines (lines S.line self.old) worker set cell }
    {
        if let Some((row, cell)) = row_and_cell::<S>(worker, set, cell) {
            self.rows[row].strike(cell);
        }
    }
}
