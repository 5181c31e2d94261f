//! One set of cell numbers, whose members stand in line to be taken.

ghost use Rattle.std.specs.Prelude.{◌≡◌, ℕ, true, ◌||◌, List, [], ◌==◌};
ghost use Rattle.lines.specs.Numbers.{Bounded};
ghost use Rattle.lines.specs.Lines.{Joining, in_line, orderly, after_put_line, without, first};

/// One set of cell numbers. A kind of set is told by where a newcomer joins its line.
pub trait CellSet: Sized + Copy {
    /// The highest cell number that the kind can carry.
    const HIGHEST: u8;

    // The constant, as clauses name it. An impl says the number for each of the two, since a ghost member sees no other
    // member of its impl, and the check proves them equal.
    ghost HIGHEST: { ℕ };

    // The members, in the order in which they will be taken.
    ghost line: { Self → List ℕ };

    // Where a newcomer joins the line.
    ghost joins: { Joining };

    /// The kind's `HIGHEST`. In each of the two traits, since a caller has one or the other.
    final fn highest_cell() -> u8
        ensures { result ≡ HIGHEST }
    {
        Self::HIGHEST
    }

    /// The empty set.
    fn empty() -> Self
        ensures { line result ≡ [] };

    /// Adds a cell from 1 to the highest; any other number alters nothing.
    fn put(&mut self, cell: u8)
        ensures { line self.new ≡ after_put_line joins HIGHEST (line self.old) cell };

    /// Removes a cell; removing a stranger alters nothing.
    fn strike(&mut self, cell: u8)
        ensures { line self.new ≡ without (line self.old) cell };

    /// Whether the cell is a member.
    fn has(&self, cell: u8) -> bool
        ensures { result ≡ in_line cell (line self.now) };

    /// The member to be taken next, if any.
    fn next(&self) -> Option<u8>
        ensures { result ≡ first (line self.now) };

    // The highest number is from 1 to 255.
    ghost limits: { Bounded HIGHEST };

    // Members are from 1 to the highest, and none stands twice.
    ghost stands: { (s : Self) → orderly HIGHEST (line s) ≡ true };

    // After a newcomer has joined, it and all others stand in the line.
    ghost adds: { (l : List ℕ) (x c : ℕ) → in_line c (joins l x) ≡ (c == x || in_line c l) };
}
