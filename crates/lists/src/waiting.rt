//! The interface of waiting lists, for every kind of them.

ghost use Rattle.std.specs.Prelude.{◌≡◌, ℕ};
ghost use Rattle.lists.specs.Sets.{Sets, Bounded, Within, takes, after_fill, cleared, after_put, struck, Took};

/// One of a worker's three sets.
#[derive(Clone, Copy, Debug, PartialEq, Eq)]
pub enum Set {
    Check,
    Start,
    Follow,
}

/// Three sets of cell numbers for each of the workers 1 to 8. A set of any other worker is absent, and counts as empty.
/// `sets` says which cells are members of each set, and the promise of a call what every set is after it.
// The worker and the set stay two arguments: `take(4, Set::Start)` reads plainer than `take(SetOf { worker: 4, set: Set::Start })`.
// Fill and Put answer a `bool`, since the rules say that they answer yes or no.
pub trait WaitingLists {
    /// The highest cell number that the kind can carry.
    const HIGHEST: u8;

    // The constant, as clauses name it. An impl says the number for each of the two, since a ghost member sees no other
    // member of its impl, and the check proves them equal.
    ghost HIGHEST: { ℕ };

    // The members of each set.
    ghost sets: { Self → Sets };

    /// The kind's `HIGHEST`. In each of the two traits, since a caller has one or the other.
    final fn highest_cell() -> u8
        ensures { result ≡ HIGHEST }
    {
        Self::HIGHEST
    }

    /// Whether the cell is a member.
    fn has(&self, worker: u8, set: Set, cell: u16) -> bool
        ensures { result ≡ sets self.now worker set cell };

    /// Removes and answers a member, of the kind's choice; none exactly if the set is empty.
    fn take(&mut self, worker: u8, set: Set) -> Option<u8>
        ensures { Took (sets self.old) worker set result (sets self.new) };

    /// Makes the set 1 to `n`. Answers no, altering nothing, for 0, a number above the highest and an absent set.
    fn fill(&mut self, worker: u8, set: Set, n: u16) -> bool
        ensures answer { result ≡ takes HIGHEST worker n }
        ensures after { sets self.new ≡ after_fill HIGHEST (sets self.old) worker set n };

    /// Empties the set.
    fn clear(&mut self, worker: u8, set: Set)
        ensures { sets self.new ≡ cleared (sets self.old) worker set };

    /// Adds a cell. Answers no, altering nothing, for 0, a number above the highest and an absent set.
    fn put(&mut self, worker: u8, set: Set, cell: u16) -> bool
        ensures answer { result ≡ takes HIGHEST worker cell }
        ensures after { sets self.new ≡ after_put HIGHEST (sets self.old) worker set cell };

    /// Removes a cell; removing a stranger alters nothing.
    fn strike(&mut self, worker: u8, set: Set, cell: u16)
        ensures { sets self.new ≡ struck (sets self.old) worker set cell };

    // The highest number is from 1 to 255.
    ghost bounded: { Bounded HIGHEST };

    // Absent sets are empty, and members are from 1 to the highest.
    ghost within: { (s : Self) → Within HIGHEST (sets s) };
}
