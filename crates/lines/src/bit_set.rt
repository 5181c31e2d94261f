//! A set of the numbers 1 to 255 in four machine words, a bit for each number; the bit of 0 is never set.

ghost use Rattle.std.specs.Prelude.{◌≡◌, false, length};
ghost use Rattle.lines.specs.Bits.{held, HeldNone, HeldToo, HeldBut, Lowest};

/// A set of the numbers 1 to 255.
// No `impl Model`: see `Order`.
#[derive(Clone, Copy)]
pub struct BitSet {
    words: [u64; 4],
    ghost four: { length words ≡ 4 },
    ghost unused: { held words 0 ≡ false },
}

impl BitSet {
    /// The empty set.
    pub fn empty() -> BitSet
        ensures { HeldNone result.words }
    {
        BitSet { words: [0; 4] }
    }

    /// Whether the number is a member.
    pub fn contains(&self, cell: u8) -> bool
        ensures { result ≡ held self.now.words cell }
    {
        (self.words[cell as usize / 64] >> (cell % 64)) & 1 == 1
    }

    /// Adds the number, unless it is 0.
    pub fn insert(&mut self, cell: u8)
        ensures { HeldToo self.old.words cell self.new.words }
    {
        if cell >= 1 {
            self.words[cell as usize / 64] |= 1 << (cell % 64);
        }
    }

    /// Removes the number.
    pub fn remove(&mut self, cell: u8)
        ensures { HeldBut self.old.words cell self.new.words }
    {
        self.words[cell as usize / 64] &= !(1 << (cell % 64));
    }

    /// The lowest member, found in the first word that is not 0.
    pub fn lowest(&self) -> Option<u8>
        ensures { Lowest self.now.words result }
    {
        let first = self.words.iter().position(|word| *word != 0)?;
        Some(64 * first as u8 + self.words[first].trailing_zeros() as u8)
    }
}
