//! A bit set taken from below: the lowest member is next.
//! The calls of `BitSet` promise bits, on which `Order` builds too; those here say what that means for the line.

ghost use Rattle.std.specs.Prelude.{◌≡◌};
ghost use Rattle.lines.specs.Bits.{held};
ghost use Rattle.lines.specs.Lines.{by_number, rising};
ghost use Rattle.lines.specs.Numbers.{bounded_255};
ghost use Rattle.lines.specs.Rising.{rising_all_orderly, by_number_adds};

use crate::bit_set::BitSet;
use crate::cell_set::CellSet;

impl CellSet for BitSet {
    const HIGHEST: u8 = 255;

    ghost HIGHEST = { 255 };

    ghost line = { λ s. rising (held s.words) 255 };

    ghost joins = { by_number };

    ghost limits = { bounded_255 };

    ghost stands = { λ s. rising_all_orderly (held s.words) 255 };

    ghost adds = { by_number_adds };

    fn empty() -> Self {
        BitSet::empty()
    }

    fn put(&mut self, cell: u8) {
        self.insert(cell);
    }

    fn strike(&mut self, cell: u8) {
        self.remove(cell);
    }

    fn has(&self, cell: u8) -> bool {
        self.contains(cell)
    }

    fn next(&self) -> Option<u8> {
        self.lowest()
    }
}
