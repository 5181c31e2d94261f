//! An order taken from its end: the member put last is next.

ghost use Rattle.std.specs.Prelude.{◌≡◌, true, reverse};
ghost use Rattle.lines.specs.Lines.{orderly, at_head};
ghost use Rattle.lines.specs.Orders.{order};
ghost use Rattle.lines.specs.Numbers.{bounded_100};
ghost use Rattle.lines.specs.Turned.{orderly_turned};
ghost use Rattle.lines.specs.InLine.{at_head_adds};

use crate::cell_set::CellSet;
use crate::order::Order;
use std::alloc::AllocError;

/// A set of the numbers 1 to 100 that is taken from its end.
#[derive(Copy)]
pub struct Stack {
    cells: Order,
    ghost low: { orderly 100 (order cells) ≡ true },
}

// By hand, as `Order`'s.
impl Clone for Stack {
    ghost is_clone = { λ s t. t ≡ s };

    ghost is_infallible = { λ _. Unit {0} };

    fn clone(&self) -> Result<Self, AllocError> {
        Ok(*self)
    }
}

impl CellSet for Stack {
    const HIGHEST: u8 = 100;

    ghost HIGHEST = { 100 };

    ghost line = { λ s. reverse (order s.cells) };

    ghost joins = { at_head };

    ghost limits = { bounded_100 };

    ghost stands = { λ s. orderly_turned 100 (order s.cells) s.low };

    ghost adds = { at_head_adds };

    fn empty() -> Self {
        Stack {
            cells: Order::empty(),
        }
    }

    fn put(&mut self, cell: u8) {
        if cell <= Self::HIGHEST {
            self.cells.put(cell);
        }
    }

    fn strike(&mut self, cell: u8) {
        self.cells.strike(cell);
    }

    fn has(&self, cell: u8) -> bool {
        self.cells.has(cell)
    }

    fn next(&self) -> Option<u8> {
        self.cells.put_last()
    }
}
