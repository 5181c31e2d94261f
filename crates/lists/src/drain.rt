//! Filling a set and taking until none is left.

ghost use Rattle.std.specs.Prelude.{◌≡◌};
ghost use Rattle.lists.specs.Drains.{after_drain, Drained};
ghost use Rattle.lists.specs.Sets.{takes};

use crate::waiting::{Set, WaitingLists};

/// Fills the set with 1 to `n`, and takes until none is left: `taken` then begins with the numbers 1 to `n`, each once, in the order of the Takes.
/// The set is empty after that. Answers no, altering nothing, where Fill does.
// The caller's table, of which the promise says what stays; a `bool`, since it answers as Fill does.
pub fn drain<L: WaitingLists>(
    lists: &mut L,
    worker: u8,
    set: Set,
    n: u16,
    taken: &mut [u8; 255],
) -> bool
    ensures answer { result ≡ takes L.HIGHEST worker n }
    ensures after { L.sets lists.new ≡ after_drain L.HIGHEST (L.sets lists.old) worker set n }
    ensures once { Drained result n taken.old taken.new }
{
    if !lists.fill(worker, set, n) {
        return false;
    }
    for place in taken.iter_mut() {
        let Some(cell) = lists.take(worker, set) else {
            break;
        };
        *place = cell;
    }
    true
}
