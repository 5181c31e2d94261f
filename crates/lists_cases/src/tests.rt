//! Examples: each kind at the edges of what it carries, and the order in which it gives its members.

use lines::cell_set::CellSet;
use lists::drain::drain;
use lists::kinds::{BitMap, Pile, Queue};
use lists::waiting::{Set, WaitingLists};
use std::process::Abort;

const SETS: [Set; 3] = [Set::Check, Set::Start, Set::Follow];

// Fill and Put at 0, at the highest and one above.
fn edges<L: WaitingLists>(rt: &impl Abort, lists: &mut L, worker: u8, set: Set, highest: u8) {
    let top = highest as u16;
    for (n, answer) in [
        (0, false),
        (1, true),
        (top, true),
        (top + 1, false),
        (256, false),
    ] {
        assert_eq!(rt; lists.fill(worker, set, n), answer);
        assert_eq!(rt; lists.put(worker, set, n), answer);
        assert_eq!(rt; lists.has(worker, set, n), answer);
        lists.clear(worker, set);
        assert_eq!(rt; lists.take(worker, set), None);
    }
}

// An absent set is empty and takes nothing in.
fn absent<L: WaitingLists>(rt: &impl Abort, lists: &mut L, worker: u8, set: Set) {
    assert_eq!(rt; lists.fill(worker, set, 1), false);
    assert_eq!(rt; lists.put(worker, set, 1), false);
    lists.strike(worker, set, 1);
    lists.clear(worker, set);
    assert_eq!(rt; lists.has(worker, set, 1), false);
    assert_eq!(rt; lists.take(worker, set), None);
}

// Every set of the first, the last and the two absent workers.
fn every_set<L: WaitingLists>(rt: &impl Abort, lists: &mut L, highest: u8) {
    assert_eq!(rt; L::HIGHEST, highest);
    assert_eq!(rt; L::highest_cell(), highest);
    for set in SETS {
        edges(rt, lists, 1, set, highest);
        edges(rt, lists, 8, set, highest);
        absent(rt, lists, 0, set);
        absent(rt, lists, 9, set);
    }
}

// Puts 7, 3, 9, 5 and 3 again, strikes 9, and takes all; the sets beside it stay.
fn order<L: WaitingLists>(rt: &impl Abort, lists: &mut L, given: [u8; 3]) {
    assert!(rt; lists.put(4, Set::Check, 9) && lists.put(5, Set::Start, 9));
    for cell in [7, 3, 9, 5, 3] {
        assert!(rt; lists.put(4, Set::Start, cell));
    }
    lists.strike(4, Set::Start, 9);
    for cell in given {
        assert_eq!(rt; lists.take(4, Set::Start), Some(cell));
    }
    assert_eq!(rt; lists.take(4, Set::Start), None);
    assert!(rt; lists.has(4, Set::Check, 9) && lists.has(5, Set::Start, 9));
}

// Drains a set of all cells: the first and the last that came.
fn ends<L: WaitingLists>(rt: &impl Abort, lists: &mut L, highest: u8, first: u8, last: u8) {
    let mut taken = [0; 255];
    assert!(rt; drain(lists, 8, Set::Follow, highest as u16, &mut taken));
    assert_eq!(rt; taken[0], first);
    assert!(rt; highest >= 1);
    assert_eq!(rt; taken[highest as usize - 1], last);
    assert_eq!(rt; lists.take(8, Set::Follow), None);
}

// A kind by its highest number, the order in which it gives 7, 3 and 5, and the first and the last that a drain takes.
fn kind<L: WaitingLists + Drop>(
    rt: &impl Abort,
    mut lists: L,
    highest: u8,
    given: [u8; 3],
    [first, last]: [u8; 2],
) {
    every_set(rt, &mut lists, highest);
    order(rt, &mut lists, given);
    ends(rt, &mut lists, highest, first, last);
}

#[test]
fn bit_map(rt: HostRuntime) {
    kind(&rt, BitMap::new(), 255, [3, 5, 7], [1, 255]);
}

#[test]
fn queue(rt: HostRuntime) {
    kind(&rt, Queue::new(), 255, [7, 3, 5], [1, 255]);
}

#[test]
fn pile(rt: HostRuntime) {
    kind(&rt, Pile::new(), 100, [5, 3, 7], [100, 1]);
}
