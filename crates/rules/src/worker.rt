/// Where a worker stands: idle, or at a label of a round.
#[derive(Clone, Copy, PartialEq, Eq, Debug)]
pub enum Label {
    Idle = 0,
    /// Draws a cell to scan.
    L101 = 101,
    /// Scans the cell.
    L108 = 108,
    /// Fills check and start anew.
    L121 = 121,
    /// Draws a cell to start a walk from.
    L122 = 122,
    /// Asks whether it is a source.
    L126 = 126,
    /// Starts the walk.
    L150 = 150,
    /// Draws a cell to follow.
    L151 = 151,
    /// Copies its children and stacks it.
    L157 = 157,
    /// Looks at the next copy.
    L158 = 158,
    /// Claims the child.
    L163 = 163,
    /// Takes the top off the stack.
    L168 = 168,
    /// Paints it.
    L175 = 175,
    /// Ends the walk.
    L180 = 180,
    /// Draws a cell to sweep.
    L129 = 129,
    /// Frees it if it was not reached.
    L134 = 134,
    /// Raises the round number.
    L135 = 135,
    /// Ends the round.
    L137 = 137,
}

/// A worker: its roots and boxes, and where it stands in a round with what it holds there.
#[derive(Clone, Copy, Debug)]
pub struct Worker {
    pub label: Label,
    /// The round number when its round began.
    pub own: u32,
    // The registers keep what they hold from label to label, so they are no fields of the labels.
    /// The cell drawn at 101, 122 or 129.
    pub x: u8,
    /// The cell drawn at 151.
    pub w: u8,
    /// The copy looked at, or the cell taken off the stack.
    pub y: u8,
    /// The number of the next copy, from 1.
    pub j: u8,
    // No vectors of the copies and the stack: a worker is `Copy`, and no vector is.
    /// How many copies there are.
    pub copied: u8,
    /// The children that were copied at 157.
    pub copies: [u8; 8],
    /// How many cells are stacked.
    pub depth: u8,
    /// The cells that are stacked, the top last.
    pub stack: [u8; 256],
    /// Which cells are roots, by their numbers, which begin at 1 as those of the workers do.
    pub roots: [bool; 256],
    /// What the box to each worker holds, by its number; 0 for nothing. No `Option`: 0 names no cell, here
    /// as in a place for a child.
    pub boxes: [u8; 9],
}
