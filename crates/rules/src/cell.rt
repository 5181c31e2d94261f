/// The colour of a cell. White means free; grey occurs only during a collection.
#[derive(Clone, Copy, PartialEq, Eq, Debug)]
pub enum Colour {
    White,
    Black,
    Grey,
}

/// From where a round of collection came to a cell.
#[derive(Clone, Copy, PartialEq, Eq, Debug)]
pub enum Father {
    /// Not reached yet, written -1.
    Nobody,
    /// A source when the round began, written 0.
    Source,
    /// Reached as a child of this cell.
    Under(u8),
}

/// A cell of the netlist.
#[derive(Clone, Copy, PartialEq, Eq, Debug)]
pub struct Cell {
    /// How many children the cell has, 0 to 8.
    pub arity: u8,
    /// The places for children; the children stand in the first `arity` of them. No vector: the places
    /// past them keep their cells when a cell is created anew.
    pub places: [u8; 8],
    /// How many roots and boxes hold the cell, with those put off.
    pub sources: u16,
    /// How many of them are gone, to be taken off when a round paints the cell.
    pub putoff: u16,
    /// How many children the cell had when the round scanned it.
    pub first: u8,
    /// One more than the round that scanned the cell last.
    pub round: u32,
    pub colour: Colour,
    pub father: Father,
}
