//! The graphs that are searched.
use drawing::table::Drawing;

/// 1 leads to 2, 2 to 3, and so on to the last cell.
pub fn chain(cells: u8) -> Drawing {
    let mut d = Drawing::blank(cells);
    for x in 1..cells {
        d.draw(x, x + 1);
    }
    d
}

/// A chain whose last cell leads back to 1.
pub fn ring(cells: u8) -> Drawing {
    let mut d = chain(cells);
    d.draw(cells, 1);
    d
}

/// Cells with these arrows, each from the first cell of its pair to the second.
fn drawn(cells: u8, arrows: &[(u8, u8)]) -> Drawing {
    let mut d = Drawing::blank(cells);
    for (from, to) in arrows {
        d.draw(*from, *to);
    }
    d
}

/// 1, 2 and 3 are a chain, and 4, 5 and 6 are a ring.
pub fn islands() -> Drawing {
    drawn(6, &[(1, 2), (2, 3), (4, 5), (5, 6), (6, 4)])
}

/// 1 leads to itself and nowhere else.
pub fn own_tail() -> Drawing {
    drawn(2, &[(1, 1)])
}

/// 1 leads three times to 2, and 2 twice to 3; 4 stands alone.
pub fn repeats() -> Drawing {
    drawn(4, &[(1, 2), (1, 2), (1, 2), (2, 3), (2, 3)])
}

/// 1 leads to every other cell. Apart from `chain`: both in one would take a closure for one number.
pub fn star(cells: u8) -> Drawing {
    let mut d = Drawing::blank(cells);
    for x in 1..cells {
        d.draw(1, x + 1);
    }
    d
}

/// 255 cells in a round, each with eight arrows, to the eight cells after it.
pub fn full() -> Drawing {
    let mut d = Drawing::blank(255);
    for x in 1..=255u8 {
        for j in 0..8u8 {
            let to = (u16::from(x) + u16::from(j)) % 255 + 1;
            d.draw(x, to as u8);
        }
    }
    d
}
