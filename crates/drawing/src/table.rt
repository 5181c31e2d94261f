//! A graph that is drawn arrow by arrow.
ghost use Rattle.drawing.specs.Held.{Few, Held};

/// Up to 255 cells with up to 255 arrows each. Cell x has `arrows[x]` of them, and arrow j ends at `ends[256 * x + j]`.
// Two tables and no vector a cell: a blank drawing is one write of zeros, and the numbers of arrows lie side by side.
#[derive(Drop)]
pub struct Drawing {
    pub(crate) count: u8,
    pub(crate) arrows: [u8; 256],
    pub(crate) ends: [u8; 65536],
    ghost few: { Few arrows },
    ghost held: { Held count arrows ends },
}
