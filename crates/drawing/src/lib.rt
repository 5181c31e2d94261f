//! A graph that is drawn arrow by arrow, to try what works on every graph.
//! Its tables say by ghost fields that every arrow ends at a cell, and so it is a graph.
#![tactic(auto)]

ghost use Rattle.std.specs.Prelude.{◌≡◌};
ghost use Rattle.graph.specs.Nets.{all_arrows};
ghost use Rattle.drawing.specs.Tests.{within};
ghost use Rattle.drawing.specs.Drawn.{net_of, Blank, Draws};
ghost use Rattle.drawing.specs.Turns.{drawn_closed, drawn_silent};

use graph::Graph;

pub mod backward;
pub mod table;

use table::Drawing;

/// Names the graph that a drawing is.
#[derive(Drop)]
pub struct Drawn;

impl Drawing {
    /// Cells without arrows.
    pub fn blank(count: u8) -> Drawing
        ensures { Blank count result }
    {
        Drawing {
            count,
            arrows: [0; 256],
            ends: [0; 65536],
        }
    }

    /// Draws one more arrow, the last one of `from`; answers no and draws none if an end is no cell or `from` has 255 arrows.
    // A `bool`: yes or no, as a set's `insert` answers.
    pub fn draw(&mut self, from: u8, to: u8) -> bool
        ensures { Draws from to self.old self.new result }
    {
        let x = usize::from(from);
        if !self.has(from) || !self.has(to) || self.arrows[x] >= 255 {
            return false;
        }
        let j = self.arrows[x] + 1;
        self.ends[256 * x + usize::from(j)] = to;
        self.arrows[x] = j;
        true
    }

    fn has(&self, cell: u8) -> bool
        ensures { result ≡ within self.now.count cell }
    {
        cell >= 1 && cell <= self.count
    }
}

impl Graph<Drawn> for Drawing {
    ghost net = { λ d. net_of d.count d.arrows d.ends };

    ghost closed = { λ d. drawn_closed d.count d.arrows d.ends d.held };

    ghost silent = { λ d. drawn_silent d.count d.arrows d.ends };

    fn cells(&self) -> u8 {
        self.count
    }

    fn arrows(&self, cell: u8) -> u16 {
        if self.has(cell) {
            u16::from(self.arrows[usize::from(cell)])
        } else {
            0
        }
    }

    fn leads(&self, cell: u8, j: u16) -> u8 {
        if !self.has(cell) || j == 0 || j > u16::from(self.arrows[usize::from(cell)]) {
            return 0;
        }
        self.ends[256 * usize::from(cell) + usize::from(j)]
    }
}

/// The number of arrows of a graph.
pub fn arrows_in<K, G: Graph<K>>(graph: &G) -> u32
    ensures { result ≡ all_arrows (G.net graph.now) }
{
    let mut sum = 0;
    for x in 1..=graph.cells() {
        sum += u32::from(graph.arrows(x));
    }
    sum
}
