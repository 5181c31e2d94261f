//! A graph that is made from another.
ghost use Rattle.drawing.specs.Backward.{backward_net};
ghost use Rattle.drawing.specs.Turns.{backward_closed, backward_silent};

use graph::Graph;

/// The same cells and arrows as a given graph, with each cell's arrows in the opposite order.
#[derive(Drop)]
pub struct Backward<G> {
    pub graph: G,
}

impl<K, G: Graph<K>> Graph<K> for Backward<G> {
    ghost net = { λ b. backward_net (G.net b.graph) };

    ghost closed = { λ b. backward_closed (G.net b.graph) (G.closed b.graph) };

    ghost silent = { λ b. backward_silent (G.net b.graph) };

    fn cells(&self) -> u8 {
        self.graph.cells()
    }

    fn arrows(&self, cell: u8) -> u16 {
        self.graph.arrows(cell)
    }

    fn leads(&self, cell: u8, j: u16) -> u8 {
        let last = self.graph.arrows(cell);
        if (1..=last).contains(&j) {
            self.graph.leads(cell, last - j + 1)
        } else {
            0
        }
    }
}
