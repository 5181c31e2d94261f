//! The walk of a search from cell to cell.
ghost use Rattle.graph.specs.Nets.{CellOf, Reached};
ghost use Rattle.graph.specs.Searches.{Marked, Decides};
ghost use Rattle.graph.specs.Costs.{Cost};
ghost use Rattle.graph.specs.Finding.{ByteEach};

use crate::Graph;
use crate::found::Found;
use crate::outcome::Outcome;

/// Finds the starts, and then what the arrows of each cell found lead to, until the goal's turn comes or all have had theirs.
#[tactic(auto, using(crate::proofs::Marks::turn_most))]
pub(crate) fn walk_to<K, G: Graph<K>>(
    graph: &G,
    goal: u8,
    starts: &[u8],
    marks: &mut [u8],
) -> Outcome
    requires { (ByteEach (G.net graph.now) starts.now marks.old) × (CellOf (G.net graph.now) goal) }
    ensures reached { Decides result.reached (Reached (G.net graph.now) (Marked starts.now) goal) }
    ensures cost { Cost (G.net graph.now) starts.now result }
{
    let mut found = Found::of_starts(starts, marks);
    let mut asked = 0;
    while let Some(cell) = found.next_cell() {
        if cell == goal {
            return Outcome {
                reached: true,
                asked,
            };
        }
        let last = graph.arrows(cell);
        for j in 1..=last {
            found.note(graph.leads(cell, j));
            asked += 1;
        }
    }
    Outcome {
        reached: false,
        asked,
    }
}
