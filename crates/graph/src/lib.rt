//! Graphs of cells, and one search for all of them: is the goal on a path from some start?
//! A graph only tells (its cells, a cell's arrows, where an arrow leads), so one table can be several graphs
//! and a graph can be made from another. The search asks for each arrow at most once and wipes its marks.
#![tactic(auto)]

ghost use Rattle.std.specs.Prelude.{◌≡◌};
ghost use Rattle.graph.specs.Nets.{Net, Closed, Silent};
ghost use Rattle.graph.specs.Searches.{Answers, Leaves, answer_of};
ghost use Rattle.graph.specs.Costs.{Linear};

mod found;
mod guard;
pub mod outcome;
pub mod refusal;
mod walk;

use guard::WipeGuard;
use outcome::Outcome;
use refusal::SearchRefusal;
use walk::walk_to;

/// A number of cells and, for each cell, the cells that its arrows lead to; cells and arrows are counted from 1.
/// `K` names the graph, so that one type can hold several.
pub trait Graph<K> {
    ghost net: { Self → Net };

    /// The number of cells.
    fn cells(&self) -> u8
        ensures { result ≡ (net self.now).cells };

    /// The number of arrows of a cell, 0 for what is no cell: it has no arrow.
    fn arrows(&self, cell: u8) -> u16
        ensures { result ≡ (net self.now).arrows cell };

    /// The cell that arrow `j` of a cell leads to, 0 if there is no such arrow.
    // No `Option`: it is a rule that an arrow that is not there leads to 0, so 0 is an answer like the others.
    fn leads(&self, cell: u8, j: u16) -> u8
        ensures { result ≡ (net self.now).leads cell j };

    ghost closed: { (g : Self) → Closed (net g) };

    ghost silent: { (g : Self) → Silent (net g) };
}

/// Whether some path of zero or more arrows leads to the goal from a start: a cell whose byte in `starts` is not zero.
/// Of each strip the first bytes are used, one a cell; what `scratch` holds there before does not matter.
///
/// Refuses with `ShortStrip` if a strip is shorter than the cells, and both strips stay as they are. After that check,
/// the scratch bytes in use are zero at every end. Refuses with `NoCell` if the goal is no cell of the graph.
// Four parameters: a type that holds them would be made for one call.
pub fn search<K, G: Graph<K>>(
    graph: &G,
    goal: u16,
    starts: &[u8],
    scratch: &mut [u8],
) -> Result<bool, SearchRefusal>
    ensures answers { Answers (G.net graph.now) goal starts.now scratch.old result }
    ensures leaves { Leaves (G.net graph.now).cells scratch.old scratch.new result }
{
    search_counted(graph, goal, starts, scratch).map(|outcome| outcome.reached)
}

/// The same search, with the number of arrows that it asks for: at most as many as the graph has.
/// Refuses as `search` does, and leaves the strips as `search` does.
// It counts by itself: a graph can count in a `Cell` what it is asked, but no promise can say what a cell holds.
#[tactic(auto, using(crate::proofs::Strips::wiped))]
pub fn search_counted<K, G: Graph<K>>(
    graph: &G,
    goal: u16,
    starts: &[u8],
    scratch: &mut [u8],
) -> Result<Outcome, SearchRefusal>
    ensures answers { Answers (G.net graph.now) goal starts.now scratch.old (answer_of result) }
    ensures leaves { Leaves (G.net graph.now).cells scratch.old scratch.new (answer_of result) }
    ensures linear { Linear (G.net graph.now) starts.now result }
{
    let cells = usize::from(graph.cells());
    if starts.len() < cells || scratch.len() < cells {
        return Err(SearchRefusal::ShortStrip);
    }
    // Of the ways to take the first bytes, this one tells what the guard leaves of the whole strip.
    let (marks, _) = scratch.split_at_mut(cells);
    let guard = WipeGuard { marks };
    match u8::try_from(goal) {
        Ok(goal) if (1..=cells).contains(&usize::from(goal)) => Ok(walk_to(
            graph,
            goal,
            starts,
            guard.marks,
        )),
        _ => Err(SearchRefusal::NoCell),
    }
}
