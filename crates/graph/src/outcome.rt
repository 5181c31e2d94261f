//! What a search finds out, and what that costs.

/// The answer of a search, with the number of arrows that it asked the graph for.
// A flag and a number, not an enum: the number counts after a yes and after a no.
#[derive(Clone, Copy, PartialEq, Eq, Debug)]
pub struct Outcome {
    /// Whether a path leads from a start to the goal.
    pub reached: bool,
    /// How many times the graph was asked where an arrow leads.
    pub asked: u32,
}
