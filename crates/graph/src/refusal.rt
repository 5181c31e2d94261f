//! Why a search is refused.
ghost use Rattle.std.specs.Prelude.{◌≡◌};
ghost use Rattle.graph.specs.Searches.{number_of};

/// Why a search is refused, in the order in which the causes are tried.
// As numbers the variants stay 0 and 1, by which a caller may index; `number()` tells 17 and 8.
#[derive(Clone, Copy, PartialEq, Eq, Debug)]
pub enum SearchRefusal {
    /// A strip is shorter than the cells; both strips stay as they are.
    ShortStrip,
    /// The goal is 0 or above the cells; the scratch bytes in use are zero.
    NoCell,
}

impl SearchRefusal {
    /// The number of the refusal. No `From`: `refusal.number()` says what the number is.
    pub fn number(self) -> u8
        ensures { result ≡ number_of self }
    {
        match self {
            SearchRefusal::ShortStrip => 17,
            SearchRefusal::NoCell => 8,
        }
    }
}
