//! The guard over the scratch strip.
ghost use Rattle.graph.specs.Searches.{Zeros};

/// Holds the marks of a search, and wipes them when the search ends, by whichever way.
// Apart from `Found`: that lists the cells with a mark, which is no longer true once the marks are wiped.
pub(crate) struct WipeGuard<'a> {
    pub marks: &'a mut [u8],
}

impl Drop for WipeGuard<'_> {
    fn drop(self)
        ensures { Zeros self.exit.0.now }
    {
        let WipeGuard { marks } = self;
        marks.fill(0);
    }
}
