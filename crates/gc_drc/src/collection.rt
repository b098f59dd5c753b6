//! What a collection of a counting heap knows between two increments.

ghost use Rattle.std.specs.Prelude.{◌≡◌};
ghost use Rattle.gc_drc.specs.DrcCollectionLaw.{IsCountingFresh};

use crate::collect::phase::Phase;
use gc_types::Layouts;

/// The counting collector.
pub struct DrcCollector;

impl DrcCollector {
    /// The layout of the objects of a counting heap.
    pub fn layouts() -> Layouts
        ensures { result ≡ Layouts.Counting }
    {
        Layouts::Counting
    }
}

/// A collection of a counting heap: what its next increment does.
#[derive(Drop)]
pub struct DrcCollection {
    pub(crate) phase: Phase,
}

impl DrcCollection {
    /// A collection of which nothing was done.
    pub(crate) fn new() -> DrcCollection
        ensures { IsCountingFresh result }
    {
        DrcCollection {
            phase: Phase::MarkFrames,
        }
    }
}
