//! What a collection of a copying heap knows between two increments.

ghost use Rattle.gc_copying.specs.CollectionLaw.{IsCopyingFresh};

use crate::copy::collect::Phase;
use crate::ticks::Ticks;

/// A collection of a copying heap: what its next increment does.
#[derive(Drop)]
pub struct CopyingCollection {
    pub(crate) phase: Phase,
    /// The steps of its counted increments.
    pub(crate) ticks: Ticks,
}

impl CopyingCollection {
    /// A collection of which nothing was done.
    pub(crate) fn new() -> CopyingCollection
        ensures { IsCopyingFresh result }
    {
        CopyingCollection {
            phase: Phase::Roots,
            ticks: Ticks::none(),
        }
    }
}
