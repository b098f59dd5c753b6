//! The counts of a counting heap.

ghost use Rattle.std.specs.Prelude.{◌≡◌};
ghost use Rattle.gc_types.specs.declared.kind.Layouts.TheVariants.{Counting};
ghost use Rattle.gc_model.specs.Table.{Table};
ghost use Rattle.gc_model.specs.Counts.{CountsBy};
ghost use Rattle.gc_model.specs.Accounts.{Account, HoldsAccount};

use crate::store::Store;
use gc_heap::GcHeap;

impl<H: GcHeap, D: Drop> Store<H, D> {
    /// The counts of a counting heap are exact, between any two calls: each object that it holds is counted
    /// as often as what it holds and the roots that are no slots of frames name it, and each one that a slot
    /// of a frame names is on the list of shown words. An owned root that was given up is counted until it is
    /// removed. At run time it does nothing.
    pub fn counts_are_exact(&self)
        ensures { H.KIND ≡ Counting → (t : Table D) (a : Account) → HoldsAccount H.KIND self.now t a
            → CountsBy t a.held a.places self.now.owned self.now.heap.counts }
    {
        self.owner.is_ready();
    }
}
