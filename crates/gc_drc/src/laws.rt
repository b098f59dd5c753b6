//! What stands between the increments of a collection.

ghost use Rattle.std.specs.Prelude.{ℕ, Bool, List};
ghost use Rattle.gc_types.specs.Declarations.{Declaration};
ghost use Rattle.gc_roots.specs.Roots.{Root};
ghost use Rattle.gc_heap.specs.Collection.{Start};
ghost use Rattle.gc_drc.specs.declared.collection.DrcCollection.{DrcCollection};
ghost use Rattle.gc_drc.specs.declared.heap.DrcHeap.{DrcHeap};
ghost use Rattle.gc_drc.specs.States.{drc_seen};
ghost use Rattle.gc_drc.specs.PlainCounting.{HasDone, UnheldGone};

/// The plain law of counting, of the steps themselves: whichever calls did the first two increments of a
/// collection, exactly the least set is gone of objects that no root names and whose holders are all in
/// it, with their host values. So counts alone have freed them, and what the third increment frees are
/// cycles of garbage and what only these reach.
pub fn counts_free_the_unheld()
    ensures { (s : Start) (heap : DrcHeap) (state : DrcCollection) (roots : List Root) (types : List Declaration) (hosts : ℕ → Bool)
        → HasDone s 2 heap state roots types hosts → UnheldGone s (drc_seen heap) hosts }
{}
