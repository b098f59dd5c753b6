//! Increments whose steps are counted.

ghost use Rattle.std.specs.Prelude.{◌≡◌, ◌+◌, ◌<◌, ◌≤◌, ℕ, Bool, List, Some, true};
ghost use Rattle.gc_roots.specs.Roots.{Root};
ghost use Rattle.gc_heap.specs.Collection.{Start, stage, IsPartOf, IsStepCount};
ghost use Rattle.gc_owner.specs.Going.{IsListed, StepsRoots};

use crate::roots::Roots;
use gc_heap::{GcHeap, GcProgress, GcStoreTraceState};
use gc_steps::Steps;
use std::sync::ledger::Ledger;

impl Roots {
    /// Does an increment as `step` does, and counts its steps.
    pub(crate) fn step_counted<H: GcHeap, D: Drop, G: Ledger>(
        &mut self,
        heap: &mut H,
        state: &mut H::State,
        trace: &mut GcStoreTraceState<'_, D>,
        steps: &mut Steps<G>,
    ) -> GcProgress
        requires { IsListed H.under_way self.old heap.old state.old trace.old.types.now.declarations trace.old.host_data_table.now.entries }
        ensures step { (s : Start) (n : ℕ) (c : Bool) (listed : List Root) → self.old.listed ≡ Some listed
            → H.under_way s n c (stage heap.old state.old listed trace.old.types.now.declarations trace.old.host_data_table.now.entries)
            → StepsRoots H.KIND H.under_way H.sound s n c self.old self.new heap.new (H.seen heap.new) state.new
            trace.old.types.now.declarations trace.new.host_data_table.now.entries result }
        ensures counted { (s : Start) (n : ℕ) (listed : List Root) → self.old.listed ≡ Some listed
            → H.under_way s n true (stage heap.old state.old listed trace.old.types.now.declarations trace.old.host_data_table.now.entries)
            → result ≡ GcProgress.Complete → IsStepCount H.KIND s (H.ticks state.new) }
        ensures less { result ≡ GcProgress.Continue → H.left heap.new state.new < H.left heap.old state.old }
        ensures ticks { H.ticks state.new + steps.old ≡ H.ticks state.old + steps.new }
        ensures rises { steps.old ≤ steps.new }
        ensures values { IsPartOf trace.new.host_data_table.now.entries trace.old.host_data_table.now.entries }
        ensures hosts { trace.new.host_data_table.ghost_name ≡ trace.old.host_data_table.ghost_name }
        ensures types { trace.new.types ≡ trace.old.types }
    {
        heap.step_counted(state, &mut self.list, trace, steps)
    }
}
