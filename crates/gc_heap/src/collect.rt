//! Collections from their beginning to their end, of any heap.

ghost use Rattle.std.specs.Prelude.{ℕ, Bool, true, ◌≡◌, ◌+◌, ◌≤◌};
ghost use Rattle.gc_heap.specs.Collection.{Start, stage, IsUnderWay, has_host, IsPartOf, CanCollect, Collected, IsStepCount};
ghost use Rattle.gc_heap.specs.Run.{start_at, IsRise};

use crate::collection::{GcProgress, GcStoreTraceState};
use crate::heap::GcHeap;
use gc_roots::GcRootsList;
use gc_steps::Steps;
use std::sync::ledger::Ledger;

/// Does the increments that a collection has left. It takes no memory.
pub fn collect<H: GcHeap, D: Drop>(
    heap: &mut H,
    state: &mut H::State,
    roots: &mut GcRootsList,
    trace: &mut GcStoreTraceState<'_, D>,
)
    requires { IsUnderWay H.under_way (stage heap.old state.old roots.old.roots trace.old.types.now.declarations trace.old.host_data_table.now.entries) }
    ensures sound { H.sound heap.new }
    ensures collected { (s : Start) (n : ℕ) (c : Bool)
        → H.under_way s n c (stage heap.old state.old roots.old.roots trace.old.types.now.declarations trace.old.host_data_table.now.entries)
        → Collected H.KIND s (H.seen heap.new) roots.new.roots (has_host trace.new.host_data_table.now.entries) }
    ensures ticks { H.ticks state.new ≡ H.ticks state.old }
    ensures spare { roots.new.spare ≡ roots.old.spare }
    ensures host_spare { trace.old.host_data_table.now.spare ≤ trace.new.host_data_table.now.spare }
    ensures values { IsPartOf trace.new.host_data_table.now.entries trace.old.host_data_table.now.entries }
    ensures hosts { trace.new.host_data_table.ghost_name ≡ trace.old.host_data_table.ghost_name }
    ensures types { trace.new.types ≡ trace.old.types }
{
    'increments: loop {
        match heap.step(state, roots, trace) {
            GcProgress::Continue => {}
            GcProgress::Complete => return,
        }
    }
}

/// Does the increments that a collection has left, as `collect` does, and counts their steps: in a
/// copying heap one for each object that is copied, each reference that is looked at, and each root
/// word that isn't null; the other heaps may count none.
pub fn collect_counted<H: GcHeap, D: Drop, G: Ledger>(
    heap: &mut H,
    state: &mut H::State,
    roots: &mut GcRootsList,
    trace: &mut GcStoreTraceState<'_, D>,
    steps: &mut Steps<G>,
)
    requires { IsUnderWay H.under_way (stage heap.old state.old roots.old.roots trace.old.types.now.declarations trace.old.host_data_table.now.entries) }
    ensures sound { H.sound heap.new }
    ensures collected { (s : Start) (n : ℕ) (c : Bool)
        → H.under_way s n c (stage heap.old state.old roots.old.roots trace.old.types.now.declarations trace.old.host_data_table.now.entries)
        → Collected H.KIND s (H.seen heap.new) roots.new.roots (has_host trace.new.host_data_table.now.entries) }
    ensures counted { (s : Start) (n : ℕ) (c : Bool)
        → H.under_way s n c (stage heap.old state.old roots.old.roots trace.old.types.now.declarations trace.old.host_data_table.now.entries)
        → c ≡ true → IsStepCount H.KIND s (H.ticks state.new) }
    ensures ticks { H.ticks state.new + steps.old ≡ H.ticks state.old + steps.new }
    ensures rises { steps.old ≤ steps.new }
    ensures spare { roots.new.spare ≡ roots.old.spare }
    ensures host_spare { trace.old.host_data_table.now.spare ≤ trace.new.host_data_table.now.spare }
    ensures values { IsPartOf trace.new.host_data_table.now.entries trace.old.host_data_table.now.entries }
    ensures hosts { trace.new.host_data_table.ghost_name ≡ trace.old.host_data_table.ghost_name }
    ensures types { trace.new.types ≡ trace.old.types }
{
    'increments: loop {
        match heap.step_counted(state, roots, trace, steps) {
            GcProgress::Continue => {}
            GcProgress::Complete => return,
        }
    }
}

/// Does a whole collection. It takes no memory.
pub fn run<H: GcHeap, D: Drop>(
    heap: &mut H,
    roots: &mut GcRootsList,
    trace: &mut GcStoreTraceState<'_, D>,
)
    requires sound { H.sound heap.old }
    requires can { CanCollect H.KIND (start_at (H.seen heap.old) roots.old.roots trace.old.types.now.declarations trace.old.host_data_table.now.entries) }
    ensures sound { H.sound heap.new }
    ensures collected { Collected H.KIND (start_at (H.seen heap.old) roots.old.roots trace.old.types.now.declarations trace.old.host_data_table.now.entries)
        (H.seen heap.new) roots.new.roots (has_host trace.new.host_data_table.now.entries) }
    ensures spare { roots.new.spare ≡ roots.old.spare }
    ensures host_spare { trace.old.host_data_table.now.spare ≤ trace.new.host_data_table.now.spare }
    ensures values { IsPartOf trace.new.host_data_table.now.entries trace.old.host_data_table.now.entries }
    ensures hosts { trace.new.host_data_table.ghost_name ≡ trace.old.host_data_table.ghost_name }
    ensures types { trace.new.types ≡ trace.old.types }
{
    let mut state = heap.begin();
    collect(heap, &mut state, roots, trace);
}

/// Does a whole collection as `run` does, and counts its steps. A copying collection takes one for
/// each object that the roots reach, for each reference in them, and for each root word that isn't
/// null.
pub fn run_counted<H: GcHeap, D: Drop, G: Ledger>(
    heap: &mut H,
    roots: &mut GcRootsList,
    trace: &mut GcStoreTraceState<'_, D>,
    steps: &mut Steps<G>,
)
    requires sound { H.sound heap.old }
    requires can { CanCollect H.KIND (start_at (H.seen heap.old) roots.old.roots trace.old.types.now.declarations trace.old.host_data_table.now.entries) }
    ensures sound { H.sound heap.new }
    ensures collected { Collected H.KIND (start_at (H.seen heap.old) roots.old.roots trace.old.types.now.declarations trace.old.host_data_table.now.entries)
        (H.seen heap.new) roots.new.roots (has_host trace.new.host_data_table.now.entries) }
    ensures counted { IsRise (IsStepCount H.KIND (start_at
        (H.seen heap.old) roots.old.roots trace.old.types.now.declarations trace.old.host_data_table.now.entries)) steps.old steps.new }
    ensures spare { roots.new.spare ≡ roots.old.spare }
    ensures host_spare { trace.old.host_data_table.now.spare ≤ trace.new.host_data_table.now.spare }
    ensures values { IsPartOf trace.new.host_data_table.now.entries trace.old.host_data_table.now.entries }
    ensures hosts { trace.new.host_data_table.ghost_name ≡ trace.old.host_data_table.ghost_name }
    ensures types { trace.new.types ≡ trace.old.types }
{
    let mut state = heap.begin();
    collect_counted(heap, &mut state, roots, trace, steps);
}
