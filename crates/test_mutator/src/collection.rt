//! Whole collections, with their increments counted.

ghost use Rattle.std.specs.Prelude.{ℕ, Bool, ◌≡◌, ◌-◌, ◌^◌, min};
ghost use Rattle.gc_heap.specs.Collection.{Start, Collected, has_host, IsIncrements, IsPartOf, stage};
ghost use Rattle.test_mutator.specs.Mutators.{mutator_start};

use crate::mutator::Mutator;
use gc_heap::{GcHeap, GcProgress, GcStoreTraceState};
use gc_roots::GcRootsList;

/// Does a collection of which nothing was done, and says how many increments it took.
fn count_increments<H: GcHeap, D: Drop>(
    heap: &mut H,
    state: &mut H::State,
    roots: &mut GcRootsList,
    trace: &mut GcStoreTraceState<'_, D>,
) -> u64
    requires { (s : Start) × ((c : Bool) × H.under_way s 0 c
        (stage heap.old state.old roots.old.roots trace.old.types.now.declarations trace.old.host_data_table.now.entries)) }
    ensures sound { H.sound heap.new }
    ensures collected { (s : Start) (c : Bool) → H.under_way s 0 c
        (stage heap.old state.old roots.old.roots trace.old.types.now.declarations trace.old.host_data_table.now.entries)
        → Collected H.KIND s (H.seen heap.new) roots.new.roots (has_host trace.new.host_data_table.now.entries) }
    ensures increments { (s : Start) (c : Bool) → H.under_way s 0 c
        (stage heap.old state.old roots.old.roots trace.old.types.now.declarations trace.old.host_data_table.now.entries)
        → (n : ℕ) × (IsIncrements H.KIND s n × (result ≡ min n (2 ^ 64 - 1))) }
    ensures values { IsPartOf trace.new.host_data_table.now.entries trace.old.host_data_table.now.entries }
    ensures hosts { trace.new.host_data_table.ghost_name ≡ trace.old.host_data_table.ghost_name }
    ensures types { trace.new.types ≡ trace.old.types }
{
    let mut count: u64 = 0;
    'increments: loop {
        let progress = heap.step(state, roots, trace);
        count = count.saturating_add(1);
        match progress {
            GcProgress::Continue => {}
            GcProgress::Complete => return count,
        }
    }
}

impl<H: GcHeap> Mutator<H> {
    /// Collects, and says how many increments it took: exactly so many as the kind of heap takes, up to
    /// the greatest u64. The host values that stay are as they were.
    pub fn collect(&mut self) -> u64
        ensures collected { Collected H.KIND (mutator_start self.old) self.new.heap self.new.roots (has_host self.new.hosts) }
        ensures increments { (n : ℕ) × (IsIncrements H.KIND (mutator_start self.old) n × (result ≡ min n (2 ^ 64 - 1))) }
        ensures values { IsPartOf self.new.hosts self.old.hosts }
        ensures types { self.new.types ≡ self.old.types }
    {
        let mut state = self.heap.begin();
        let mut trace = GcStoreTraceState {
            host_data_table: &mut self.hosts,
            types: &self.types,
        };
        count_increments(&mut self.heap, &mut state, &mut self.roots, &mut trace)
    }
}
