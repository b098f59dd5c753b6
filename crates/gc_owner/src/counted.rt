//! Collections in increments whose steps are counted.

ghost use Rattle.std.specs.Prelude.{◌≡◌, ◌+◌, ◌<◌, ◌≤◌, ℕ, Bool, List, Some, true};
ghost use Rattle.gc_roots.specs.Roots.{Root};
ghost use Rattle.gc_heap.specs.Collection.{Start, stage, IsPartOf, IsStepCount};
ghost use Rattle.gc_owner.specs.Counting.{CountsSteps, ticks_of};
ghost use Rattle.gc_owner.specs.Going.{IsListed, StepsRoots, left_of};
ghost use Rattle.gc_owner.specs.Owners.{OwnerValue, IncrementsCounted, IsEnded, IsOwnerUnderWay, heap_kind};

use crate::increments::settle;
use crate::owner::HeapOwner;
use crate::roots::Roots;
use gc_heap::{GcHeap, GcProgress, GcStoreTraceState};
use gc_steps::Steps;
use gc_tables::ExternRefHostDataTable;
use gc_types::Types;
use std::sync::ledger::Ledger;

/// Does one increment of the collection that was given the roots, and counts its steps.
fn step_in_counted<H: GcHeap, D: Drop, G: Ledger>(
    heap: &mut H,
    state: &mut H::State,
    roots: &mut Roots,
    hosts: &mut ExternRefHostDataTable<D>,
    types: &Types,
    steps: &mut Steps<G>,
) -> GcProgress
    requires { IsListed H.under_way roots.old heap.old state.old types.now.declarations hosts.old.entries }
    ensures step { (s : Start) (n : ℕ) (c : Bool) (listed : List Root) → roots.old.listed ≡ Some listed
        → H.under_way s n c (stage heap.old state.old listed types.now.declarations hosts.old.entries)
        → StepsRoots H.KIND H.under_way H.sound s n c roots.old roots.new heap.new (H.seen heap.new) state.new
        types.now.declarations hosts.new.entries result }
    ensures counted { (s : Start) (n : ℕ) (listed : List Root) → roots.old.listed ≡ Some listed
        → H.under_way s n true (stage heap.old state.old listed types.now.declarations hosts.old.entries)
        → result ≡ GcProgress.Complete → IsStepCount H.KIND s (H.ticks state.new) }
    ensures less { result ≡ GcProgress.Continue → H.left heap.new state.new < H.left heap.old state.old }
    ensures ticks { H.ticks state.new + steps.old ≡ H.ticks state.old + steps.new }
    ensures rises { steps.old ≤ steps.new }
    ensures values { IsPartOf hosts.new.entries hosts.old.entries }
{
    let mut trace = GcStoreTraceState {
        host_data_table: hosts,
        types,
    };
    roots.step_counted(heap, state, &mut trace, steps)
}

impl<H: GcHeap, D: Drop> HeapOwner<H, D> {
    /// Does one increment as `increment` does, and counts its steps: a copying heap one for each object that
    /// it copies, each reference that it looks at, and each root word that isn't null; the others may count
    /// none. With no collection under way it counts none. It takes no memory.
    pub fn increment_counted<G: Ledger>(&mut self, steps: &mut Steps<G>) -> GcProgress
        ensures goes { (s : Start) (n : ℕ) (c : Bool) (begun : OwnerValue H H.State D)
            → IsOwnerUnderWay (heap_kind H.KIND H.seen H.sound H.under_way) s n c begun self.old
            → IncrementsCounted (heap_kind H.KIND H.seen H.sound H.under_way) s (n + 1) c begun self.new result }
        ensures counted { (s : Start) (n : ℕ) (begun : OwnerValue H H.State D)
            → IsOwnerUnderWay (heap_kind H.KIND H.seen H.sound H.under_way) s n true begun self.old
            → result ≡ GcProgress.Complete → CountsSteps H.KIND s (ticks_of H.ticks self.old.state) steps.old steps.new }
        ensures ticks { result ≡ GcProgress.Continue
            → ticks_of H.ticks self.new.state + steps.old ≡ ticks_of H.ticks self.old.state + steps.new }
        ensures rises { steps.old ≤ steps.new }
        ensures none { self.old.seen.idle ≡ true → (result ≡ GcProgress.Complete) × (self.new ≡ self.old) × (steps.new ≡ steps.old) }
        ensures complete { result ≡ GcProgress.Complete → self.new.seen.idle ≡ true }
        ensures less { result ≡ GcProgress.Continue → left_of H.left self.new.heap self.new.state < left_of H.left self.old.heap self.old.state }
    {
        match self.state.take() {
            Some(mut state) => {
                let progress = step_in_counted(
                    &mut self.heap,
                    &mut state,
                    &mut self.roots,
                    &mut self.hosts,
                    &self.types,
                    steps,
                );
                self.state = settle(progress, state, &self.heap, &mut self.roots, &mut self.last);
                progress
            }
            None => GcProgress::Complete,
        }
    }

    /// Does the increments that the collection that is under way has left, as `finish` does, and counts
    /// their steps; with none under way it does nothing and counts none. It takes no memory.
    pub fn finish_counted<G: Ledger>(&mut self, steps: &mut Steps<G>)
        ensures idle { self.new.seen.idle ≡ true }
        ensures same { self.old.seen.idle ≡ true → (self.new ≡ self.old) × (steps.new ≡ steps.old) }
        ensures ended { (s : Start) (n : ℕ) (c : Bool) (begun : OwnerValue H H.State D)
            → IsOwnerUnderWay (heap_kind H.KIND H.seen H.sound H.under_way) s n c begun self.old
            → IsEnded H.KIND begun self.new }
        ensures counted { (s : Start) (n : ℕ) (begun : OwnerValue H H.State D)
            → IsOwnerUnderWay (heap_kind H.KIND H.seen H.sound H.under_way) s n true begun self.old
            → CountsSteps H.KIND s (ticks_of H.ticks self.old.state) steps.old steps.new }
        ensures rises { steps.old ≤ steps.new }
    {
        'increments: loop {
            match self.increment_counted(steps) {
                GcProgress::Continue => {}
                GcProgress::Complete => return,
            }
        }
    }
}
