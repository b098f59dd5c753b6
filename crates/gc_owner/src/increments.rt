//! Collections in increments.

ghost use Rattle.std.specs.Prelude.{◌≡◌, ◌+◌, ◌<◌, ℕ, Bool, List, Some, false, true};
ghost use Rattle.gc_roots.specs.Roots.{Root};
ghost use Rattle.gc_heap.specs.Collection.{Start, stage, IsPartOf};
ghost use Rattle.gc_owner.specs.Counting.{ticks_of};
ghost use Rattle.gc_owner.specs.Going.{HasMovedList, IsListed, Settles, StepsRoots, left_of};
ghost use Rattle.gc_owner.specs.Owners.{OwnerValue, Increments, IsEnded, IsGoing, IsOwnerUnderWay, heap_kind, start_of};

use crate::owner::HeapOwner;
use crate::roots::Roots;
use gc_heap::{GcHeap, GcProgress, GcStoreTraceState};
use gc_tables::ExternRefHostDataTable;
use gc_types::Types;

/// Does one increment of the collection that was given the roots.
fn step_in<H: GcHeap, D: Drop>(
    heap: &mut H,
    state: &mut H::State,
    roots: &mut Roots,
    hosts: &mut ExternRefHostDataTable<D>,
    types: &Types,
) -> GcProgress
    requires { IsListed H.under_way roots.old heap.old state.old types.now.declarations hosts.old.entries }
    ensures step { (s : Start) (n : ℕ) (c : Bool) (listed : List Root) → roots.old.listed ≡ Some listed
        → H.under_way s n c (stage heap.old state.old listed types.now.declarations hosts.old.entries)
        → StepsRoots H.KIND H.under_way H.sound s n false roots.old roots.new heap.new (H.seen heap.new) state.new
        types.now.declarations hosts.new.entries result }
    ensures less { result ≡ GcProgress.Continue → H.left heap.new state.new < H.left heap.old state.old }
    ensures values { IsPartOf hosts.new.entries hosts.old.entries }
{
    let mut trace = GcStoreTraceState {
        host_data_table: hosts,
        types,
    };
    roots.step(heap, state, &mut trace)
}

/// Ends an increment. The state of a collection that goes on is kept; of one that is complete none is, the roots take
/// the words of the objects that moved, and the bytes that are allocated then are the last collection's.
pub(crate) fn settle<H: GcHeap>(
    progress: GcProgress,
    state: H::State,
    heap: &H,
    roots: &mut Roots,
    last: &mut usize,
) -> Option<H::State>
    requires { progress ≡ GcProgress.Complete → H.sound heap.now × HasMovedList roots.old }
    ensures { Settles state (H.seen heap.now).allocated roots.old roots.new last.old last.new result progress }
{
    match progress {
        GcProgress::Continue => Some(state),
        GcProgress::Complete => {
            roots.take_roots();
            *last = heap.allocated_bytes();
            None
        }
    }
}

impl<H: GcHeap, D: Drop> HeapOwner<H, D> {
    /// Whether no collection is under way.
    pub fn is_idle(&self) -> bool
        ensures { result ≡ self.now.seen.idle }
    {
        let _heap = &self.heap;
        self.state.is_none()
    }

    /// Begins a collection from all roots, which increments then do. Until it is complete the owner is not idle. It takes
    /// no memory.
    pub fn begin_all(&mut self)
        requires idle { self.old.seen.idle ≡ true }
        requires attached { self.old.seen.heap.attached ≡ true }
        ensures going { IsGoing (heap_kind H.KIND H.seen H.sound H.under_way) (start_of self.old.seen) 0 true self.old self.new }
        ensures ticks { ticks_of H.ticks self.new.state ≡ 0 }
    {
        let state = self.heap.begin();
        self.roots.list_roots();
        self.state = Some(state);
    }

    /// Drops the owned roots without handles, and begins a collection from the others and all other roots,
    /// which increments then do. Until it is complete the owner is not idle. It takes no memory.
    pub fn begin(&mut self)
        requires idle { self.old.seen.idle ≡ true }
        requires attached { self.old.seen.heap.attached ≡ true }
        ensures { (s : Start) × IsOwnerUnderWay (heap_kind H.KIND H.seen H.sound H.under_way) s 0 true self.old self.new }
    {
        self.trim();
        self.begin_all();
    }

    /// Does one increment of the collection that is under way, and answers whether it is complete; with none
    /// under way it does nothing. It takes no memory.
    pub fn increment(&mut self) -> GcProgress
        ensures goes { (s : Start) (n : ℕ) (c : Bool) (begun : OwnerValue H H.State D)
            → IsOwnerUnderWay (heap_kind H.KIND H.seen H.sound H.under_way) s n c begun self.old
            → Increments (heap_kind H.KIND H.seen H.sound H.under_way) s (n + 1) begun self.new result }
        ensures none { self.old.seen.idle ≡ true → (result ≡ GcProgress.Complete) × (self.new ≡ self.old) }
        ensures complete { result ≡ GcProgress.Complete → self.new.seen.idle ≡ true }
        ensures less { result ≡ GcProgress.Continue → left_of H.left self.new.heap self.new.state < left_of H.left self.old.heap self.old.state }
    {
        match self.state.take() {
            Some(mut state) => {
                let progress = step_in(
                    &mut self.heap,
                    &mut state,
                    &mut self.roots,
                    &mut self.hosts,
                    &self.types,
                );
                self.state = settle(progress, state, &self.heap, &mut self.roots, &mut self.last);
                progress
            }
            None => GcProgress::Complete,
        }
    }

    /// Does the increments that the collection that is under way has left; with none under way it does
    /// nothing. It takes no memory.
    pub fn finish(&mut self)
        ensures idle { self.new.seen.idle ≡ true }
        ensures same { self.old.seen.idle ≡ true → self.new ≡ self.old }
        ensures ended { (s : Start) (n : ℕ) (c : Bool) (begun : OwnerValue H H.State D)
            → IsOwnerUnderWay (heap_kind H.KIND H.seen H.sound H.under_way) s n c begun self.old
            → IsEnded H.KIND begun self.new }
    {
        'increments: loop {
            match self.increment() {
                GcProgress::Continue => {}
                GcProgress::Complete => return,
            }
        }
    }
}
