//! The counting heap.
//!
//! ```text
//! place   0    16
//!         +----+--------+------+--------+-----------+--------+------+
//!         |    | object | free | object | free      | object | free |
//!         +----+--------+------+--------+-----------+--------+------+
//! ```
//!
//! Objects lie in the blocks of a free list. Each counts the words that name it, one for the list of
//! shown words where it is on that list, and one for the queue where it waits to be freed. A word that is
//! given up takes its count away, and memory returns at the next collection.

ghost use Rattle.std.specs.Prelude.{ℕ, ◌≡◌, ◌≤◌, ◌<◌, ◌+◌};
ghost use Rattle.std.specs.Option.{option_copied};
ghost use Rattle.gc_types.specs.declared.kind.Layouts.TheVariants.{Counting};
ghost use Rattle.gc_view.specs.Heaps.{detached_in};
ghost use Rattle.gc_heap.specs.Barriers.{CanName, CanUnname, CanNameSlot, CanUnnameSlot, cloned, dropped, copied, emptied};
ghost use Rattle.gc_heap.specs.Collection.{Start, has_host, IsPartOf, Collected, Stepped};
ghost use Rattle.gc_drc.specs.States.{drc_seen, IsDrcSound};
ghost use Rattle.gc_drc.specs.CollectPhases.{increments_left};
ghost use Rattle.gc_drc.specs.ObjectsBetween.{CountingBetween};
ghost use Rattle.gc_drc.specs.PlainCounting.{HasDone, UnheldGone};

use crate::collect::phase::Phase;
use crate::collection::DrcCollection;
use crate::growth::Marks;
use crate::space::CountedSpace;
use gc_heap::{
    Backing, FirstWord, GcHeap, GcProgress, GcStoreTraceState, HeapFault, HeapKind, HeapMemory,
};
use gc_refs::{RefFault, VMArrayRef, VMGcHeader, VMGcRef};
use gc_roots::GcRootsList;
use gc_steps::Steps;
use gc_types::Layouts;
use std::alloc::Global;
use std::mem;
use std::sync::ledger::Ledger;

/// A heap whose objects count the words that name them.
#[derive(Drop)]
pub struct DrcHeap {
    alloc: Global,
    backing: Backing<CountedSpace, Marks>,
    scopes: u64,
}

impl DrcHeap {
    /// A heap with no memory. It takes none until one is attached.
    pub fn new(alloc: Global) -> DrcHeap
        ensures sound { IsDrcSound result }
        ensures seen { drc_seen result ≡ detached_in 0 }
    {
        DrcHeap {
            alloc,
            backing: Backing::Detached,
            scopes: 0,
        }
    }

    /// Counts a copy of a word.
    fn name(&mut self, gc_ref: &VMGcRef)
        requires sound { IsDrcSound self.old }
        requires named { CanName (drc_seen self.old) gc_ref.now }
        ensures sound { IsDrcSound self.new }
        ensures seen { drc_seen self.new ≡ cloned (drc_seen self.old) gc_ref.now }
    {
        match &mut self.backing {
            Backing::Attached(space) => space.name(gc_ref),
            _ => {}
        }
    }

    /// Takes a word off that is given up.
    fn unname(&mut self, gc_ref: &VMGcRef)
        requires sound { IsDrcSound self.old }
        requires named { CanUnname (drc_seen self.old) gc_ref.now }
        ensures sound { IsDrcSound self.new }
        ensures seen { drc_seen self.new ≡ dropped (drc_seen self.old) gc_ref.now }
    {
        match &mut self.backing {
            Backing::Attached(space) => space.unname(gc_ref),
            _ => {}
        }
    }

    /// Counts a copy of what a slot holds.
    fn name_slot(&mut self, source: Option<&VMGcRef>)
        requires sound { IsDrcSound self.old }
        requires named { CanNameSlot (drc_seen self.old) (option_copied source) }
        ensures sound { IsDrcSound self.new }
        ensures seen { drc_seen self.new ≡ copied (drc_seen self.old) (option_copied source.entry) }
    {
        match source {
            Some(word) => self.name(word),
            None => {}
        }
    }

    /// Takes off what a slot holds, which is going to lose it.
    fn unname_slot(&mut self, destination: &Option<VMGcRef>)
        requires sound { IsDrcSound self.old }
        requires named { CanUnnameSlot (drc_seen self.old) destination.now }
        ensures sound { IsDrcSound self.new }
        ensures seen { drc_seen self.new ≡ emptied (drc_seen self.old) destination.now }
    {
        match destination {
            Some(word) => self.unname(word),
            None => {}
        }
    }

    /// Does one increment of a collection.
    fn collect_more<D: Drop>(
        &mut self,
        phase: &mut Phase,
        roots: &GcRootsList,
        trace: &mut GcStoreTraceState<'_, D>,
    ) -> GcProgress
        requires { (s : Start) × ((n : ℕ) × CountingBetween s n self.old.scopes self.old.backing phase.old roots.now.roots trace.old.types.now.declarations
            (has_host trace.old.host_data_table.now.entries)) }
        ensures stepped { (s : Start) (n : ℕ) → CountingBetween s n self.old.scopes self.old.backing phase.old roots.now.roots trace.old.types.now.declarations
            (has_host trace.old.host_data_table.now.entries)
            → Stepped Counting s (n + 1) result (CountingBetween s (n + 1) self.new.scopes self.new.backing phase.new roots.now.roots
            trace.old.types.now.declarations
            (has_host trace.new.host_data_table.now.entries))
            (IsDrcSound self.new × Collected Counting s (drc_seen self.new) roots.now.roots (has_host trace.new.host_data_table.now.entries)) }
        ensures less { result ≡ GcProgress.Continue → increments_left phase.new < increments_left phase.old }
        ensures host_spare { trace.old.host_data_table.now.spare ≤ trace.new.host_data_table.now.spare }
        ensures values { IsPartOf trace.new.host_data_table.now.entries trace.old.host_data_table.now.entries }
        ensures hosts { trace.new.host_data_table.ghost_name ≡ trace.old.host_data_table.ghost_name }
        ensures types { trace.new.types ≡ trace.old.types }
    {
        match &mut self.backing {
            Backing::Attached(space) => {
                space.collect_some(phase, roots, &mut *trace.host_data_table, trace.types)
            }
            _ => unreachable!(),
        }
    }

    /// Does the first two increments of a collection of which nothing was done. They free what plain
    /// counting frees; cycles of garbage are left to the third increment, which the next step does. The
    /// heap may be read in between. It takes no memory.
    pub fn free_unheld<D: Drop>(
        &mut self,
        state: &mut DrcCollection,
        roots: &GcRootsList,
        trace: &mut GcStoreTraceState<'_, D>,
    )
        requires { (s : Start) × HasDone s 0 self.old state.old roots.now.roots trace.old.types.now.declarations
            (has_host trace.old.host_data_table.now.entries) }
        ensures under_way { (s : Start) → HasDone s 0 self.old state.old roots.now.roots trace.old.types.now.declarations
            (has_host trace.old.host_data_table.now.entries)
            → HasDone s 2 self.new state.new roots.now.roots trace.old.types.now.declarations (has_host trace.new.host_data_table.now.entries) }
        ensures gone { (s : Start) → HasDone s 0 self.old state.old roots.now.roots trace.old.types.now.declarations
            (has_host trace.old.host_data_table.now.entries)
            → UnheldGone s (drc_seen self.new) (has_host trace.new.host_data_table.now.entries) }
        ensures sound { IsDrcSound self.new }
        ensures host_spare { trace.old.host_data_table.now.spare ≤ trace.new.host_data_table.now.spare }
        ensures values { IsPartOf trace.new.host_data_table.now.entries trace.old.host_data_table.now.entries }
        ensures hosts { trace.new.host_data_table.ghost_name ≡ trace.old.host_data_table.ghost_name }
        ensures types { trace.new.types ≡ trace.old.types }
    {
        self.collect_more(&mut state.phase, roots, trace);
        self.collect_more(&mut state.phase, roots, trace);
    }
}

impl GcHeap for DrcHeap {
    ghost use Rattle.std.specs.Prelude.{ℕ, ◌≡◌, Some, length, take, drop};
    ghost use Rattle.std.specs.FinMap as finite;
    ghost use Rattle.gc_types.specs.declared.kind.Layouts.TheVariants.{Counting};
    ghost use Rattle.gc_view.specs.Heaps.{HeapObject};
    ghost use Rattle.gc_heap.specs.Objects.{held_size, IsObjectData};
    ghost use Rattle.gc_heap.specs.Barriers.{ShowsCount};
    ghost use Rattle.gc_drc.specs.ThreadedLists.{ThreadsLists};
    ghost use Rattle.gc_drc.specs.States.{drc_seen, IsDrcSound, IsDrcTaken};
    ghost use Rattle.gc_drc.specs.CollectPhases.{increments_left};
    ghost use Rattle.gc_drc.specs.ObjectsBetween.{IsDrcUnderWay};
    ghost use Rattle.gc_drc.specs.DrcHeapLaw.{drc_is_heap};
    ghost use Rattle.gc_drc.specs.DrcCollectionLaw.{IsCountingFresh, drc_starts};

    type State = DrcCollection;

    ghost seen = { drc_seen };

    ghost sound = { IsDrcSound };

    ghost taken = { IsDrcTaken };

    ghost begun = { IsCountingFresh };

    ghost ticks = { λ _. 0 };

    ghost under_way = { λ s n c at. IsDrcUnderWay s n at.heap at.state.phase at.roots at.types at.hosts };

    ghost left = { λ _ state. increments_left state.phase };

    ghost KIND = { Counting };

    ghost is_heap = { drc_is_heap };

    ghost starts = { drc_starts };

    const KIND: HeapKind = Layouts::Counting;

    fn unattached(alloc: Global) -> DrcHeap {
        DrcHeap::new(alloc)
    }

    fn memory(&self) -> Option<&HeapMemory> {
        match &self.backing {
            Backing::Attached(space) => Some(&space.memory),
            _ => None,
        }
    }

    fn attach(&mut self, memory: HeapMemory) -> Result<(), HeapMemory> {
        match CountedSpace::new(self.alloc, memory) {
            Ok(space) => {
                self.backing = Backing::Attached(space);
                Ok(())
            }
            Err(memory) => Err(memory),
        }
    }

    fn detach(&mut self) -> HeapMemory {
        self.scopes = 0;
        self.backing.detach()
    }

    fn take_memory(&mut self) -> HeapMemory {
        self.backing.take()
    }

    fn replace_memory(&mut self, memory: HeapMemory, delta_bytes_grown: u64) {
        match mem::replace(&mut self.backing, Backing::Detached) {
            Backing::Taken(marks) => {
                self.backing = Backing::Attached(marks.with_memory(memory, delta_bytes_grown));
            }
            _ => unreachable!(),
        }
    }

    fn enter_no_gc_scope(&mut self) {
        self.scopes += 1;
    }

    fn exit_no_gc_scope(&mut self) {
        self.scopes -= 1;
    }

    fn count_gc_ref(&mut self, gc_ref: &VMGcRef) {
        self.name(gc_ref);
    }

    fn drop_gc_ref(&mut self, gc_ref: VMGcRef) {
        self.unname(&gc_ref);
    }

    fn write_gc_ref(&mut self, destination: &mut Option<VMGcRef>, source: Option<&VMGcRef>) {
        self.name_slot(source);
        self.unname_slot(destination);
        *destination = source.map(|word| word.unchecked_copy());
    }

    fn expose_gc_ref_to_wasm(&mut self, gc_ref: VMGcRef) {
        match &mut self.backing {
            Backing::Attached(space) => space.show(&gc_ref),
            _ => {}
        }
    }

    fn alloc_object(
        &mut self,
        header: VMGcHeader,
        first: FirstWord,
        size: u64,
    ) -> Result<Result<VMGcRef, u64>, HeapFault> {
        match &mut self.backing {
            Backing::Attached(space) => space.allocate_counted(header, first, size),
            _ => unreachable!(),
        }
    }

    fn dealloc_uninit_struct_or_exn(&mut self, gc_ref: VMGcRef) {
        match &mut self.backing {
            Backing::Attached(space) => space.give_back(gc_ref.as_raw_u32()),
            _ => unreachable!(),
        }
    }

    fn dealloc_uninit_array(&mut self, array: VMArrayRef) {
        match &mut self.backing {
            Backing::Attached(space) => space.give_back(array.as_gc_ref().as_raw_u32()),
            _ => unreachable!(),
        }
    }

    fn set_header(&mut self, r: &VMGcRef, header: VMGcHeader) -> Result<(), RefFault> {
        match &mut self.backing {
            Backing::Attached(space) => space.set_header(r, header),
            _ => Err(RefFault::BadRef),
        }
    }

    fn write_object_data(&mut self, r: &VMGcRef, offset: u32, bytes: &[u8]) {
        match &mut self.backing {
            Backing::Attached(space) => space.write_data(r, offset, bytes),
            _ => unreachable!(),
        }
    }

    /// All bytes of the heap's memory. They also show the list of shown words and the queue, which are
    /// threaded through the headers: the heap keeps no other list of them.
    fn heap_slice(&self) -> &[u8]
        requires { IsDrcSound self.now }
        ensures size { length result.now ≡ (drc_seen self.now).capacity }
        ensures objects { (place : ℕ) (object : HeapObject) → finite.get (drc_seen self.now).content place ≡ Some object
            → IsObjectData Counting object (take (held_size Counting object) (drop place result.now)) }
        ensures counts { (place n : ℕ) → finite.get (drc_seen self.now).counts.counted place ≡ Some n → ShowsCount (drc_seen self.now) result.now place n }
        ensures lists { ThreadsLists (drc_seen self.now) result.now }
    {
        match &self.backing {
            Backing::Attached(space) => space.memory.bytes(),
            _ => &[],
        }
    }

    fn object_count(&self) -> u64 {
        self.backing.object_count()
    }

    fn allocated_bytes(&self) -> usize {
        match &self.backing {
            Backing::Attached(space) => space.allocated,
            _ => 0,
        }
    }

    fn needs_gc_before_next_growth(&self) -> bool {
        false
    }

    fn begin(&self) -> DrcCollection {
        DrcCollection::new()
    }

    fn step<D: Drop>(
        &mut self,
        state: &mut DrcCollection,
        roots: &mut GcRootsList,
        trace: &mut GcStoreTraceState<'_, D>,
    ) -> GcProgress {
        self.collect_more(&mut state.phase, roots, trace)
    }

    fn step_counted<D: Drop, G: Ledger>(
        &mut self,
        state: &mut DrcCollection,
        roots: &mut GcRootsList,
        trace: &mut GcStoreTraceState<'_, D>,
        _steps: &mut Steps<G>,
    ) -> GcProgress {
        self.collect_more(&mut state.phase, roots, trace)
    }
}
