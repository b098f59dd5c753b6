//! The copying heap.
//!
//! ```text
//! place   0      16                    bump            half            capacity
//!         +------+--------+-----+------+---------------+----------------+
//!         | skip | object | ... | obj. | free          | the other half |
//!         +------+--------+-----+------+---------------+----------------+
//! ```
//!
//! Objects lie in the active half one behind the other, and a new one goes to the bump place. A collection
//! makes the other half active and copies there what the roots reach. External objects are linked with each
//! other, so that a collection finds those that it leaves behind. References are not counted: the barriers
//! do nothing.

ghost use Rattle.std.specs.Prelude.{ℕ, ◌≡◌, ◌+◌, ◌<◌, ◌≤◌};
ghost use Rattle.gc_view.specs.Heaps.{detached_in};
ghost use Rattle.gc_heap.specs.Collection.{Start, stage, IsPartOf};
ghost use Rattle.gc_copying.specs.States.{copying_seen, IsCopyingSound};
ghost use Rattle.gc_copying.specs.CopyPhases.{copying_left};
ghost use Rattle.gc_copying.specs.CopyBetween.{HasCopied, CopiesMore};

use crate::collection::CopyingCollection;
use crate::copy::collect::Phase;
use crate::growth::Marks;
use crate::space::Space;
use crate::ticks::Ticks;
use gc_heap::{
    Backing, FirstWord, GcHeap, GcProgress, GcStoreTraceState, HeapFault, HeapKind, HeapMemory,
};
use gc_refs::{RefFault, VMArrayRef, VMGcHeader, VMGcRef};
use gc_roots::GcRootsList;
use gc_steps::Steps;
use gc_types::Layouts;
use std::alloc::Global;
use std::marker::Brand;
use std::sync::ledger::{Blank, Ledger};

/// A heap whose collection copies what is reached.
#[derive(Drop)]
pub struct CopyingHeap {
    backing: Backing<Space, Marks>,
    scopes: u64,
}

impl CopyingHeap {
    /// A heap with no memory. It takes none until one is attached.
    pub fn new(_alloc: Global) -> CopyingHeap
        ensures sound { IsCopyingSound result }
        ensures seen { copying_seen result ≡ detached_in 0 }
    {
        CopyingHeap {
            backing: Backing::Detached,
            scopes: 0,
        }
    }

    /// Does one increment of a collection, and counts its steps.
    fn collect_more<D: Drop, G: Ledger>(
        &mut self,
        phase: &mut Phase,
        roots: &mut GcRootsList,
        trace: &mut GcStoreTraceState<'_, D>,
        steps: &mut Steps<G>,
    ) -> GcProgress
        requires { (s : Start) × ((n : ℕ) × ((counted : ℕ)
            × HasCopied s n counted (stage self.old phase.old roots.old.roots trace.old.types.now.declarations trace.old.host_data_table.now.entries))) }
        ensures copies { (s : Start) (n counted more : ℕ)
            → HasCopied s n counted (stage self.old phase.old roots.old.roots trace.old.types.now.declarations trace.old.host_data_table.now.entries)
            → steps.new ≡ steps.old + more → CopiesMore s (n + 1) (counted + more) result
            (stage self.new phase.new roots.new.roots trace.old.types.now.declarations trace.new.host_data_table.now.entries) }
        ensures less { result ≡ GcProgress.Continue → copying_left phase.new < copying_left phase.old }
        ensures rises { steps.old ≤ steps.new }
        ensures spare { roots.new.spare ≡ roots.old.spare }
        ensures host_spare { trace.old.host_data_table.now.spare ≤ trace.new.host_data_table.now.spare }
        ensures values { IsPartOf trace.new.host_data_table.now.entries trace.old.host_data_table.now.entries }
        ensures hosts { trace.new.host_data_table.ghost_name ≡ trace.old.host_data_table.ghost_name }
        ensures types { trace.new.types ≡ trace.old.types }
    {
        match &mut self.backing {
            Backing::Attached(space) => space.collect_some(
                phase,
                roots,
                &mut *trace.host_data_table,
                trace.types,
                steps,
            ),
            _ => unreachable!(),
        }
    }

    /// Does one increment of a collection, and counts its steps by a counter of its own.
    fn collect_alone<D: Drop, L: Ledger>(
        &mut self,
        phase: &mut Phase,
        roots: &mut GcRootsList,
        trace: &mut GcStoreTraceState<'_, D>,
        blank: Blank,
    ) -> GcProgress
        requires name { blank.name ≡ L.name }
        requires parts { blank.parts ≡ L.parts }
        requires some { 0 < blank.parts }
        requires copied { (s : Start) × ((n : ℕ) × ((counted : ℕ)
            × HasCopied s n counted (stage self.old phase.old roots.old.roots trace.old.types.now.declarations trace.old.host_data_table.now.entries))) }
        ensures copies { (s : Start) (n counted : ℕ)
            → HasCopied s n counted (stage self.old phase.old roots.old.roots trace.old.types.now.declarations trace.old.host_data_table.now.entries)
            → (more : ℕ) × CopiesMore s (n + 1) (counted + more) result
            (stage self.new phase.new roots.new.roots trace.old.types.now.declarations trace.new.host_data_table.now.entries) }
        ensures less { result ≡ GcProgress.Continue → copying_left phase.new < copying_left phase.old }
        ensures spare { roots.new.spare ≡ roots.old.spare }
        ensures host_spare { trace.old.host_data_table.now.spare ≤ trace.new.host_data_table.now.spare }
        ensures values { IsPartOf trace.new.host_data_table.now.entries trace.old.host_data_table.now.entries }
        ensures hosts { trace.new.host_data_table.ghost_name ≡ trace.old.host_data_table.ghost_name }
        ensures types { trace.new.types ≡ trace.old.types }
    {
        let mut steps = Steps::<L>::new(blank);
        self.collect_more(phase, roots, trace, &mut steps)
    }
}

impl GcHeap for CopyingHeap {
    ghost use Rattle.std.specs.Prelude.{ℕ};
    ghost use Rattle.gc_types.specs.declared.kind.Layouts.TheVariants.{Copying};
    ghost use Rattle.gc_copying.specs.States.{copying_seen, IsCopyingSound, IsCopyingTaken};
    ghost use Rattle.gc_copying.specs.CopyPhases.{copying_left};
    ghost use Rattle.gc_copying.specs.CopyBetween.{IsCopyingUnderWay};
    ghost use Rattle.gc_copying.specs.CopyingHeapLaw.{copying_is_heap};
    ghost use Rattle.gc_copying.specs.CollectionLaw.{IsCopyingFresh, copying_starts};

    type State = CopyingCollection;

    ghost seen = { copying_seen };

    ghost sound = { IsCopyingSound };

    ghost taken = { IsCopyingTaken };

    ghost begun = { IsCopyingFresh };

    ghost ticks = { λ state. state.ticks.count };

    ghost under_way = { λ s n c at. IsCopyingUnderWay s n c at.heap at.state.phase at.state.ticks.count at.roots at.types at.hosts };

    ghost left = { λ _ state. copying_left state.phase };

    ghost KIND = { Copying };

    ghost is_heap = { copying_is_heap };

    ghost starts = { copying_starts };

    const KIND: HeapKind = Layouts::Copying;

    fn unattached(alloc: Global) -> CopyingHeap {
        CopyingHeap::new(alloc)
    }

    fn memory(&self) -> Option<&HeapMemory> {
        match &self.backing {
            Backing::Attached(space) => Some(&space.memory),
            _ => None,
        }
    }

    fn attach(&mut self, memory: HeapMemory) -> Result<(), HeapMemory> {
        self.backing = Backing::Attached(Space::new(memory));
        Ok(())
    }

    fn detach(&mut self) -> HeapMemory {
        self.scopes = 0;
        self.backing.detach()
    }

    fn take_memory(&mut self) -> HeapMemory {
        self.backing.take()
    }

    fn replace_memory(&mut self, memory: HeapMemory, delta_bytes_grown: u64) {
        let Backing::Taken(marks) = self.backing else {
            unreachable!()
        };
        self.backing = Backing::Attached(marks.with_memory(memory));
    }

    fn enter_no_gc_scope(&mut self) {
        self.scopes += 1;
    }

    fn exit_no_gc_scope(&mut self) {
        self.scopes -= 1;
    }

    fn count_gc_ref(&mut self, gc_ref: &VMGcRef) {}

    fn drop_gc_ref(&mut self, gc_ref: VMGcRef) {}

    fn write_gc_ref(&mut self, destination: &mut Option<VMGcRef>, source: Option<&VMGcRef>) {
        *destination = source.map(|word| word.unchecked_copy());
    }

    fn expose_gc_ref_to_wasm(&mut self, gc_ref: VMGcRef) {}

    fn alloc_object(
        &mut self,
        header: VMGcHeader,
        first: FirstWord,
        size: u64,
    ) -> Result<Result<VMGcRef, u64>, HeapFault> {
        match &mut self.backing {
            Backing::Attached(space) => space.allocate(header, first, size),
            _ => unreachable!(),
        }
    }

    fn dealloc_uninit_struct_or_exn(&mut self, gc_ref: VMGcRef) {}

    fn dealloc_uninit_array(&mut self, array: VMArrayRef) {}

    fn set_header(&mut self, r: &VMGcRef, header: VMGcHeader) -> Result<(), RefFault> {
        if r.is_i31() {
            Err(RefFault::BadRef)
        } else {
            Ok(())
        }
    }

    fn write_object_data(&mut self, r: &VMGcRef, offset: u32, bytes: &[u8]) {
        match &mut self.backing {
            Backing::Attached(space) => space.write_data(r, offset, bytes),
            _ => unreachable!(),
        }
    }

    fn object_count(&self) -> u64 {
        self.backing.object_count()
    }

    fn allocated_bytes(&self) -> usize {
        match &self.backing {
            Backing::Attached(space) => (space.bump - space.start()) as usize,
            _ => 0,
        }
    }

    fn needs_gc_before_next_growth(&self) -> bool {
        match &self.backing {
            Backing::Attached(space) => space.upper,
            _ => false,
        }
    }

    fn begin(&self) -> CopyingCollection {
        CopyingCollection::new()
    }

    fn step<D: Drop>(
        &mut self,
        state: &mut CopyingCollection,
        roots: &mut GcRootsList,
        trace: &mut GcStoreTraceState<'_, D>,
    ) -> GcProgress {
        self.collect_alone::<D, Brand>(&mut state.phase, roots, trace, Blank::new(1))
    }

    fn step_counted<D: Drop, G: Ledger>(
        &mut self,
        state: &mut CopyingCollection,
        roots: &mut GcRootsList,
        trace: &mut GcStoreTraceState<'_, D>,
        steps: &mut Steps<G>,
    ) -> GcProgress {
        let before = Ticks::of(steps);
        let progress = self.collect_more(&mut state.phase, roots, trace, steps);
        let now = Ticks::of(steps);
        state.ticks = state.ticks.after(&before, &now);
        progress
    }
}
