//! The null heap: it allocates until its memory is full, and never frees.
//!
//! ```text
//! place   0        16                  32                    next
//!         +--------+------+------+-----+------+------+-------+---------
//!         | unused | kind | type | ... | kind | type | data  | free
//!         +--------+------+------+-----+------+------+-------+---------
//! ```
//!
//! Every object begins at a multiple of 16 with its kind word, whose 26 spare bits are its size in
//! bytes, and its type word; its data begins behind these 8 bytes, with the length of an array and
//! the number of an external object's host id first.
//!
//! An allocation reads nothing of the memory and takes the time to make its object 0, and a write the
//! time to copy its bytes. All other calls take constant time: none walks over the objects.

ghost use Rattle.std.specs.Prelude.{◌≡◌};
ghost use Rattle.gc_view.specs.Heaps.{detached_in};
ghost use Rattle.gc_heap.specs.NullStates.{null_seen, IsNullSound};

mod allocate;

use crate::collection::{GcProgress, GcStoreTraceState};
use crate::fault::HeapFault;
use crate::heap::{GcHeap, HeapKind};
use crate::new_object::FirstWord;
use gc_memory::HeapMemory;
use gc_refs::{RefFault, VMArrayRef, VMGcHeader, VMGcRef};
use gc_roots::GcRootsList;
use gc_steps::Steps;
use gc_types::Layouts;
use std::alloc::Global;
use std::sync::ledger::Ledger;

/// Bytes of a word.
const WORD: u32 = 4;

/// Where the last object of an empty heap ends.
const START: u32 = 1;

/// The null collector, which never collects.
pub struct NullCollector;

impl NullCollector {
    /// The layout of the objects of a null heap.
    pub fn layouts() -> Layouts
        ensures { result ≡ Layouts.Null }
    {
        Layouts::Null
    }
}

/// A collection of a null heap, which keeps every object. Its one increment does nothing.
#[derive(Drop)]
pub struct NullCollection;

/// A heap that never frees.
#[derive(Drop)]
pub struct NullHeap {
    memory: Option<HeapMemory>,
    /// Where the last object ends.
    next: u32,
    /// How many objects there are.
    objects: u64,
    /// How many scopes stand in which no collection may begin.
    scopes: u64,
}

impl NullHeap {
    /// A heap with no memory. It takes none until one is attached.
    pub fn new(_alloc: Global) -> NullHeap
        ensures sound { IsNullSound result }
        ensures seen { null_seen result ≡ detached_in 0 }
    {
        NullHeap {
            memory: None,
            next: START,
            objects: 0,
            scopes: 0,
        }
    }
}

impl GcHeap for NullHeap {
    ghost use Rattle.std.specs.Prelude.{ℕ};
    ghost use Rattle.gc_types.specs.declared.kind.Layouts.TheVariants.{Null};
    ghost use Rattle.gc_heap.specs.NullStates.{null_seen, IsNullSound, IsNullTaken, IsNullUnderWay};
    ghost use Rattle.gc_heap.specs.NullLaws.{null_is_heap, null_starts};

    type State = NullCollection;

    ghost seen = { null_seen };

    ghost sound = { IsNullSound };

    ghost taken = { IsNullTaken };

    ghost begun = { λ _. Unit {0} };

    ghost ticks = { λ _. 0 };

    ghost under_way = { λ s n _ at. IsNullUnderWay s n at.heap at.roots at.types at.hosts };

    ghost left = { λ _ _. 0 };

    ghost KIND = { Null };

    ghost is_heap = { null_is_heap };

    ghost starts = { λ s heap _ sound _ seen can. null_starts s heap sound seen can };

    const KIND: HeapKind = Layouts::Null;

    fn unattached(alloc: Global) -> NullHeap {
        NullHeap::new(alloc)
    }

    fn memory(&self) -> Option<&HeapMemory> {
        match &self.memory {
            Some(memory) => Some(memory),
            None => None,
        }
    }

    fn attach(&mut self, memory: HeapMemory) -> Result<(), HeapMemory> {
        // The pages of a memory tell that its size fits a heap.
        let _pages = memory.pages();
        self.memory = Some(memory);
        self.next = START;
        self.objects = 0;
        Ok(())
    }

    fn detach(&mut self) -> HeapMemory {
        match self.memory.take() {
            Some(memory) => {
                self.next = START;
                self.objects = 0;
                self.scopes = 0;
                memory
            }
            None => unreachable!(),
        }
    }

    fn take_memory(&mut self) -> HeapMemory {
        match self.memory.take() {
            Some(memory) => memory,
            None => unreachable!(),
        }
    }

    fn replace_memory(&mut self, memory: HeapMemory, _delta_bytes_grown: u64) {
        // The pages of a memory tell that its size fits a heap.
        let _pages = memory.pages();
        self.memory = Some(memory);
    }

    fn enter_no_gc_scope(&mut self) {
        self.scopes += 1;
    }

    fn exit_no_gc_scope(&mut self) {
        self.scopes -= 1;
    }

    fn count_gc_ref(&mut self, _gc_ref: &VMGcRef) {}

    fn drop_gc_ref(&mut self, _gc_ref: VMGcRef) {}

    fn write_gc_ref(&mut self, destination: &mut Option<VMGcRef>, source: Option<&VMGcRef>) {
        *destination = match source {
            Some(word) => Some(word.unchecked_copy()),
            None => None,
        };
    }

    fn expose_gc_ref_to_wasm(&mut self, _gc_ref: VMGcRef) {}

    #[inline(always)]
    fn alloc_object(
        &mut self,
        header: VMGcHeader,
        first: FirstWord,
        size: u64,
    ) -> Result<Result<VMGcRef, u64>, HeapFault> {
        match u32::try_from(size) {
            Ok(size) => self.allocate(header, size, first.number()),
            Err(_) => Err(HeapFault::TooLarge),
        }
    }

    fn dealloc_uninit_struct_or_exn(&mut self, _gc_ref: VMGcRef) {}

    fn dealloc_uninit_array(&mut self, _array: VMArrayRef) {}

    fn set_header(&mut self, r: &VMGcRef, _header: VMGcHeader) -> Result<(), RefFault> {
        if r.is_i31() {
            Err(RefFault::BadRef)
        } else {
            Ok(())
        }
    }

    fn write_object_data(&mut self, r: &VMGcRef, offset: u32, bytes: &[u8]) {
        let at = r.as_raw_u32() as usize + offset as usize;
        match &mut self.memory {
            Some(memory) => memory.write_bytes(at, bytes),
            None => unreachable!(),
        }
    }

    fn object_count(&self) -> u64 {
        self.objects
    }

    fn allocated_bytes(&self) -> usize {
        (self.next - START) as usize
    }

    fn needs_gc_before_next_growth(&self) -> bool {
        false
    }

    fn begin(&self) -> NullCollection {
        NullCollection
    }

    fn step<D: Drop>(
        &mut self,
        _state: &mut NullCollection,
        _roots: &mut GcRootsList,
        _trace: &mut GcStoreTraceState<'_, D>,
    ) -> GcProgress {
        // Every object is kept, so no host value is freed.
        GcProgress::Complete
    }

    fn step_counted<D: Drop, G: Ledger>(
        &mut self,
        _state: &mut NullCollection,
        _roots: &mut GcRootsList,
        _trace: &mut GcStoreTraceState<'_, D>,
        _steps: &mut Steps<G>,
    ) -> GcProgress {
        GcProgress::Complete
    }
}
