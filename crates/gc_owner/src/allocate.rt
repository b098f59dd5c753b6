//! New objects, by the rule of retry.

ghost use Rattle.std.specs.Prelude.{◌≡◌, ◌<◌, ◌^◌, ℕ, List, true, false, length};
ghost use Rattle.gc_types.specs.Declarations.{Declaration};
ghost use Rattle.gc_view.specs.Heaps.{HeapObject};
ghost use Rattle.gc_heap.specs.Heap.{Allocated};
ghost use Rattle.gc_owner.specs.Growing.{state_of};
ghost use Rattle.gc_owner.specs.Makes.{CanMakeDescribed, Describes, AllocateAnswers};
ghost use Rattle.gc_owner.specs.Tries.{DescribesDeclared, GetsRoot, Tries, Lacks};

use crate::grow::should_collect_first;
use crate::limiter::ResourceLimiter;
use crate::owner::HeapOwner;
use crate::pages::PagesFault;
use crate::roots::Roots;
use gc_heap::words::{array_word, external_word};
use gc_heap::{GcHeap, HeapFault};
use gc_refs::VMGcRef;
use gc_tables::ExternRefHostDataId;
use gc_types::{GcArrayLayout, GcStructLayout, VMSharedTypeIndex};
use thiserror::Error;

/// What is to be made.
#[derive(Clone, Copy, Debug)]
pub enum Description<'a> {
    /// A struct or an exception of a declared type with that layout, whose fields are 0.
    Object(VMSharedTypeIndex, &'a GcStructLayout),
    /// An array of a declared type with that layout and of that length, whose elements are 0.
    Array(VMSharedTypeIndex, u32, &'a GcArrayLayout),
    /// An external object for the host value under that id.
    External(ExternRefHostDataId),
}

/// Why no object is made.
#[derive(Clone, Copy, Debug, PartialEq, Eq, Error)]
pub enum AllocateFault {
    #[error("no heap of the kind can hold an object of that size")]
    TooLarge,
    /// The heap has no room, and it was refused more; it would have to grow by so many bytes.
    #[error("no room for the object, which takes a growth by {0} bytes")]
    HeapOutOfMemory(u64),
    /// Out of memory. A collection may have run, and the heap may have grown.
    #[error("out of memory")]
    Memory,
}

/// Allocates what is described in the heap, with no root.
#[inline(always)]
fn new_object<H: GcHeap>(
    heap: &mut H,
    description: &Description<'_>,
) -> Result<Result<VMGcRef, u64>, HeapFault>
    requires sound { H.sound heap.old }
    requires attached { (H.seen heap.old).attached ≡ true }
    requires told { (types : List Declaration) × ((o : HeapObject) × ((size : ℕ) × DescribesDeclared H.KIND types description.now o size)) }
    ensures sound { H.sound heap.new }
    ensures allocated { (types : List Declaration) (o : HeapObject) (size : ℕ) → DescribesDeclared H.KIND types description.now o size
        → Allocated H.KIND (H.seen heap.old) (H.seen heap.new) o size result }
{
    match *description {
        Description::Object(ty, layout) => heap.alloc_uninit_struct_or_exn(ty, layout),
        Description::Array(ty, length, layout) => {
            array_word(heap.alloc_uninit_array(ty, length, layout))
        }
        Description::External(id) => external_word(heap.alloc_externref(id)),
    }
}

/// Gives a new object its scoped root, which is the last one, or tells why there is none. The name that
/// a counting heap counts for a new object is that of its root, so the heap is not told of another.
#[inline(always)]
fn root_new(
    roots: &mut Roots,
    made: Result<Result<VMGcRef, u64>, HeapFault>,
) -> Result<u32, AllocateFault>
    requires room { 0 < roots.old.spare }
    requires small { length roots.old.scoped < 2 ^ 32 }
    ensures { GetsRoot made roots.old roots.new result }
{
    match made {
        Ok(Ok(object)) => Ok(roots.push(object.as_raw_u32())),
        Ok(Err(need)) => Err(AllocateFault::HeapOutOfMemory(need)),
        Err(HeapFault::TooLarge) => Err(AllocateFault::TooLarge),
        Err(HeapFault::Memory) => Err(AllocateFault::Memory),
    }
}

impl<H: GcHeap, D: Drop> HeapOwner<H, D> {
    /// Tries once to make an object with its root. `HeapOutOfMemory` says what it takes.
    #[inline(always)]
    fn try_once(&mut self, description: &Description<'_>) -> Result<u32, AllocateFault>
        requires can { CanMakeDescribed H.KIND self.old.seen description.now }
        ensures tried { (o : HeapObject) (size : ℕ) → Describes H.KIND self.old.seen description.now o size
            → Tries H.KIND o size self.old.seen self.new.seen result }
    {
        let made = new_object(&mut self.heap, description);
        root_new(&mut self.roots, made)
    }

    /// Goes on with an allocation that found no room: collects and tries again; then lets the heap grow,
    /// where a refusal is overlooked, and tries for the last time.
    fn collect_then_grow<L: ResourceLimiter>(
        &mut self,
        limiter: &mut L,
        description: &Description<'_>,
    ) -> Result<u32, AllocateFault>
        requires can { CanMakeDescribed H.KIND self.old.seen description.now }
        requires lacks { (need : ℕ) × Lacks H.KIND self.old.seen description.now need true }
        ensures allocated { (o : HeapObject) (size : ℕ) → Describes H.KIND self.old.seen description.now o size
            → AllocateAnswers H.KIND o size (state_of self.old.seen (L.limits limiter.old)) (state_of self.new.seen (L.limits limiter.new)) result }
    {
        self.is_ready();
        self.collect();
        match self.try_once(description) {
            Ok(index) => Ok(index),
            Err(AllocateFault::HeapOutOfMemory(need)) => match self.grow_by(limiter, need) {
                Ok(()) => self.try_once(description),
                Err(PagesFault::Refused) => self.try_once(description),
                Err(PagesFault::Memory) => Err(AllocateFault::Memory),
            },
            Err(AllocateFault::TooLarge) => Err(AllocateFault::TooLarge),
            Err(AllocateFault::Memory) => Err(AllocateFault::Memory),
        }
    }

    /// Goes on with an allocation that found no room: lets the heap grow by the bytes that are needed,
    /// and collects only where that was refused; then tries for the last time.
    fn grow_or_collect<L: ResourceLimiter>(
        &mut self,
        limiter: &mut L,
        description: &Description<'_>,
        need: u64,
    ) -> Result<u32, AllocateFault>
        requires can { CanMakeDescribed H.KIND self.old.seen description.now }
        requires lacks { Lacks H.KIND self.old.seen description.now need false }
        ensures allocated { (o : HeapObject) (size : ℕ) → Describes H.KIND self.old.seen description.now o size
            → AllocateAnswers H.KIND o size (state_of self.old.seen (L.limits limiter.old)) (state_of self.new.seen (L.limits limiter.new)) result }
    {
        self.is_ready();
        match self.grow_by(limiter, need) {
            Ok(()) => self.try_once(description),
            Err(PagesFault::Refused) => {
                self.collect();
                self.try_once(description)
            }
            Err(PagesFault::Memory) => Err(AllocateFault::Memory),
        }
    }

    /// Makes an object, and pushes a scoped root for it, of which it answers the index. Its values are 0.
    ///
    /// A heap without room collects or grows, by `should_collect_first`: it collects, tries again, and then
    /// grows by what is needed; or it grows, and collects only where that was refused. Its time is linear in
    /// the object's size, beside that of a collection and of new memory.
    #[inline(always)]
    pub fn allocate<L: ResourceLimiter>(
        &mut self,
        limiter: &mut L,
        description: &Description<'_>,
    ) -> Result<u32, AllocateFault>
        requires can { CanMakeDescribed H.KIND self.old.seen description.now }
        ensures allocated { (o : HeapObject) (size : ℕ) → Describes H.KIND self.old.seen description.now o size
            → AllocateAnswers H.KIND o size (state_of self.old.seen (L.limits limiter.old)) (state_of self.new.seen (L.limits limiter.new)) result }
    {
        match self.try_once(description) {
            Ok(index) => Ok(index),
            Err(AllocateFault::HeapOutOfMemory(need)) => {
                if should_collect_first(need, self.heap().heap_slice().len(), self.last()) {
                    self.collect_then_grow(limiter, description)
                } else {
                    self.grow_or_collect(limiter, description, need)
                }
            }
            Err(AllocateFault::TooLarge) => Err(AllocateFault::TooLarge),
            Err(AllocateFault::Memory) => Err(AllocateFault::Memory),
        }
    }
}
