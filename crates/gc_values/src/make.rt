//! New objects, with the heap's first pages where it isn't made.

ghost use Rattle.std.specs.Prelude.{◌≡◌, ◌<◌, ◌≤◌, ◌^◌, ℕ, List, true, length};
ghost use Rattle.gc_types.specs.Declarations.{Declaration};
ghost use Rattle.gc_view.specs.Heaps.{HeapObject};
ghost use Rattle.gc_view.specs.Pages.{max_pages};
ghost use Rattle.gc_owner.specs.Growing.{state_of};
ghost use Rattle.gc_owner.specs.Makes.{CanMakeDescribed, Describes};
ghost use Rattle.gc_model.specs.Shown.{DuesOwner};
ghost use Rattle.gc_model.specs.Allocation.{Limits};
ghost use Rattle.gc_values.specs.Making.{AllocatesObject, IsDescribedBy, IsOfTypes, IsSizeBy, MakesRooted, TellsSize};

use crate::faults::{GcHeapOutOfMemory, PlaceFault};
use crate::request::Place;
use gc_heap::GcHeap;
use gc_owner::{AllocateFault, Description, HeapOwner, PagesFault, ResourceLimiter};
use gc_types::TypeShape;

/// What an object of that request is made by, whose type lists `shape`.
#[inline(always)]
pub fn description_of<'a, H: GcHeap>(request: &Place, shape: &'a TypeShape) -> Description<'a>
    requires { (types : List Declaration) × ((size : ℕ) × IsSizeBy H.KIND types request.now shape.now size) }
    ensures { (types : List Declaration) (size : ℕ) → IsSizeBy H.KIND types request.now shape.now size → IsDescribedBy H.KIND types request.now result }
{
    match *request {
        Place::Struct(ty) => Description::Object(ty, shape.struct_layout(H::KIND).unwrap()),
        Place::Exn(ty, _) => Description::Object(ty, shape.struct_layout(H::KIND).unwrap()),
        Place::Array(ty, length) => {
            Description::Array(ty, length, shape.array_layout(H::KIND).unwrap())
        }
    }
}

/// The bytes of an object of that request, whose type lists `shape`; None exactly where no heap of the kind can hold it.
#[inline(always)]
pub fn object_size<H: GcHeap>(request: &Place, shape: &TypeShape) -> Option<u32>
    requires { (types : List Declaration) × ((size : ℕ) × IsSizeBy H.KIND types request.now shape.now size) }
    ensures { (types : List Declaration) (size : ℕ) → IsSizeBy H.KIND types request.now shape.now size → TellsSize H.KIND size result }
{
    let size = match *request {
        Place::Struct(_) => shape.struct_layout(H::KIND).unwrap().size,
        Place::Exn(..) => shape.struct_layout(H::KIND).unwrap().size,
        Place::Array(_, length) => shape.array_layout(H::KIND).unwrap().size(length)?,
    };
    if H::is_too_large(size) {
        return None;
    }
    Some(size)
}

/// There is no room for an object that needs so many bytes.
fn out_of_memory(bytes_needed: u64) -> PlaceFault
    ensures { result ≡ PlaceFault.HeapOutOfMemory (record { inner = tt; bytes_needed = bytes_needed }) }
{
    PlaceFault::HeapOutOfMemory(GcHeapOutOfMemory::new((), bytes_needed))
}

/// Collects where an allocation is due for it.
pub fn collect_if_due<H: GcHeap, D: Drop>(owner: &mut HeapOwner<H, D>, is_due: bool)
    requires idle { owner.old.seen.idle ≡ true }
    requires attached { owner.old.seen.heap.attached ≡ true }
    ensures { (limits : Limits) → DuesOwner H.KIND is_due (state_of owner.old.seen limits) (state_of owner.new.seen limits) }
{
    if is_due {
        owner.collect();
    }
}

/// Makes an object, whose values are 0, and its scoped root, of which it answers the index.
fn allocate_object<H: GcHeap, D: Drop, L: ResourceLimiter>(
    owner: &mut HeapOwner<H, D>,
    limiter: &mut L,
    description: &Description<'_>,
) -> Result<u32, PlaceFault>
    requires can { CanMakeDescribed H.KIND owner.old.seen description.now }
    ensures { (o : HeapObject) (size : ℕ) → Describes H.KIND owner.old.seen description.now o size
        → AllocatesObject H.KIND o size (state_of owner.old.seen (L.limits limiter.old)) (state_of owner.new.seen (L.limits limiter.new)) result }
{
    match owner.allocate(limiter, description) {
        Ok(index) => Ok(index),
        Err(AllocateFault::TooLarge) => Err(PlaceFault::TooLarge),
        Err(AllocateFault::HeapOutOfMemory(bytes_needed)) => Err(out_of_memory(bytes_needed)),
        Err(AllocateFault::Memory) => Err(PlaceFault::Memory),
    }
}

/// Makes the heap where it isn't made, collects where the allocation is due for it, and then makes an object of so
/// many bytes, whose values are 0, and its scoped root, of which it answers the index.
pub fn make_object<H: GcHeap, D: Drop, L: ResourceLimiter>(
    owner: &mut HeapOwner<H, D>,
    limiter: &mut L,
    first_pages: u32,
    is_due: bool,
    description: &Description<'_>,
    size: u32,
) -> Result<u32, PlaceFault>
    requires idle { owner.old.seen.idle ≡ true }
    requires pages { first_pages ≤ max_pages }
    requires room { 0 < owner.old.seen.roots.spare }
    requires few { length owner.old.seen.roots.scoped < 2 ^ 32 }
    requires of_types { IsOfTypes description.now }
    requires described { (o : HeapObject) × Describes H.KIND owner.old.seen description.now o size }
    ensures { (o : HeapObject) → Describes H.KIND owner.old.seen description.now o size
        → MakesRooted H.KIND o size first_pages is_due (state_of owner.old.seen (L.limits limiter.old))
        (state_of owner.new.seen (L.limits limiter.new)) result }
{
    match owner.make_heap(limiter, first_pages) {
        Ok(()) => {
            collect_if_due(owner, is_due);
            allocate_object(owner, limiter, description)
        }
        Err(PagesFault::Refused) => Err(out_of_memory(H::need(size))),
        Err(PagesFault::Memory) => Err(PlaceFault::Memory),
    }
}
