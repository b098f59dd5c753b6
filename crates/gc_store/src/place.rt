//! Making objects of the table.

ghost use Rattle.std.specs.Prelude.{◌≡◌, ◌≤◌, ◌+◌, ◌-◌, ◌<◌, ◌^◌, Some, min, length, slice_index_or};
ghost use Rattle.gc_owner.specs.declared.entry.RootEntry as Root;
ghost use Rattle.gc_types.specs.Declarations.{shape_at};
ghost use Rattle.std.specs.Option.{option_map};
ghost use Rattle.std.specs.Int.NonZero.{non_zero_u32_get};
ghost use Rattle.gc_model.specs.Table.{Table};
ghost use Rattle.gc_model.specs.Values.{Object};
ghost use Rattle.gc_model.specs.Accounts.{Account, HoldsAccount, is_due};
ghost use Rattle.gc_model.specs.Policy.{policy_state};
ghost use Rattle.gc_store.specs.Places.{Places};
ghost use Rattle.gc_values.specs.Filling.{asked_type};
ghost use Rattle.gc_store.specs.Requests.{CanPlaceIn, IsObjectOf};
ghost use Rattle.gc_store.specs.Stores.{is_full, IsSameStore, scoped_places};

use crate::store::Store;
use gc_heap::GcHeap;
use gc_owner::{ResourceLimiter, RootEntry};
use gc_refs::VMGcRef;
use gc_types::TypeShape;
use gc_values::contents::ContentSource;
use gc_values::engine::StoreId;
use gc_values::faults::PlaceFault;
use gc_values::interned::{find_room, intern_all};
use gc_values::make::{description_of, make_object, object_size};
use gc_values::request::Place;
use gc_values::root::{GcRootIndex, RootSlot};
use std::num::NonZeroU32;

/// The handle of a scoped root.
pub(crate) fn scoped_handle(store_id: StoreId, generation: u64, index: u32) -> GcRootIndex
    ensures { result ≡ record { store_id = store_id; generation = generation; slot = RootSlot.Scoped index } }
{
    GcRootIndex {
        store_id,
        generation,
        slot: RootSlot::Scoped(index),
    }
}

/// The reference that a scoped root has, which isn't null.
fn holder_of(entries: &[RootEntry], index: u32) -> VMGcRef
    requires inside { index < length entries.now }
    requires present { (e : Root.RootEntry) → 0 < (slice_index_or entries.now index e).word }
    ensures { (e : Root.RootEntry) → result ≡ (slice_index_or entries.now index e).word }
{
    VMGcRef::from_raw_u32(entries[index as usize].word).unwrap()
}

/// Counts one more allocation, and tells whether it is due for a collection.
pub(crate) fn count_allocation(tries: &mut u64, alloc_counter: Option<NonZeroU32>) -> bool
    ensures counted { tries.new ≡ min (tries.old + 1) (2 ^ 64 - 1) }
    ensures due { result ≡ is_due (option_map non_zero_u32_get alloc_counter) tries.new }
{
    *tries = tries.saturating_add(1);
    match alloc_counter {
        Some(counter) => *tries % u64::from(counter.get()) == 0,
        None => false,
    }
}

impl<H: GcHeap, D: Drop> Store<H, D> {
    /// Whether no further scoped root may be made.
    pub(crate) fn roots_full(&self) -> bool
        ensures { result ≡ is_full self.now }
    {
        self.owner.scoped().len() >= self.config.max_scoped as usize
            || self.owner.generation() == u64::MAX
    }

    /// Places an object of a declared type with these values, and pushes a scoped root for it. The values are `Contents`, or come
    /// from another source, as `EachFrom` of `gc_values`.
    /// Refused are, in this order: `FuncTableFull` where the function values of the store and those of the object that it
    /// hasn't yet, each counted once and none as well, pass 2^31; `ContTableFull` where the same is so of continuations, of
    /// which none isn't counted; `TooLarge` where no heap of the kind can hold it; `RootsFull` where no further scoped root
    /// may be made; `HeapOutOfMemory` where the limiter refused the heap's first pages, or where there is no room and a
    /// growth was refused: by the limiter, or unasked, as the heap would have more than 65,535 pages. A refused call
    /// leaves the function values and the continuations of the store as they were; an object that is placed adds its
    /// own, for good.
    ///
    /// The allocation is counted, and each n-th one collects first where the configuration says so. A
    /// heap without room collects or grows, by `should_collect_first`: it collects, tries again, and
    /// then grows by what is needed; or it grows, and collects only where that was refused. Its time is
    /// linear in the object's size, beside that of a collection, of new memory and of what a source takes.
    pub fn place<L: ResourceLimiter, C: ContentSource + Drop>(
        &mut self,
        limiter: &mut L,
        request: Place,
        contents: C,
    ) -> Result<GcRootIndex, PlaceFault>
        requires { CanPlaceIn D H.KIND self.old request (C.contents contents) }
        ensures same { IsSameStore self.old self.new }
        ensures spare { scoped_places self.old ≤ scoped_places self.new }
        ensures places { (t : Table D) (a : Account) (o : Object D) → HoldsAccount H.KIND self.old t a
            → IsObjectOf self.old t request (C.contents contents) o
            → Places H.KIND self.old.alloc_counter o (policy_state t a (L.limits limiter.old)) (L.limits limiter.new) result self.new }
    {
        let shape = self.owner.types().shape(request.ty()).unwrap();
        match shape.clone() {
            Ok(shape) => self.place_shaped(limiter, request, &shape, contents),
            Err(_) => Err(PlaceFault::Memory),
        }
    }

    /// Places an object as `place` does, whose type lists `shape`: for callers that asked for it already.
    pub fn place_shaped<L: ResourceLimiter, C: ContentSource + Drop>(
        &mut self,
        limiter: &mut L,
        request: Place,
        shape: &TypeShape,
        contents: C,
    ) -> Result<GcRootIndex, PlaceFault>
        requires can { CanPlaceIn D H.KIND self.old request (C.contents contents) }
        requires listed { shape_at self.old.types (asked_type request) ≡ Some shape.now }
        ensures same { IsSameStore self.old self.new }
        ensures spare { scoped_places self.old ≤ scoped_places self.new }
        ensures places { (t : Table D) (a : Account) (o : Object D) → HoldsAccount H.KIND self.old t a
            → IsObjectOf self.old t request (C.contents contents) o
            → Places H.KIND self.old.alloc_counter o (policy_state t a (L.limits limiter.old)) (L.limits limiter.new) result self.new }
    {
        self.owner.is_ready();
        let is_full = self.roots_full();
        let given = contents.side_values(&request);
        find_room(*self.slot_counts.allocator(), &mut self.interned, given)?;
        let Some(size) = object_size::<H>(&request, shape) else {
            return Err(PlaceFault::TooLarge);
        };
        if is_full {
            return Err(PlaceFault::RootsFull);
        }
        let more = self.owner.roots_wanted();
        if self.owner.reserve(more).is_err() {
            return Err(PlaceFault::Memory);
        }
        let is_due = count_allocation(&mut self.tries, self.config.alloc_counter);
        let first_pages = self.config.first_pages;
        let description = description_of::<H>(&request, shape);
        match make_object(
            &mut self.owner,
            limiter,
            first_pages,
            is_due,
            &description,
            size,
        ) {
            Ok(index) => {
                intern_all(&mut self.interned, given);
                let holder = holder_of(self.owner.scoped(), index);
                contents.fill(&mut self.owner, &self.interned, &holder, &request, shape);
                Ok(scoped_handle(self.id, self.owner.generation(), index))
            }
            Err(fault) => Err(fault),
        }
    }
}
