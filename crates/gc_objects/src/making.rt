//! Asking the store for objects.

ghost use Rattle.std.specs.Prelude.{◌≡◌, ◌≤◌, IfOk, length, map};
ghost use Rattle.gc_model.specs.Table.{Table};
ghost use Rattle.gc_model.specs.Values.{Object, array};
ghost use Rattle.gc_model.specs.Stored.{byte_value};
ghost use Rattle.gc_model.specs.Accounts.{Account, HoldsAccount};
ghost use Rattle.gc_model.specs.Policy.{policy_state};
ghost use Rattle.gc_store.specs.Kinds.{NamesKind, IsScopedOfKind};
ghost use Rattle.gc_store.specs.Requests.{CanPlaceIn, CanPlaceElements, CanPlaceBytes, IsObjectOf};
ghost use Rattle.gc_store.specs.Stores.{IsSameStore, scoped_places};
ghost use Rattle.gc_objects.specs.Given.{raw_of};
ghost use Rattle.gc_objects.specs.Makes.{place_answer, handle_answer, MakesAsked, CanMakeOf, IsMadeOf, IsArrayOf};

use crate::faults::AllocFault;
use crate::val::{Val, raw_of};
use gc_heap::GcHeap;
use gc_rooted::{GcRef, Rooted};
use gc_store::{Contents, GcRootIndex, Place, PlaceFault, RawValue, ResourceLimiter, Store};
use gc_types::VMSharedTypeIndex;
use std::alloc::{AllocError, Global};

/// The values as the store takes them.
fn raw_values(alloc: Global, values: &[Val]) -> Result<Vec<RawValue>, AllocError>
    ensures { IfOk result (λ raws. raws.items ≡ map raw_of values.now) }
{
    let mut raws = Vec::with_capacity(alloc, values.len())?;
    for value in values {
        raws.extend_from_slice(&[raw_of(value)])?;
    }
    Ok(raws)
}

/// What the store answered, by the faults of a call that gives nothing back.
fn asked(answer: Result<GcRootIndex, PlaceFault>) -> Result<GcRootIndex, AllocFault<()>>
    ensures { result ≡ place_answer answer }
{
    match answer {
        Ok(root) => Ok(root),
        Err(PlaceFault::FuncTableFull) => Err(AllocFault::FuncTableFull),
        Err(PlaceFault::ContTableFull) => Err(AllocFault::ContTableFull),
        Err(PlaceFault::TooLarge) => Err(AllocFault::TooLarge),
        Err(PlaceFault::RootsFull) => Err(AllocFault::RootsFull),
        Err(PlaceFault::HeapOutOfMemory(full)) => Err(AllocFault::HeapOutOfMemory(full)),
        Err(PlaceFault::Memory) => Err(AllocFault::Memory),
    }
}

/// A typed handle of the root of an object that was made, whose kind is the handle's; or why none was made.
pub(crate) fn handed<H: GcHeap, D: Drop, T: GcRef>(
    store: &Store<H, D>,
    made: Result<GcRootIndex, AllocFault<()>>,
) -> Result<Rooted<T>, AllocFault<()>>
    requires { IfOk made (IsScopedOfKind D H.KIND store.now T.KIND) }
    ensures answer { handle_answer result ≡ made }
    ensures kind { IfOk result (λ handle. NamesKind D H.KIND store.now T.KIND handle.index) }
{
    match made {
        Ok(root) => Ok(Rooted::from_gc_root_index(store, root)),
        Err(fault) => Err(fault),
    }
}

/// Makes an object whose tests all passed. The root is a scoped one.
pub(crate) fn make<H: GcHeap, D: Drop, L: ResourceLimiter>(
    store: &mut Store<H, D>,
    limiter: &mut L,
    request: Place,
    contents: Contents<'_>,
) -> Result<GcRootIndex, AllocFault<()>>
    requires { CanPlaceIn D H.KIND store.old request contents }
    ensures same { IsSameStore store.old store.new }
    ensures spare { scoped_places store.old ≤ scoped_places store.new }
    ensures makes { (t : Table D) (a : Account) (o : Object D) → HoldsAccount H.KIND store.old t a → IsObjectOf store.old t request contents.entry o
        → MakesAsked H.KIND store.old.alloc_counter o (policy_state t a (L.limits limiter.old)) (L.limits limiter.new) result store.new }
{
    asked(store.place(limiter, request, contents))
}

/// Makes an object of values whose tests all passed, one for each field or element.
pub(crate) fn make_of<H: GcHeap, D: Drop, L: ResourceLimiter>(
    store: &mut Store<H, D>,
    limiter: &mut L,
    request: Place,
    values: &[Val],
) -> Result<GcRootIndex, AllocFault<()>>
    requires { CanMakeOf D H.KIND store.old request values.now }
    ensures same { IsSameStore store.old store.new }
    ensures spare { scoped_places store.old ≤ scoped_places store.new }
    ensures makes { (t : Table D) (a : Account) (o : Object D) → HoldsAccount H.KIND store.old t a → IsMadeOf store.old t request values.now o
        → MakesAsked H.KIND store.old.alloc_counter o (policy_state t a (L.limits limiter.old)) (L.limits limiter.new) result store.new }
{
    match raw_values(store.allocator(), values) {
        Ok(raws) => make(store, limiter, request, Contents::Each(raws.as_slice())),
        Err(_) => Err(AllocFault::Memory),
    }
}

/// Makes an array of elements whose tests all passed; `TooLarge` where there are 2^32 or more.
pub(crate) fn make_elements<H: GcHeap, D: Drop, L: ResourceLimiter>(
    store: &mut Store<H, D>,
    limiter: &mut L,
    ty: VMSharedTypeIndex,
    elems: &[Val],
) -> Result<GcRootIndex, AllocFault<()>>
    requires { CanPlaceElements D H.KIND store.old ty (length elems.now) (map raw_of elems.now) }
    ensures same { IsSameStore store.old store.new }
    ensures spare { scoped_places store.old ≤ scoped_places store.new }
    ensures makes { (t : Table D) (a : Account) (o : Object D) → HoldsAccount H.KIND store.old t a → IsArrayOf store.old t ty elems.now o
        → MakesAsked H.KIND store.old.alloc_counter o (policy_state t a (L.limits limiter.old)) (L.limits limiter.new) result store.new }
{
    match u32::try_from(elems.len()) {
        Ok(len) => make_of(store, limiter, Place::Array(ty, len), elems),
        Err(_) => Err(AllocFault::TooLarge),
    }
}

/// Makes an array of 8-bit elements; `TooLarge` where there are 2^32 bytes or more.
pub(crate) fn make_bytes<H: GcHeap, D: Drop, L: ResourceLimiter>(
    store: &mut Store<H, D>,
    limiter: &mut L,
    ty: VMSharedTypeIndex,
    elems: &[u8],
) -> Result<GcRootIndex, AllocFault<()>>
    requires { CanPlaceBytes store.old ty (length elems.now) elems.now }
    ensures same { IsSameStore store.old store.new }
    ensures spare { scoped_places store.old ≤ scoped_places store.new }
    ensures makes { (t : Table D) (a : Account) → HoldsAccount H.KIND store.old t a
        → MakesAsked H.KIND store.old.alloc_counter (array ty (map byte_value elems.now))
        (policy_state t a (L.limits limiter.old)) (L.limits limiter.new) result store.new }
{
    match u32::try_from(elems.len()) {
        Ok(len) => make(
            store,
            limiter,
            Place::Array(ty, len),
            Contents::Bytes(elems),
        ),
        Err(_) => Err(AllocFault::TooLarge),
    }
}
