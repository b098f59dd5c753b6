//! One object of a line is allocated.

ghost use Rattle.std.specs.Prelude.{◌≡◌, ℕ, List, length, map};
ghost use Rattle.gc_model.specs.Table.{Table};
ghost use Rattle.gc_model.specs.Values.{Value, Object, array, host};
ghost use Rattle.gc_model.specs.Accounts.{Account, HoldsAccount};
ghost use Rattle.gc_model.specs.Policy.{policy_state};
ghost use Rattle.gc_store.specs.Requests.{CanPlaceBytes, CanPlaceElements, CanPlaceIn, IsObjectOf, element_of};
ghost use Rattle.gc_model.specs.Stored.{byte_value, stored};
ghost use Rattle.gc_store.specs.Stores.{IsSameStore};
ghost use Rattle.gc_store.specs.Values.{AllStand};
ghost use Rattle.gc_load_image.specs.Stages.{CanPlaceLine, IsLineObject, PlacesLine};

use crate::fault::LoadFault;
use gc_heap::GcHeap;
use gc_image::ObjectLine;
use gc_store::{
    Contents, GcRootIndex, Place, PlaceFault, PlaceHostFault, RawValue, ResourceLimiter, Store,
};
use gc_types::VMSharedTypeIndex;

/// Allocates an object that isn't one of the host's.
fn allocate<H: GcHeap, L: ResourceLimiter>(
    store: &mut Store<H, u64>,
    limiter: &mut L,
    request: Place,
    contents: Contents<'_>,
) -> Result<GcRootIndex, LoadFault>
    requires { CanPlaceIn ℕ H.KIND store.old request contents }
    ensures places { (t : Table ℕ) (a : Account) (o : Object ℕ) → HoldsAccount H.KIND store.old t a → IsObjectOf store.old t request contents.entry o
        → PlacesLine H.KIND store.old.alloc_counter o (policy_state t a (L.limits limiter.old)) (L.limits limiter.new) result store.new }
    ensures same { IsSameStore store.old store.new }
{
    match store.place(limiter, request, contents) {
        Ok(handle) => Ok(handle),
        // No image has functions or continuations.
        Err(PlaceFault::FuncTableFull) => Err(LoadFault::Memory),
        Err(PlaceFault::ContTableFull) => Err(LoadFault::Memory),
        Err(PlaceFault::TooLarge) => Err(LoadFault::TooLarge),
        Err(PlaceFault::RootsFull) => Err(LoadFault::RootsFull),
        Err(PlaceFault::HeapOutOfMemory(fault)) => Err(LoadFault::HeapOutOfMemory(fault)),
        Err(PlaceFault::Memory) => Err(LoadFault::Memory),
    }
}

/// Allocates a host object.
fn allocate_host<H: GcHeap, L: ResourceLimiter>(
    store: &mut Store<H, u64>,
    limiter: &mut L,
    number: u64,
) -> Result<GcRootIndex, LoadFault>
    ensures places { (t : Table ℕ) (a : Account) → HoldsAccount H.KIND store.old t a
        → PlacesLine H.KIND store.old.alloc_counter (host number) (policy_state t a (L.limits limiter.old)) (L.limits limiter.new) result store.new }
    ensures same { IsSameStore store.old store.new }
{
    match store.place_host(limiter, number) {
        Ok(handle) => Ok(handle),
        Err(PlaceHostFault::RootsFull) => Err(LoadFault::RootsFull),
        Err(PlaceHostFault::HeapOutOfMemory(fault)) => {
            Err(LoadFault::HeapOutOfMemory(fault.take_inner().1))
        }
        Err(PlaceHostFault::Memory) => Err(LoadFault::Memory),
    }
}

/// Allocates the object of a line, with a value for each of its values.
pub(crate) fn allocate_line<H: GcHeap, L: ResourceLimiter>(
    store: &mut Store<H, u64>,
    limiter: &mut L,
    line: &ObjectLine,
    raws: &[RawValue],
) -> Result<GcRootIndex, LoadFault>
    requires { CanPlaceLine H.KIND store.old line.now raws.now }
    ensures places { (t : Table ℕ) (a : Account) (o : Object ℕ) → HoldsAccount H.KIND store.old t a → IsLineObject store.old t line.now raws.now o
        → PlacesLine H.KIND store.old.alloc_counter o (policy_state t a (L.limits limiter.old)) (L.limits limiter.new) result store.new }
    ensures same { IsSameStore store.old store.new }
{
    match line {
        ObjectLine::Struct { ty, values: _ } => {
            let ty = VMSharedTypeIndex::new(*ty);
            allocate(store, limiter, Place::Struct(ty), Contents::Each(raws))
        }
        ObjectLine::Array { ty, values: _ } => allocate_array(store, limiter, *ty, raws),
        ObjectLine::Bytes { ty, bytes } => allocate_bytes(store, limiter, *ty, bytes.as_slice()),
        ObjectLine::Host { number } => allocate_host(store, limiter, *number),
        ObjectLine::Exn { ty, tag, values: _ } => {
            let ty = VMSharedTypeIndex::new(*ty);
            allocate(store, limiter, Place::Exn(ty, *tag), Contents::Each(raws))
        }
    }
}

/// Allocates an array of these elements. More than a number of 32 bits counts fit no heap.
fn allocate_array<H: GcHeap, L: ResourceLimiter>(
    store: &mut Store<H, u64>,
    limiter: &mut L,
    ty: u32,
    raws: &[RawValue],
) -> Result<GcRootIndex, LoadFault>
    requires { CanPlaceElements ℕ H.KIND store.old ty (length raws.now) raws.now }
    ensures places { (t : Table ℕ) (a : Account) (o : Object ℕ) (vs : List Value) → HoldsAccount H.KIND store.old t a → AllStand store.old t raws.now vs
        → o ≡ array ty (map (stored (element_of t.types ty)) vs)
        → PlacesLine H.KIND store.old.alloc_counter o (policy_state t a (L.limits limiter.old)) (L.limits limiter.new) result store.new }
    ensures same { IsSameStore store.old store.new }
{
    let Ok(length) = u32::try_from(raws.len()) else {
        return Err(LoadFault::TooLarge);
    };
    let request = Place::Array(VMSharedTypeIndex::new(ty), length);
    allocate(store, limiter, request, Contents::Each(raws))
}

/// Allocates an array of these bytes.
fn allocate_bytes<H: GcHeap, L: ResourceLimiter>(
    store: &mut Store<H, u64>,
    limiter: &mut L,
    ty: u32,
    bytes: &[u8],
) -> Result<GcRootIndex, LoadFault>
    requires { CanPlaceBytes store.old ty (length bytes.now) bytes.now }
    ensures places { (t : Table ℕ) (a : Account) → HoldsAccount H.KIND store.old t a
        → PlacesLine H.KIND store.old.alloc_counter (array ty (map byte_value bytes.now)) (policy_state t a (L.limits limiter.old)) (L.limits limiter.new)
        result store.new }
    ensures same { IsSameStore store.old store.new }
{
    let Ok(length) = u32::try_from(bytes.len()) else {
        return Err(LoadFault::TooLarge);
    };
    let request = Place::Array(VMSharedTypeIndex::new(ty), length);
    allocate(store, limiter, request, Contents::Bytes(bytes))
}
