//! Tests of what calls are given.

ghost use Rattle.std.specs.Prelude.{◌≡◌, ◌<◌, ◌==◌, ◌&&◌, IsTrue, OnOk, Some};
ghost use Rattle.gc_model.specs.Holds.{HoldsTable};
ghost use Rattle.gc_model.specs.Table.{Table};
ghost use Rattle.gc_store.specs.Roots.{is_of_store};
ghost use Rattle.gc_objects.specs.Given.{named_root, is_own, is_own_of, are_own, types_of, RootIsLive, ChecksValue, ChecksFilling, ChecksValues};
ghost use Rattle.gc_objects.specs.Given.{CanStoreAs, AllStorable, IsLiveOrGone};

use crate::faults::ValueFault;
use crate::places::object_at;
use crate::val::{Val, raw_of};
use gc_heap::GcHeap;
use gc_store::{GcRootIndex, RawValue, Store, StoreId};
use gc_types::{FieldType, VMSharedTypeIndex};

/// Whether these two numbers are the store's id.
pub(crate) fn carries_id<H: GcHeap, D: Drop>(store: &Store<H, D>, engine: u64, number: u64) -> bool
    ensures { result ≡ (engine == store.now.engine) && (number == store.now.number) }
{
    let id = store.id();
    engine == id.engine && number == id.number
}

/// Whether a handle carries the store's id.
pub(crate) fn is_of_store<H: GcHeap, D: Drop>(store: &Store<H, D>, handle: GcRootIndex) -> bool
    ensures { result ≡ is_of_store store.now handle }
{
    carries_id(store, handle.store_id.engine, handle.store_id.number)
}

/// The root that a value names, where it does.
fn named_root(value: &Val) -> Option<GcRootIndex>
    ensures { result ≡ named_root value.now }
{
    match raw_of(value) {
        RawValue::Ref(_, handle) => handle,
        _ => None,
    }
}

/// Whether a value has no handle of another store.
pub(crate) fn is_own<H: GcHeap, D: Drop>(store: &Store<H, D>, value: &Val) -> bool
    ensures { result ≡ is_own store.now value.now }
{
    match named_root(value) {
        Some(handle) => is_of_store(store, handle),
        None => true,
    }
}

/// Whether none of the values has a handle of another store.
pub(crate) fn are_own<H: GcHeap, D: Drop>(store: &Store<H, D>, values: &[Val]) -> bool
    ensures { result ≡ are_own store.now values.now }
{
    values.iter().all(|value| is_own(store, value))
}

/// Whether a value that is given for so many elements has no handle of another store; where there are none,
/// it isn't looked at.
pub(crate) fn is_own_of<H: GcHeap, D: Drop>(store: &Store<H, D>, value: &Val, count: u32) -> bool
    ensures { result ≡ is_own_of store.now value.now count }
{
    count == 0 || is_own(store, value)
}

/// Whether a value has a live root, or needs none.
pub(crate) fn is_live<H: GcHeap, D: Drop>(store: &Store<H, D>, value: &Val) -> bool
    ensures found { IsTrue result → RootIsLive D H.KIND store.now (named_root value.now) }
    ensures live { (t : Table D) → HoldsTable H.KIND store.now t → IsLiveOrGone store.now t value.now result }
{
    match named_root(value) {
        Some(handle) => object_at(store, handle).is_ok(),
        None => true,
    }
}

/// Whether a value may go into a field or an element of that type: `Unrooted` where its root is gone, then
/// `TypeMismatch` where it doesn't fit, or there is no type.
pub(crate) fn check_value<H: GcHeap, D: Drop>(
    store: &Store<H, D>,
    field: Option<FieldType>,
    value: &Val,
) -> Result<(), ValueFault>
    ensures stores { OnOk result (CanStoreAs D H.KIND store.now field value.now) }
    ensures checks { (t : Table D) → HoldsTable H.KIND store.now t → ChecksValue store.now t field value.now result }
{
    if !is_live(store, value) {
        return Err(ValueFault::Unrooted);
    }
    let field = match field {
        Some(field) => field,
        None => return Err(ValueFault::TypeMismatch),
    };
    if store.value_fits(&field.element_type.unpack(), &raw_of(value)) {
        Ok(())
    } else {
        Err(ValueFault::TypeMismatch)
    }
}

/// Whether a value may go into each of so many elements of that type, as `check_value` tells; where there are
/// none, it isn't looked at.
pub(crate) fn check_filling<H: GcHeap, D: Drop>(
    store: &Store<H, D>,
    element: FieldType,
    value: &Val,
    count: u32,
) -> Result<(), ValueFault>
    ensures stores { OnOk result (0 < count → CanStoreAs D H.KIND store.now (Some element) value.now) }
    ensures checks { (t : Table D) → HoldsTable H.KIND store.now t → ChecksFilling store.now t (Some element) value.now count result }
{
    if count == 0 {
        return Ok(());
    }
    check_value(store, Some(element), value)
}

/// The types of values: those of the fields of a struct type, or one for all elements of an array.
#[derive(Clone, Copy)]
pub(crate) enum ValueTypes {
    Fields(VMSharedTypeIndex),
    Elements(VMSharedTypeIndex),
}

/// The type of the value of that index; of elements whatever the index is.
fn type_at<H: GcHeap, D: Drop>(
    store: &Store<H, D>,
    types: &ValueTypes,
    index: usize,
) -> Option<FieldType>
    ensures { result ≡ types_of store.now.types types.now index }
{
    match types {
        ValueTypes::Fields(ty) => store.types().field(*ty, index),
        ValueTypes::Elements(ty) => store.types().array_elem(*ty),
    }
}

/// Whether the values may go, each into its own field or element; the first that may not says why.
pub(crate) fn check_values<H: GcHeap, D: Drop>(
    store: &Store<H, D>,
    types: &ValueTypes,
    values: &[Val],
) -> Result<(), ValueFault>
    ensures stores { OnOk result (AllStorable D H.KIND store.now (types_of store.now.types types.now) values.now) }
    ensures checks { (t : Table D) → HoldsTable H.KIND store.now t → ChecksValues store.now t (types_of store.now.types types.now) values.now result }
{
    for (index, value) in values.iter().enumerate() {
        check_value(store, type_at(store, types, index), value)?;
    }
    Ok(())
}
