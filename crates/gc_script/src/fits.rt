//! Which values fit a type.

ghost use Rattle.std.specs.Prelude.{◌≡◌, ℕ, false, List, Option};
ghost use Rattle.gc_types.specs.declared.value.HeapType.TheVariants as heap;
ghost use Rattle.gc_types.specs.Subtyping.{supertypes_of};
ghost use Rattle.gc_model.specs.Fits.{fits_type, fits};
ghost use Rattle.gc_model.specs.Holds.{HoldsTable};
ghost use Rattle.gc_model.specs.Table.{Table};
ghost use Rattle.gc_model.specs.Values.{Value};
ghost use Rattle.gc_store.specs.Values.{RawStands};
ghost use Rattle.gc_values.specs.OwnTypes.{own_fits, own_type};
ghost use Rattle.gc_values.specs.RawValues.{raw_handle};
ghost use Rattle.gc_values.specs.declared.root.GcRootIndex.{GcRootIndex};
ghost use Rattle.gc_script.specs.Values.{TellsHandle, is_opaque, number_fits};

use crate::values::slot_of;
use gc_heap::GcHeap;
use gc_model::classes::null_fits;
use gc_store::{GcClass, RawValue, RootedObject, Store};
use gc_types::{HeapType, RefType, StorageType, ValType};

/// Whether an object, as a reference of that class, is one of those that `any` takes: 31-bit numbers, structs and arrays.
#[inline(always)]
fn is_any(class: GcClass, object: &RootedObject) -> bool
    ensures { (supers : List (Option ℕ)) → result ≡ own_fits supers (own_type class object.now) heap.Any }
{
    match class {
        GcClass::Any => matches!(
            object,
            RootedObject::I31(_) | RootedObject::Struct(_) | RootedObject::Array(..)
        ),
        GcClass::Extern => false,
        GcClass::Exn => false,
    }
}

/// Whether an object, as a reference of that class, fits the type. Of `any` no types are asked.
#[inline(always)]
fn object_fits<H: GcHeap>(
    store: &Store<H, u64>,
    ty: &RefType,
    class: GcClass,
    object: &RootedObject,
) -> bool
    ensures { result ≡ own_fits (supertypes_of store.now.types) (own_type class object.now) ty.now.heap_type }
{
    match ty.heap_type {
        HeapType::Any => is_any(class, object),
        _ => store.object_fits(ty, class, object),
    }
}

/// Whether a reference fits the type, by the object that it names: none where it is null.
#[inline(always)]
fn reference_fits<H: GcHeap>(
    store: &Store<H, u64>,
    ty: &RefType,
    class: GcClass,
    object: &Option<RootedObject>,
) -> bool
    ensures { (t : Table ℕ) (v : Value) (handle : Option GcRootIndex) → HoldsTable H.KIND store.now t → RawStands store.now t (RawValue.Ref class handle) v
        → TellsHandle store.now t handle object.now → result ≡ fits_type t.types t.objects (ValType.Ref ty.now) v }
{
    match object {
        Some(object) => object_fits(store, ty, class, object),
        None => null_fits(ty, class),
    }
}

/// Whether a number is of that type.
#[inline(always)]
fn number_fits(ty: &ValType, value: &RawValue) -> bool
    ensures { result ≡ number_fits ty.now value.now }
{
    match ty {
        ValType::I32 => matches!(value, RawValue::I32(_)),
        ValType::I64 => matches!(value, RawValue::I64(_)),
        ValType::F32 => matches!(value, RawValue::F32(_)),
        ValType::F64 => matches!(value, RawValue::F64(_)),
        ValType::V128 => matches!(value, RawValue::V128(_)),
        ValType::Ref(_) => false,
    }
}

/// Whether a value that is no function or continuation fits a type, by the object that it names, where it names one.
#[inline(always)]
fn value_fits<H: GcHeap>(
    store: &Store<H, u64>,
    ty: &ValType,
    value: &RawValue,
    object: &Option<RootedObject>,
) -> bool
    ensures { (t : Table ℕ) (v : Value) → HoldsTable H.KIND store.now t → is_opaque value.now ≡ false → RawStands store.now t value.now v
        → TellsHandle store.now t (raw_handle value.now) object.now → result ≡ fits_type t.types t.objects ty.now v }
{
    let (class, _) = match slot_of(value) {
        Some(slot) => slot,
        None => return number_fits(ty, value),
    };
    match ty {
        ValType::Ref(ty) => reference_fits(store, ty, class, object),
        _ => false,
    }
}

/// Whether a value that is no function or continuation fits the type of a field or an element, by the object that it
/// names, where it names one.
#[inline(always)]
pub(crate) fn fits<H: GcHeap>(
    store: &Store<H, u64>,
    ty: &StorageType,
    value: &RawValue,
    object: &Option<RootedObject>,
) -> bool
    ensures { (t : Table ℕ) (v : Value) → HoldsTable H.KIND store.now t → is_opaque value.now ≡ false → RawStands store.now t value.now v
        → TellsHandle store.now t (raw_handle value.now) object.now → result ≡ fits t.types t.objects ty.now v }
{
    match ty {
        StorageType::I8 | StorageType::I16 => value_fits(store, &ValType::I32, value, object),
        StorageType::ValType(ty) => value_fits(store, ty, value, object),
    }
}
