//! Which values fit a type, and are as a field of the type keeps them.

ghost use Rattle.std.specs.Prelude.{◌≡◌, ◌↔◌, IsTrue, map};
ghost use Rattle.gc_types.specs.Subtyping.{supertypes_of};
ghost use Rattle.gc_model.specs.Fits.{fits, fits_type, matches, reference_fits};
ghost use Rattle.gc_model.specs.Stored.{stored};
ghost use Rattle.gc_image.specs.Steps.{IsBelow, type_fits, line_heap_type, small_type};
ghost use Rattle.gc_image.specs.Well.{as_object, as_reference, as_value, is_early};

use crate::image::{ImageReference, ImageValue, ObjectLine};
use gc_model::classes::null_fits;
use gc_owner::GcClass;
use gc_types::{
    FieldType, HeapType, Mutability, RefType, StorageType, Types, VMSharedTypeIndex, ValType,
};

/// The type of an object by itself, as a reference of that class; None where it fits no type of the class.
fn own_type(class: GcClass, object: &ObjectLine) -> Option<HeapType>
    ensures { result ≡ line_heap_type class object.now }
{
    match class {
        GcClass::Any => own_any_type(object),
        GcClass::Extern => match object {
            ObjectLine::Exn { .. } => None,
            _ => Some(HeapType::Extern),
        },
        GcClass::Exn => match object {
            ObjectLine::Exn { ty, .. } => Some(HeapType::ConcreteExn(VMSharedTypeIndex::new(*ty))),
            _ => None,
        },
    }
}

/// The same of class any.
fn own_any_type(object: &ObjectLine) -> Option<HeapType>
    ensures { result ≡ line_heap_type GcClass.Any object.now }
{
    match object {
        ObjectLine::Struct { ty, .. } => {
            Some(HeapType::ConcreteStruct(VMSharedTypeIndex::new(*ty)))
        }
        ObjectLine::Array { ty, .. } => Some(HeapType::ConcreteArray(VMSharedTypeIndex::new(*ty))),
        ObjectLine::Bytes { ty, .. } => Some(HeapType::ConcreteArray(VMSharedTypeIndex::new(*ty))),
        ObjectLine::Host { .. } => None,
        ObjectLine::Exn { .. } => None,
    }
}

/// The type of a small integer as a reference of that class.
fn small_type(class: GcClass) -> Option<HeapType>
    ensures { result ≡ small_type class }
{
    match class {
        GcClass::Any => Some(HeapType::I31),
        GcClass::Extern => Some(HeapType::Extern),
        GcClass::Exn => None,
    }
}

/// Whether what has that type by itself fits a type.
fn own_fits(types: &Types, own: Option<HeapType>, ty: &RefType) -> bool
    ensures { result ≡ type_fits (supertypes_of types.now.declarations) own ty.now.heap_type }
{
    match own {
        Some(own) => matches(types, own, ty),
        None => false,
    }
}

/// Whether a heap type matches that of a reference type.
fn matches(types: &Types, own: HeapType, ty: &RefType) -> bool
    ensures { result ≡ matches (supertypes_of types.now.declarations) own ty.now.heap_type }
{
    let own = RefType {
        nullable: false,
        heap_type: own,
    };
    types.are_declared();
    types.matches_ref(&own, ty)
}

/// Whether a reference fits a type, by the objects of its image.
fn reference_fits(
    types: &Types,
    objects: &[ObjectLine],
    ty: &RefType,
    class: GcClass,
    reference: ImageReference,
) -> bool
    ensures { result ≡ reference_fits types.now.declarations (map as_object objects.now) ty.now class (as_reference reference) }
{
    match reference {
        ImageReference::Null => null_fits(ty, class),
        ImageReference::Small(_) => own_fits(types, small_type(class), ty),
        ImageReference::Object(number) => match objects.get(number) {
            Some(object) => own_fits(types, own_type(class, object), ty),
            None => false,
        },
    }
}

/// Whether a value fits the type of a field or an element, by the objects of its image.
pub(crate) fn fits(
    types: &Types,
    objects: &[ObjectLine],
    ty: StorageType,
    value: &ImageValue,
) -> bool
    ensures { result ≡ fits types.now.declarations (map as_object objects.now) ty (as_value value.now) }
{
    value_fits(types, objects, ty.unpack(), value)
}

/// Whether a value fits a type.
fn value_fits(types: &Types, objects: &[ObjectLine], ty: ValType, value: &ImageValue) -> bool
    ensures { result ≡ fits_type types.now.declarations (map as_object objects.now) ty (as_value value.now) }
{
    match ty {
        ValType::I32 => matches!(value, ImageValue::I32(_)),
        ValType::I64 => matches!(value, ImageValue::I64(_)),
        ValType::F32 => matches!(value, ImageValue::F32(_)),
        ValType::F64 => matches!(value, ImageValue::F64(_)),
        ValType::V128 => matches!(value, ImageValue::V128(_)),
        ValType::Ref(ty) => match *value {
            ImageValue::Ref(class, reference) => {
                reference_fits(types, objects, &ty, class, reference)
            }
            _ => false,
        },
    }
}

/// Whether a value is as a field or an element of that type keeps it: a packed number is unsigned.
pub fn is_stored(ty: StorageType, value: &ImageValue) -> bool
    ensures { IsTrue result ↔ (stored ty (as_value value.now) ≡ as_value value.now) }
{
    match ty {
        StorageType::I8 => is_below(value, 0x100),
        StorageType::I16 => is_below(value, 0x1_0000),
        StorageType::ValType(_) => true,
    }
}

/// Whether a number of 32 bits, if the value is one, is unsigned and below a bound.
fn is_below(value: &ImageValue, bound: u32) -> bool
    ensures { IsTrue result ↔ IsBelow (as_value value.now) bound }
{
    match *value {
        ImageValue::I32(number) => number.cast_unsigned() < bound,
        _ => true,
    }
}

/// Whether an object must have what it names there from the start.
pub fn is_early(field: &FieldType) -> bool
    ensures { result ≡ is_early field.now }
{
    match field.mutability {
        Mutability::Const => true,
        Mutability::Var => match field.element_type {
            StorageType::ValType(ValType::Ref(ty)) => !ty.nullable,
            _ => false,
        },
    }
}
