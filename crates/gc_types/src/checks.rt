//! Whether a type may be declared.

ghost use Rattle.std.specs.Prelude.{◌≡◌, ◌<◌, ◌-◌, ◌↔◌, ◌∷◌, [], ◌++◌, All, IsTrue, OnOk, OnErr, ℕ, List, length, take};
ghost use Rattle.std.specs.List.{AllZip};
ghost use Rattle.gc_types.specs.Declarations.{Declaration, kind_at};
ghost use Rattle.gc_types.specs.Declarable.{IsKnownHeap, IsKnownVal, IsKnownStorage, IsKnownField, NamesKnown, MatchesShape};
ghost use Rattle.gc_types.specs.Tables.{ExtendsIn, MayStand};
ghost use Rattle.gc_types.specs.Subtyping.{supertypes_of, MatchesVal, MatchesField};
ghost use Rattle.gc_types.specs.Shapes.{shape_of};

use crate::ancestry::Ancestry;
use crate::entry::{Body, Declared};
use crate::index::VMSharedTypeIndex;
use crate::kind::TypeKind;
use crate::value::{FieldType, HeapType, StorageType, ValType};
use std::alloc::AllocError;

/// Whether the supertype, where there is one, has an index below that one.
pub(crate) fn is_earlier(supertype: Option<VMSharedTypeIndex>, index: usize) -> bool
    ensures { IsTrue result ↔ ((ty : ℕ) → supertype ≡ Some ty → ty < index) }
{
    match supertype {
        Some(ty) => (ty.as_u32() as usize) < index,
        None => true,
    }
}

/// Adds a type and its supertype.
pub(crate) fn push(
    ancestry: &mut Ancestry,
    types: &mut Vec<Declared>,
    new: Declared,
) -> Result<(), AllocError>
    requires declared { (ty : ℕ) → new.supertype ≡ Some ty → ty < length ancestry.old }
    requires room { length ancestry.old < u32.MAX }
    ensures types { OnOk result (types.new.items ≡ types.old.items ++ new ∷ []) }
    ensures ancestry { OnOk result (ancestry.new ≡ ancestry.old ++ new.supertype ∷ []) }
    ensures err { OnErr result (types.new.items ≡ types.old.items) }
    ensures err_ancestry { OnErr result (ancestry.new ≡ ancestry.old) }
{
    ancestry.push(new.supertype())?;
    match types.push(new) {
        Ok(()) => Ok(()),
        Err(_) => {
            ancestry.pop();
            Err(AllocError)
        }
    }
}

/// Drops the newest type and its supertype.
pub(crate) fn pop(ancestry: &mut Ancestry, types: &mut Vec<Declared>)
    ensures types { types.new.items ≡ take (length types.old.items - 1) types.old.items }
    ensures ancestry { ancestry.new ≡ take (length ancestry.old - 1) ancestry.old }
{
    ancestry.pop();
    types.pop();
}

/// Whether the newest type may stand behind the others: it names types of the right kinds, and its
/// supertype isn't final and is matched.
pub(crate) fn may_stand(ancestry: &Ancestry, types: &[Declared]) -> bool
    requires { ancestry.now ≡ supertypes_of types.now }
    ensures { (before : List Declaration) (d : Declaration) → types.now ≡ before ++ d ∷ [] → (IsTrue result ↔ MayStand types.now d) }
{
    match types.last() {
        Some(new) => names_known(types, new.body()) && extends(ancestry, types, new),
        None => true,
    }
}

/// Whether the type matches its supertype, which isn't final.
fn extends(ancestry: &Ancestry, types: &[Declared], new: &Declared) -> bool
    requires { ancestry.now ≡ supertypes_of types.now }
    ensures { IsTrue result ↔ ExtendsIn types.now new.now.shape new.now.supertype }
{
    let Some(ty) = new.supertype() else {
        return true;
    };
    match types.get(ty.as_u32() as usize) {
        Some(supertype) => {
            !supertype.is_final() && matches(ancestry, new.body(), supertype.body())
        }
        None => false,
    }
}

/// Whether a type matches its supertype.
fn matches(ancestry: &Ancestry, body: &Body, supertype: &Body) -> bool
    ensures { IsTrue result ↔ MatchesShape ancestry.now (shape_of body.now) (shape_of supertype.now) }
{
    match (body, supertype) {
        (Body::Struct(fields), Body::Struct(others)) => {
            fields_match(ancestry, fields.as_slice(), others.as_slice())
        }
        (Body::Array(array), Body::Array(other)) => {
            ancestry.matches_field(array.elem(), other.elem())
        }
        (Body::Func(func), Body::Func(other)) => {
            values_match(ancestry, other.params.as_slice(), func.params.as_slice())
                && values_match(ancestry, func.results.as_slice(), other.results.as_slice())
        }
        _ => false,
    }
}

/// Whether each of the supertype's fields is matched by the field at the same place.
fn fields_match(ancestry: &Ancestry, fields: &[FieldType], others: &[FieldType]) -> bool
    ensures { IsTrue result ↔ AllZip (MatchesField ancestry.now) (take (length others.now) fields.now) others.now }
{
    if fields.len() < others.len() {
        return false;
    }
    for (field, other) in fields.iter().zip(others) {
        if !ancestry.matches_field(field, other) {
            return false;
        }
    }
    true
}

/// Whether there are as many values in both, and each matches that at the same place.
fn values_match(ancestry: &Ancestry, values: &[ValType], others: &[ValType]) -> bool
    ensures { IsTrue result ↔ AllZip (MatchesVal ancestry.now) values.now others.now }
{
    if values.len() != others.len() {
        return false;
    }
    for (value, other) in values.iter().zip(others) {
        if !ancestry.matches_val(value, other) {
            return false;
        }
    }
    true
}

/// Whether each index that the type names is that of a type of the right kind.
fn names_known(types: &[Declared], body: &Body) -> bool
    ensures { IsTrue result ↔ NamesKnown types.now (shape_of body.now) }
{
    match body {
        Body::Struct(fields) => are_known_fields(types, fields.as_slice()),
        Body::Array(array) => is_known_field(types, array.elem()),
        Body::Exn(params) => are_known_values(types, params.as_slice()),
        Body::Func(func) => {
            are_known_values(types, func.params.as_slice())
                && are_known_values(types, func.results.as_slice())
        }
    }
}

fn are_known_fields(types: &[Declared], fields: &[FieldType]) -> bool
    ensures { IsTrue result ↔ All (IsKnownField types.now) fields.now }
{
    for field in fields {
        if !is_known_field(types, field) {
            return false;
        }
    }
    true
}

fn are_known_values(types: &[Declared], values: &[ValType]) -> bool
    ensures { IsTrue result ↔ All (IsKnownVal types.now) values.now }
{
    for value in values {
        if !is_known_value(types, value) {
            return false;
        }
    }
    true
}

fn is_known_field(types: &[Declared], field: &FieldType) -> bool
    ensures { IsTrue result ↔ IsKnownField types.now field.now }
{
    match &field.element_type {
        StorageType::I8 | StorageType::I16 => true,
        StorageType::ValType(ty) => is_known_value(types, ty),
    }
}

fn is_known_value(types: &[Declared], value: &ValType) -> bool
    ensures { IsTrue result ↔ IsKnownVal types.now value.now }
{
    match value {
        ValType::Ref(ty) => is_known_heap_type(types, &ty.heap_type),
        ValType::I32 | ValType::I64 | ValType::F32 | ValType::F64 | ValType::V128 => true,
    }
}

fn is_known_heap_type(types: &[Declared], ty: &HeapType) -> bool
    ensures { IsTrue result ↔ IsKnownHeap types.now ty.now }
{
    match ty {
        HeapType::ConcreteStruct(ty) => is_of_kind(types, *ty, TypeKind::Struct),
        HeapType::ConcreteArray(ty) => is_of_kind(types, *ty, TypeKind::Array),
        HeapType::ConcreteFunc(ty) => is_of_kind(types, *ty, TypeKind::Func),
        HeapType::ConcreteExn(ty) => is_of_kind(types, *ty, TypeKind::Exn),
        HeapType::Any
        | HeapType::Eq
        | HeapType::I31
        | HeapType::Struct
        | HeapType::Array
        | HeapType::None
        | HeapType::Extern
        | HeapType::NoExtern
        | HeapType::Func
        | HeapType::NoFunc
        | HeapType::Exn
        | HeapType::NoExn
        | HeapType::Cont
        | HeapType::NoCont => true,
    }
}

/// Whether the index is that of a type of the kind.
fn is_of_kind(types: &[Declared], ty: VMSharedTypeIndex, kind: TypeKind) -> bool
    ensures { IsTrue result ↔ (kind_at types.now ty ≡ Some kind) }
{
    match types.get(ty.as_u32() as usize) {
        Some(declared) => declared.kind() == kind,
        None => false,
    }
}
