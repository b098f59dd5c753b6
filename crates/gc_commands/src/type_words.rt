//! The types that the words of a declaration spell, among the types that are declared. A declaration names these by their
//! indexes, and the type that it declares by the next one; `own` is that type's kind.

ghost use Rattle.std.specs.Prelude.{◌≡◌, ◌<◌, ◌≤◌, ◌↔◌, length, IsTrue, None, IfOk, IfSome, IfNone};
ghost use Rattle.gc_commands.specs.TypeWords.{kinds_with, named_type, heap_of, value_type_of, storage_of, field_of, fields_of, values_of};

use crate::command::{FieldWord, HeapWord, StorageWord, ValueWord};
use gc_types::{
    FieldType, HeapType, Mutability, RefType, StorageType, TypeKind, Types, VMSharedTypeIndex,
    ValType,
};
use std::alloc::{AllocError, Global};

/// The index of a supertype, where one is named.
pub fn index_of(supertype: Option<u32>) -> Option<VMSharedTypeIndex>
    ensures { result ≡ supertype }
{
    match supertype {
        Some(index) => Some(VMSharedTypeIndex::new(index)),
        None => None,
    }
}

/// Whether a type has that index.
fn is_declared(types: &Types, index: u32) -> bool
    ensures { IsTrue result ↔ (index < length types.now.declarations) }
{
    types.kind_of(VMSharedTypeIndex::new(index)).is_some()
}

/// Whether the next type gets that index, which none has.
fn is_next(types: &Types, index: u32) -> bool
    requires { length types.now.declarations ≤ index }
    ensures { IsTrue result ↔ (index ≡ length types.now.declarations) }
{
    index == 0 || is_declared(types, index - 1)
}

/// The kind of the type with that index, declared or the new one.
fn kind_of(types: &Types, own: TypeKind, index: u32) -> Option<TypeKind>
    ensures { result ≡ kinds_with types.now.declarations own index }
{
    if is_declared(types, index) {
        return types.kind_of(VMSharedTypeIndex::new(index));
    }
    if is_next(types, index) {
        Some(own)
    } else {
        None
    }
}

/// The heap type of the type with that index and kind; a function type can't be named.
fn named_type(index: u32, kind: Option<TypeKind>) -> Option<HeapType>
    ensures { result ≡ named_type index kind }
{
    let ty = VMSharedTypeIndex::new(index);
    match kind {
        Some(TypeKind::Struct) => Some(HeapType::ConcreteStruct(ty)),
        Some(TypeKind::Array) => Some(HeapType::ConcreteArray(ty)),
        Some(TypeKind::Exn) => Some(HeapType::ConcreteExn(ty)),
        Some(TypeKind::Func) => None,
        None => None,
    }
}

/// The heap type that a word spells, where it names none that it may not.
fn heap_of(types: &Types, own: TypeKind, word: &HeapWord) -> Option<HeapType>
    ensures { result ≡ heap_of (kinds_with types.now.declarations own) word.now }
{
    match word {
        HeapWord::Any => Some(HeapType::Any),
        HeapWord::Eq => Some(HeapType::Eq),
        HeapWord::I31 => Some(HeapType::I31),
        HeapWord::Struct => Some(HeapType::Struct),
        HeapWord::Array => Some(HeapType::Array),
        HeapWord::None => Some(HeapType::None),
        HeapWord::Extern => Some(HeapType::Extern),
        HeapWord::NoExtern => Some(HeapType::NoExtern),
        HeapWord::Exn => Some(HeapType::Exn),
        HeapWord::NoExn => Some(HeapType::NoExn),
        HeapWord::Named(index) => named_type(*index, kind_of(types, own, *index)),
    }
}

/// The value type that a word spells.
fn value_of(types: &Types, own: TypeKind, word: &ValueWord) -> Option<ValType>
    ensures { result ≡ value_type_of (kinds_with types.now.declarations own) word.now }
{
    match word {
        ValueWord::I32 => Some(ValType::I32),
        ValueWord::I64 => Some(ValType::I64),
        ValueWord::F32 => Some(ValType::F32),
        ValueWord::F64 => Some(ValType::F64),
        ValueWord::V128 => Some(ValType::V128),
        ValueWord::Ref { heap, nullable } => {
            let heap_type = heap_of(types, own, heap)?;
            Some(ValType::Ref(RefType {
                nullable: *nullable,
                heap_type,
            }))
        }
    }
}

/// The storage type that a word spells.
fn storage_of(types: &Types, own: TypeKind, word: &StorageWord) -> Option<StorageType>
    ensures { result ≡ storage_of (kinds_with types.now.declarations own) word.now }
{
    match word {
        StorageWord::I8 => Some(StorageType::I8),
        StorageWord::I16 => Some(StorageType::I16),
        StorageWord::Value(value) => {
            let ty = value_of(types, own, value)?;
            Some(StorageType::ValType(ty))
        }
    }
}

/// The field that a word spells; None where it names a type that it may not.
pub fn field_of(types: &Types, own: TypeKind, word: &FieldWord) -> Option<FieldType>
    ensures { result ≡ field_of (kinds_with types.now.declarations own) word.now }
{
    let element_type = storage_of(types, own, &word.storage)?;
    Some(FieldType {
        mutability: if word.mutable {
            Mutability::Var
        } else {
            Mutability::Const
        },
        element_type,
    })
}

/// The fields that words spell, in order; None where one names a type that it may not.
pub fn fields_of(
    alloc: Global,
    types: &Types,
    own: TypeKind,
    words: &[FieldWord],
) -> Result<Option<Vec<FieldType>>, AllocError>
    ensures some { IfOk result (λ found. IfSome found (λ fields. fields_of (kinds_with types.now.declarations own) words.now ≡ Some fields.items)) }
    ensures none { IfOk result (λ found. IfNone found (fields_of (kinds_with types.now.declarations own) words.now ≡ None)) }
{
    let mut fields = Vec::with_capacity(alloc, words.len())?;
    for word in words {
        let Some(field) = field_of(types, own, word) else {
            return Ok(None);
        };
        fields.extend_from_slice(&[field])?;
    }
    Ok(Some(fields))
}

/// The value types that words spell, in order; None where one names a type that it may not.
pub fn values_of(
    alloc: Global,
    types: &Types,
    own: TypeKind,
    words: &[ValueWord],
) -> Result<Option<Vec<ValType>>, AllocError>
    ensures some { IfOk result (λ found. IfSome found (λ values. values_of (kinds_with types.now.declarations own) words.now ≡ Some values.items)) }
    ensures none { IfOk result (λ found. IfNone found (values_of (kinds_with types.now.declarations own) words.now ≡ None)) }
{
    let mut values = Vec::with_capacity(alloc, words.len())?;
    for word in words {
        let Some(value) = value_of(types, own, word) else {
            return Ok(None);
        };
        values.extend_from_slice(&[value])?;
    }
    Ok(Some(values))
}
