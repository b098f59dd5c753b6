//! The words that spell types.

ghost use Rattle.std.specs.Prelude.{◌≡◌, List, Option, Some, All, IfOk, IfSome, IfNone, map, slice_get};
ghost use Rattle.gc_types.specs.declared.value.FieldType.{FieldType};
ghost use Rattle.gc_types.specs.declared.value.ValType.{ValType};
ghost use Rattle.gc_types.specs.Declarations.{constant_field, elem_at, fields_at};
ghost use Rattle.gc_image_write.specs.Plain.{IsPlainField, IsPlainVal};
ghost use Rattle.gc_image_write.specs.TypeWords.{AreWordsOf, WordsField, WordsHeap, WordsStorage, WordsValue};

use gc_commands::{FieldWord, HeapWord, StorageWord, ValueWord};
use gc_types::{FieldType, HeapType, Mutability, StorageType, Types, VMSharedTypeIndex, ValType};
use std::alloc::{AllocError, Global};

/// The word of what a reference may name; None where these are functions or continuations.
fn heap_word(ty: HeapType) -> Option<HeapWord>
    ensures { WordsHeap ty result }
{
    match ty {
        HeapType::Any => Some(HeapWord::Any),
        HeapType::Eq => Some(HeapWord::Eq),
        HeapType::I31 => Some(HeapWord::I31),
        HeapType::Struct => Some(HeapWord::Struct),
        HeapType::Array => Some(HeapWord::Array),
        HeapType::None => Some(HeapWord::None),
        HeapType::ConcreteStruct(index) => Some(HeapWord::Named(index.as_u32())),
        HeapType::ConcreteArray(index) => Some(HeapWord::Named(index.as_u32())),
        HeapType::Extern => Some(HeapWord::Extern),
        HeapType::NoExtern => Some(HeapWord::NoExtern),
        HeapType::Func => None,
        HeapType::NoFunc => None,
        HeapType::ConcreteFunc(_) => None,
        HeapType::Exn => Some(HeapWord::Exn),
        HeapType::NoExn => Some(HeapWord::NoExn),
        HeapType::ConcreteExn(index) => Some(HeapWord::Named(index.as_u32())),
        HeapType::Cont => None,
        HeapType::NoCont => None,
    }
}

/// The word of a value's type.
fn value_word(ty: ValType) -> Option<ValueWord>
    ensures { WordsValue ty result }
{
    match ty {
        ValType::I32 => Some(ValueWord::I32),
        ValType::I64 => Some(ValueWord::I64),
        ValType::F32 => Some(ValueWord::F32),
        ValType::F64 => Some(ValueWord::F64),
        ValType::V128 => Some(ValueWord::V128),
        ValType::Ref(reference) => match heap_word(reference.heap_type) {
            Some(heap) => Some(ValueWord::Ref {
                heap,
                nullable: reference.nullable,
            }),
            None => None,
        },
    }
}

/// The word of what a field holds.
fn storage_word(ty: StorageType) -> Option<StorageWord>
    ensures { WordsStorage ty result }
{
    match ty {
        StorageType::I8 => Some(StorageWord::I8),
        StorageType::I16 => Some(StorageWord::I16),
        StorageType::ValType(value) => match value_word(value) {
            Some(word) => Some(StorageWord::Value(word)),
            None => None,
        },
    }
}

/// The word of a field.
fn field_word(field: FieldType) -> Option<FieldWord>
    ensures { WordsField field result }
{
    match storage_word(field.element_type) {
        Some(storage) => Some(FieldWord {
            mutable: field.mutability.is_var(),
            storage,
        }),
        None => None,
    }
}

/// The word of a field of a struct type.
fn field_word_at(types: &Types, ty: VMSharedTypeIndex, index: usize) -> Option<FieldWord>
    ensures { (fields : List FieldType) (field : FieldType) → fields_at types.now.declarations ty ≡ Some fields → slice_get fields index ≡ Some field
        → WordsField field result }
{
    match types.field(ty, index) {
        Some(field) => field_word(field),
        None => None,
    }
}

/// The words of the fields of a struct type; None where one isn't plain.
pub(crate) fn field_words(
    alloc: Global,
    types: &Types,
    ty: VMSharedTypeIndex,
) -> Result<Option<Vec<FieldWord>>, AllocError>
    ensures some { IfOk result (λ found. IfSome found (λ words. (fields : List FieldType) → fields_at types.now.declarations ty ≡ Some fields
        → AreWordsOf WordsField fields words.items)) }
    ensures none { IfOk result (λ found. IfNone found ((fields : List FieldType) → fields_at types.now.declarations ty ≡ Some fields
        → ¬ All IsPlainField fields)) }
{
    let mut words = Vec::new(alloc);
    for index in 0..types.fields_len(ty).unwrap_or(0) {
        match field_word_at(types, ty, index) {
            Some(word) => words.extend_from_slice(&[word])?,
            None => return Ok(None),
        }
    }
    Ok(Some(words))
}

/// The word of the elements of an array type.
pub(crate) fn elem_word(types: &Types, ty: VMSharedTypeIndex) -> Option<FieldWord>
    ensures { (elem : FieldType) → elem_at types.now.declarations ty ≡ Some elem → WordsField elem result }
{
    match types.array_elem(ty) {
        Some(elem) => field_word(elem),
        None => None,
    }
}

/// The word of a parameter of an exception type.
fn param_word_at(types: &Types, ty: VMSharedTypeIndex, index: usize) -> Option<ValueWord>
    ensures { (params : List ValType) (param : ValType) → fields_at types.now.declarations ty ≡ Some (map constant_field params)
        → slice_get params index ≡ Some param → WordsValue param result }
{
    match types.field(ty, index) {
        Some(field) => value_word(field.element_type.unpack()),
        None => None,
    }
}

/// The words of the parameters of an exception type; None where one isn't plain.
pub(crate) fn param_words(
    alloc: Global,
    types: &Types,
    ty: VMSharedTypeIndex,
) -> Result<Option<Vec<ValueWord>>, AllocError>
    ensures some { IfOk result (λ found. IfSome found (λ words. (params : List ValType)
        → fields_at types.now.declarations ty ≡ Some (map constant_field params) → AreWordsOf WordsValue params words.items)) }
    ensures none { IfOk result (λ found. IfNone found ((params : List ValType)
        → fields_at types.now.declarations ty ≡ Some (map constant_field params) → ¬ All IsPlainVal params)) }
{
    let mut words = Vec::new(alloc);
    for index in 0..types.fields_len(ty).unwrap_or(0) {
        match param_word_at(types, ty, index) {
            Some(word) => words.extend_from_slice(&[word])?,
            None => return Ok(None),
        }
    }
    Ok(Some(words))
}
