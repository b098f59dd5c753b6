//! The types that words are.

use crate::fault::CaseFault;
use gc_types::{FieldType, HeapType, Mutability, RefType, StorageType, VMSharedTypeIndex, ValType};
use std::alloc::Global;

/// The heap types that have a name.
const HEAP_TYPES: [(&str, HeapType); 14] = [
    ("any", HeapType::Any),
    ("eq", HeapType::Eq),
    ("i31", HeapType::I31),
    ("struct", HeapType::Struct),
    ("array", HeapType::Array),
    ("none", HeapType::None),
    ("extern", HeapType::Extern),
    ("noextern", HeapType::NoExtern),
    ("func", HeapType::Func),
    ("nofunc", HeapType::NoFunc),
    ("exn", HeapType::Exn),
    ("noexn", HeapType::NoExn),
    ("cont", HeapType::Cont),
    ("nocont", HeapType::NoCont),
];

/// The heap type that a word is.
fn heap_type_of(word: &str) -> Result<HeapType, CaseFault> {
    for (name, ty) in &HEAP_TYPES {
        if *name == word {
            return Ok(*ty);
        }
    }
    concrete_of(word)
}

/// The heap type of a declared type that a word is.
fn concrete_of(word: &str) -> Result<HeapType, CaseFault> {
    let (kind, index) = word.split_once(':').ok_or(CaseFault::NoCase)?;
    let ty = VMSharedTypeIndex::new(index.parse().ok().ok_or(CaseFault::NoCase)?);
    match kind {
        "struct" => Ok(HeapType::ConcreteStruct(ty)),
        "array" => Ok(HeapType::ConcreteArray(ty)),
        "func" => Ok(HeapType::ConcreteFunc(ty)),
        "exn" => Ok(HeapType::ConcreteExn(ty)),
        _ => Err(CaseFault::NoCase),
    }
}

/// The reference type that a word is.
pub(crate) fn ref_type_of(word: &str) -> Result<RefType, CaseFault> {
    let (nullable, name) = match word.strip_prefix('?') {
        Some(name) => (true, name),
        None => (false, word),
    };
    let heap_type = heap_type_of(name)?;
    Ok(RefType {
        nullable,
        heap_type,
    })
}

/// The value type that a word is.
fn value_of(word: &str) -> Result<ValType, CaseFault> {
    match word {
        "i32" => Ok(ValType::I32),
        "i64" => Ok(ValType::I64),
        "f32" => Ok(ValType::F32),
        "f64" => Ok(ValType::F64),
        "v128" => Ok(ValType::V128),
        _ => Ok(ValType::Ref(ref_type_of(word)?)),
    }
}

/// The storage type that a word is.
fn storage_of(word: &str) -> Result<StorageType, CaseFault> {
    match word {
        "i8" => Ok(StorageType::I8),
        "i16" => Ok(StorageType::I16),
        _ => Ok(StorageType::ValType(value_of(word)?)),
    }
}

/// The field type that a word is.
pub(crate) fn field_of(word: &str) -> Result<FieldType, CaseFault> {
    let (mutability, storage) = word.split_once('=').ok_or(CaseFault::NoCase)?;
    let mutability = match mutability {
        "const" => Mutability::Const,
        "var" => Mutability::Var,
        _ => return Err(CaseFault::NoCase),
    };
    let element_type = storage_of(storage)?;
    Ok(FieldType {
        mutability,
        element_type,
    })
}

/// The value types that words are.
pub(crate) fn values_of(alloc: Global, words: &[&str]) -> Result<Vec<ValType>, CaseFault> {
    let mut values = Vec::new(alloc);
    for word in words {
        let value = value_of(word)?;
        values.extend_from_slice(&[value])?;
    }
    Ok(values)
}

/// The field types that words are.
pub(crate) fn fields_of(alloc: Global, words: &[&str]) -> Result<Vec<FieldType>, CaseFault> {
    let mut fields = Vec::new(alloc);
    for word in words {
        let field = field_of(word)?;
        fields.extend_from_slice(&[field])?;
    }
    Ok(fields)
}
