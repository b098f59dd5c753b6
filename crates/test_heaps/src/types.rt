//! The declared types, by their names.

use crate::fault::TestFault;
use gc_types::{FieldType, HeapType, Mutability, RefType, StorageType, Types, ValType};
use std::alloc::Global;

/// The indexes of the types that the program itself names.
pub(crate) const CELL: u32 = 0;

pub(crate) const PAIR: u32 = 1;

pub(crate) const TRIPLE: u32 = 2;

pub(crate) const EXCEPTION: u32 = 3;

pub(crate) const NUMBERS: u32 = 5;

pub(crate) const BYTES: u32 = 6;

/// A mutable field.
fn mutable(element_type: StorageType) -> FieldType {
    FieldType {
        mutability: Mutability::Var,
        element_type,
    }
}

/// A field that holds any reference.
fn reference() -> FieldType {
    mutable(StorageType::ValType(ValType::Ref(RefType {
        nullable: true,
        heap_type: HeapType::Any,
    })))
}

/// A field that holds a number of 32 bits.
pub(crate) const NUMBER: FieldType = FieldType {
    mutability: Mutability::Var,
    element_type: StorageType::ValType(ValType::I32),
};

/// Declares a struct of so many numbers and a reference behind them.
fn declare_spread(alloc: Global, types: &mut Types, numbers: u32) -> Result<(), TestFault> {
    let mut fields: Vec<FieldType> = Vec::new(alloc);
    for _ in 0..numbers {
        fields.extend_from_slice(&[NUMBER])?;
    }
    fields.extend_from_slice(&[reference()])?;
    types.declare_struct(fields.as_slice(), None, true)?;
    Ok(())
}

/// The types that `TYPES` names.
pub(crate) fn declare(alloc: Global) -> Result<Types, TestFault> {
    let mut types = Types::new(alloc, 1, 1);
    declare_all(alloc, &mut types)?;
    Ok(types)
}

/// Declares the types that `TYPES` names, in the order of their indexes.
fn declare_all(alloc: Global, types: &mut Types) -> Result<(), TestFault> {
    types.declare_struct(&[reference()], None, true)?;
    types.declare_struct(&[reference(), reference()], None, true)?;
    types.declare_struct(&[NUMBER, NUMBER, NUMBER], None, true)?;
    types.declare_exn(&[ValType::I32])?;
    types.declare_array(reference(), None, true)?;
    types.declare_array(NUMBER, None, true)?;
    types.declare_array(mutable(StorageType::I8), None, true)?;
    for numbers in [0, 3, 22, 23] {
        declare_spread(alloc, types, numbers)?;
    }
    types.declare_struct(&[reference(); 30], None, true)?;
    Ok(())
}

/// The declared types: the name and the index of each.
pub(crate) const TYPES: [(&str, u32); 12] = [
    ("cell", CELL),
    ("pair", PAIR),
    ("triple", TRIPLE),
    ("exception", EXCEPTION),
    ("references", 4),
    ("numbers", NUMBERS),
    ("bytes", BYTES),
    ("spread0", 7),
    ("spread3", 8),
    ("spread22", 9),
    ("spread23", 10),
    ("thirty", 11),
];
