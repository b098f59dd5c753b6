//! The types of an image are declared in the store.

ghost use Rattle.std.specs.Prelude.{◌≡◌, []};
ghost use Rattle.gc_store.specs.Stores.{IsSameStore};
ghost use Rattle.gc_load_image.specs.Stages.{DeclaresAll, DeclaresType, KeepsButTypes};

use crate::fault::{LoadFault, told_of_type};
use gc_commands::type_words::{field_of, fields_of, values_of};
use gc_commands::{Command, FieldWord, ValueWord};
use gc_heap::GcHeap;
use gc_store::Store;
use gc_store::laws::stores_hold_tables;
use gc_types::{TypeKind, VMSharedTypeIndex};
use std::alloc::Global;

/// Declares in turn what commands declare, in a store without types; `BadImage` where one may not be declared.
pub(crate) fn declare_types<H: GcHeap>(
    alloc: Global,
    store: &mut Store<H, u64>,
    commands: &[Command],
) -> Result<(), LoadFault>
    requires none { store.old.types ≡ [] }
    ensures declares { DeclaresAll commands.now store.new.types result }
    ensures keeps { KeepsButTypes H.KIND store.old store.new }
    ensures same { IsSameStore store.old store.new }
{
    for command in commands {
        declare(alloc, store, command)?;
    }
    Ok(())
}

/// Declares the type of a command; `BadImage` where it may not be declared.
fn declare<H: GcHeap>(
    alloc: Global,
    store: &mut Store<H, u64>,
    command: &Command,
) -> Result<(), LoadFault>
    ensures declares { DeclaresType command.now store.old.types store.new.types result }
    ensures keeps { KeepsButTypes H.KIND store.old store.new }
    ensures same { IsSameStore store.old store.new }
{
    match command {
        Command::Struct {
            is_final,
            supertype,
            fields,
        } => declare_struct(alloc, store, *is_final, *supertype, fields.as_slice()),
        Command::Array {
            is_final,
            supertype,
            elem,
        } => declare_array(store, *is_final, *supertype, elem),
        Command::Exn { params } => declare_exn(alloc, store, params.as_slice()),
        _ => Err(LoadFault::BadImage),
    }
}

/// The index of a supertype, where one is named.
fn index_of(supertype: Option<u32>) -> Option<VMSharedTypeIndex>
    ensures { result ≡ supertype }
{
    match supertype {
        Some(index) => Some(VMSharedTypeIndex::new(index)),
        None => None,
    }
}

/// Declares a struct type.
fn declare_struct<H: GcHeap>(
    alloc: Global,
    store: &mut Store<H, u64>,
    is_final: bool,
    supertype: Option<u32>,
    words: &[FieldWord],
) -> Result<(), LoadFault>
    ensures declares { DeclaresType (Command.Struct is_final supertype words.now) store.old.types store.new.types result }
    ensures keeps { KeepsButTypes H.KIND store.old store.new }
    ensures same { IsSameStore store.old store.new }
{
    stores_hold_tables(store);
    let Some(fields) = fields_of(alloc, store.types(), TypeKind::Struct, words)? else {
        return Err(LoadFault::BadImage);
    };
    match store.declare_struct(fields.as_slice(), index_of(supertype), is_final) {
        Ok(_) => Ok(()),
        Err(fault) => Err(told_of_type(fault)),
    }
}

/// Declares an array type.
fn declare_array<H: GcHeap>(
    store: &mut Store<H, u64>,
    is_final: bool,
    supertype: Option<u32>,
    word: &FieldWord,
) -> Result<(), LoadFault>
    ensures declares { DeclaresType (Command.Array is_final supertype word.now) store.old.types store.new.types result }
    ensures keeps { KeepsButTypes H.KIND store.old store.new }
    ensures same { IsSameStore store.old store.new }
{
    stores_hold_tables(store);
    let Some(element) = field_of(store.types(), TypeKind::Array, word) else {
        return Err(LoadFault::BadImage);
    };
    match store.declare_array(element, index_of(supertype), is_final) {
        Ok(_) => Ok(()),
        Err(fault) => Err(told_of_type(fault)),
    }
}

/// Declares an exception type.
fn declare_exn<H: GcHeap>(
    alloc: Global,
    store: &mut Store<H, u64>,
    words: &[ValueWord],
) -> Result<(), LoadFault>
    ensures declares { DeclaresType (Command.Exn words.now) store.old.types store.new.types result }
    ensures keeps { KeepsButTypes H.KIND store.old store.new }
    ensures same { IsSameStore store.old store.new }
{
    stores_hold_tables(store);
    let Some(params) = values_of(alloc, store.types(), TypeKind::Exn, words)? else {
        return Err(LoadFault::BadImage);
    };
    match store.declare_exn(params.as_slice()) {
        Ok(_) => Ok(()),
        Err(fault) => Err(told_of_type(fault)),
    }
}
