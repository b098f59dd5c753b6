//! The commands that declare the types of a table.

ghost use Rattle.std.specs.Prelude.{◌≡◌, ◌↔◌, List, Option, Some, IfOk, IfSome, IsSome, slice_get, take};
ghost use Rattle.gc_types.specs.declared.value.FieldType.{FieldType};
ghost use Rattle.gc_types.specs.declared.value.ValType.{ValType};
ghost use Rattle.gc_types.specs.Declarations.{Declaration, array_of, exn_of, struct_of};
ghost use Rattle.gc_image_write.specs.Plain.{ArePlain};
ghost use Rattle.gc_image_write.specs.TypeWords.{AreTypeCommands, Commanded};

use crate::type_words::{elem_word, field_words, param_words};
use gc_commands::{Command, FieldWords, ValueWords};
use gc_types::{TypeKind, Types, VMSharedTypeIndex};
use std::alloc::{AllocError, Global};

/// The commands that declare the types of a table in turn. None where one of them is a function type, or has a field, an
/// element or a parameter that holds functions or continuations. Takes time and memory linear in the types' fields.
pub fn commands_of(alloc: Global, types: &Types) -> Result<Option<Vec<Command>>, AllocError>
    ensures declare { IfOk result (λ found. IfSome found (λ commands. AreTypeCommands types.now.declarations commands.items)) }
    ensures plain { IfOk result (λ found. IsSome found ↔ ArePlain types.now.declarations) }
{
    types.are_declared();
    let mut commands = Vec::new(alloc);
    for index in 0..u32::MAX {
        let ty = VMSharedTypeIndex::new(index);
        if types.kind_of(ty).is_none() {
            return Ok(Some(commands));
        }
        match command_at(alloc, types, ty)? {
            Some(command) => commands.push(command)?,
            None => return Ok(None),
        }
    }
    Ok(Some(commands))
}

/// The command that declares one type behind those before it; None where it isn't plain.
fn command_at(
    alloc: Global,
    types: &Types,
    ty: VMSharedTypeIndex,
) -> Result<Option<Command>, AllocError>
    ensures { IfOk result (λ found. (d : Declaration) → slice_get types.now.declarations ty ≡ Some d
        → Commanded (take ty types.now.declarations) d found) }
{
    match types.kind_of(ty) {
        Some(TypeKind::Struct) => struct_command(alloc, types, ty),
        Some(TypeKind::Array) => Ok(array_command(types, ty)),
        Some(TypeKind::Exn) => exn_command(alloc, types, ty),
        Some(TypeKind::Func) => Ok(None),
        None => Ok(None),
    }
}

/// The number of a supertype, where there is one.
fn number_of(supertype: Option<VMSharedTypeIndex>) -> Option<u32>
    ensures { result ≡ supertype }
{
    match supertype {
        Some(index) => Some(index.as_u32()),
        None => None,
    }
}

/// The command that declares a struct type.
fn struct_command(
    alloc: Global,
    types: &Types,
    ty: VMSharedTypeIndex,
) -> Result<Option<Command>, AllocError>
    ensures { IfOk result (λ found. (d : Declaration) (fields : List FieldType) → slice_get types.now.declarations ty ≡ Some d
        → d.shape ≡ struct_of fields → Commanded (take ty types.now.declarations) d found) }
{
    types.are_declared();
    match field_words(alloc, types, ty)? {
        Some(fields) => Ok(Some(Command::Struct {
            is_final: types.is_final(ty),
            supertype: number_of(types.supertype_of(ty)),
            fields: FieldWords::from_vec(fields),
        })),
        None => Ok(None),
    }
}

/// The command that declares an array type.
fn array_command(types: &Types, ty: VMSharedTypeIndex) -> Option<Command>
    ensures { (d : Declaration) (elem : FieldType) → slice_get types.now.declarations ty ≡ Some d → d.shape ≡ array_of elem
        → Commanded (take ty types.now.declarations) d result }
{
    types.are_declared();
    match elem_word(types, ty) {
        Some(elem) => Some(Command::Array {
            is_final: types.is_final(ty),
            supertype: number_of(types.supertype_of(ty)),
            elem,
        }),
        None => None,
    }
}

/// The command that declares an exception type.
fn exn_command(
    alloc: Global,
    types: &Types,
    ty: VMSharedTypeIndex,
) -> Result<Option<Command>, AllocError>
    ensures { IfOk result (λ found. (d : Declaration) (params : List ValType) → slice_get types.now.declarations ty ≡ Some d
        → d.shape ≡ exn_of params → Commanded (take ty types.now.declarations) d found) }
{
    types.are_declared();
    match param_words(alloc, types, ty)? {
        Some(params) => Ok(Some(Command::Exn {
            params: ValueWords::from_vec(params),
        })),
        None => Ok(None),
    }
}
