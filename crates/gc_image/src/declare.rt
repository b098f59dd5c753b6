//! Declares the types of an image.

ghost use Rattle.std.specs.Prelude.{◌≡◌, [], None, IfOk, IfSome, IfNone, List, length};
ghost use Rattle.gc_types.specs.Declarations.{Declaration};
ghost use Rattle.gc_image.specs.Declaring.{DeclareInTurn, CommandDeclares};
ghost use Rattle.gc_image.specs.Steps.{Declared};

use gc_commands::type_words::{field_of, fields_of, index_of, values_of};
use gc_commands::{Command, FieldWord, ValueWord};
use gc_types::{TypeFault, TypeKind, Types};
use std::alloc::{AllocError, Global};

/// The types that commands declare in turn; None where one may not be declared.
pub(crate) fn types_of(alloc: Global, commands: &[Command]) -> Result<Option<Types>, AllocError>
    ensures some { IfOk result (λ types. IfSome types (λ t. DeclareInTurn [] commands.now t.declarations)) }
    ensures none { IfOk result (λ types. IfNone types ((all : List Declaration) → ¬ DeclareInTurn [] commands.now all)) }
{
    let mut types = Types::new(alloc, 0, 0);
    for command in commands {
        if !declare(alloc, &mut types, command)? {
            return Ok(None);
        }
    }
    Ok(Some(types))
}

/// Declares the type of a command; false where it may not be declared.
fn declare(alloc: Global, types: &mut Types, command: &Command) -> Result<bool, AllocError>
    ensures { IfOk result (Declared types.old.declarations command.now types.new.declarations) }
{
    match command {
        Command::Struct {
            is_final,
            supertype,
            fields,
        } => declare_struct(alloc, types, *is_final, *supertype, fields.as_slice()),
        Command::Array {
            is_final,
            supertype,
            elem,
        } => declare_array(types, *is_final, *supertype, elem),
        Command::Exn { params } => declare_exn(alloc, types, params.as_slice()),
        _ => Ok(false),
    }
}

/// Declares a struct type.
fn declare_struct(
    alloc: Global,
    types: &mut Types,
    is_final: bool,
    supertype: Option<u32>,
    words: &[FieldWord],
) -> Result<bool, AllocError>
    ensures { IfOk result (Declared types.old.declarations (Command.Struct is_final supertype words.now) types.new.declarations) }
{
    let Some(fields) = fields_of(alloc, types, TypeKind::Struct, words)? else {
        return Ok(false);
    };
    match types.declare_struct(fields.as_slice(), index_of(supertype), is_final) {
        Ok(_) => Ok(true),
        Err(TypeFault::BadType) => Ok(false),
        Err(TypeFault::Memory) => Err(AllocError),
    }
}

/// Declares an array type.
fn declare_array(
    types: &mut Types,
    is_final: bool,
    supertype: Option<u32>,
    word: &FieldWord,
) -> Result<bool, AllocError>
    ensures { IfOk result (Declared types.old.declarations (Command.Array is_final supertype word.now) types.new.declarations) }
{
    let Some(element) = field_of(types, TypeKind::Array, word) else {
        return Ok(false);
    };
    match types.declare_array(element, index_of(supertype), is_final) {
        Ok(_) => Ok(true),
        Err(TypeFault::BadType) => Ok(false),
        Err(TypeFault::Memory) => Err(AllocError),
    }
}

/// Declares an exception type.
fn declare_exn(alloc: Global, types: &mut Types, words: &[ValueWord]) -> Result<bool, AllocError>
    ensures { IfOk result (Declared types.old.declarations (Command.Exn words.now) types.new.declarations) }
{
    let Some(params) = values_of(alloc, types, TypeKind::Exn, words)? else {
        return Ok(false);
    };
    match types.declare_exn(params.as_slice()) {
        Ok(_) => Ok(true),
        Err(TypeFault::BadType) => Ok(false),
        Err(TypeFault::Memory) => Err(AllocError),
    }
}
