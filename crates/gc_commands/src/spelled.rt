//! Writes the commands that declare types.

ghost use Rattle.std.specs.Prelude.{◌≡◌, ◌++◌, map, OnOk, string_bytes};
ghost use Rattle.gc_commands.specs.Spelling.{IsDeclaring, final_words, spelling, supertype_words};
ghost use Rattle.gc_commands.specs.Words.{field_text, heap_text, null_mark, spaced, storage_text, value_type_text};

use crate::command::{Command, FieldWord, HeapWord, StorageWord, ValueWord};
use std::alloc::AllocError;

/// Appends the spelling of a command that declares a type, without a line feed. Takes time linear in it.
pub fn push_declaration(text: &mut String, command: &Command) -> Result<(), AllocError>
    requires { IsDeclaring command.now }
    ensures { OnOk result (string_bytes text.new ≡ string_bytes text.old ++ spelling command.now) }
{
    match command {
        Command::Struct {
            is_final,
            supertype,
            fields,
        } => push_struct(text, *is_final, *supertype, fields.as_slice()),
        Command::Array {
            is_final,
            supertype,
            elem,
        } => push_array(text, *is_final, *supertype, elem),
        Command::Exn { params } => push_exn(text, params.as_slice()),
        _ => unreachable!(),
    }
}

/// Appends the declaration of a struct type.
fn push_struct(
    text: &mut String,
    is_final: bool,
    supertype: Option<u32>,
    fields: &[FieldWord],
) -> Result<(), AllocError>
    ensures { OnOk result (string_bytes text.new ≡ string_bytes text.old ++ spelling (Command.Struct is_final supertype fields.now)) }
{
    text.push_str("struct")?;
    push_front(text, is_final, supertype)?;
    push_fields(text, fields)
}

/// Appends the declaration of an array type.
fn push_array(
    text: &mut String,
    is_final: bool,
    supertype: Option<u32>,
    elem: &FieldWord,
) -> Result<(), AllocError>
    ensures { OnOk result (string_bytes text.new ≡ string_bytes text.old ++ spelling (Command.Array is_final supertype elem.now)) }
{
    text.push_str("array")?;
    push_front(text, is_final, supertype)?;
    text.push_str(" ")?;
    push_field(text, elem)
}

/// Appends the declaration of an exception type.
fn push_exn(text: &mut String, params: &[ValueWord]) -> Result<(), AllocError>
    ensures { OnOk result (string_bytes text.new ≡ string_bytes text.old ++ spelling (Command.Exn params.now)) }
{
    text.push_str("exn")?;
    push_values(text, params)
}

/// Appends the front of a declaration, each word behind a space.
fn push_front(text: &mut String, is_final: bool, supertype: Option<u32>) -> Result<(), AllocError>
    ensures { OnOk result (string_bytes text.new ≡ string_bytes text.old ++ (spaced (final_words is_final) ++ spaced (supertype_words supertype))) }
{
    if is_final {
        text.push_str(" final")?;
    }
    match supertype {
        Some(t) => write!(text, " sub:{t}"),
        None => Ok(()),
    }
}

/// Appends fields, each behind a space.
fn push_fields(text: &mut String, fields: &[FieldWord]) -> Result<(), AllocError>
    ensures { OnOk result (string_bytes text.new ≡ string_bytes text.old ++ spaced (map field_text fields.now)) }
{
    for field in fields {
        text.push_str(" ")?;
        push_field(text, field)?;
    }
    Ok(())
}

/// Appends types of values, each behind a space.
fn push_values(text: &mut String, values: &[ValueWord]) -> Result<(), AllocError>
    ensures { OnOk result (string_bytes text.new ≡ string_bytes text.old ++ spaced (map value_type_text values.now)) }
{
    for value in values {
        text.push_str(" ")?;
        push_value(text, value)?;
    }
    Ok(())
}

/// Appends the word of a field.
fn push_field(text: &mut String, field: &FieldWord) -> Result<(), AllocError>
    ensures { OnOk result (string_bytes text.new ≡ string_bytes text.old ++ field_text field.now) }
{
    text.push_str(if field.mutable { "m:" } else { "c:" })?;
    push_storage(text, &field.storage)
}

/// Appends the word of a storage type.
fn push_storage(text: &mut String, storage: &StorageWord) -> Result<(), AllocError>
    ensures { OnOk result (string_bytes text.new ≡ string_bytes text.old ++ storage_text storage.now) }
{
    match storage {
        StorageWord::I8 => text.push_str("i8"),
        StorageWord::I16 => text.push_str("i16"),
        StorageWord::Value(value) => push_value(text, value),
    }
}

/// Appends the word of a value type.
fn push_value(text: &mut String, value: &ValueWord) -> Result<(), AllocError>
    ensures { OnOk result (string_bytes text.new ≡ string_bytes text.old ++ value_type_text value.now) }
{
    match value {
        ValueWord::I32 => text.push_str("i32"),
        ValueWord::I64 => text.push_str("i64"),
        ValueWord::F32 => text.push_str("f32"),
        ValueWord::F64 => text.push_str("f64"),
        ValueWord::V128 => text.push_str("v128"),
        ValueWord::Ref { heap, nullable } => push_reference(text, heap, *nullable),
    }
}

/// Appends the word of a type of references.
fn push_reference(text: &mut String, heap: &HeapWord, nullable: bool) -> Result<(), AllocError>
    ensures { OnOk result (string_bytes text.new ≡ string_bytes text.old ++ (heap_text heap.now ++ null_mark nullable)) }
{
    push_heap(text, heap)?;
    text.push_str(if nullable { "" } else { "!" })
}

/// Appends the name of a heap type.
fn push_heap(text: &mut String, heap: &HeapWord) -> Result<(), AllocError>
    ensures { OnOk result (string_bytes text.new ≡ string_bytes text.old ++ heap_text heap.now) }
{
    match heap {
        HeapWord::Any => text.push_str("any"),
        HeapWord::Eq => text.push_str("eq"),
        HeapWord::I31 => text.push_str("i31"),
        HeapWord::Struct => text.push_str("struct"),
        HeapWord::Array => text.push_str("array"),
        HeapWord::None => text.push_str("none"),
        HeapWord::Extern => text.push_str("extern"),
        HeapWord::NoExtern => text.push_str("noextern"),
        HeapWord::Exn => text.push_str("exn"),
        HeapWord::NoExn => text.push_str("noexn"),
        HeapWord::Named(t) => write!(text, "t{t}"),
    }
}
