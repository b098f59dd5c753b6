//! Words that spell types of values and fields.

ghost use Rattle.gc_commands.specs.Reading.{Reads};
ghost use Rattle.gc_commands.specs.Spelling.{FitsField, FitsHeap, FitsNamed, FitsReference, FitsStorage, FitsValue};
ghost use Rattle.gc_commands.specs.Words.{field_text, heap_text, storage_text, value_type_text};

use crate::command::{FieldWord, HeapWord, StorageWord, ValueWord};
use crate::numbers::type_of;
use crate::words::behind;

/// The field that a word spells.
pub(crate) fn field_of(word: &[u8]) -> Option<FieldWord>
    ensures { Reads FitsField field_text word.now result }
{
    if let Some(name) = behind(word, b"m:") {
        let storage = storage_of(name)?;
        return Some(FieldWord {
            mutable: true,
            storage,
        });
    }
    let storage = storage_of(behind(word, b"c:")?)?;
    Some(FieldWord {
        mutable: false,
        storage,
    })
}

/// The storage type that a word spells.
fn storage_of(word: &[u8]) -> Option<StorageWord>
    ensures { Reads FitsStorage storage_text word.now result }
{
    match word {
        b"i8" => Some(StorageWord::I8),
        b"i16" => Some(StorageWord::I16),
        _ => Some(StorageWord::Value(value_of(word)?)),
    }
}

/// The value type that a word spells.
pub(crate) fn value_of(word: &[u8]) -> Option<ValueWord>
    ensures { Reads FitsValue value_type_text word.now result }
{
    match word {
        b"i32" => Some(ValueWord::I32),
        b"i64" => Some(ValueWord::I64),
        b"f32" => Some(ValueWord::F32),
        b"f64" => Some(ValueWord::F64),
        b"v128" => Some(ValueWord::V128),
        _ => reference_of(word),
    }
}

/// The type of references that a word spells: with a mark behind it where none of them is null.
fn reference_of(word: &[u8]) -> Option<ValueWord>
    ensures { Reads FitsReference value_type_text word.now result }
{
    match word.strip_suffix(b"!") {
        Some(name) => Some(ValueWord::Ref {
            heap: heap_of(name)?,
            nullable: false,
        }),
        None => Some(ValueWord::Ref {
            heap: heap_of(word)?,
            nullable: true,
        }),
    }
}

/// The heap type that a word spells.
fn heap_of(word: &[u8]) -> Option<HeapWord>
    ensures { Reads FitsHeap heap_text word.now result }
{
    match word {
        b"any" => Some(HeapWord::Any),
        b"eq" => Some(HeapWord::Eq),
        b"i31" => Some(HeapWord::I31),
        b"struct" => Some(HeapWord::Struct),
        b"array" => Some(HeapWord::Array),
        b"none" => Some(HeapWord::None),
        b"extern" => Some(HeapWord::Extern),
        b"noextern" => Some(HeapWord::NoExtern),
        b"exn" => Some(HeapWord::Exn),
        b"noexn" => Some(HeapWord::NoExn),
        _ => named_of(word),
    }
}

/// The heap type that `t` and the index of a type spell.
fn named_of(word: &[u8]) -> Option<HeapWord>
    ensures { Reads FitsNamed heap_text word.now result }
{
    let t = type_of(behind(word, b"t")?)?;
    Some(HeapWord::Named(t))
}
