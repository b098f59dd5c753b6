//! Lines that spell objects and globals.

ghost use Rattle.std.specs.Prelude.{◌≡◌, ◌<◌, ◌^◌, ◌↔◌, IfOk, IsTrue, codes, map};
ghost use Rattle.std.specs.Fmt.{decimal};
ghost use Rattle.std.specs.List.{AllByRecursion};
ghost use Rattle.std.specs.Option.{option_map};
ghost use Rattle.gc_commands.specs.Reading.{Reads, ReadsFirst};
ghost use Rattle.gc_commands.specs.Spelling.{type_count};
ghost use Rattle.gc_image.specs.Text.{FitsGlobal, FitsObject, FitsImageValue, global_text, global_line_words, object_text, object_words, value_text};
ghost use Rattle.gc_image.specs.Reading.{FitBytes, FitExn, FitRow, ReadsTagged, bytes_words, exn_words, global_operands, host_words, row_words};

use crate::image::{GlobalLine, ImageValue, ImageValues, ObjectLine};
use crate::values::value_of;
use gc_commands::hex::bytes_of;
use gc_commands::parts::{read_end, read_type, read_u32, read_u64};
use gc_commands::words::Words;
use gc_commands::{ByteText, number};
use gc_types::Tag;
use std::alloc::{AllocError, Global};

/// The object that a line spells.
pub(crate) fn object_of(alloc: Global, line: &[u8]) -> Result<Option<ObjectLine>, AllocError>
    ensures { IfOk result (λ object. Reads FitsObject object_text line.now object) }
{
    read_object(alloc, &mut Words::of(line))
}

/// The global that a line spells.
pub(crate) fn global_of(line: &[u8]) -> Option<GlobalLine>
    ensures { Reads FitsGlobal global_text line.now result }
{
    read_global(&mut Words::of(line))
}

/// The object that the words spell.
fn read_object(alloc: Global, words: &mut Words) -> Result<Option<ObjectLine>, AllocError>
    ensures { IfOk result (λ object. Reads FitsObject object_words words.old object) }
{
    let Some(kind) = words.next() else {
        return Ok(None);
    };
    match kind {
        b"s" => match read_row(alloc, words)? {
            Some((ty, values)) => Ok(Some(ObjectLine::Struct { ty, values })),
            None => Ok(None),
        },
        b"a" => match read_row(alloc, words)? {
            Some((ty, values)) => Ok(Some(ObjectLine::Array { ty, values })),
            None => Ok(None),
        },
        b"b" => match read_bytes(alloc, words)? {
            Some((ty, bytes)) => Ok(Some(ObjectLine::Bytes { ty, bytes })),
            None => Ok(None),
        },
        b"h" => match read_host(words) {
            Some(number) => Ok(Some(ObjectLine::Host { number })),
            None => Ok(None),
        },
        b"e" => match read_exn(alloc, words)? {
            Some((ty, tag, values)) => Ok(Some(ObjectLine::Exn { ty, tag, values })),
            None => Ok(None),
        },
        _ => Ok(None),
    }
}

/// A type and any number of values.
fn read_row(alloc: Global, words: &mut Words) -> Result<Option<(u32, ImageValues)>, AllocError>
    ensures { IfOk result (λ row. Reads FitRow row_words words.old row) }
{
    let Some(ty) = read_type(words) else {
        return Ok(None);
    };
    match read_values(alloc, words)? {
        Some(values) => Ok(Some((ty, ImageValues::from_vec(values)))),
        None => Ok(None),
    }
}

/// A type and bytes.
fn read_bytes(alloc: Global, words: &mut Words) -> Result<Option<(u32, ByteText)>, AllocError>
    ensures { IfOk result (λ row. Reads FitBytes bytes_words words.old row) }
{
    let Some(ty) = read_type(words) else {
        return Ok(None);
    };
    let Some(word) = words.next() else {
        return Ok(None);
    };
    let Some(bytes) = bytes_of(alloc, word)? else {
        return Ok(None);
    };
    match read_end(words) {
        Some(()) => Ok(Some((ty, ByteText::from_vec(bytes)))),
        None => Ok(None),
    }
}

/// The number of a host object.
fn read_host(words: &mut Words) -> Option<u64>
    ensures { Reads (λ n. n < 2 ^ 64) host_words words.old result }
{
    let number = read_u64(words)?;
    read_end(words)?;
    Some(number)
}

/// A type, a tag and any number of values.
fn read_exn(alloc: Global, words: &mut Words) -> Result<Option<(u32, Tag, ImageValues)>, AllocError>
    ensures { IfOk result (λ row. Reads FitExn exn_words words.old row) }
{
    let Some((ty, tag)) = read_tagged(words) else {
        return Ok(None);
    };
    match read_values(alloc, words)? {
        Some(values) => Ok(Some((ty, tag, ImageValues::from_vec(values)))),
        None => Ok(None),
    }
}

/// A type and a tag.
fn read_tagged(words: &mut Words) -> Option<(u32, Tag)>
    ensures { ReadsTagged words.old result words.new }
{
    let ty = read_type(words)?;
    let instance = read_u32(words)?;
    let index = read_u32(words)?;
    Some((ty, Tag { instance, index }))
}

/// The global that the words spell.
fn read_global(words: &mut Words) -> Option<GlobalLine>
    ensures { Reads FitsGlobal global_line_words words.old result }
{
    if is_global(words.next()?) {
        read_held(words)
    } else {
        None
    }
}

/// Whether a word is the first one of a global's line.
fn is_global(word: &[u8]) -> bool
    ensures { IsTrue result ↔ (word.now ≡ codes "global") }
{
    matches!(word, b"global")
}

/// The words behind `global`: an index and a value.
fn read_held(words: &mut Words) -> Option<GlobalLine>
    ensures { Reads FitsGlobal global_operands words.old result }
{
    let index = number(words.next()?, u64::from(u16::MAX))?;
    let value = value_of(words.next()?)?;
    read_end(words)?;
    Some(GlobalLine {
        index: index as u16,
        value,
    })
}

/// The values that all words spell.
fn read_values(alloc: Global, words: &mut Words) -> Result<Option<Vec<ImageValue>>, AllocError>
    ensures { IfOk result (λ values. Reads (AllByRecursion FitsImageValue) (map value_text) words.old (option_map (λ vs. vs.items) values)) }
{
    let mut values = Vec::with_capacity(alloc, words.count())?;
    while let Some(word) = words.next() {
        let Some(value) = value_of(word) else {
            return Ok(None);
        };
        values.extend_from_slice(&[value])?;
    }
    Ok(Some(values))
}
