//! Reads the sections of an image: its first line, its types, its objects and its globals.

ghost use Rattle.std.specs.Prelude.{◌≡◌, ◌<◌, ◌^◌, [], ◌∷◌, List, ℕ, codes, IfOk, IsTrue, ◌↔◌};
ghost use Rattle.std.specs.Bool.{MatchBool};
ghost use Rattle.std.specs.List.{AllByRecursion};
ghost use Rattle.std.specs.Option.{option_map};
ghost use Rattle.gc_commands.specs.Reading.{Reads, ReadsFirst};
ghost use Rattle.gc_commands.specs.Spelling.{IsDeclaring, spelling};
ghost use Rattle.gc_image.specs.Text.{FitsGlobal, FitsImageType, count_text};
ghost use Rattle.gc_image.specs.Reading.{ReadsObjects, ReadsTypes, ended_globals};

use crate::image::{GlobalLine, ObjectLine};
use crate::lines::Lines;
use crate::object_lines::{global_of, object_of};
use gc_commands::words::behind;
use gc_commands::{Command, number, parse_line};
use std::alloc::{AllocError, Global};

/// The first line, where it is the next one.
pub(crate) fn read_head(lines: &mut Lines) -> bool
    ensures { MatchBool result (lines.old ≡ codes "image 1" ∷ lines.new) ((others : List (List ℕ)) → ¬ (lines.old ≡ codes "image 1" ∷ others)) }
{
    match lines.next() {
        Some(line) => is_head(line),
        None => false,
    }
}

/// Whether a line is the first one of an image.
fn is_head(line: &[u8]) -> bool
    ensures { IsTrue result ↔ (line.now ≡ codes "image 1") }
{
    line == b"image 1".as_slice()
}

/// Types, as long as the next line declares one.
pub(crate) fn read_types(alloc: Global, lines: &mut Lines) -> Result<Vec<Command>, AllocError>
    ensures { IfOk result (λ types. ReadsTypes lines.old types.items lines.new) }
{
    let mut types = Vec::new(alloc);
    while let Some(line) = lines.ahead().next() {
        let Some(command) = type_of(alloc, line)? else {
            return Ok(types);
        };
        types.push(command)?;
        let _line = lines.next();
    }
    Ok(types)
}

/// The type that a line declares.
fn type_of(alloc: Global, line: &[u8]) -> Result<Option<Command>, AllocError>
    ensures { IfOk result (λ command. Reads FitsImageType spelling line.now command) }
{
    let command = parse_line(alloc, line)?;
    if is_declaring(&command) {
        Ok(Some(command))
    } else {
        Ok(None)
    }
}

/// Whether a command declares a type.
fn is_declaring(command: &Command) -> bool
    ensures { IsTrue result ↔ IsDeclaring command.now }
{
    matches!(
        command,
        Command::Struct { .. } | Command::Array { .. } | Command::Exn { .. }
    )
}

/// How many objects follow.
pub(crate) fn read_count(lines: &mut Lines) -> Option<u64>
    ensures { ReadsFirst (λ n. n < 2 ^ 64) count_text lines.old result lines.new }
{
    let line = lines.next()?;
    number(behind(line, b"objects ")?, u64::MAX)
}

/// So many objects. Takes memory as they come, so none for a number alone.
pub(crate) fn read_objects(
    alloc: Global,
    count: u64,
    lines: &mut Lines,
) -> Result<Option<Vec<ObjectLine>>, AllocError>
    ensures { IfOk result (λ objects. ReadsObjects count lines.old (option_map (λ os. os.items) objects) lines.new) }
{
    let mut objects = Vec::new(alloc);
    for _ in 0..count {
        let Some(line) = lines.next() else {
            return Ok(None);
        };
        let Some(object) = object_of(alloc, line)? else {
            return Ok(None);
        };
        objects.push(object)?;
    }
    Ok(Some(objects))
}

/// Globals, to the end of the text.
pub(crate) fn read_globals(
    alloc: Global,
    lines: &mut Lines,
) -> Result<Option<Vec<GlobalLine>>, AllocError>
    ensures { IfOk result (λ globals. Reads (AllByRecursion FitsGlobal) ended_globals lines.old (option_map (λ gs. gs.items) globals)) }
{
    let mut globals = Vec::new(alloc);
    while let Some(line) = lines.next() {
        if line.is_empty() {
            if is_end(lines) {
                return Ok(Some(globals));
            }
            return Ok(None);
        }
        let Some(global) = global_of(line) else {
            return Ok(None);
        };
        globals.extend_from_slice(&[global])?;
    }
    Ok(None)
}

/// Whether no line is left.
fn is_end(lines: &mut Lines) -> bool
    ensures { IsTrue result ↔ (lines.old ≡ []) }
{
    lines.next().is_none()
}
