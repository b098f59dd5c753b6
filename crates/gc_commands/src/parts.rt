//! Reads the parts of a command: registers, numbers, and what several forms share. Those that lines of other kinds have too
//! are public.
//!
//! A reader takes words off the front and answers `None` exactly where they spell nothing that it
//! reads.
//!
//! Those that read all the words of a form are calls, so that the reader of all forms, which is put in place, stays
//! small.

ghost use Rattle.std.specs.Prelude.{◌≡◌, ◌<◌, ◌^◌, [], IfOk, IfSome, MatchOption, map};
ghost use Rattle.std.specs.Fmt.{decimal};
ghost use Rattle.std.specs.List.{AllByRecursion};
ghost use Rattle.gc_commands.specs.Parts.{FitPlace, FitRegisterAndNumber, FitRegisterAndWide, FitRegisters, FitWrite, number_words, pair_words};
ghost use Rattle.gc_commands.specs.Parts.{ReadsOperands, ReadsTarget, place_words, write_words};
ghost use Rattle.gc_commands.specs.Reading.{Reads, ReadsFirst};
ghost use Rattle.gc_commands.specs.Spelling.{FitsOperand, into_words, type_count};
ghost use Rattle.gc_commands.specs.Words.{operand_text};

use crate::command::{Operand, Operands};
use crate::numbers::{number, register_of, type_of};
use crate::operands::operand_of;
use crate::words::Words;
use std::alloc::{AllocError, Global};

/// A register, from 0 to 65535.
#[inline(always)]
pub(crate) fn read_register(words: &mut Words) -> Option<u16>
    ensures { ReadsFirst (λ r. r < 2 ^ 16) decimal words.old result words.new }
{
    register_of(words.next()?)
}

/// Takes the index of a type, from 0 to 4294967294; None where the next word, if any, spells none.
#[inline(always)]
pub fn read_type(words: &mut Words) -> Option<u32>
    ensures { ReadsFirst (λ t. t < type_count) decimal words.old result words.new }
{
    type_of(words.next()?)
}

/// Takes a number from 0 to 4294967295; None where the next word, if any, spells none.
#[inline(always)]
pub fn read_u32(words: &mut Words) -> Option<u32>
    ensures { ReadsFirst (λ n. n < 2 ^ 32) decimal words.old result words.new }
{
    let n = number(words.next()?, u64::from(u32::MAX))?;
    Some(n as u32)
}

/// Takes a number of 64 bits; None where the next word, if any, spells none.
#[inline(always)]
pub fn read_u64(words: &mut Words) -> Option<u64>
    ensures { ReadsFirst (λ n. n < 2 ^ 64) decimal words.old result words.new }
{
    number(words.next()?, u64::MAX)
}

/// An operand.
#[inline(always)]
pub(crate) fn read_operand(words: &mut Words) -> Option<Operand>
    ensures { ReadsFirst FitsOperand operand_text words.old result words.new }
{
    operand_of(words.next()?)
}

/// The register that the one word left spells; `Some(None)` where no word is left.
#[inline(always)]
pub(crate) fn read_into(words: &mut Words) -> Option<Option<u16>>
    ensures { Reads (λ into. IfSome into (λ d. d < 2 ^ 16)) into_words words.old result }
{
    let Some(word) = words.next() else {
        return Some(None);
    };
    let d = register_of(word)?;
    read_end(words)?;
    Some(Some(d))
}

/// The end of the words; None where a word is left.
#[inline(always)]
pub fn read_end(words: &mut Words) -> Option<()>
    ensures { MatchOption result (¬ (words.old ≡ [])) (λ _. words.old ≡ []) }
{
    match words.next() {
        None => Some(()),
        Some(_) => None,
    }
}

/// One register, and no more words.
#[inline(never)]
pub(crate) fn read_last_register(words: &mut Words) -> Option<u16>
    ensures { Reads (λ r. r < 2 ^ 16) number_words words.old result }
{
    let r = read_register(words)?;
    read_end(words)?;
    Some(r)
}

/// A number of 64 bits, and no more words.
#[inline(never)]
pub(crate) fn read_last_u64(words: &mut Words) -> Option<u64>
    ensures { Reads (λ n. n < 2 ^ 64) number_words words.old result }
{
    let n = read_u64(words)?;
    read_end(words)?;
    Some(n)
}

/// Two registers, and no more words.
#[inline(never)]
pub(crate) fn read_registers(words: &mut Words) -> Option<(u16, u16)>
    ensures { Reads FitRegisters pair_words words.old result }
{
    let first = read_register(words)?;
    let second = read_register(words)?;
    read_end(words)?;
    Some((first, second))
}

/// A register and a number of 32 bits, and no more words.
#[inline(never)]
pub(crate) fn read_register_and_number(words: &mut Words) -> Option<(u16, u32)>
    ensures { Reads FitRegisterAndNumber pair_words words.old result }
{
    let r = read_register(words)?;
    let n = read_u32(words)?;
    read_end(words)?;
    Some((r, n))
}

/// A register and a number of 64 bits, and no more words.
#[inline(never)]
pub(crate) fn read_register_and_wide(words: &mut Words) -> Option<(u16, u64)>
    ensures { Reads FitRegisterAndWide pair_words words.old result }
{
    let r = read_register(words)?;
    let n = read_u64(words)?;
    read_end(words)?;
    Some((r, n))
}

/// A register and an index, and a register where one more word stands.
#[inline(never)]
pub(crate) fn read_place(words: &mut Words) -> Option<(u16, u32, Option<u16>)>
    ensures { Reads FitPlace place_words words.old result }
{
    let r = read_register(words)?;
    let i = read_u32(words)?;
    let into = read_into(words)?;
    Some((r, i, into))
}

/// A register, an index and an operand, and no more words.
#[inline(never)]
pub(crate) fn read_write(words: &mut Words) -> Option<(u16, u32, Operand)>
    ensures { Reads FitWrite write_words words.old result }
{
    let r = read_register(words)?;
    let i = read_u32(words)?;
    let value = read_operand(words)?;
    read_end(words)?;
    Some((r, i, value))
}

/// A register and a type.
#[inline(always)]
pub(crate) fn read_target(words: &mut Words) -> Option<(u16, u32)>
    ensures { ReadsTarget words.old result words.new }
{
    let d = read_register(words)?;
    let t = read_type(words)?;
    Some((d, t))
}

/// Puts the operands that all words spell into a list, in place of those that it has, and answers whether each word spells one.
pub(crate) fn fill_operands(list: &mut Operands, words: &mut Words) -> Result<bool, AllocError>
    ensures { IfOk result (λ all. ReadsOperands words.old all list.new) }
{
    list.clear();
    while let Some(word) = words.next() {
        let Some(value) = operand_of(word) else {
            return Ok(false);
        };
        list.push(value)?;
    }
    Ok(true)
}

/// The operands that all words spell, in the list that was kept, where it has room for them.
pub(crate) fn read_operands(
    alloc: Global,
    room: &mut Operands,
    words: &mut Words,
) -> Result<Option<Operands>, AllocError>
    ensures { IfOk result (λ values. Reads (AllByRecursion FitsOperand) (map operand_text) words.old values) }
{
    if fill_operands(room, words)? {
        Ok(Some(room.take(alloc)))
    } else {
        Ok(None)
    }
}
