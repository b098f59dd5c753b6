//! Words that spell operands.

ghost use Rattle.gc_commands.specs.Reading.{Reads};
ghost use Rattle.gc_commands.specs.Spelling.{FitsFloat, FitsOperand};
ghost use Rattle.gc_commands.specs.Words.{operand_text};

use crate::command::Operand;
use crate::hex::hex_number;
use crate::numbers::{register_of, signed_number, small_signed_number};
use crate::words::behind;
use gc_refs::V128;

/// The operand that a word spells.
pub(crate) fn operand_of(word: &[u8]) -> Option<Operand>
    ensures { Reads FitsOperand operand_text word.now result }
{
    if let Some(name) = behind(word, b"r") {
        return Some(Operand::Register(register_of(name)?));
    }
    if let Some(digits) = behind(word, b"i32:") {
        return Some(Operand::I32(small_signed_number(digits)?));
    }
    if let Some(digits) = behind(word, b"i64:") {
        return Some(Operand::I64(signed_number(digits)?));
    }
    match word {
        b"any:null" => Some(Operand::AnyNull),
        b"extern:null" => Some(Operand::ExternNull),
        b"exn:null" => Some(Operand::ExnNull),
        _ => float_of(word),
    }
}

/// The floating-point number or vector that a word spells by its bits.
fn float_of(word: &[u8]) -> Option<Operand>
    ensures { Reads FitsFloat operand_text word.now result }
{
    if let Some(digits) = behind(word, b"f32:") {
        return Some(Operand::F32(hex_number(digits, 8)? as u32));
    }
    if let Some(digits) = behind(word, b"f64:") {
        return Some(Operand::F64(hex_number(digits, 16)? as u64));
    }
    let digits = behind(word, b"v128:")?;
    Some(Operand::V128(V128::from(hex_number(digits, 32)?)))
}
