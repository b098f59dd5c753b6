//! Words of references, and 31-bit numbers.

use crate::answers::{Answers, answer_rows};
use crate::fault::CaseFault;
use crate::numbers::low_u32;
use crate::printed::{show_kind_texts, show_word_texts};
use gc_refs::{I31, VMGcRef};
use std::alloc::{AllocError, Global};

/// Words, of which nothing is kept.
#[derive(Drop)]
struct Words;

/// Adds each row on words with its answer.
pub(crate) fn answer(alloc: Global, rows: &str, out: &mut String) -> Result<(), AllocError> {
    answer_rows(alloc, &mut Words, rows, out)
}

impl Answers for Words {
    fn answer(
        &mut self,
        name: &str,
        _words: &[&str],
        numbers: &[u128],
        out: &mut String,
    ) -> Result<(), CaseFault> {
        let number = low_u32(numbers.first().copied().unwrap_or(0));
        match name {
            "unsigned" => Ok(show_unsigned(number, out)?),
            "signed" => Ok(show_signed(number.cast_signed(), out)?),
            "number" => Ok(show_word_of(number, out)?),
            _ => answer_word(name, number, out),
        }
    }
}

/// Writes the answer to a row on a word that isn't null.
fn answer_word(name: &str, raw: u32, out: &mut String) -> Result<(), CaseFault> {
    let Some(gc_ref) = VMGcRef::from_raw_u32(raw) else {
        return Err(CaseFault::NoCase);
    };
    let written = match name {
        "is" => show_word(&gc_ref, out),
        "texts" => show_word_texts(&gc_ref, out),
        _ => show_kind_texts(&gc_ref, out),
    };
    Ok(written?)
}

/// Writes whether an unsigned number fits, and what its low 31 bits are.
fn show_unsigned(number: u32, out: &mut String) -> Result<(), AllocError> {
    let fits = I31::new_u32(number).is_some();
    write!(
        out,
        "fits {fits}, bits {}",
        I31::wrapping_u32(number).get_u32()
    )
}

/// Writes whether a signed number fits, and what its low 31 bits are, as unsigned and as signed.
fn show_signed(number: i32, out: &mut String) -> Result<(), AllocError> {
    let fits = I31::new_i32(number).is_some();
    let low = I31::wrapping_i32(number);
    let (bits, signed) = (low.get_u32(), low.get_i32());
    write!(out, "fits {fits}, bits {bits}, signed {signed}, {low:?}")
}

/// Writes the bytes of the word of a 31-bit number.
fn show_word_of(number: u32, out: &mut String) -> Result<(), AllocError> {
    let word = VMGcRef::from_i31(I31::wrapping_u32(number)).as_raw_u32();
    write!(out, "{:?}", word.to_le_bytes().as_slice())
}

/// Writes which number the word is, or which place.
fn show_word(gc_ref: &VMGcRef, out: &mut String) -> Result<(), AllocError> {
    match gc_ref.as_i31() {
        Some(number) => write!(out, "number {}", number.get_u32())?,
        None => out.push_str("no number")?,
    }
    let place = VMGcRef::from_heap_index(gc_ref.as_raw_non_zero_u32());
    write!(out, ", from a place {place:?}, ")?;
    match gc_ref.heap_index() {
        Ok(index) => write!(out, "place {}", index.get()),
        Err(fault) => write!(out, "{fault}"),
    }
}
