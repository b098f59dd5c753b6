//! Headers of objects, and trace words.

use crate::answers::{Answers, answer_rows};
use crate::fault::CaseFault;
use crate::numbers::low_u32;
use gc_refs::{InlineTraceInfo, VMGcHeader};
use gc_types::{VMGcKind, VMSharedTypeIndex};
use std::alloc::{AllocError, Global};

/// The spare bits are below this number.
const SPARE: u32 = 0x0400_0000;

/// A bitmap of a trace word is below this number, whose bit and the next tell the form.
const FORM: u32 = 0x0080_0000;

/// Each kind, and its name.
const KINDS: [(VMGcKind, &str); 6] = [
    (VMGcKind::ExternRef, "extern"),
    (VMGcKind::AnyRef, "any"),
    (VMGcKind::EqRef, "eq"),
    (VMGcKind::StructRef, "struct"),
    (VMGcKind::ArrayRef, "array"),
    (VMGcKind::ExnRef, "exn"),
];

/// Headers, of which nothing is kept.
#[derive(Drop)]
struct Headers;

/// Adds each row on headers with its answer.
pub(crate) fn answer(alloc: Global, rows: &str, out: &mut String) -> Result<(), AllocError> {
    answer_rows(alloc, &mut Headers, rows, out)
}

impl Answers for Headers {
    fn answer(
        &mut self,
        name: &str,
        _words: &[&str],
        numbers: &[u128],
        out: &mut String,
    ) -> Result<(), CaseFault> {
        let number = low_u32(numbers.first().copied().unwrap_or(0));
        let written = match name {
            "spare" => show_spares(numbers, out),
            "kind" => show_kind(number, out),
            "extern" => show_external(out),
            "bitmap" => show_word(InlineTraceInfo::Bitmap(number % FORM).encode(), out),
            "array" => show_word(InlineTraceInfo::Array(number == 1).encode(), out),
            "out-of-line" => show_word(InlineTraceInfo::OutOfLine.encode(), out),
            _ => show_trace(number, out),
        };
        Ok(written?)
    }
}

/// Sets the spare bits of a struct's header to the low bits of each number, one behind the other, and writes the header.
fn show_spares(spares: &[u128], out: &mut String) -> Result<(), AllocError> {
    let ty = VMSharedTypeIndex::new(1234);
    let mut header = VMGcHeader::from_kind_and_index(VMGcKind::StructRef, ty);
    for spare in spares {
        header.set_reserved_u26(low_u32(*spare) % SPARE);
        show_header(&header, out)?;
    }
    header.unchecked_set_reserved_u26(7);
    write!(out, "{:x}", header.kind_word())
}

/// Writes the bytes of a header, its spare bits, its kind and its type.
fn show_header(header: &VMGcHeader, out: &mut String) -> Result<(), AllocError> {
    let bytes = header.to_bytes();
    let ty = header.ty().map(|ty| ty.as_u32());
    let (spare, kind) = (header.reserved_u26(), header.kind());
    write!(out, "{:?} {spare} {kind:?} {ty:?}; ", bytes.as_slice())
}

/// Writes the kind that a word names, and those that it matches.
fn show_kind(word: u32, out: &mut String) -> Result<(), AllocError> {
    let header = VMGcHeader::from_words(word, 0);
    write!(out, "{:?}", header.kind())?;
    for (kind, name) in KINDS {
        if header.matches_kind(kind) {
            write!(out, ", {name}")?;
        }
    }
    Ok(())
}

/// Writes an external object's header: whether it has a type, and its bytes.
fn show_external(out: &mut String) -> Result<(), AllocError> {
    let header = VMGcHeader::externref();
    let bytes = header.to_bytes();
    let has_type = header.ty().is_some();
    write!(out, "type {has_type}, {:?}", bytes.as_slice())
}

/// Writes a trace word.
fn show_word(word: u32, out: &mut String) -> Result<(), AllocError> {
    write!(out, "{word:x}")
}

/// Writes what a trace word says; no word is of the form 3.
fn show_trace(word: u32, out: &mut String) -> Result<(), AllocError> {
    if word / FORM % 4 == 3 {
        return out.push_str("no trace word");
    }
    write!(out, "{:?}", InlineTraceInfo::decode(word))
}
