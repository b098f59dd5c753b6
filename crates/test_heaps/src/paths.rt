//! Words of a heap: where a path leads, and what lies there.

use crate::page::Page;
use crate::rows::low_u32;
use gc_heap::{GcHeap, RefKinds};
use gc_refs::{VMArrayRef, VMExternRef, VMGcRef};
use test_mutator::Mutator;

/// The offset of a word of an object's data: of an array's elements, or of the data of another object,
/// which begins with the instance and the tag of an exception. The words are counted from 0.
pub(crate) fn offset_of<H: GcHeap>(m: &Mutator<H>, word: &VMGcRef, index: u32) -> u32 {
    let first = if word.is_arrayref(m.heap()) {
        H::KIND.array_base()
    } else {
        H::KIND.struct_base()
    };
    first.saturating_add(index.saturating_mul(4))
}

/// The number that lies there.
pub(crate) fn number_at<H: GcHeap>(m: &Mutator<H>, word: &VMGcRef, index: u32) -> Option<u32> {
    let offset = offset_of(m, word, index);
    let data = m.heap().gc_object_data(word).ok()?;
    data.read_u32(offset).ok()
}

/// The word that a path leads to: a root, and the indexes of the references to follow. None where null
/// lies on the way, or nothing.
pub(crate) fn follow<H: GcHeap>(m: &Mutator<H>, path: &[u64]) -> Option<VMGcRef> {
    let [root, indexes @ ..] = path else {
        return None;
    };
    let mut word = m.root(*root as usize)?;
    for index in indexes {
        word = VMGcRef::from_raw_u32(number_at(m, &word, low_u32(*index))?)?;
    }
    Some(word)
}

/// Writes what a word is.
pub(crate) fn show_word<H: GcHeap>(m: &Mutator<H>, word: VMGcRef, page: &mut Page) {
    if let Some(i31) = word.as_i31() {
        write!(page, "number {}", i31.get_u32())
    } else if word.is_arrayref(m.heap()) {
        show_array(m, word, page)
    } else if word.is_externref(m.heap()) {
        show_external(m, word, page)
    } else {
        show_struct(m, word, page)
    }
}

/// The type of an object.
fn type_at<H: GcHeap>(m: &Mutator<H>, word: &VMGcRef) -> Option<u32> {
    let header = m.heap().header(word).ok()?;
    Some(header.type_index().as_u32())
}

/// Writes the type of a struct or an exception.
fn show_struct<H: GcHeap>(m: &Mutator<H>, word: VMGcRef, page: &mut Page) {
    let ty = type_at(m, &word).unwrap_or(u32::MAX);
    let is_exception = word.is_exnref(m.heap());
    let kind = if is_exception { "exception" } else { "struct" };
    write!(page, "{kind} of type {ty}")
}

/// Writes the type and the length of an array.
fn show_array<H: GcHeap>(m: &Mutator<H>, word: VMGcRef, page: &mut Page) {
    let ty = type_at(m, &word).unwrap_or(u32::MAX);
    match m.heap().array_len(&VMArrayRef::new_unchecked(word)) {
        Ok(length) => write!(page, "array of type {ty}, length {length}"),
        Err(fault) => write!(page, "{fault}"),
    }
}

/// Writes the id of an external object, and its host value.
fn show_external<H: GcHeap>(m: &Mutator<H>, word: VMGcRef, page: &mut Page) {
    let value = m.host(word.unchecked_copy());
    match m
        .heap()
        .externref_host_data(&VMExternRef::new_unchecked(word))
    {
        Ok(id) => write!(page, "external object {}, {value:?}", id.into_raw()),
        Err(fault) => write!(page, "{fault}"),
    }
}
