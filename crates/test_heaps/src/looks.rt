//! Rows that look at a heap, and change nothing.

use crate::page::Page;
use crate::paths::{follow, number_at, show_word};
use crate::rows::{firsts, low_u32};
use crate::words::Look;
use gc_heap::GcHeap;
use gc_refs::{VMArrayRef, VMExternRef, VMGcRef};
use std::ops::Range;
use test_mutator::Mutator;

/// Answers a row that changes nothing.
pub(crate) fn look<H: GcHeap>(
    m: &Mutator<H>,
    looks: Look,
    numbers: &[u64],
    others: &[u64],
    page: &mut Page,
) {
    match looks {
        Look::Count => show_count(m, page),
        Look::Heap => show_heap(m, page),
        Look::See => show_path(m, numbers, page),
        Look::Same => compare(m, numbers, others, page),
        Look::Refused => show_refused(m, numbers, page),
        _ => look_at(m, looks, numbers, page),
    }
}

/// Answers a row that looks at what a root names.
fn look_at<H: GcHeap>(m: &Mutator<H>, looks: Look, numbers: &[u64], page: &mut Page) {
    let [root, second, third] = firsts(numbers);
    match m.root(root as usize) {
        Some(word) => look_into(m, looks, &word, second, third, page),
        None => write!(page, "no root"),
    }
}

/// Tells where an object lies, and what lies there, by default bytes of it.
fn look_into<H: GcHeap>(
    m: &Mutator<H>,
    looks: Look,
    word: &VMGcRef,
    second: u64,
    third: u64,
    page: &mut Page,
) {
    match looks {
        Look::At => show_range(m, word, page),
        Look::Header => show_header(m, word, page),
        Look::Data => show_data(m, word, low_u32(second), page),
        _ => show_raw(m, word, second as usize..third as usize, page),
    }
}

/// Writes what there is.
fn show_count<H: GcHeap>(m: &Mutator<H>, page: &mut Page) {
    let (objects, bytes) = (m.objects(), m.allocated_bytes());
    let hosts = m.host_values();
    write!(
        page,
        "{objects} objects, {bytes} bytes, {hosts} host values"
    )
}

/// Writes what a path leads to.
fn show_path<H: GcHeap>(m: &Mutator<H>, path: &[u64], page: &mut Page) {
    match follow(m, path) {
        Some(word) => show_word(m, word, page),
        None => write!(page, "null"),
    }
}

/// Writes where an object lies.
fn show_range<H: GcHeap>(m: &Mutator<H>, word: &VMGcRef, page: &mut Page) {
    match m.heap().object_range(word) {
        Ok(range) => write!(page, "{}..{}", range.start, range.end),
        Err(fault) => write!(page, "{fault}"),
    }
}

/// Writes bytes of an object, in hexadecimal.
fn show_raw<H: GcHeap>(m: &Mutator<H>, word: &VMGcRef, part: Range<usize>, page: &mut Page) {
    let Ok(range) = m.heap().object_range(word) else {
        return write!(page, "no object");
    };
    let object = m.heap().heap_slice().get(range).unwrap_or(&[]);
    match object.get(part) {
        Some(bytes) => show_bytes(bytes, page),
        None => write!(page, "outside"),
    }
}

/// Writes bytes in hexadecimal.
fn show_bytes(bytes: &[u8], page: &mut Page) {
    for byte in bytes {
        write!(page, "{byte:02x}");
    }
}

/// Writes whether two paths lead to one word.
fn compare<H: GcHeap>(m: &Mutator<H>, left: &[u64], right: &[u64], page: &mut Page) {
    let is_same = follow(m, left) == follow(m, right);
    write!(page, "{}", if is_same { "one" } else { "two" })
}

/// Writes how long the memory is, and whether a collection must come before it grows.
fn show_heap<H: GcHeap>(m: &Mutator<H>, page: &mut Page) {
    let bytes = m.heap().heap_slice().len();
    let collects = m.heap().needs_gc_before_next_growth();
    let first = if collects {
        ", collects before it grows"
    } else {
        ""
    };
    write!(page, "{bytes} bytes of memory{first}")
}

/// Writes the kind word, the type and the size of an object.
fn show_header<H: GcHeap>(m: &Mutator<H>, word: &VMGcRef, page: &mut Page) {
    let size = m.heap().object_size(word).unwrap_or(0);
    match m.heap().header(word) {
        Ok(header) => {
            let (kind, ty) = (header.kind_word(), header.type_index().as_u32());
            write!(page, "{kind:08x} type {ty} size {size}")
        }
        Err(fault) => write!(page, "{fault}"),
    }
}

/// Writes so many words of an object's data.
fn show_data<H: GcHeap>(m: &Mutator<H>, word: &VMGcRef, count: u32, page: &mut Page) {
    for index in 0..count {
        let gap = if index > 0 { " " } else { "" };
        match number_at(m, word, index) {
            Some(number) => write!(page, "{gap}{number}"),
            None => write!(page, "{gap}none"),
        }
    }
}

/// Writes by an x which reads refuse a word: those of its header, its size, its place and its data, of the length of
/// an array and of the host value of an external object.
fn show_refused<H: GcHeap>(m: &Mutator<H>, numbers: &[u64], page: &mut Page) {
    let [raw, ..] = firsts(numbers);
    match VMGcRef::from_raw_u32(low_u32(raw)) {
        Some(word) => show_marks(&refused(m, &word), page),
        None => write!(page, "null"),
    }
}

/// Which of these reads refuse a word.
fn refused<H: GcHeap>(m: &Mutator<H>, word: &VMGcRef) -> [bool; 6] {
    let array = VMArrayRef::new_unchecked(word.unchecked_copy());
    let external = VMExternRef::new_unchecked(word.unchecked_copy());
    [
        m.heap().header(word).is_err(),
        m.heap().object_size(word).is_err(),
        m.heap().object_range(word).is_err(),
        m.heap().gc_object_data(word).is_err(),
        m.heap().array_len(&array).is_err(),
        m.heap().externref_host_data(&external).is_err(),
    ]
}

/// Writes an x for what is so, and a dash for what isn't.
fn show_marks(marks: &[bool], page: &mut Page) {
    for is_so in marks {
        write!(page, "{}", if *is_so { "x" } else { "-" });
    }
}
