//! Rows that change a heap: objects, roots, fields, growth and collections.

use crate::page::Page;
use crate::paths::offset_of;
use crate::rows::{firsts, low_u32};
use crate::types::CELL;
use crate::words::{Change, Make};
use gc_heap::GcHeap;
use gc_types::VMSharedTypeIndex;
use test_mutator::{Mutator, MutatorFault};

/// Collects, and writes how many increments it took.
pub(crate) fn answer_collect<H: GcHeap>(m: &mut Mutator<H>, page: &mut Page) {
    let increments = m.collect();
    write!(page, "{increments} increments")
}

/// Makes an object or a root, and writes the index of the root, or why there is none.
pub(crate) fn answer_make<H: GcHeap>(
    m: &mut Mutator<H>,
    make: Make,
    numbers: &[u64],
    page: &mut Page,
) {
    let [first, second, _] = firsts(numbers);
    let made = match make {
        Make::Struct => m.make_struct(type_of(first)),
        Make::Array => m.make_array(type_of(first), low_u32(second)),
        Make::Host => m.make_host((first % 0x100) as u8),
        Make::Number => m.make_number(low_u32(first)),
        Make::Copy => m.copy_root(first as usize),
        Make::Show => m.show_root(first as usize),
        Make::Chain => make_chain(m, low_u32(first)),
    };
    match made {
        Ok(root) => write!(page, "{root}"),
        Err(fault) => write!(page, "{fault}"),
    }
}

/// The type of an index.
fn type_of(index: u64) -> VMSharedTypeIndex {
    VMSharedTypeIndex::new(low_u32(index))
}

/// Makes so many structs and one more, each of which names the one before it; only the last one keeps its root.
fn make_chain<H: GcHeap>(m: &mut Mutator<H>, more: u32) -> Result<usize, MutatorFault> {
    let mut head = m.make_struct(VMSharedTypeIndex::new(CELL))?;
    for _ in 0..more {
        head = add_link(m, head)?;
    }
    Ok(head)
}

/// Makes a struct that names that of a root, which is given up.
fn add_link<H: GcHeap>(m: &mut Mutator<H>, before: usize) -> Result<usize, MutatorFault> {
    let next = m.make_struct(VMSharedTypeIndex::new(CELL))?;
    m.write_reference(next, H::KIND.struct_base(), Some(before))?;
    m.drop_root(before)?;
    Ok(next)
}

/// Writes a field, gives a root up, or grows the memory, and writes whether that was done, or why not.
pub(crate) fn answer_change<H: GcHeap>(
    m: &mut Mutator<H>,
    change: Change,
    numbers: &[u64],
    page: &mut Page,
) {
    let [first, second, third] = firsts(numbers);
    let done = match change {
        Change::Link => write_reference(m, first, second, Some(third as usize)),
        Change::Clear => write_reference(m, first, second, None),
        Change::Put => write_number(m, first, second, low_u32(third)),
        Change::Drop => m.drop_root(first as usize),
        Change::Leave => m.leave_slot(first as usize),
        Change::Grow => m.grow(low_u32(first)),
    };
    match done {
        Ok(()) => write!(page, "done"),
        Err(fault) => write!(page, "{fault}"),
    }
}

/// The offset of a word of the object that a root names.
fn offset_at<H: GcHeap>(m: &Mutator<H>, holder: usize, index: u64) -> Result<u32, MutatorFault> {
    match m.root(holder) {
        Some(word) => Ok(offset_of(m, &word, low_u32(index))),
        None => Err(MutatorFault::NoRoot),
    }
}

/// Writes the word of a root, or null, to a field.
fn write_reference<H: GcHeap>(
    m: &mut Mutator<H>,
    holder: u64,
    index: u64,
    source: Option<usize>,
) -> Result<(), MutatorFault> {
    let offset = offset_at(m, holder as usize, index)?;
    m.write_reference(holder as usize, offset, source)
}

/// Writes a number to a field.
fn write_number<H: GcHeap>(
    m: &mut Mutator<H>,
    holder: u64,
    index: u64,
    number: u32,
) -> Result<(), MutatorFault> {
    let offset = offset_at(m, holder as usize, index)?;
    m.write_number(holder as usize, offset, number)
}
