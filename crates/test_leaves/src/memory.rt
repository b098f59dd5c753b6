//! The memory of a heap, and where words lie in an object.

use crate::answers::{Answers, answer_rows};
use crate::fault::CaseFault;
use crate::layouts::HEAPS;
use crate::numbers::low_u32;
use gc_memory::memory::MAX_PAGES;
use gc_memory::{HeapMemory, offsets};
use std::alloc::{AllocError, Global};

/// Adds each row on a memory of one page with its answer.
pub(crate) fn answer(alloc: Global, rows: &str, out: &mut String) -> Result<(), AllocError> {
    let mut memory = HeapMemory::new(alloc, 1)?;
    answer_rows(alloc, &mut memory, rows, out)
}

impl Answers for HeapMemory {
    fn answer(
        &mut self,
        name: &str,
        _words: &[&str],
        numbers: &[u128],
        out: &mut String,
    ) -> Result<(), CaseFault> {
        let written = match (name, numbers) {
            ("size", []) => show_size(self, out),
            ("grow", [pages]) => return grow(self, low_u32(*pages), out),
            ("offsets", []) => show_offsets(out),
            ("stored", [size]) => show_stored(low_u32(*size), out),
            _ => return Err(CaseFault::NoCase),
        };
        Ok(written?)
    }
}

/// Writes how large the memory is, and its first byte.
fn show_size(memory: &HeapMemory, out: &mut String) -> Result<(), AllocError> {
    let (pages, bytes) = (memory.pages(), memory.byte_size());
    let capacity = memory.capacity();
    let first = memory.bytes().first();
    write!(
        out,
        "{pages} pages, {bytes} bytes, capacity {capacity}, first {first:?}"
    )
}

/// Grows a memory, and says that it is done.
fn grow(memory: &mut HeapMemory, pages: u32, out: &mut String) -> Result<(), CaseFault> {
    if pages > MAX_PAGES - memory.pages() {
        return Err(CaseFault::NoCase);
    }
    memory.grow(pages)?;
    Ok(out.push_str("done")?)
}

/// Writes where the words of an object lie in each heap, and how large an external object is.
fn show_offsets(out: &mut String) -> Result<(), AllocError> {
    out.push_str("length instance tag host size")?;
    for (layouts, name) in HEAPS {
        let (length, size) = (
            offsets::array_length(layouts),
            offsets::external_size(layouts),
        );
        let instance = offsets::exception_instance(layouts);
        let (tag, host) = (offsets::exception_tag(layouts), offsets::host_id(layouts));
        write!(out, "; {name} {length} {instance} {tag} {host} {size}")?;
    }
    Ok(())
}

/// Writes the size that an object of so many bytes keeps in each heap.
fn show_stored(size: u32, out: &mut String) -> Result<(), AllocError> {
    write!(out, "size {size}")?;
    for (layouts, name) in HEAPS {
        write!(out, "; {name} {}", offsets::stored_size(layouts, size))?;
    }
    Ok(())
}
