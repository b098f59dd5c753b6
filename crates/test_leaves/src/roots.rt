//! A list of roots that is filled and walked.

use crate::answers::{Answers, answer_rows};
use crate::fault::CaseFault;
use crate::numbers::low_u32;
use gc_refs::{I31, VMGcRef};
use gc_roots::{GcRoot, GcRootsList, RootPlace};
use std::alloc::{AllocError, Global};

/// Adds each row on a list of roots with its answer.
pub(crate) fn answer(alloc: Global, rows: &str, out: &mut String) -> Result<(), AllocError> {
    answer_rows(alloc, &mut GcRootsList::new(alloc), rows, out)
}

impl Answers for GcRootsList {
    fn answer(
        &mut self,
        name: &str,
        _words: &[&str],
        numbers: &[u128],
        out: &mut String,
    ) -> Result<(), CaseFault> {
        let written = match (name, numbers) {
            ("three", []) => add_three(self, out),
            ("walk", []) => walk(self, out),
            ("at", [index]) => show_root(self, low_u32(*index) as usize, out),
            _ => return Err(CaseFault::NoCase),
        };
        Ok(written?)
    }
}

/// A place of that number.
fn place(number: u64) -> RootPlace {
    RootPlace { number }
}

/// The word of a 31-bit number, which is twice the number plus 1.
fn word(number: u32) -> VMGcRef {
    VMGcRef::from_i31(I31::wrapping_u32(number))
}

/// Adds a slot of a wasm frame, a reference of the store's own and a raw value, in this order.
fn add_three(list: &mut GcRootsList, out: &mut String) -> Result<(), AllocError> {
    list.reserve(3)?;
    list.add_wasm_stack_root(place(7), word(1));
    list.add_vmgcref_root(place(9), word(2));
    list.add_val_raw_root(place(8), word(3));
    write!(out, "{}, empty {}", list.len(), list.is_empty())
}

/// Writes the root of an index: its place, whether it is on a stack, and its word.
fn show_root(list: &GcRootsList, index: usize, out: &mut String) -> Result<(), AllocError> {
    if index >= list.len() {
        return out.push_str("no root");
    }
    let on_stack = list.is_on_wasm_stack_at(index);
    let raw = list.word_at(index).as_raw_u32();
    write!(out, "{:?} {on_stack} {raw}", list.place_at(index))
}

/// Shows each root in turn, and replaces its word by that of the number that it was.
fn walk(list: &mut GcRootsList, out: &mut String) -> Result<(), AllocError> {
    write!(out, "{} roots", list.len())?;
    for mut root in list.iter() {
        let raw = root.get().as_raw_u32();
        show_lent(&root, out)?;
        root.set(word(raw));
    }
    Ok(())
}

/// Writes a root that is lent, and its text.
fn show_lent(root: &GcRoot<'_>, out: &mut String) -> Result<(), AllocError> {
    let on_stack = root.is_on_wasm_stack();
    let raw = root.get().as_raw_u32();
    write!(out, "; {} {on_stack} {raw} {root:?}", root.place().number)
}
