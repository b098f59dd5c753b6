//! A slab that is filled, emptied and filled again, ids, and the texts of faults.

use crate::answers::{Answers, answer_rows, show_told};
use crate::fault::CaseFault;
use crate::numbers::low_u32;
use gc_tables::{ExternRefHostDataId, FuncFault, FuncRefTableId, Id, InternFault, Slab, SlabFault};
use gc_types::TypeFault;
use std::alloc::{AllocError, Global};

/// Adds each row on a slab with its answer.
pub(crate) fn answer(alloc: Global, rows: &str, out: &mut String) -> Result<(), AllocError> {
    answer_rows(alloc, &mut Slab::<u32>::new(alloc), rows, out)
}

impl Answers for Slab<u32> {
    fn answer(
        &mut self,
        name: &str,
        _words: &[&str],
        numbers: &[u128],
        out: &mut String,
    ) -> Result<(), CaseFault> {
        let number = low_u32(numbers.first().copied().unwrap_or(0));
        let written = match name {
            "alloc" => show_told(self.alloc(number).map(|id| id.into_raw()), out),
            "free" => free(self, number, out),
            "reserve" => reserve(self, number as usize, out),
            "ids" => show_ids(self, out),
            "id" => show_id(number, out),
            "faults" => show_faults(out),
            _ => return Err(CaseFault::NoCase),
        };
        Ok(written?)
    }
}

/// Takes a value out, and writes it.
fn free(slab: &mut Slab<u32>, raw: u32, out: &mut String) -> Result<(), AllocError> {
    match Id::try_from_raw(raw) {
        Some(id) => write!(out, "{:?}", slab.dealloc(id)),
        None => out.push_str("no id"),
    }
}

/// Makes room for so many entries.
fn reserve(slab: &mut Slab<u32>, count: usize, out: &mut String) -> Result<(), AllocError> {
    slab.reserve(count)?;
    show_ids(slab, out)
}

/// Writes how many entries there are, and their ids in the order of the walk.
fn show_ids(slab: &Slab<u32>, out: &mut String) -> Result<(), AllocError> {
    write!(out, "{} entries, empty {}", slab.len(), slab.is_empty())?;
    for (id, _value) in slab.iter() {
        write!(out, ", {}", id.into_raw())?;
    }
    Ok(())
}

/// Writes which ids there are of a number: that of a slab's entry, a host value's and a function's.
fn show_id(raw: u32, out: &mut String) -> Result<(), AllocError> {
    let id = Id::try_from_raw(raw);
    let host = ExternRefHostDataId::from_raw(raw);
    let func = FuncRefTableId::from_raw(raw);
    write!(out, "{id:?} {host:?} {func:?}")
}

/// Writes the texts of faults that no row can come to.
fn show_faults(out: &mut String) -> Result<(), AllocError> {
    let (full, memory) = (SlabFault::Full(1u32), SlabFault::Memory(1u32));
    let (interns, wants) = (InternFault::Full, InternFault::Memory);
    let (bad, types) = (FuncFault::BadFuncRefId, TypeFault::Memory);
    write!(out, "{interns}, {wants}, {full}, {memory}, {bad}, {types}")
}
