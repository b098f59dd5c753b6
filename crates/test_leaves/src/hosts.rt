//! A table of host values.

use crate::answers::{Answers, answer_rows, show_told};
use crate::fault::CaseFault;
use crate::numbers::low_u32;
use gc_tables::{ExternRefHostDataId, ExternRefHostDataTable};
use std::alloc::{AllocError, Global};

/// Adds each row on host values with its answer.
pub(crate) fn answer(alloc: Global, rows: &str, out: &mut String) -> Result<(), AllocError> {
    answer_rows(alloc, &mut ExternRefHostDataTable::new(alloc), rows, out)
}

impl Answers for ExternRefHostDataTable<u32> {
    fn answer(
        &mut self,
        name: &str,
        _words: &[&str],
        numbers: &[u128],
        out: &mut String,
    ) -> Result<(), CaseFault> {
        let [number] = numbers else {
            return Err(CaseFault::NoCase);
        };
        let number = low_u32(*number);
        let written = match (name, ExternRefHostDataId::from_raw(number)) {
            ("alloc", _) => show_told(self.alloc(number).map(|id| id.into_raw()), out),
            ("get", Some(id)) => show_told(self.get(id), out),
            (_, Some(id)) => show_told(self.dealloc(id), out),
            _ => return Err(CaseFault::NoCase),
        };
        Ok(written?)
    }
}
