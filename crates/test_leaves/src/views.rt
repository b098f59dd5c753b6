//! Bytes that a view of an object lends for writing.

use crate::answers::{Answers, answer_rows};
use crate::fault::CaseFault;
use crate::numbers::{bytes_of, low_u8, low_u32};
use gc_refs::{DataFault, VMGcObjectDataMut};
use std::alloc::{AllocError, Global};

/// The offset of the first byte of a part.
const FIRST: u32 = 12;

/// A part has at most this many bytes.
const MAX_PART: usize = 64;

/// The bytes of which views are made.
#[derive(Drop)]
struct Bytes {
    alloc: Global,
    bytes: Vec<u8>,
}

/// Adds each row on views with its answer.
pub(crate) fn answer(alloc: Global, rows: &str, out: &mut String) -> Result<(), AllocError> {
    let bytes = Vec::new(alloc);
    answer_rows(alloc, &mut Bytes { alloc, bytes }, rows, out)
}

impl Answers for Bytes {
    fn answer(
        &mut self,
        name: &str,
        _words: &[&str],
        numbers: &[u128],
        out: &mut String,
    ) -> Result<(), CaseFault> {
        match (name, numbers) {
            ("bytes", _) => {
                self.bytes = bytes_of(self.alloc, numbers)?;
                Ok(out.push_str("done")?)
            }
            ("fill", [offset, len, byte]) => {
                let (offset, len) = (low_u32(*offset), low_u32(*len));
                Ok(show_fill(self.bytes.as_mut_slice(), offset, len, low_u8(*byte), out)?)
            }
            _ => Err(CaseFault::NoCase),
        }
    }
}

/// Writes whether bytes are lent and filled, and the bytes then.
fn show_fill(
    bytes: &mut [u8],
    offset: u32,
    len: u32,
    byte: u8,
    out: &mut String,
) -> Result<(), AllocError> {
    match fill(bytes, offset, len, byte) {
        Ok(()) => write!(out, "done {:?}", &*bytes),
        Err(fault) => write!(out, "{fault} {:?}", &*bytes),
    }
}

/// Fills so many bytes at an offset, as they are lent for writing.
fn fill(bytes: &mut [u8], offset: u32, len: u32, byte: u8) -> Result<(), DataFault> {
    if bytes.len() > MAX_PART {
        return Ok(());
    }
    let mut view = VMGcObjectDataMut::from_part(FIRST, bytes);
    let lent = view.slice_mut(offset, len)?;
    lent.fill(byte);
    Ok(())
}
