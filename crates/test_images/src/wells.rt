//! Whether images are well.

use gc_image::check_image;
use std::alloc::{AllocError, Global};

/// The bytes, with another one at that place.
fn exchanged(alloc: Global, bytes: &[u8], place: usize, byte: u8) -> Result<Vec<u8>, AllocError> {
    let mut others = bytes.to_vec(alloc)?;
    if let Some(own) = others.get_mut(place) {
        *own = byte;
    }
    Ok(others)
}

/// How many bytes make the text well at that place.
fn count_well(alloc: Global, bytes: &[u8], place: usize) -> Result<u32, AllocError> {
    let mut count = 0u32;
    for byte in 0..=u8::MAX {
        let others = exchanged(alloc, bytes, place, byte)?;
        if check_image(alloc, others.as_slice())? {
            count = count.saturating_add(1);
        }
    }
    Ok(count)
}

/// Writes whether an image is well.
pub(crate) fn push_well(alloc: Global, bytes: &[u8], out: &mut String) -> Result<(), AllocError> {
    let is_well = check_image(alloc, bytes)?;
    writeln!(out, "{is_well}")
}

/// Writes how many bytes make an image well, for each of its places.
pub(crate) fn push_counts(alloc: Global, bytes: &[u8], out: &mut String) -> Result<(), AllocError> {
    for place in 0..bytes.len() {
        let count = count_well(alloc, bytes, place)?;
        write!(out, "{count} ")?;
    }
    out.push_str("\n")
}
