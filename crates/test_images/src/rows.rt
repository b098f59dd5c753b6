//! What a row says, and how a trip is written.

use crate::trips::{Setup, Trip};
use std::alloc::{AllocError, Global};

/// What is asked of a row's image.
#[derive(Clone, Copy)]
pub(crate) enum Ask {
    /// Whether it is well.
    Well,
    /// How many bytes make it well, at each of its places.
    Each,
    /// What becomes of it on its way through heaps.
    Trip(Setup),
}

/// What a row asks by its first words, and the text of the image behind them.
pub(crate) fn ask_of(row: &str) -> (Ask, &str) {
    if let Some(image) = row.strip_prefix("well ") {
        return (Ask::Well, image);
    }
    if let Some(image) = row.strip_prefix("each ") {
        return (Ask::Each, image);
    }
    match setup_of(row) {
        Some((setup, image)) => (Ask::Trip(setup), image),
        None => (Ask::Trip(Setup::ample()), row),
    }
}

/// The setup that a row names, and the text of the image behind it; None where it names none.
fn setup_of(row: &str) -> Option<(Setup, &str)> {
    let (name, rest) = row.split_once(' ')?;
    let (word, image) = rest.split_once(' ')?;
    Some((Setup::named(name, word.parse().ok()?)?, image))
}

/// Adds the bytes that a text stands for.
fn push_text(text: &str, bytes: &mut Vec<u8>) -> Result<(), AllocError> {
    for byte in text.as_bytes() {
        bytes.push(if *byte == b';' { b'\n' } else { *byte })?;
    }
    Ok(())
}

/// Adds those of `N*TEXT`, N times the text; of other words none.
fn push_repeated(words: &str, bytes: &mut Vec<u8>) -> Result<(), AllocError> {
    let Some((number, text)) = words.split_once('*') else {
        return Ok(());
    };
    let count: u32 = number.parse().unwrap_or(0);
    for _ in 0..count {
        push_text(text, bytes)?;
    }
    Ok(())
}

/// The bytes that a text stands for.
pub(crate) fn bytes_of(alloc: Global, text: &str) -> Result<Vec<u8>, AllocError> {
    let mut bytes = Vec::with_capacity(alloc, text.len())?;
    for part in text.split('{') {
        match part.split_once('}') {
            Some((repeated, plain)) => {
                push_repeated(repeated, &mut bytes)?;
                push_text(plain, &mut bytes)?;
            }
            None => push_text(part, &mut bytes)?,
        }
    }
    Ok(bytes)
}

/// Writes what a trip came to: `same` where the same bytes were saved.
pub(crate) fn push_trip(loaded: &[u8], trip: &Trip, out: &mut String) -> Result<(), AllocError> {
    match trip {
        Trip::NotLoaded(fault) => writeln!(out, "not loaded: {fault:?}"),
        Trip::NotSaved(fault) => writeln!(out, "not saved: {fault:?}"),
        Trip::Saved(saved) => {
            if saved.as_slice() == loaded {
                return out.push_str("same\n");
            }
            push_bytes(saved.as_slice(), out)
        }
    }
}

/// Writes bytes as a row, in which `;` stands for a line feed.
fn push_bytes(bytes: &[u8], out: &mut String) -> Result<(), AllocError> {
    for byte in bytes {
        out.push(if *byte == b'\n' {
            ';'
        } else {
            char::from(*byte)
        })?;
    }
    out.push_str("\n")
}
