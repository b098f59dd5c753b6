//! The bytes that a row of lines stands for.

use crate::fault::CaseFault;
use std::alloc::Global;

/// The bytes that a row stands for: in it `{N*TEXT}` is N times the text, and `\HH`, with two hexadecimal digits, a byte.
pub(crate) fn line_of(alloc: Global, row: &str) -> Result<Vec<u8>, CaseFault> {
    let mut line = Vec::new(alloc);
    let mut pieces = row.split('{');
    if let Some(plain) = pieces.next() {
        push_plain(plain, &mut line)?;
    }
    for piece in pieces {
        let (repeated, plain) = piece.split_once('}').ok_or(CaseFault::NoCase)?;
        push_repeated(alloc, repeated, &mut line)?;
        push_plain(plain, &mut line)?;
    }
    Ok(line)
}

/// Puts a text that is written `N*TEXT` behind a line, so many times.
fn push_repeated(alloc: Global, repeated: &str, line: &mut Vec<u8>) -> Result<(), CaseFault> {
    let (count, plain) = repeated.split_once('*').ok_or(CaseFault::NoCase)?;
    let count = count.parse::<u32>().ok().ok_or(CaseFault::NoCase)?;
    let mut text = Vec::new(alloc);
    push_plain(plain, &mut text)?;
    for _turn in 0..count {
        line.extend_from_slice(text.as_slice())?;
    }
    Ok(())
}

/// Puts a text behind a line, with the bytes that a backslash and two digits stand for.
fn push_plain(text: &str, line: &mut Vec<u8>) -> Result<(), CaseFault> {
    let mut pieces = text.split('\\');
    if let Some(plain) = pieces.next() {
        line.extend_from_slice(plain.as_bytes())?;
    }
    for piece in pieces {
        let (digits, plain) = piece.split_at_checked(2).ok_or(CaseFault::NoCase)?;
        line.push(
            u8::from_str_radix(digits, 16)
                .ok()
                .ok_or(CaseFault::NoCase)?,
        )?;
        line.extend_from_slice(plain.as_bytes())?;
    }
    Ok(())
}
