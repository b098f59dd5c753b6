//! What stands in a row.

use std::alloc::{AllocError, Global};

/// A row's words that are no numbers, and its numbers, each in the order in which they stand.
#[derive(Drop)]
pub(crate) struct Row<'a> {
    pub(crate) words: Vec<&'a str>,
    pub(crate) numbers: Vec<u128>,
}

/// What stands in a row. A number is decimal, negative too, or hexadecimal after `0x`.
pub(crate) fn row_of<'a>(alloc: Global, line: &'a str) -> Result<Row<'a>, AllocError> {
    let mut words = Vec::new(alloc);
    let mut numbers = Vec::new(alloc);
    for word in line.split_whitespace() {
        match number_of(word) {
            Some(number) => numbers.push(number)?,
            None => words.push(word)?,
        }
    }
    Ok(Row { words, numbers })
}

/// The number that a word is: in hexadecimal digits after `0x`, and of a negative one that which stands 2^128 above it.
fn number_of(word: &str) -> Option<u128> {
    if let Some(digits) = word.strip_prefix("0x") {
        return u128::from_str_radix(digits, 16).ok();
    }
    if let Some(digits) = word.strip_prefix('-') {
        let number: u128 = digits.parse().ok()?;
        return Some(0u128.wrapping_sub(number));
    }
    word.parse().ok()
}
