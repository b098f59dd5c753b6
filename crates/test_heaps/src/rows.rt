//! Reads a row.

use crate::fault::TestFault;
use crate::types::TYPES;
use crate::words::{Does, WORDS};
use std::alloc::Global;

/// A row: what it does, and its numbers, a type's index among them. Those behind the word `and` stand apart.
#[derive(Drop)]
pub(crate) struct Row {
    pub(crate) does: Does,
    pub(crate) numbers: Vec<u64>,
    pub(crate) others: Vec<u64>,
}

/// Whether a line is a row.
pub(crate) fn is_row(line: &str) -> bool {
    !line.is_empty() && !line.starts_with("//")
}

/// The row of a line.
pub(crate) fn row_of(alloc: Global, line: &str) -> Result<Row, TestFault> {
    let (word, rest) = line.split_once(' ').unwrap_or((line, ""));
    let Some(does) = named(&WORDS, word) else {
        return Err(TestFault::BadRow);
    };
    let mut row = Row {
        does,
        numbers: Vec::new(alloc),
        others: Vec::new(alloc),
    };
    let read = read_row(rest, &mut row);
    read.map(|()| row)
}

/// Reads the numbers of a row.
fn read_row(text: &str, row: &mut Row) -> Result<(), TestFault> {
    let (front, behind) = text.split_once(" and ").unwrap_or((text, ""));
    read_numbers(front, &mut row.numbers)?;
    read_numbers(behind, &mut row.others)
}

/// Reads the numbers that the words of a text are.
fn read_numbers(text: &str, numbers: &mut Vec<u64>) -> Result<(), TestFault> {
    for word in text.split_whitespace() {
        let number = number_of(word).ok_or(TestFault::BadRow)?;
        numbers.push(number)?;
    }
    Ok(())
}

/// What a name stands for in a list of names.
fn named<T: Copy>(names: &[(&str, T)], name: &str) -> Option<T> {
    for (known, meant) in names {
        if *known == name {
            return Some(*meant);
        }
    }
    None
}

/// The number that a word is, or the index of the type that it names.
fn number_of(word: &str) -> Option<u64> {
    match named(&TYPES, word) {
        Some(ty) => Some(ty as u64),
        None => word.parse().ok(),
    }
}

/// The low 32 bits of a number.
pub(crate) fn low_u32(number: u64) -> u32 {
    (number % 0x1_0000_0000) as u32
}

/// The first three numbers; 0 for one that isn't there.
pub(crate) fn firsts(numbers: &[u64]) -> [u64; 3] {
    let mut first = [0; 3];
    for (place, number) in first.iter_mut().zip(numbers) {
        *place = *number;
    }
    first
}
