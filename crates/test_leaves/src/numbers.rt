//! The low bits of numbers.

use std::alloc::{AllocError, Global};

/// The low 8 bits of a number.
pub(crate) fn low_u8(number: u128) -> u8 {
    (number % 0x100) as u8
}

/// The low 16 bits of a number.
pub(crate) fn low_u16(number: u128) -> u16 {
    (number % 0x1_0000) as u16
}

/// The low 32 bits of a number.
pub(crate) fn low_u32(number: u128) -> u32 {
    (number % 0x1_0000_0000) as u32
}

/// The low 64 bits of a number.
pub(crate) fn low_u64(number: u128) -> u64 {
    (number % 0x1_0000_0000_0000_0000) as u64
}

/// The bytes that numbers are.
pub(crate) fn bytes_of(alloc: Global, numbers: &[u128]) -> Result<Vec<u8>, AllocError> {
    numbers.iter().map(|number| low_u8(*number)).collect(alloc)
}
