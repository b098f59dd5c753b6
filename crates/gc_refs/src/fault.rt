//! What the calls of this crate refuse.

use thiserror::Error;

/// A word names no object.
#[derive(Clone, Copy, Debug, PartialEq, Eq, Error)]
pub enum RefFault {
    /// The place of an object was asked of a word that is a 31-bit number.
    #[error("the reference names no object")]
    BadRef,
}

/// A range doesn't lie inside the bytes that a view lends.
#[derive(Clone, Copy, Debug, PartialEq, Eq, Error)]
pub enum DataFault {
    /// The range ends behind the bytes, begins before them, or is reversed.
    #[error("the range is not inside the data of the object")]
    BadOffset,
}
