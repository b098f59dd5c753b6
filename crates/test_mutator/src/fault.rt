//! Why a mutator's call did nothing.

use thiserror::Error;

/// Why a mutator's call did nothing.
#[derive(Clone, Copy, Debug, PartialEq, Eq, Error)]
pub enum MutatorFault {
    #[error("there is no such root")]
    NoRoot,
    #[error("there is no such type")]
    NoType,
    #[error("the object has no such field")]
    NoField,
    #[error("the heap has no room, and wants {0} bytes more")]
    NoRoom(u64),
    #[error("no heap can hold an object of that size")]
    TooLarge,
    #[error("a collection must come first")]
    CollectFirst,
    #[error("there are too many")]
    Full,
    #[error("out of memory")]
    Memory,
}
