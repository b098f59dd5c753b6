//! Why a heap refuses.

use thiserror::Error;

/// Why an allocation failed that no growth can help.
#[derive(Clone, Copy, Debug, PartialEq, Eq, Error)]
pub enum HeapFault {
    #[error("no heap can hold an object of that size")]
    TooLarge,
    #[error("out of memory")]
    Memory,
}
