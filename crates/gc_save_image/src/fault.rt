//! Why no image is saved.

use thiserror::Error;

/// Why no image is saved, in the order of the tests.
#[derive(Clone, Copy, Debug, PartialEq, Eq, Error)]
pub enum SaveFault {
    #[error("a declared type holds functions or continuations")]
    NotPlain,
    #[error("no further root may be made")]
    RootsFull,
    #[error("objects must each be made before the other")]
    Tangled,
    #[error("out of memory")]
    Memory,
}
