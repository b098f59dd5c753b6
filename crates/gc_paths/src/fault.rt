//! Why no paths are told.

use thiserror::Error;

/// Why no paths are told.
#[derive(Clone, Copy, Debug, PartialEq, Eq, Error)]
pub enum PathFault {
    #[error("the handle is another store's")]
    WrongStore,
    #[error("the handle's root was dropped")]
    Unrooted,
    #[error("the handle's reference is a 31-bit number, to which no path leads")]
    NoObject,
    #[error("no further root may be made")]
    RootsFull,
    #[error("out of memory")]
    Memory,
}
