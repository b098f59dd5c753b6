//! Why nothing is collected.

use thiserror::Error;

/// Why nothing is collected.
#[derive(Clone, Copy, Debug, PartialEq, Eq, Error)]
pub enum CollectFault {
    #[error("no further root may be made")]
    RootsFull,
    #[error("out of memory")]
    Memory,
}
