//! Why a run of lists or maps ends early.

use gc_lists::ListFault;
use std::alloc::AllocError;
use std::io;
use thiserror::Error;

/// Why a run of lists or maps ends early.
#[derive(Debug, Drop, Error)]
pub(crate) enum RunFault {
    #[error("there is no such configuration")]
    NoConfiguration,
    #[error("a list or a map is refused")]
    Refused(ListFault),
    #[error(transparent)]
    Write(#[from] io::Error),
    #[error(transparent)]
    Memory(#[from(alloc)] AllocError),
}

impl From<ListFault> for RunFault {
    fn from(fault: ListFault) -> RunFault {
        RunFault::Refused(fault)
    }
}
