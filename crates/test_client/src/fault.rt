//! Why a client's call did nothing more.

use gc_heap::HeapFault;
use gc_refs::RefFault;
use std::alloc::AllocError;
use thiserror::Error;

/// Why a client's call did nothing more.
#[derive(Debug, Drop, Error)]
pub enum ClientFault {
    #[error("there is no such type")]
    NoType,
    #[error("the heap has no room, and wants {0} bytes more")]
    NoRoom(u64),
    #[error("there was room")]
    HadRoom,
    #[error("no object is so small")]
    TooSmall,
    #[error("there are too many spare bits")]
    TooManyBits,
    #[error(transparent)]
    Heap(#[from] HeapFault),
    #[error(transparent)]
    Reference(#[from] RefFault),
    #[error("out of memory")]
    Memory,
}

impl From<AllocError> for ClientFault {
    fn from(_error: AllocError) -> ClientFault {
        ClientFault::Memory
    }
}
