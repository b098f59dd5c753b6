//! Why a row has no answer.

use gc_heap::HeapFault;
use gc_refs::RefFault;
use gc_types::TypeFault;
use std::alloc::AllocError;
use std::io;
use test_client::ClientFault;
use test_mutator::MutatorFault;
use thiserror::Error;

/// Why a row has no answer.
#[derive(Debug, Drop, Error)]
pub(crate) enum TestFault {
    #[error("the line is no row")]
    BadRow,
    #[error("there is no room")]
    NoRoom,
    #[error("there is no such object")]
    NoObject,
    #[error(transparent)]
    Types(#[from] TypeFault),
    #[error(transparent)]
    Heap(#[from] HeapFault),
    #[error(transparent)]
    Reference(#[from] RefFault),
    #[error(transparent)]
    Mutator(#[from] MutatorFault),
    #[error(transparent)]
    Client(#[from] ClientFault),
    #[error(transparent)]
    File(#[from] io::Error),
    #[error(transparent)]
    Memory(#[from(alloc)] AllocError),
}
