//! Why the graph can't be built, walked or read.

use gc_objects::{AccessFault, AllocFault};
use gc_store::{GcHeapOutOfMemory, RootFault};
use gc_types::TypeFault;
use std::alloc::AllocError;
use std::io;
use thiserror::Error;

/// Why the graph can't be built, walked or read.
#[derive(Debug, Drop, Error)]
pub(crate) enum GraphFault {
    #[error("there is no such store")]
    NoStore,
    #[error("nodes have no type")]
    NoType,
    #[error("a reference names no node")]
    NoNode,
    #[error("a ring has more nodes than were put into it")]
    NoEnd,
    #[error("a heap without a limit")]
    NoLimit,
    #[error("a node is not made")]
    NotMade(AllocFault<()>),
    #[error("the heap is full")]
    Full(GcHeapOutOfMemory<()>),
    #[error(transparent)]
    Type(#[from] TypeFault),
    #[error(transparent)]
    Root(#[from] RootFault),
    #[error(transparent)]
    Access(#[from] AccessFault),
    #[error(transparent)]
    Write(#[from] io::Error),
    #[error(transparent)]
    Memory(#[from(alloc)] AllocError),
}

/// Why a node is not made: that the heap is full is told apart.
pub(crate) fn not_made(fault: AllocFault<()>) -> GraphFault {
    match fault {
        AllocFault::HeapOutOfMemory(full) => GraphFault::Full(full),
        other => GraphFault::NotMade(other),
    }
}
