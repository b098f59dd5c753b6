//! Why a row isn't answered.

use gc_types::TypeFault;
use std::alloc::AllocError;
use std::io;
use thiserror::Error;

/// What a row meets in the place of an answer, which is printed by its text.
#[derive(Debug, Drop, Error)]
pub(crate) enum CaseFault {
    #[error("the row is no case")]
    NoCase,
    #[error(transparent)]
    Type(#[from] TypeFault),
    #[error(transparent)]
    File(#[from] io::Error),
    #[error(transparent)]
    Memory(#[from(alloc)] AllocError),
}
