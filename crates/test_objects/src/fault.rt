//! Why the program stops: what a case takes for granted isn't so, or a call answers a fault that no case is about.

use gc_objects::{AccessFault, AllocFault};
use gc_store::{PlaceHostFault, RootFault, SlotFault};
use std::alloc::AllocError;
use std::io;
use thiserror::Error;

/// What stops the program.
#[derive(Clone, Copy, Debug, Error)]
pub(crate) enum RunFault {
    #[error("there is no such configuration")]
    NoConfiguration,
    #[error("a type isn't declared")]
    NoType,
    #[error("a word, a field or a handle names nothing of the kind")]
    NoReference,
    #[error("no object is made")]
    NotMade,
    #[error("a heap isn't refused its first page")]
    NotRefused,
    #[error("a root is refused")]
    Root(RootFault),
    #[error("an access is refused")]
    Access(AccessFault),
    #[error("there is no room for what is printed")]
    Memory,
    #[error("what is found isn't printed")]
    NotPrinted,
}

/// The answer of a step of a case.
pub(crate) type Result<T, E = RunFault> = std::result::Result<T, E>;

impl From<RootFault> for RunFault {
    fn from(fault: RootFault) -> RunFault {
        RunFault::Root(fault)
    }
}

impl From<AccessFault> for RunFault {
    fn from(fault: AccessFault) -> RunFault {
        RunFault::Access(fault)
    }
}

impl From<SlotFault> for RunFault {
    fn from(_fault: SlotFault) -> RunFault {
        RunFault::NoReference
    }
}

impl<T: Drop> From<AllocFault<T>> for RunFault {
    fn from(_fault: AllocFault<T>) -> RunFault {
        RunFault::NotMade
    }
}

impl<T: Drop> From<PlaceHostFault<T>> for RunFault {
    fn from(_fault: PlaceHostFault<T>) -> RunFault {
        RunFault::NotMade
    }
}

impl From<AllocError> for RunFault {
    fn from(_fault: AllocError) -> RunFault {
        RunFault::Memory
    }
}

impl From<io::Error> for RunFault {
    fn from(_fault: io::Error) -> RunFault {
        RunFault::NotPrinted
    }
}
