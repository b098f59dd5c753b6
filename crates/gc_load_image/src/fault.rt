//! Why an image is not loaded.

ghost use Rattle.std.specs.Prelude.{◌≡◌};
ghost use Rattle.gc_load_image.specs.declared.fault.LoadFault.TheVariants.{Memory};
ghost use Rattle.gc_load_image.specs.Stages.{told_of_root, told_of_type};

use gc_store::{GcHeapOutOfMemory, RootFault};
use gc_types::TypeFault;
use std::alloc::AllocError;
use thiserror::Error;

/// Why an image is not loaded.
#[derive(Debug, Drop, Error)]
pub enum LoadFault {
    /// The bytes are no image that is well.
    #[error("the bytes are no image that is well")]
    BadImage,
    /// No heap of the kind can hold an object of the image.
    #[error("no heap of the kind can hold an object of the image")]
    TooLarge,
    /// No further scoped root may be made.
    #[error("no further root may be made")]
    RootsFull,
    /// The heap has no room for the objects of the image, and it was refused more.
    #[error("the heap has no room for an object of the image and may not grow")]
    HeapOutOfMemory(GcHeapOutOfMemory<()>),
    /// Out of memory.
    #[error("out of memory")]
    Memory,
}

impl From<AllocError> for LoadFault {
    ghost from_gives = { λ fault e. e ≡ Memory };

    fn from(_fault: AllocError) -> LoadFault {
        LoadFault::Memory
    }
}

/// The fault of a declaration as one of loading.
pub(crate) fn told_of_type(fault: TypeFault) -> LoadFault
    ensures { result ≡ told_of_type fault }
{
    match fault {
        TypeFault::BadType => LoadFault::BadImage,
        TypeFault::Memory => LoadFault::Memory,
    }
}

/// The fault of a push, which is given no handle of another store and none that isn't live.
pub(crate) fn told_of_root(fault: RootFault) -> LoadFault
    ensures { result ≡ told_of_root fault }
{
    match fault {
        RootFault::RootsFull => LoadFault::RootsFull,
        RootFault::WrongStore => LoadFault::Memory,
        RootFault::Unrooted => LoadFault::Memory,
        RootFault::Memory => LoadFault::Memory,
    }
}
