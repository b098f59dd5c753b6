//! Why objects are not made, read or written.

ghost use Rattle.std.specs.Prelude.{◌≡◌};
ghost use Rattle.gc_objects.specs.Faults.{accessed, accessed_value, allocated_value};

use gc_store::{GcHeapOutOfMemory, RootFault};
use thiserror::Error;

/// Why an object is not made. `T` is what was to be stored and comes back where the heap has no room.
#[derive(Debug, Drop)]
pub enum AllocFault<T> {
    /// A handle, a type or an allocator is another store's.
    WrongStore,
    /// A value's root was dropped.
    Unrooted,
    /// A value doesn't fit its field or element.
    TypeMismatch,
    /// There are more or fewer values than fields.
    FieldCount,
    /// The array's elements are not of 8 bits.
    NotI8Array,
    /// No heap of the kind can hold an object of that size.
    TooLarge,
    /// No further root may be made.
    RootsFull,
    /// No ids are left for the functions among the values that are new to the store.
    FuncTableFull,
    /// No ids are left for the continuations among the values that are new to the store.
    ContTableFull,
    /// The heap has no room, and it was refused more.
    HeapOutOfMemory(GcHeapOutOfMemory<T>),
    /// Out of memory.
    Memory,
}

/// Why an object is not read or written.
#[derive(Clone, Copy, Debug, PartialEq, Eq, Error)]
pub enum AccessFault {
    #[error("a handle is another store's")]
    WrongStore,
    #[error("a handle's root was dropped")]
    Unrooted,
    #[error("there is no field or element of that index")]
    OutOfBounds,
    #[error("the field or element is constant")]
    Immutable,
    #[error("the value doesn't fit")]
    TypeMismatch,
    #[error("the array has another length")]
    LengthMismatch,
    #[error("the array's elements are not of 8 bits")]
    NotI8Array,
    #[error("no further root may be made")]
    RootsFull,
    #[error("the function table is full")]
    FuncTableFull,
    #[error("the continuation table is full")]
    ContTableFull,
    #[error("out of memory")]
    Memory,
}

/// Why a value may not go into a field or an element.
#[derive(Clone, Copy)]
pub(crate) enum ValueFault {
    Unrooted,
    TypeMismatch,
}

/// The fault of a root as one of an access.
pub(crate) fn accessed(fault: RootFault) -> AccessFault
    ensures { result ≡ accessed fault }
{
    match fault {
        RootFault::WrongStore => AccessFault::WrongStore,
        RootFault::Unrooted => AccessFault::Unrooted,
        RootFault::RootsFull => AccessFault::RootsFull,
        RootFault::Memory => AccessFault::Memory,
    }
}

/// Why a value is refused, as a fault of an access.
pub(crate) fn accessed_value(fault: ValueFault) -> AccessFault
    ensures { result ≡ accessed_value fault }
{
    match fault {
        ValueFault::Unrooted => AccessFault::Unrooted,
        ValueFault::TypeMismatch => AccessFault::TypeMismatch,
    }
}

/// Why a value is refused, as a fault of a call that makes an object.
pub(crate) fn allocated_value(fault: ValueFault) -> AllocFault<()>
    ensures { result ≡ allocated_value fault }
{
    match fault {
        ValueFault::Unrooted => AllocFault::Unrooted,
        ValueFault::TypeMismatch => AllocFault::TypeMismatch,
    }
}
