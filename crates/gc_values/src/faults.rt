//! Why an object is not placed, and why a value is not written.

ghost use Rattle.std.specs.Prelude.{◌≡◌};

use std::fmt;
use thiserror::Error;

/// The heap has no room for an allocation, and got no more. It has what was to be stored.
#[derive(Drop)]
pub struct GcHeapOutOfMemory<T> {
    inner: T,
    bytes_needed: u64,
}

impl<T> GcHeapOutOfMemory<T> {
    /// That the heap has no room for what was to be stored, for which it would have to grow by so many bytes.
    pub fn new(inner: T, bytes_needed: u64) -> GcHeapOutOfMemory<T>
        ensures { result ≡ record { inner = inner; bytes_needed = bytes_needed } }
    {
        GcHeapOutOfMemory {
            inner,
            bytes_needed,
        }
    }

    /// What was to be stored.
    pub fn into_inner(self) -> T
        ensures { result ≡ self.inner }
    {
        self.inner
    }

    /// What was to be stored, and the same fault without it.
    pub fn take_inner(self) -> (T, GcHeapOutOfMemory<()>)
        ensures inner { result.0 ≡ self.inner }
        ensures fault { result.1 ≡ record { inner = tt; bytes_needed = self.bytes_needed } }
    {
        let fault = GcHeapOutOfMemory {
            inner: (),
            bytes_needed: self.bytes_needed,
        };
        (self.inner, fault)
    }

    /// The bytes that the heap would have to grow by.
    pub fn bytes_needed(&self) -> u64
        ensures { result ≡ self.now.bytes_needed }
    {
        self.bytes_needed
    }
}

impl<T> fmt::Display for GcHeapOutOfMemory<T> {
    fn fmt<W: fmt::Write>(&self, f: &mut fmt::Formatter<W>) -> fmt::Result {
        write!(
            f,
            "GC heap out of memory: no capacity for allocation of {} bytes",
            self.bytes_needed
        )
    }
}

impl<T> fmt::Debug for GcHeapOutOfMemory<T> {
    fn fmt<W: fmt::Write>(&self, f: &mut fmt::Formatter<W>) -> fmt::Result {
        fmt::Display::fmt(self, f)
    }
}

/// Why an object is not placed.
#[derive(Debug, Drop, Error)]
pub enum PlaceFault {
    /// No ids are left for all function values of the object that are new to the store.
    #[error("no ids are left for function values")]
    FuncTableFull,
    /// No ids are left for all continuations of the object that are new to the store.
    #[error("no ids are left for continuations")]
    ContTableFull,
    /// No heap of the kind can hold an object of that size.
    #[error("no heap can hold an object of that size")]
    TooLarge,
    /// No further root may be made.
    #[error("no further root may be made")]
    RootsFull,
    /// The heap has no room, and it was refused more.
    #[error("{0}")]
    HeapOutOfMemory(GcHeapOutOfMemory<()>),
    /// Out of memory. The table is as it was; a collection may have run, and the heap may have got its
    /// first pages and a growth.
    #[error("out of memory")]
    Memory,
}

/// Why a value is not written.
#[derive(Clone, Copy, Debug, PartialEq, Eq, Error)]
pub enum WriteFault {
    /// The value is a function value that is new to the store, and no id is left for it.
    #[error("the function table is full")]
    FuncTableFull,
    /// The value is a continuation that is new to the store, and no id is left for it.
    #[error("the continuation table is full")]
    ContTableFull,
    /// Out of memory. The store is as it was.
    #[error("out of memory")]
    Memory,
}
