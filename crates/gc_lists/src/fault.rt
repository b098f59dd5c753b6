//! Why a call on a list or a map is refused.

use gc_store::GcHeapOutOfMemory;

/// Why a call on a list or a map is refused. What comes first here is tested first, but that objects are made before the owned
/// root of the new version: so `HeapOutOfMemory` may come where no further owned root may be made either.
#[derive(Debug, Drop)]
pub enum ListFault {
    /// The kit or the version is another store's.
    WrongStore,
    /// No further root may be made.
    RootsFull,
    /// The heap has no room, and it was refused more.
    HeapOutOfMemory(GcHeapOutOfMemory<()>),
    /// Out of memory.
    Memory,
}
