//! The memory of a copying heap, and what the heap knows of it.

ghost use Rattle.std.specs.Prelude.{◌≡◌, ◌+◌, ◌≤◌, length};
ghost use Rattle.gc_heap.specs.Content.{half_of};
ghost use Rattle.gc_copying.specs.Spaces.{half_start, half_first, half_end};

use gc_memory::HeapMemory;

/// Bit 25 of a kind word: the object has been copied, and its forwarding word says where it is.
pub(crate) const COPIED: u32 = 0x0200_0000;

/// Where the first field of a struct lies, counted from its first byte.
pub(crate) const FIRST_FIELD: u32 = 12;

/// Where the length of an array lies.
pub(crate) const ARRAY_LENGTH: usize = 12;

/// Where the elements of an array of references begin.
pub(crate) const FIRST_ELEMENT: u32 = 16;

/// The greatest number of copies that one increment scans.
pub(crate) const OBJECTS_PER_INCREMENT: u32 = 16_384;

/// The bytes at the start of the active half that hold no object, so that no object lies at 0.
pub(crate) const SKIPPED: u32 = 16;

/// The memory of a copying heap.
#[derive(Drop)]
pub(crate) struct Space {
    pub(crate) memory: HeapMemory,
    /// Whether the upper half is the active one.
    pub(crate) upper: bool,
    /// Where the next object goes.
    pub(crate) bump: u32,
    /// The first external object of the list of all of them; 0 is none.
    pub(crate) externals: u32,
    /// How many objects there are.
    pub(crate) objects: u64,
}

impl Space {
    /// The bytes of each half.
    pub(crate) fn half(&self) -> u32
        ensures value { result ≡ half_of (length self.now.memory) }
        ensures bound { result + result ≤ u32.MAX }
        ensures inside { result + result ≤ length self.now.memory }
    {
        self.memory.capacity() / 32 * 16
    }

    /// Where the active half begins.
    pub(crate) fn start(&self) -> u32
        ensures { result ≡ half_start (length self.now.memory) self.now.upper }
    {
        if self.upper { self.half() } else { 0 }
    }

    /// Where the first object of the active half begins.
    pub(crate) fn first(&self) -> u32
        ensures { result ≡ half_first (length self.now.memory) self.now.upper }
    {
        let half = self.half();
        if half == 0 {
            0
        } else if self.upper {
            half + SKIPPED
        } else {
            SKIPPED
        }
    }

    /// Where the active half ends.
    pub(crate) fn limit(&self) -> u32
        ensures { result ≡ half_end (length self.now.memory) self.now.upper }
    {
        let half = self.half();
        if self.upper { half + half } else { half }
    }
}
