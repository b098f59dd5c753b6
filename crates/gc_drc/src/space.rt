//! The memory of a counting heap, and what the heap knows of it.
//!
//! ```text
//! offset   0           4           8       16           20     24     28       size
//!          +-----------+-----------+-------+------------+------+------+--------+
//!          | kind word | type word | count | next shown | size | link | data   |
//!          +-----------+-----------+-------+------------+------+------+--------+
//! ```
//!
//! The block of an object in the free list is its size to the next multiple of 16.

ghost use Rattle.std.specs.Prelude.{◌≡◌, ◌+◌, ◌/◌, ◌%◌, ◌≤◌, length, nat_eq};
ghost use Rattle.gc_view.specs.Bytes.{put_u32};
ghost use Rattle.gc_memory.specs.Words.{word, word64, put_u64};

use gc_free::BatchedFreeList;
use gc_memory::HeapMemory;
use gc_memory::offsets::{COUNTING_COUNT, COUNTING_LINK, COUNTING_LIST, COUNTING_SIZE};

/// Bit 0 of a kind word: a collection has marked the object.
pub(crate) const MARKED: u32 = 1;

/// Bit 1 of a kind word: the object is on the list of shown words.
pub(crate) const SHOWN: u32 = 2;

/// Bit 2 of a kind word: the object is queued to be freed.
pub(crate) const QUEUED: u32 = 4;

/// The memory of a counting heap.
#[derive(Drop)]
pub(crate) struct CountedSpace {
    pub(crate) memory: HeapMemory,
    /// The block of each object, and the places between them.
    pub(crate) free: BatchedFreeList,
    /// The first object of the list of shown words; 0 is none.
    pub(crate) shown: u32,
    /// The first object that is queued to be freed; 0 is none.
    pub(crate) queued: u32,
    /// How many objects there are.
    pub(crate) objects: u64,
    /// How many bytes their blocks have.
    pub(crate) allocated: usize,
}

impl CountedSpace {
    fn word(&self, at: usize) -> u32
        requires { at + 4 ≤ length self.now.memory }
        ensures { result ≡ word self.now.memory at }
    {
        self.memory.read_u32(at)
    }

    fn long_word(&self, at: usize) -> u64
        requires { at + 8 ≤ length self.now.memory }
        ensures { result ≡ word64 self.now.memory at }
    {
        self.memory.read_u64(at)
    }

    /// The kind word of an object.
    pub(crate) fn kind_word(&self, place: u32) -> u32
        requires { place + 28 ≤ length self.now.memory }
        ensures { result ≡ word self.now.memory place }
    {
        self.word(place as usize)
    }

    /// The count word of an object.
    pub(crate) fn count(&self, place: u32) -> u64
        requires { place + 28 ≤ length self.now.memory }
        ensures { result ≡ word64 self.now.memory (place + 8) }
    {
        self.long_word(place as usize + COUNTING_COUNT as usize)
    }

    /// The next object of the list of shown words.
    pub(crate) fn next_shown(&self, place: u32) -> u32
        requires { place + 28 ≤ length self.now.memory }
        ensures { result ≡ word self.now.memory (place + 16) }
    {
        self.word(place as usize + COUNTING_LIST as usize)
    }

    /// The bytes of an object.
    pub(crate) fn size(&self, place: u32) -> u32
        requires { place + 28 ≤ length self.now.memory }
        ensures { result ≡ word self.now.memory (place + 20) }
    {
        self.word(place as usize + COUNTING_SIZE as usize)
    }

    /// The next object that is queued.
    pub(crate) fn link(&self, place: u32) -> u32
        requires { place + 28 ≤ length self.now.memory }
        ensures { result ≡ word self.now.memory (place + 24) }
    {
        self.word(place as usize + COUNTING_LINK as usize)
    }

    /// Whether an object is marked.
    pub(crate) fn is_marked(&self, place: u32) -> bool
        requires { place + 28 ≤ length self.now.memory }
        ensures { result ≡ nat_eq (word self.now.memory place % 2) 1 }
    {
        self.kind_word(place) % 2 == 1
    }

    /// Whether an object is on the list of shown words.
    pub(crate) fn is_shown(&self, place: u32) -> bool
        requires { place + 28 ≤ length self.now.memory }
        ensures { result ≡ nat_eq (word self.now.memory place / 2 % 2) 1 }
    {
        self.kind_word(place) / SHOWN % 2 == 1
    }

    /// Whether an object is queued.
    pub(crate) fn is_queued(&self, place: u32) -> bool
        requires { place + 28 ≤ length self.now.memory }
        ensures { result ≡ nat_eq (word self.now.memory place / 4 % 2) 1 }
    {
        self.kind_word(place) / QUEUED % 2 == 1
    }

    /// Sets the kind word of an object.
    pub(crate) fn set_kind_word(&mut self, place: u32, value: u32)
        requires { place + 28 ≤ length self.old.memory }
        ensures { self.new ≡ record self.old { memory = put_u32 self.old.memory place value } }
    {
        self.memory.write_u32(place as usize, value);
    }

    /// Sets the count word of an object.
    pub(crate) fn set_count(&mut self, place: u32, value: u64)
        requires { place + 28 ≤ length self.old.memory }
        ensures { self.new ≡ record self.old { memory = put_u64 self.old.memory (place + 8) value } }
    {
        self.memory
            .write_u64(place as usize + COUNTING_COUNT as usize, value);
    }

    /// Sets the next object of the list of shown words.
    pub(crate) fn set_next_shown(&mut self, place: u32, next: u32)
        requires { place + 28 ≤ length self.old.memory }
        ensures { self.new ≡ record self.old { memory = put_u32 self.old.memory (place + 16) next } }
    {
        self.memory
            .write_u32(place as usize + COUNTING_LIST as usize, next);
    }

    /// Sets the next object that is queued.
    pub(crate) fn set_link(&mut self, place: u32, next: u32)
        requires { place + 28 ≤ length self.old.memory }
        ensures { self.new ≡ record self.old { memory = put_u32 self.old.memory (place + 24) next } }
    {
        self.memory
            .write_u32(place as usize + COUNTING_LINK as usize, next);
    }
}
