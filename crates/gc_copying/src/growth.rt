//! A memory that a copying heap gets, gives away, or gets back with more bytes.

ghost use Rattle.std.specs.Prelude.{ℕ, ◌≡◌, ◌*◌, ◌≤◌, ◌%◌, length};
ghost use Rattle.gc_heap.specs.Heap.{empty_heap};
ghost use Rattle.gc_types.specs.declared.kind.Layouts.TheVariants.{Copying};
ghost use Rattle.gc_view.specs.Pages.{page, max_pages};
ghost use Rattle.gc_copying.specs.Growth.{bump_in_more};
ghost use Rattle.gc_copying.specs.States.{IsSoundSemiSpace, copying_seen_in};

use crate::space::{SKIPPED, Space};
use gc_heap::{HeapMemory, HeapSpace};

/// What a heap knows of its memory while that is out.
#[derive(Clone, Copy, Debug, PartialEq, Eq)]
pub(crate) struct Marks {
    pub(crate) upper: bool,
    pub(crate) bump: u32,
    pub(crate) externals: u32,
    pub(crate) objects: u64,
}

/// Where the first object of a memory goes while its lower half is active.
fn first_bump(memory: &HeapMemory) -> u32
    ensures { result ≡ bump_in_more 0 (length memory.now) }
{
    if memory.byte_size() == 0 { 0 } else { SKIPPED }
}

impl Space {
    /// A memory with no objects.
    pub(crate) fn new(memory: HeapMemory) -> Space
        ensures sound { IsSoundSemiSpace result }
        ensures seen { (scopes : ℕ) → copying_seen_in scopes result ≡ empty_heap Copying (length memory) scopes }
    {
        let _pages = memory.pages();
        let bump = first_bump(&memory);
        Space {
            memory,
            upper: false,
            bump,
            externals: 0,
            objects: 0,
        }
    }
}

impl HeapSpace for Space {
    ghost use Rattle.gc_copying.specs.Backed.{copying_marks_of};

    type Marks = Marks;

    ghost memory = { λ s. s.memory };

    ghost marks = { copying_marks_of };

    ghost objects = { λ s. s.objects };

    fn into_memory(self) -> (HeapMemory, Marks) {
        let marks = Marks {
            upper: self.upper,
            bump: self.bump,
            externals: self.externals,
            objects: self.objects,
        };
        (self.memory, marks)
    }

    fn object_count(&self) -> u64 {
        self.objects
    }
}

impl Marks {
    /// Puts a memory back, which may have grown. Where there was none at all its first bytes are skipped.
    pub(crate) fn with_memory(self, memory: HeapMemory) -> Space
        ensures space { result ≡ record {
          memory = memory;
          upper = self.upper;
          bump = bump_in_more self.bump (length memory);
          externals = self.externals;
          objects = self.objects;
        } }
        ensures pages { length memory % 65536 ≡ 0 }
        ensures bound { length memory ≤ page * max_pages }
    {
        let _pages = memory.pages();
        let bump = if self.bump == 0 {
            first_bump(&memory)
        } else {
            self.bump
        };
        Space {
            memory,
            upper: self.upper,
            bump,
            externals: self.externals,
            objects: self.objects,
        }
    }
}
