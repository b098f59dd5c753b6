//! A memory that a counting heap gets, gives away, or gets back with more bytes.

ghost use Rattle.std.specs.Prelude.{ℕ, ◌≡◌, ◌*◌, ◌%◌, ◌≤◌, length, IfOk, IfErr};
ghost use Rattle.gc_heap.specs.Heap.{empty_heap};
ghost use Rattle.gc_types.specs.declared.kind.Layouts.TheVariants.{Counting};
ghost use Rattle.gc_view.specs.Pages.{page, max_pages};
ghost use Rattle.gc_free.specs.Space.{grow, IsSound};
ghost use Rattle.gc_drc.specs.Content.{IsSoundSpace, counting_seen_in};

use crate::space::CountedSpace;
use gc_free::BatchedFreeList;
use gc_heap::{HeapMemory, HeapSpace};
use std::alloc::Global;

/// What a heap knows of its memory while that is out.
#[derive(Drop)]
pub(crate) struct Marks {
    pub(crate) free: BatchedFreeList,
    pub(crate) shown: u32,
    pub(crate) queued: u32,
    pub(crate) objects: u64,
    pub(crate) allocated: usize,
}

impl CountedSpace {
    /// A memory with no objects. The Err is want of memory for the free list.
    pub(crate) fn new(alloc: Global, memory: HeapMemory) -> Result<CountedSpace, HeapMemory>
        ensures sound { IfOk result (λ space. IsSoundSpace space) }
        ensures seen { (scopes : ℕ) → IfOk result (λ space. counting_seen_in scopes space ≡ empty_heap Counting (length memory) scopes) }
        ensures back { IfErr result (λ given. given ≡ memory) }
    {
        let _pages = memory.pages();
        match BatchedFreeList::new(alloc, memory.byte_size()) {
            Ok(free) => Ok(CountedSpace {
                memory,
                free,
                shown: 0,
                queued: 0,
                objects: 0,
                allocated: 0,
            }),
            Err(_) => Err(memory),
        }
    }
}

impl HeapSpace for CountedSpace {
    ghost use Rattle.gc_drc.specs.Backed.{counting_marks_of};

    type Marks = Marks;

    ghost memory = { λ s. s.memory };

    ghost marks = { counting_marks_of };

    ghost objects = { λ s. s.objects };

    fn into_memory(self) -> (HeapMemory, Marks) {
        let marks = Marks {
            free: self.free,
            shown: self.shown,
            queued: self.queued,
            objects: self.objects,
            allocated: self.allocated,
        };
        (self.memory, marks)
    }

    fn object_count(&self) -> u64 {
        self.objects
    }
}

impl Marks {
    /// Puts a memory back, which has so many new bytes at its end.
    pub(crate) fn with_memory(self, memory: HeapMemory, grown: u64) -> CountedSpace
        ensures space { result ≡ record {
          memory = memory;
          free = result.free;
          shown = self.shown;
          queued = self.queued;
          objects = self.objects;
          allocated = self.allocated;
        } }
        ensures grown { result.free.space ≡ grow grown self.free.space }
        ensures sound { IsSound result.free.space }
        ensures pages { length memory % page ≡ 0 }
        ensures bound { length memory ≤ page * max_pages }
    {
        let _pages = memory.pages();
        let mut free = self.free;
        free.add_capacity(grown as usize);
        CountedSpace {
            memory,
            free,
            shown: self.shown,
            queued: self.queued,
            objects: self.objects,
            allocated: self.allocated,
        }
    }
}
