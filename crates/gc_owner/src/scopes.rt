//! Scoped roots.

ghost use Rattle.std.specs.Prelude.{◌≡◌, ◌<◌, ◌^◌, true, length, take};
ghost use Rattle.gc_view.specs.Heaps.{SameHeld};
ghost use Rattle.gc_heap.specs.Collection.{IsWordOf};
ghost use Rattle.gc_owner.specs.RootColumns.{with_scoped, with_room, left_scope, roots_of, Reserves};
ghost use Rattle.gc_owner.specs.DroppedRoots.{CanDropRoots};
ghost use Rattle.gc_owner.specs.Tracing.{KeepsCollectable};
ghost use Rattle.gc_owner.specs.Owners.{raised, ChangesRoots};

use crate::barriers::{copy_word, drop_word};
use crate::entry::RootEntry;
use crate::owner::HeapOwner;
use crate::roots::Roots;
use gc_heap::GcHeap;
use std::alloc::AllocError;

/// Drops the scoped roots past so many, the newest first, and tells the heap of each.
fn drop_past<H: GcHeap>(heap: &mut H, roots: &mut Roots, mark: usize)
    requires sound { H.sound heap.old }
    requires can { CanDropRoots H.KIND (H.seen heap.old) roots.old }
    ensures sound { H.sound heap.new }
    ensures held { SameHeld (H.seen heap.old) (H.seen heap.new) }
    ensures keeps { KeepsCollectable H.KIND (H.seen heap.old) (roots_of roots.old) (H.seen heap.new) (roots_of roots.new) }
    ensures roots { roots.new ≡ record roots.old { scoped = take mark roots.old.scoped } }
{
    while let Some(word) = roots.pop_past(mark) {
        drop_word(heap, word);
    }
}

impl<H: GcHeap, D: Drop> HeapOwner<H, D> {
    /// The scoped roots, from the oldest on.
    pub fn scoped(&self) -> &[RootEntry]
        ensures { result.now ≡ self.now.seen.roots.scoped }
    {
        let _heap = &self.heap;
        self.roots.scoped()
    }

    /// The generation of the next scoped root: how many scope ends dropped one.
    pub fn generation(&self) -> u64
        ensures { result ≡ self.now.seen.roots.generation }
    {
        let _heap = &self.heap;
        self.roots.generation()
    }

    /// What a caller that pushes one scoped root gives to `reserve`: 1 where there is room, and else as many as are made room
    /// for at once.
    #[inline(always)]
    pub fn roots_wanted(&self) -> usize
        ensures some { 0 < result }
        ensures room { 0 < self.now.seen.roots.spare → result ≡ 1 }
    {
        let _heap = &self.heap;
        self.roots.roots_wanted()
    }

    /// Makes room: so many scoped roots can then be pushed, which takes no memory. Nothing but a push lowers how many
    /// can. An error is want of memory.
    pub fn reserve(&mut self, additional: usize) -> Result<(), AllocError>
        requires idle { self.old.seen.idle ≡ true }
        ensures spare { Reserves additional self.old.seen.roots.spare self.new.seen.roots.spare result }
        ensures rest { self.new.seen ≡ record self.old.seen { roots = with_room self.new.seen.roots self.old.seen.roots } }
    {
        let _heap = &self.heap;
        self.roots.reserve(additional)
    }

    /// Pushes a scoped root for a copy of a word, for which there is room, and answers its index. Null may
    /// be pushed too.
    #[inline(always)]
    pub fn push(&mut self, word: u32) -> u32
        requires idle { self.old.seen.idle ≡ true }
        requires room { 0 < self.old.seen.roots.spare }
        requires few { length self.old.seen.roots.scoped < 2 ^ 32 }
        requires word { IsWordOf self.old.seen.heap word }
        ensures pushed { self.new.seen ≡ record self.old.seen { heap = raised self.old.seen.heap word; roots = with_scoped word self.old.seen.roots } }
        ensures index { result ≡ length self.old.seen.roots.scoped }
    {
        self.roots.are_few();
        copy_word(&mut self.heap, word);
        self.roots.push(word)
    }

    /// Leaves a scope that was entered with so many scoped roots: those past them are dropped, the newest
    /// first, and the heap is told of each. It takes no memory, and its time is linear in what it drops.
    pub fn leave_scope(&mut self, mark: usize)
        requires idle { self.old.seen.idle ≡ true }
        ensures { ChangesRoots self.old.seen self.new.seen (left_scope mark self.old.seen.roots) }
    {
        if self.roots.scoped().len() <= mark {
            return;
        }
        drop_past(&mut self.heap, &mut self.roots, mark);
        self.roots.end_generation();
    }
}
