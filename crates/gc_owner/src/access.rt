//! What the owner lends for reading.

ghost use Rattle.std.specs.Prelude.{◌≡◌, length, true, false};
ghost use Rattle.gc_heap.specs.Content.{IsHeap};
ghost use Rattle.gc_owner.specs.RootColumns.{AreFrames};
ghost use Rattle.gc_owner.specs.Owners.{CanBegin};

use crate::owner::HeapOwner;
use gc_heap::GcHeap;
use gc_tables::ExternRefHostDataTable;
use gc_types::Types;

impl<H: GcHeap, D: Drop> HeapOwner<H, D> {
    /// What is always true of an owner whose collections are complete. At run time it does nothing.
    pub fn is_ready(&self)
        requires idle { self.now.seen.idle ≡ true }
        ensures heap { IsHeap H.KIND self.now.seen.heap }
        ensures can { CanBegin H.KIND self.now.seen }
        ensures unused { self.now.seen.heap.attached ≡ false → self.now.seen.last ≡ 0 }
        ensures frames { AreFrames self.now.seen.roots.frames (length self.now.seen.roots.slots) }
    {
        self.roots.are_few();
    }

    /// The heap, for reading.
    pub fn heap(&self) -> &H
        requires idle { self.now.seen.idle ≡ true }
        ensures seen { H.seen result.now ≡ self.now.seen.heap }
        ensures sound { H.sound result.now }
    {
        &self.heap
    }

    /// Whether the heap has its memory.
    pub fn is_made(&self) -> bool
        requires idle { self.now.seen.idle ≡ true }
        ensures { result ≡ self.now.seen.heap.attached }
    {
        self.heap.is_attached()
    }

    /// The bytes that were allocated after the last collection; 0 before the first.
    pub fn last(&self) -> usize
        ensures { result ≡ self.now.seen.last }
    {
        let _heap = &self.heap;
        self.last
    }

    /// The types.
    pub fn types(&self) -> &Types
        ensures { result.now ≡ self.now.seen.types }
    {
        let _heap = &self.heap;
        &self.types
    }

    /// The host values.
    pub fn hosts(&self) -> &ExternRefHostDataTable<D>
        ensures { result.now.entries ≡ self.now.seen.hosts }
    {
        let _heap = &self.heap;
        &self.hosts
    }
}
