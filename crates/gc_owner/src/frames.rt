//! Frames and their slots.

ghost use Rattle.std.specs.Prelude.{◌≡◌, ◌↔◌, ◌+◌, true, false, [], length, slice_index_or, IfSome, IsNone, OnOk, OnErr};
ghost use Rattle.gc_heap.specs.Collection.{IsWordOf};
ghost use Rattle.gc_owner.specs.RootColumns.{HasSlot, empty_slot, newest_start, with_frame, with_places, with_slot};
ghost use Rattle.gc_owner.specs.Owners.{ChangesRoots, ClosesFrame};

use crate::barriers::show_word;
use crate::entry::SlotEntry;
use crate::owner::HeapOwner;
use gc_heap::GcHeap;
use std::alloc::AllocError;

impl<H: GcHeap, D: Drop> HeapOwner<H, D> {
    /// Opens a frame of so many slots, each of which holds nothing. An error is want of memory.
    pub fn push_frame(&mut self, slots: u32) -> Result<(), AllocError>
        requires idle { self.old.seen.idle ≡ true }
        ensures ok { OnOk result (self.new.seen ≡ record self.old.seen { roots = with_places self.new.seen.roots (with_frame slots self.old.seen.roots) }) }
        ensures err { OnErr result (self.new.seen ≡ record self.old.seen { roots = with_places self.new.seen.roots self.old.seen.roots }) }
    {
        self.roots.push_frame(slots)
    }

    /// Closes the newest frame, and answers whether there was one. What its slots were shown a heap that
    /// counts may free at a later collection.
    pub fn pop_frame(&mut self) -> bool
        requires idle { self.old.seen.idle ≡ true }
        ensures closed { result ≡ true → ClosesFrame self.old.seen self.new.seen }
        ensures none { result ≡ false → (self.old.seen.roots.frames ≡ []) × (self.new.seen ≡ self.old.seen) }
    {
        self.roots.pop_frame()
    }

    /// How many slots the newest frame has; None exactly where no frame is open.
    pub fn slot_count(&self) -> Option<usize>
        ensures count { IfSome result (λ count. newest_start self.now.seen.roots + count ≡ length self.now.seen.roots.slots) }
        ensures none { IsNone result ↔ (self.now.seen.roots.frames ≡ []) }
    {
        let _heap = &self.heap;
        self.roots.slot_count()
    }

    /// The slots of all open frames, the oldest frame's first.
    pub fn slots(&self) -> &[SlotEntry]
        ensures { result.now ≡ self.now.seen.roots.slots }
    {
        let _heap = &self.heap;
        self.roots.slots()
    }

    /// The slot of that index in the newest frame.
    pub fn slot(&self, index: u32) -> SlotEntry
        requires { HasSlot self.now.seen.roots index }
        ensures { result ≡ slice_index_or self.now.seen.roots.slots (newest_start self.now.seen.roots + index) empty_slot }
    {
        let _heap = &self.heap;
        self.roots.slot(index)
    }

    /// Overwrites the slot of that index in the newest frame with a copy of a word, which is shown to the
    /// frame, or with null. What it held is told to nobody.
    pub fn set_slot(&mut self, index: u32, entry: SlotEntry)
        requires idle { self.old.seen.idle ≡ true }
        requires slot { HasSlot self.old.seen.roots index }
        requires word { IsWordOf self.old.seen.heap entry.word }
        ensures { ChangesRoots self.old.seen self.new.seen (with_slot index entry self.old.seen.roots) }
    {
        self.roots.are_few();
        show_word(&mut self.heap, entry.word);
        self.roots.set_slot(index, entry);
    }
}
