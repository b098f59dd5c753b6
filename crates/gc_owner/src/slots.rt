//! Globals and the pending exception.

ghost use Rattle.std.specs.Prelude.{◌≡◌, ◌<◌, true, slice_index_or};
ghost use Rattle.gc_heap.specs.Collection.{IsWordOf};
ghost use Rattle.gc_owner.specs.RootColumns.{global_count, empty_slot, with_global};
ghost use Rattle.gc_owner.specs.Owners.{ChangesRoots};

use crate::barriers::overwrite_word;
use crate::entry::SlotEntry;
use crate::owner::HeapOwner;
use gc_heap::GcHeap;

/// How many globals there are.
pub const GLOBAL_COUNT: u32 = 16;

impl<H: GcHeap, D: Drop> HeapOwner<H, D> {
    /// The global of that index.
    pub fn global(&self, index: u32) -> SlotEntry
        requires { index < global_count }
        ensures { result ≡ slice_index_or self.now.seen.roots.globals index empty_slot }
    {
        let _heap = &self.heap;
        self.roots.global(index)
    }

    /// Overwrites a global with a copy of a word, or with null, by the heap's barrier.
    pub fn set_global(&mut self, index: u32, entry: SlotEntry)
        requires idle { self.old.seen.idle ≡ true }
        requires index { index < global_count }
        requires word { IsWordOf self.old.seen.heap entry.word }
        ensures { ChangesRoots self.old.seen self.new.seen (with_global index entry self.old.seen.roots) }
    {
        self.roots.are_few();
        let old_word = self.roots.global(index).word;
        overwrite_word(&mut self.heap, old_word, entry.word);
        self.roots.set_global(index, entry);
    }

    /// The word of the pending exception; 0 where there is none.
    pub fn pending(&self) -> u32
        ensures { result ≡ self.now.seen.roots.pending }
    {
        let _heap = &self.heap;
        self.roots.pending()
    }

    /// Puts a copy of a word in the place of the pending exception, or none with 0.
    pub fn set_pending(&mut self, word: u32)
        requires idle { self.old.seen.idle ≡ true }
        requires word { IsWordOf self.old.seen.heap word }
        ensures { ChangesRoots self.old.seen self.new.seen (record self.old.seen.roots { pending = word }) }
    {
        self.roots.are_few();
        let old_word = self.roots.pending();
        overwrite_word(&mut self.heap, old_word, word);
        self.roots.set_pending(word);
    }
}
