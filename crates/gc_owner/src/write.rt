//! Writes to held objects.

ghost use Rattle.std.specs.Prelude.{◌≡◌, true, length};
ghost use Rattle.gc_heap.specs.Collection.{IsWordOf};
ghost use Rattle.gc_owner.specs.Writes.{IsNumberPlace, IsReferencePlace, WritesBytes, WritesWord};

use crate::barriers::overwrite_word;
use crate::owner::HeapOwner;
use gc_heap::GcHeap;
use gc_heap::access::{read_u32, write_u32};
use gc_refs::VMGcRef;

impl<H: GcHeap, D: Drop> HeapOwner<H, D> {
    /// Writes bytes to a held object, at an offset from its beginning, where no reference lies.
    #[inline(always)]
    pub fn write_number(&mut self, holder: &VMGcRef, offset: u32, bytes: &[u8])
        requires idle { self.old.seen.idle ≡ true }
        requires inside { IsNumberPlace H.KIND self.old.seen holder.now offset (length bytes.now) }
        ensures { WritesBytes H.KIND self.old.seen self.new.seen holder.now offset bytes.now }
    {
        self.heap.write_object_data(holder, offset, bytes);
    }

    /// Overwrites a reference of a held object, at an offset from its beginning, with a copy of a word or
    /// with null, by the heap's barrier.
    #[inline(always)]
    pub fn write_reference(&mut self, holder: &VMGcRef, offset: u32, word: u32)
        requires idle { self.old.seen.idle ≡ true }
        requires lies { IsReferencePlace H.KIND self.old.seen holder.now offset }
        requires word { IsWordOf self.old.seen.heap word }
        ensures { WritesWord H.KIND self.old.seen self.new.seen holder.now offset word }
    {
        self.roots.are_few();
        let old_word = read_u32(&self.heap, holder, offset);
        overwrite_word(&mut self.heap, old_word, word);
        write_u32(&mut self.heap, holder, offset, word);
    }
}
