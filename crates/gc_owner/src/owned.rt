//! Owned roots.

ghost use Rattle.std.specs.Prelude.{◌≡◌, ◌-◌, ◌<◌, ◌^◌, true, length, OnOk, OnErr};
ghost use Rattle.gc_view.specs.Heaps.{SameHeld};
ghost use Rattle.gc_heap.specs.Collection.{IsWordOf};
ghost use Rattle.gc_owner.specs.RootColumns.{roots_of, with_places, with_handle_count, without_unheld};
ghost use Rattle.gc_owner.specs.Owners.{OwnsRoot, CanDropWord, Trims};
ghost use Rattle.gc_owner.specs.DroppedRoots.{CanDropRoots, released};
ghost use Rattle.gc_owner.specs.Tracing.{KeepsCollectable};

use crate::barriers::{copy_word, drop_word};
use crate::entry::OwnedEntry;
use crate::owner::HeapOwner;
use crate::roots::Roots;
use gc_heap::GcHeap;
use std::alloc::AllocError;

/// Tells the heap that a word is given up, if its owned root has no handles.
fn release<H: GcHeap>(heap: &mut H, entry: &OwnedEntry)
    requires sound { H.sound heap.old }
    requires can { entry.now.handles ≡ 0 → CanDropWord (H.seen heap.old) entry.now.word }
    ensures sound { H.sound heap.new }
    ensures seen { H.seen heap.new ≡ released (H.seen heap.old) entry.now }
{
    if entry.handles == 0 {
        drop_word(heap, entry.word);
    }
}

/// Tells the heap of each owned root without handles that its word is given up.
fn drop_unheld<H: GcHeap>(heap: &mut H, roots: &Roots)
    requires sound { H.sound heap.old }
    requires can { CanDropRoots H.KIND (H.seen heap.old) roots.now }
    ensures sound { H.sound heap.new }
    ensures held { SameHeld (H.seen heap.old) (H.seen heap.new) }
    ensures keeps { KeepsCollectable H.KIND (H.seen heap.old) (roots_of roots.now) (H.seen heap.new) (roots_of (without_unheld roots.now)) }
{
    let entries = roots.owned();
    for entry in entries {
        release(heap, entry);
    }
}

impl<H: GcHeap, D: Drop> HeapOwner<H, D> {
    /// The owned roots, in their order; those without handles stand until the next trim.
    pub fn owned(&self) -> &[OwnedEntry]
        ensures { result.now ≡ self.now.seen.roots.owned }
    {
        let _heap = &self.heap;
        self.roots.owned()
    }

    /// How many owned roots were made.
    pub fn owns(&self) -> u64
        ensures { result ≡ self.now.seen.roots.owns }
    {
        let _heap = &self.heap;
        self.roots.owns()
    }

    /// Adds an owned root for a copy of a word, which is the last one and has one handle. Its number is how many
    /// were made before it. An error is want of memory.
    pub fn own(&mut self, word: u32) -> Result<(), AllocError>
        requires idle { self.old.seen.idle ≡ true }
        requires few { length self.old.seen.roots.owned < 2 ^ 32 }
        requires numbered { self.old.seen.roots.owns < 2 ^ 64 - 1 }
        requires word { IsWordOf self.old.seen.heap word }
        ensures ok { OnOk result (OwnsRoot self.old.seen self.new.seen word) }
        ensures err { OnErr result (self.new.seen ≡ record self.old.seen { roots = with_places self.new.seen.roots self.old.seen.roots }) }
    {
        self.roots.are_few();
        self.roots.own(word)?;
        copy_word(&mut self.heap, word);
        Ok(())
    }

    /// Sets how many handles an owned root has, by its place in the list.
    pub fn set_handles(&mut self, index: usize, handles: u32)
        requires idle { self.old.seen.idle ≡ true }
        requires index { index < length self.old.seen.roots.owned }
        ensures { self.new.seen ≡ record self.old.seen { roots = with_handle_count index handles self.old.seen.roots } }
    {
        self.roots.set_handles(index, handles);
    }

    /// Drops the owned roots without handles; the others stay in order. Each collection begins so. Its time is
    /// linear in the owned roots.
    pub fn trim(&mut self)
        requires idle { self.old.seen.idle ≡ true }
        ensures { Trims H.KIND self.old.seen self.new.seen }
    {
        drop_unheld(&mut self.heap, &self.roots);
        self.roots.forget_unheld();
    }
}
