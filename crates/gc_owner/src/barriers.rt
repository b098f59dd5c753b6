//! The barriers of a heap, for words that may be null.

ghost use Rattle.std.specs.Prelude.{◌≡◌};
ghost use Rattle.gc_heap.specs.Content.{IsHeap};
ghost use Rattle.gc_owner.specs.Owners.{raised, lowered, CanCopyWord, CanDropWord};
ghost use Rattle.gc_owner.specs.ShownWords.{copied_to_slot};

use gc_heap::GcHeap;
use gc_refs::VMGcRef;

/// A word is copied; null is no name.
pub(crate) fn copy_word<H: GcHeap>(heap: &mut H, word: u32)
    requires sound { H.sound heap.old }
    requires can { CanCopyWord (H.seen heap.old) word }
    ensures sound { H.sound heap.new }
    ensures seen { H.seen heap.new ≡ raised (H.seen heap.old) word }
{
    match VMGcRef::from_raw_u32(word) {
        Some(gc_ref) => {
            let _copy = heap.clone_gc_ref(&gc_ref).as_raw_u32();
        }
        None => {}
    }
}

/// A word is given up; null is no name.
pub(crate) fn drop_word<H: GcHeap>(heap: &mut H, word: u32)
    requires sound { H.sound heap.old }
    requires can { CanDropWord (H.seen heap.old) word }
    ensures sound { H.sound heap.new }
    ensures seen { H.seen heap.new ≡ lowered (H.seen heap.old) word }
{
    match VMGcRef::from_raw_u32(word) {
        Some(gc_ref) => heap.drop_gc_ref(gc_ref),
        None => {}
    }
}

/// A word is copied, and the copy shown to a frame slot; null is no name.
pub(crate) fn show_word<H: GcHeap>(heap: &mut H, word: u32)
    requires sound { H.sound heap.old }
    requires can { CanCopyWord (H.seen heap.old) word }
    ensures sound { H.sound heap.new }
    ensures copied { IsHeap H.KIND (raised (H.seen heap.old) word) }
    ensures seen { H.seen heap.new ≡ copied_to_slot (H.seen heap.old) word }
{
    match VMGcRef::from_raw_u32(word) {
        Some(gc_ref) => {
            let copy = heap.clone_gc_ref(&gc_ref);
            heap.expose_gc_ref_to_wasm(copy);
        }
        None => {}
    }
}

/// A slot that holds the old word takes a copy of the new one.
pub(crate) fn overwrite_word<H: GcHeap>(heap: &mut H, old_word: u32, new_word: u32)
    requires sound { H.sound heap.old }
    requires copies { CanCopyWord (H.seen heap.old) new_word }
    requires drops { CanDropWord (H.seen heap.old) old_word }
    ensures sound { H.sound heap.new }
    ensures seen { H.seen heap.new ≡ lowered (raised (H.seen heap.old) new_word) old_word }
{
    let mut slot = VMGcRef::from_raw_u32(old_word);
    let source = VMGcRef::from_raw_u32(new_word);
    heap.write_gc_ref(&mut slot, source.as_ref());
}
