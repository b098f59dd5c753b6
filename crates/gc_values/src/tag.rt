//! The tag of an exception, whose two words lie in front of its fields.

ghost use Rattle.std.specs.Prelude.{◌≡◌, ◌+◌, ◌^◌, ◌<◌, ◌≤◌, ℕ, List, true};
ghost use Rattle.std.specs.Int.{w32, to_le_bytes};
ghost use Rattle.gc_types.specs.Layouts.{struct_base};
ghost use Rattle.gc_owner.specs.Writes.{WritesBytes};
ghost use Rattle.gc_values.specs.Filling.{RewritesTo};
ghost use Rattle.gc_values.specs.Tagging.{IsExceptionAt, IsTagged};

use gc_heap::GcHeap;
use gc_owner::HeapOwner;
use gc_refs::VMGcRef;
use gc_types::Tag;

/// Writes one of the words in front of an exception's fields.
fn write_front<H: GcHeap, D: Drop>(
    owner: &mut HeapOwner<H, D>,
    gc_ref: &VMGcRef,
    at: u32,
    word: u32,
)
    requires idle { owner.old.seen.idle ≡ true }
    requires held { IsExceptionAt owner.old.seen gc_ref.now }
    requires inside { at ≤ 4 }
    ensures writes { WritesBytes H.KIND owner.old.seen owner.new.seen gc_ref.now (struct_base H.KIND + at) (to_le_bytes w32 word) }
    ensures small { word < 2 ^ 32 }
{
    owner.is_ready();
    let base = H::KIND.struct_base();
    owner.write_number(gc_ref, base + at, &word.to_le_bytes());
}

/// Gives an exception its tag.
pub(crate) fn write_tag<H: GcHeap, D: Drop>(owner: &mut HeapOwner<H, D>, gc_ref: &VMGcRef, tag: Tag)
    requires idle { owner.old.seen.idle ≡ true }
    requires held { IsExceptionAt owner.old.seen gc_ref.now }
    ensures { (e : IsExceptionAt owner.old.seen gc_ref.now) → (bytes : List ℕ)
        × RewritesTo (IsTagged tag) owner.old.seen owner.new.seen gc_ref.now e.object bytes }
{
    owner.is_ready();
    write_front(owner, gc_ref, 0, tag.instance);
    write_front(owner, gc_ref, 4, tag.index);
}
