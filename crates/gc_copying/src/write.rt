//! Writes to objects.

ghost use Rattle.std.specs.Prelude.{ℕ, ◌≡◌, ◌+◌, ◌≤◌, length, Some};
ghost use Rattle.std.specs.FinMap as finite;
ghost use Rattle.gc_types.specs.declared.kind.Layouts.TheVariants.{Copying};
ghost use Rattle.gc_view.specs.Heaps.{HeapObject};
ghost use Rattle.gc_heap.specs.Heap.{IsWritable, with_data, put_object};
ghost use Rattle.gc_copying.specs.States.{IsSoundSemiSpace, copying_seen_in};

use crate::space::Space;
use gc_refs::VMGcRef;

impl Space {
    /// Writes bytes at an offset of an object, in the part of it that its holder may write.
    #[inline(always)]
    pub(crate) fn write_data(&mut self, gc_ref: &VMGcRef, offset: u32, bytes: &[u8])
        requires sound { IsSoundSemiSpace self.old }
        requires inside { IsWritable Copying (copying_seen_in 0 self.old) gc_ref.now offset (length bytes.now) }
        ensures sound { IsSoundSemiSpace self.new }
        ensures seen { (scopes : ℕ) (object : HeapObject) → finite.get (copying_seen_in 0 self.old).content gc_ref.now ≡ Some object
            → copying_seen_in scopes self.new ≡ put_object (copying_seen_in scopes self.old) gc_ref.now (with_data Copying object offset bytes.now) }
    {
        self.memory
            .write_bytes(gc_ref.as_raw_u32() as usize + offset as usize, bytes);
    }
}
