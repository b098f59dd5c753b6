//! Writes to objects.

ghost use Rattle.std.specs.Prelude.{ℕ, ◌≡◌, ◌+◌, ◌%◌, length, Some, IsOk, IsErr};
ghost use Rattle.std.specs.FinMap as finite;
ghost use Rattle.gc_types.specs.declared.kind.Layouts.TheVariants.{Counting};
ghost use Rattle.gc_refs.specs.Header.{spare_bits};
ghost use Rattle.gc_view.specs.Heaps.{HeapObject};
ghost use Rattle.gc_heap.specs.Heap.{IsWritable, IsSameHeader, with_data, with_spare_of, put_object};
ghost use Rattle.gc_heap.specs.Barriers.{IsNamed};
ghost use Rattle.gc_drc.specs.Content.{IsSoundSpace, counting_seen_in};

use crate::space::CountedSpace;
use gc_heap::RefFault;
use gc_refs::{VMGcHeader, VMGcRef};

/// The spare bits of a kind word below this one are the heap's own.
const OWN_BITS: u32 = 8;

impl CountedSpace {
    /// Writes bytes at an offset of an object, in the part of it that its holder may write.
    #[inline(always)]
    pub(crate) fn write_data(&mut self, gc_ref: &VMGcRef, offset: u32, bytes: &[u8])
        requires sound { IsSoundSpace self.old }
        requires inside { IsWritable Counting (counting_seen_in 0 self.old) gc_ref.now offset (length bytes.now) }
        ensures sound { IsSoundSpace self.new }
        ensures seen { (scopes : ℕ) (object : HeapObject) → finite.get (counting_seen_in 0 self.old).content gc_ref.now ≡ Some object
            → counting_seen_in scopes self.new ≡ put_object (counting_seen_in scopes self.old) gc_ref.now (with_data Counting object offset bytes.now) }
    {
        self.memory
            .write_bytes(gc_ref.as_raw_u32() as usize + offset as usize, bytes);
    }

    /// Sets the header of an object, but for the heap's own bits. Kind and type stay.
    pub(crate) fn set_header(
        &mut self,
        gc_ref: &VMGcRef,
        header: VMGcHeader,
    ) -> Result<(), RefFault>
        requires sound { IsSoundSpace self.old }
        requires named { (scopes : ℕ) × IsNamed (counting_seen_in scopes self.old) gc_ref.now }
        requires same { (object : HeapObject) → finite.get (counting_seen_in 0 self.old).content gc_ref.now ≡ Some object → IsSameHeader object header }
        ensures sound { IsSoundSpace self.new }
        ensures held { (scopes : ℕ) (object : HeapObject) → finite.get (counting_seen_in 0 self.old).content gc_ref.now ≡ Some object
            → IsOk result × (counting_seen_in scopes self.new ≡ put_object (counting_seen_in scopes self.old) gc_ref.now
            (with_spare_of Counting object (header.kind_word % spare_bits))) }
        ensures number { gc_ref.now % 2 ≡ 1 → IsErr result × (self.new ≡ self.old) }
    {
        if gc_ref.is_i31() {
            return Err(RefFault::BadRef);
        }
        let place = gc_ref.as_raw_u32();
        let word = self.kind_word(place);
        let wanted = header.kind_word();
        self.set_kind_word(place, wanted / OWN_BITS * OWN_BITS + word % OWN_BITS);
        Ok(())
    }
}
