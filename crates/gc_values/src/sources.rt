//! Where the values of a new object come from.

use crate::interned::InternedValues;
use crate::root::RawValue;
use crate::slot::Slot;
use crate::stored::write_value;
use gc_heap::GcHeap;
use gc_owner::HeapOwner;
use gc_refs::VMGcRef;

/// The values of a new object's fields or elements, in order, wherever and in whatever form a caller has them. Each is written
/// from where it stands.
pub trait ValueSource {
    ghost use Rattle.std.specs.Prelude.{◌≡◌, List, Some, true, length, slice_get};
    ghost use Rattle.gc_values.specs.declared.root.RawValue.{RawValue};
    ghost use Rattle.gc_values.specs.HeldSlots.{CanWriteKept, WritesKept, storage_slot};
    ghost use Rattle.gc_values.specs.Interning.{ids_of};
    ghost use Rattle.gc_values.specs.RawValues.{raw_side_values};

    /// The values.
    ghost given: { Self → List RawValue };

    /// How many there are.
    fn count(&self) -> usize
        ensures { result ≡ length (given self.now) };

    /// Values whose function values and continuations are those of these, in the order of each kind. Numbers and references
    /// may be among them.
    fn side_values(&self) -> &[RawValue]
        ensures { raw_side_values result.now ≡ raw_side_values (given self.now) };

    /// Writes what is kept of the value at that index to a slot of a held object, as `write_value` does.
    fn write_at<H: GcHeap, D: Drop>(
        &self,
        owner: &mut HeapOwner<H, D>,
        interned: &InternedValues,
        gc_ref: &VMGcRef,
        slot: &Slot,
        index: usize,
    )
        requires idle { owner.old.seen.idle ≡ true }
        requires can { (r : RawValue) × ((slice_get (given self.now) index ≡ Some r)
            × CanWriteKept H.KIND (ids_of interned.now) owner.old.seen gc_ref.now (storage_slot slot.now) r) }
        ensures { (r : RawValue) → slice_get (given self.now) index ≡ Some r
            → WritesKept H.KIND (ids_of interned.now) owner.old.seen owner.new.seen gc_ref.now (storage_slot slot.now) r };
}

impl ValueSource for &[RawValue] {
    ghost given = { λ values. values.now };

    #[inline(always)]
    fn count(&self) -> usize {
        self.len()
    }

    #[inline(always)]
    fn side_values(&self) -> &[RawValue] {
        self
    }

    #[inline(always)]
    fn write_at<H: GcHeap, D: Drop>(
        &self,
        owner: &mut HeapOwner<H, D>,
        interned: &InternedValues,
        gc_ref: &VMGcRef,
        slot: &Slot,
        index: usize,
    ) {
        write_value(owner, interned, gc_ref, slot, &self[index]);
    }
}
