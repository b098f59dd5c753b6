//! The bytes of arrays of small integers.

ghost use Rattle.std.specs.Prelude.{◌≡◌, Some, length};
ghost use Rattle.std.specs.FinMap as finite;
ghost use Rattle.gc_view.specs.Heaps.{HeapObject};
ghost use Rattle.gc_heap.specs.Access.{IsReadable, data_part};
ghost use Rattle.gc_model.specs.Table.{Table};
ghost use Rattle.gc_model.specs.Holds.{HoldsTable};
ghost use Rattle.gc_store.specs.Bytes.{CanCopyBytes, CopiesBytes};

use crate::store::Store;
use gc_heap::GcHeap;
use gc_refs::VMGcRef;
use gc_values::root::GcRootIndex;
use gc_values::slot::slot_in;

/// Copies as many bytes as there is room for from an offset of a held object.
fn copy_data<H: GcHeap>(heap: &H, gc_ref: &VMGcRef, offset: u32, dst: &mut [u8])
    requires sound { H.sound heap.now }
    requires inside { IsReadable H.KIND (H.seen heap.now) gc_ref.now offset (length dst.old) }
    ensures { (o : HeapObject) → finite.get (H.seen heap.now).content gc_ref.now ≡ Some o → dst.new ≡ data_part H.KIND o offset (length dst.old) }
{
    let object = heap.gc_object_data(gc_ref).unwrap();
    let bytes = object.slice(offset, dst.len() as u32).unwrap();
    dst.copy_from_slice(bytes);
}

impl<H: GcHeap, D: Drop> Store<H, D> {
    /// Copies the elements of the array of bytes that the handle names, of which there are as many as there is room for.
    pub fn copy_bytes(&self, r: GcRootIndex, dst: &mut [u8])
        requires { CanCopyBytes D H.KIND self.now r (length dst.old) }
        ensures { (t : Table D) → HoldsTable H.KIND self.now t → CopiesBytes self.now t r dst.new }
    {
        self.owner.is_ready();
        match self.word_of(r) {
            Ok(word) => {
                let gc_ref = VMGcRef::from_raw_u32(word).unwrap();
                let first = slot_in(self.owner.heap(), self.owner.types(), &gc_ref, 0);
                copy_data(self.owner.heap(), &gc_ref, first.offset, dst);
            }
            Err(_) => unreachable!(),
        }
    }
}
