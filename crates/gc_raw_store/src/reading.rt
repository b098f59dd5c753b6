//! What the object of a word is. A call that only reads leaves all as it is, and is safe for every word.

ghost use Rattle.std.specs.Prelude.{◌≡◌, ◌%◌, IsErr, IsOkAnd, Some};
ghost use Rattle.std.specs.FinMap as finite;
ghost use Rattle.gc_types.specs.declared.kind.VMGcKind.TheVariants.{ArrayRef};
ghost use Rattle.gc_view.specs.Heaps.{HeapObject};
ghost use Rattle.gc_heap.specs.Objects.{array_length, IsHeaderOf, IsObjectData};

use crate::store::GcStore;
use gc_heap::GcHeap;
use gc_refs::{RefFault, VMArrayRef, VMGcHeader, VMGcObjectData, VMGcRef};
use gc_types::VMGcKind;

impl<H: GcHeap, D: Drop> GcStore<H, D> {
    /// The kind of an object, as its header tells it. `BadRef` always for a 31-bit number, and else only for a
    /// word that names no object.
    pub fn kind(&self, r: &VMGcRef) -> Result<VMGcKind, RefFault>
        ensures held { (o : HeapObject) → finite.get self.now.heap.content r.now ≡ Some o → IsOkAnd result (λ kind. kind ≡ o.kind) }
        ensures number { r.now % 2 ≡ 1 → IsErr result }
    {
        match self.header(r) {
            Ok(header) => match header.kind() {
                Some(kind) => Ok(kind),
                None => Err(RefFault::BadRef),
            },
            Err(fault) => Err(fault),
        }
    }

    /// The header of an object. `BadRef` as in `kind`.
    pub fn header(&self, r: &VMGcRef) -> Result<VMGcHeader, RefFault>
        ensures held { (o : HeapObject) → finite.get self.now.heap.content r.now ≡ Some o → IsOkAnd result (IsHeaderOf H.KIND o) }
        ensures number { r.now % 2 ≡ 1 → IsErr result }
    {
        self.heap.header(r)
    }

    /// The length of an array. `BadRef` always for a 31-bit number, and else only for a word that names no
    /// array.
    pub fn array_len(&self, r: &VMArrayRef) -> Result<u32, RefFault>
        ensures held { (o : HeapObject) → finite.get self.now.heap.content r.now ≡ Some o → o.kind ≡ ArrayRef
            → IsOkAnd result (λ count. count ≡ array_length o) }
        ensures number { r.now % 2 ≡ 1 → IsErr result }
    {
        self.heap.array_len(r)
    }

    /// Lends all bytes of an object, its header and the heap's own words among them, for reading. `BadRef` as in
    /// `kind`.
    pub fn gc_object_data(&self, r: &VMGcRef) -> Result<VMGcObjectData<'_>, RefFault>
        ensures held { (o : HeapObject) → finite.get self.now.heap.content r.now ≡ Some o → IsOkAnd result (IsObjectData H.KIND o) }
        ensures number { r.now % 2 ≡ 1 → IsErr result }
    {
        self.heap.gc_object_data(r)
    }
}
