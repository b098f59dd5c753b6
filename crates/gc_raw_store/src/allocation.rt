//! New objects, and objects that are given back unused. The inner Err of an allocation is the number of bytes
//! that the heap would have to grow by; it and a fault leave all as it was.

ghost use Rattle.std.specs.Prelude.{◌≡◌, ◌≤◌, ◌%◌, true, false, Some};
ghost use Rattle.std.specs.FinMap as finite;
ghost use Rattle.gc_types.specs.declared.kind.VMGcKind.{VMGcKind};
ghost use Rattle.gc_types.specs.Layouts.{array_base};
ghost use Rattle.gc_refs.specs.Header.{IsOfKind, spare_bits};
ghost use Rattle.gc_view.specs.Heaps.{HeapObject};
ghost use Rattle.gc_heap.specs.Objects.{first_offset, zeroed};
ghost use Rattle.gc_heap.specs.Rules.{LayoutTraces, ArrayTraces};
ghost use Rattle.gc_heap.specs.Heap.{Allocated, CanAllocate, CanGiveBack, IsArrayKind, IsStructOrExn, array_size, given_back, layout_kind, new_array, new_struct};

use crate::store::GcStore;
use gc_heap::{GcHeap, HeapFault};
use gc_refs::{VMArrayRef, VMExnRef, VMGcHeader, VMGcRef, VMStructRef};
use gc_types::{GcArrayLayout, GcStructLayout, VMSharedTypeIndex};

impl<H: GcHeap, D: Drop> GcStore<H, D> {
    /// Allocates a struct, an array or an exception of `size` bytes with that header, whose data is 0.
    pub fn alloc_raw(
        &mut self,
        header: VMGcHeader,
        size: u32,
    ) -> Result<Result<VMGcRef, u64>, HeapFault>
        requires fits { CanAllocate H.KIND header size }
        ensures allocated { (kind : VMGcKind) → IsOfKind kind header.kind_word
            → Allocated H.KIND self.old.heap self.new.heap (zeroed H.KIND kind header.type_word (header.kind_word % spare_bits) size) size result }
        ensures hosts { self.new.hosts ≡ self.old.hosts }
    {
        self.heap.alloc_raw(header, size)
    }

    /// Allocates a struct, whose fields are 0.
    pub fn alloc_uninit_struct(
        &mut self,
        ty: VMSharedTypeIndex,
        layout: &GcStructLayout,
    ) -> Result<Result<VMStructRef, u64>, HeapFault>
        requires kind { layout.now.is_exception ≡ false }
        requires size { first_offset H.KIND (layout_kind layout.now) ≤ layout.now.size }
        requires traces { LayoutTraces H.KIND layout.now (first_offset H.KIND (layout_kind layout.now)) }
        ensures allocated { Allocated H.KIND self.old.heap self.new.heap (new_struct H.KIND ty layout.now) layout.now.size result }
        ensures hosts { self.new.hosts ≡ self.old.hosts }
    {
        match self.heap.alloc_uninit_struct_or_exn(ty, layout) {
            Ok(Ok(object)) => Ok(Ok(VMStructRef::new_unchecked(object))),
            Ok(Err(need)) => Ok(Err(need)),
            Err(fault) => Err(fault),
        }
    }

    /// Gives back a struct that nothing names, as one that was just allocated and will not be used. A heap that
    /// counts references frees it; what its fields name is not told.
    pub fn dealloc_uninit_struct(&mut self, r: VMStructRef)
        requires held { CanGiveBack self.old.heap r IsStructOrExn }
        ensures { (o : HeapObject) → finite.get self.old.heap.content r ≡ Some o
            → self.new ≡ record self.old { heap = given_back H.KIND self.old.heap r o } }
    {
        self.heap.dealloc_uninit_struct_or_exn(VMGcRef::from(r))
    }

    /// Allocates an array of that length, whose elements are 0.
    pub fn alloc_uninit_array(
        &mut self,
        ty: VMSharedTypeIndex,
        length: u32,
        layout: &GcArrayLayout,
    ) -> Result<Result<VMArrayRef, u64>, HeapFault>
        requires size { array_base H.KIND ≤ layout.now.base_size }
        requires traces { ArrayTraces H.KIND layout.now }
        ensures allocated { Allocated H.KIND self.old.heap self.new.heap (new_array H.KIND ty length layout.now) (array_size layout.now length) result }
        ensures hosts { self.new.hosts ≡ self.old.hosts }
    {
        self.heap.alloc_uninit_array(ty, length, layout)
    }

    /// Gives back an array that nothing names, as `dealloc_uninit_struct` does a struct.
    pub fn dealloc_uninit_array(&mut self, array: VMArrayRef)
        requires held { CanGiveBack self.old.heap array IsArrayKind }
        ensures { (o : HeapObject) → finite.get self.old.heap.content array ≡ Some o
            → self.new ≡ record self.old { heap = given_back H.KIND self.old.heap array o } }
    {
        self.heap.dealloc_uninit_array(array)
    }

    /// Allocates an exception, whose fields, instance and tag are 0.
    pub fn alloc_uninit_exn(
        &mut self,
        ty: VMSharedTypeIndex,
        layout: &GcStructLayout,
    ) -> Result<Result<VMExnRef, u64>, HeapFault>
        requires kind { layout.now.is_exception ≡ true }
        requires size { first_offset H.KIND (layout_kind layout.now) ≤ layout.now.size }
        requires traces { LayoutTraces H.KIND layout.now (first_offset H.KIND (layout_kind layout.now)) }
        ensures allocated { Allocated H.KIND self.old.heap self.new.heap (new_struct H.KIND ty layout.now) layout.now.size result }
        ensures hosts { self.new.hosts ≡ self.old.hosts }
    {
        match self.heap.alloc_uninit_struct_or_exn(ty, layout) {
            Ok(Ok(object)) => Ok(Ok(VMExnRef::new_unchecked(object))),
            Ok(Err(need)) => Ok(Err(need)),
            Err(fault) => Err(fault),
        }
    }

    /// Gives back an exception that nothing names, as `dealloc_uninit_struct` does a struct.
    pub fn dealloc_uninit_exn(&mut self, r: VMExnRef)
        requires held { CanGiveBack self.old.heap r IsStructOrExn }
        ensures { (o : HeapObject) → finite.get self.old.heap.content r ≡ Some o
            → self.new ≡ record self.old { heap = given_back H.KIND self.old.heap r o } }
    {
        self.heap.dealloc_uninit_struct_or_exn(VMGcRef::from(r))
    }
}
