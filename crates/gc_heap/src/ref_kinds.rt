//! What the object that a word names is, of any heap.

ghost use Rattle.std.specs.Prelude.{◌≡◌, ◌%◌, Some, None, false};
ghost use Rattle.std.specs.FinMap as finite;
ghost use Rattle.gc_view.specs.Heaps.{HeapObject};
ghost use Rattle.gc_heap.specs.Kinds.{TellsKind};

use crate::heap::GcHeap;
use gc_refs::{
    GcHeapObject, TypedGcRef, VMArrayRef, VMExnRef, VMExternRef, VMGcHeader, VMGcRef, VMStructRef,
};
use gc_types::VMGcKind;

/// Asks a heap what a word is, and makes references of one kind.
///
/// Of a word that is no 31-bit number and names no held object nothing is promised, but that no call
/// fails. The calls whose names end in `_unchecked` ask no heap: their callers know the kind.
pub trait RefKinds: Sized {
    ghost use Rattle.std.specs.Prelude.{ℕ, ◌≡◌, ◌%◌, Some, None, true, false, IsSomeAnd};
    ghost use Rattle.std.specs.FinMap as finite;
    ghost use Rattle.gc_types.specs.declared.kind.VMGcKind.TheVariants.{ExternRef, StructRef, ArrayRef, ExnRef};
    ghost use Rattle.gc_view.specs.Heaps.{HeapObject};
    ghost use Rattle.gc_refs.specs.Words.{IsHeapWord};
    ghost use Rattle.gc_heap.specs.Objects.{IsHeaderOf};
    ghost use Rattle.gc_heap.specs.Kinds.{TellsKind, TellsHeader, IsAny, GivesWhere, TakesWhere};

    /// The word.
    ghost word: { Self → ℕ };

    /// The header of the object; None for a 31-bit number.
    fn gc_header<H: GcHeap>(&self, heap: &H) -> Option<VMGcHeader>
        requires { H.sound heap.now }
        ensures held { (o : HeapObject) → finite.get (H.seen heap.now).content (word self.now) ≡ Some o → IsSomeAnd result (IsHeaderOf H.KIND o) }
        ensures number { word self.now % 2 ≡ 1 → result ≡ None };

    /// Whether the object is a struct; false for a 31-bit number.
    fn is_structref<H: GcHeap>(&self, heap: &H) -> bool
        requires { H.sound heap.now }
        ensures { TellsKind (H.seen heap.now) (word self.now) false (λ kind. kind ≡ StructRef) result };

    /// Whether the object is an array; false for a 31-bit number.
    fn is_arrayref<H: GcHeap>(&self, heap: &H) -> bool
        requires { H.sound heap.now }
        ensures { TellsKind (H.seen heap.now) (word self.now) false (λ kind. kind ≡ ArrayRef) result };

    /// Whether the object is an exception; false for a 31-bit number.
    fn is_exnref<H: GcHeap>(&self, heap: &H) -> bool
        requires { H.sound heap.now }
        ensures { TellsKind (H.seen heap.now) (word self.now) false (λ kind. kind ≡ ExnRef) result };

    /// Whether the object is an external object; false for a 31-bit number.
    fn is_externref<H: GcHeap>(&self, heap: &H) -> bool
        requires { H.sound heap.now }
        ensures { TellsKind (H.seen heap.now) (word self.now) false (λ kind. kind ≡ ExternRef) result };

    /// Whether the word is an external reference: whether its object is an external one.
    fn is_extern_ref<H: GcHeap>(&self, heap: &H) -> bool
        requires { H.sound heap.now }
        ensures { TellsKind (H.seen heap.now) (word self.now) false (λ kind. kind ≡ ExternRef) result };

    /// Whether the word is an any reference: a 31-bit number, a struct or an array.
    fn is_any_ref<H: GcHeap>(&self, heap: &H) -> bool
        requires { H.sound heap.now }
        ensures { TellsKind (H.seen heap.now) (word self.now) true IsAny result };

    /// The reference to a struct; None for a 31-bit number and for an object that is none.
    fn as_structref<H: GcHeap>(&self, heap: &H) -> Option<VMStructRef>
        requires { H.sound heap.now }
        ensures { GivesWhere (TellsKind (H.seen heap.now) (word self.now) false (λ kind. kind ≡ StructRef)) (word self.now) result };

    /// The reference to an array; None for a 31-bit number and for an object that is none.
    fn as_arrayref<H: GcHeap>(&self, heap: &H) -> Option<VMArrayRef>
        requires { H.sound heap.now }
        ensures { GivesWhere (TellsKind (H.seen heap.now) (word self.now) false (λ kind. kind ≡ ArrayRef)) (word self.now) result };

    /// The reference to an exception; None for a 31-bit number and for an object that is none.
    fn as_exnref<H: GcHeap>(&self, heap: &H) -> Option<VMExnRef>
        requires { H.sound heap.now }
        ensures { GivesWhere (TellsKind (H.seen heap.now) (word self.now) false (λ kind. kind ≡ ExnRef)) (word self.now) result };

    /// The reference to an external object; None for a 31-bit number and for an object that is none.
    fn as_externref<H: GcHeap>(&self, heap: &H) -> Option<VMExternRef>
        requires { H.sound heap.now }
        ensures { GivesWhere (TellsKind (H.seen heap.now) (word self.now) false (λ kind. kind ≡ ExternRef)) (word self.now) result };

    /// Turns the word into a reference to a struct; an Err hands it back.
    fn into_structref<H: GcHeap>(self, heap: &H) -> Result<VMStructRef, Self>
        requires { H.sound heap.now }
        ensures { TakesWhere (TellsKind (H.seen heap.now) (word self) false (λ kind. kind ≡ StructRef)) word self result };

    /// Turns the word into a reference to an array; an Err hands it back.
    fn into_arrayref<H: GcHeap>(self, heap: &H) -> Result<VMArrayRef, Self>
        requires { H.sound heap.now }
        ensures { TakesWhere (TellsKind (H.seen heap.now) (word self) false (λ kind. kind ≡ ArrayRef)) word self result };

    /// Turns the word into a reference to an exception; an Err hands it back.
    fn into_exnref<H: GcHeap>(self, heap: &H) -> Result<VMExnRef, Self>
        requires { H.sound heap.now }
        ensures { TakesWhere (TellsKind (H.seen heap.now) (word self) false (λ kind. kind ≡ ExnRef)) word self result };

    /// Turns the word into a reference to an external object; an Err hands it back.
    fn into_externref<H: GcHeap>(self, heap: &H) -> Result<VMExternRef, Self>
        requires { H.sound heap.now }
        ensures { TakesWhere (TellsKind (H.seen heap.now) (word self) false (λ kind. kind ≡ ExternRef)) word self result };

    /// Whether the object is a `T`, as its header tells; false for a 31-bit number.
    fn is_typed<T: GcHeapObject, H: GcHeap>(&self, heap: &H) -> bool
        requires { H.sound heap.now }
        ensures { TellsHeader H.KIND (H.seen heap.now) (word self.now) T.is result };

    /// The reference to a `T`; None for a 31-bit number and for an object that is none.
    fn as_typed<T: GcHeapObject, H: GcHeap>(&self, heap: &H) -> Option<TypedGcRef<T>>
        requires { H.sound heap.now }
        ensures { GivesWhere (TellsHeader H.KIND (H.seen heap.now) (word self.now) T.is) (word self.now) result };

    /// Turns the word into a reference to a `T`; an Err hands it back.
    fn into_typed<T: GcHeapObject, H: GcHeap>(self, heap: &H) -> Result<TypedGcRef<T>, Self>
        requires { H.sound heap.now }
        ensures { TakesWhere (TellsHeader H.KIND (H.seen heap.now) (word self) T.is) word self result };

    /// The reference to the object, whose kind isn't looked at.
    fn as_structref_unchecked(&self) -> VMStructRef
        requires { IsHeapWord (word self.now) }
        ensures { result ≡ word self.now };

    /// The reference to the object, whose kind isn't looked at.
    fn as_arrayref_unchecked(&self) -> VMArrayRef
        requires { IsHeapWord (word self.now) }
        ensures { result ≡ word self.now };

    /// The reference to the object, whose kind isn't looked at.
    fn as_exnref_unchecked(&self) -> VMExnRef
        requires { IsHeapWord (word self.now) }
        ensures { result ≡ word self.now };

    /// The reference to the object, whose header isn't looked at.
    fn as_typed_unchecked<T: GcHeapObject>(&self) -> TypedGcRef<T>
        requires { IsHeapWord (word self.now) }
        ensures { result ≡ word self.now };

    /// Turns the word into a reference to its object, whose kind isn't looked at.
    fn into_structref_unchecked(self) -> VMStructRef
        requires { IsHeapWord (word self) }
        ensures { result ≡ word self };

    /// Turns the word into a reference to its object, whose kind isn't looked at.
    fn into_arrayref_unchecked(self) -> VMArrayRef
        requires { IsHeapWord (word self) }
        ensures { result ≡ word self };

    /// Turns the word into a reference to its object, whose kind isn't looked at.
    fn into_exnref_unchecked(self) -> VMExnRef
        requires { IsHeapWord (word self) }
        ensures { result ≡ word self };

    /// Turns the word into a reference to its object, whose kind isn't looked at.
    fn into_externref_unchecked(self) -> VMExternRef
        requires { IsHeapWord (word self) }
        ensures { result ≡ word self };

    /// Turns the word into a reference to its object, whose header isn't looked at.
    fn into_typed_unchecked<T: GcHeapObject>(self) -> TypedGcRef<T>
        requires { IsHeapWord (word self) }
        ensures { result ≡ word self };
}

/// The kind of the object that a word names; None for a 31-bit number.
fn kind_of<H: GcHeap>(gc_ref: &VMGcRef, heap: &H) -> Option<VMGcKind>
    requires { H.sound heap.now }
    ensures held { (o : HeapObject) → finite.get (H.seen heap.now).content gc_ref.now ≡ Some o → result ≡ Some o.kind }
    ensures number { gc_ref.now % 2 ≡ 1 → result ≡ None }
{
    match heap.header(gc_ref) {
        Ok(header) => header.kind(),
        Err(_) => None,
    }
}

/// Whether the object that a word names is of that kind; false for a 31-bit number.
fn is_kind<H: GcHeap>(gc_ref: &VMGcRef, heap: &H, kind: VMGcKind) -> bool
    requires { H.sound heap.now }
    ensures { TellsKind (H.seen heap.now) gc_ref.now false (λ own. own ≡ kind) result }
{
    kind_of(gc_ref, heap) == Some(kind)
}

impl RefKinds for VMGcRef {
    ghost word = { λ r. r };

    fn gc_header<H: GcHeap>(&self, heap: &H) -> Option<VMGcHeader> {
        heap.header(self).ok()
    }

    fn is_structref<H: GcHeap>(&self, heap: &H) -> bool {
        is_kind(self, heap, VMGcKind::StructRef)
    }

    fn is_arrayref<H: GcHeap>(&self, heap: &H) -> bool {
        is_kind(self, heap, VMGcKind::ArrayRef)
    }

    fn is_exnref<H: GcHeap>(&self, heap: &H) -> bool {
        is_kind(self, heap, VMGcKind::ExnRef)
    }

    fn is_externref<H: GcHeap>(&self, heap: &H) -> bool {
        is_kind(self, heap, VMGcKind::ExternRef)
    }

    fn is_extern_ref<H: GcHeap>(&self, heap: &H) -> bool {
        self.is_externref(heap)
    }

    fn is_any_ref<H: GcHeap>(&self, heap: &H) -> bool {
        match kind_of(self, heap) {
            Some(kind) => kind.matches(VMGcKind::AnyRef),
            None => self.is_i31(),
        }
    }

    fn as_structref<H: GcHeap>(&self, heap: &H) -> Option<VMStructRef> {
        if self.is_structref(heap) {
            Some(VMStructRef::new_unchecked(self.unchecked_copy()))
        } else {
            None
        }
    }

    fn as_arrayref<H: GcHeap>(&self, heap: &H) -> Option<VMArrayRef> {
        if self.is_arrayref(heap) {
            Some(VMArrayRef::new_unchecked(self.unchecked_copy()))
        } else {
            None
        }
    }

    fn as_exnref<H: GcHeap>(&self, heap: &H) -> Option<VMExnRef> {
        if self.is_exnref(heap) {
            Some(VMExnRef::new_unchecked(self.unchecked_copy()))
        } else {
            None
        }
    }

    fn as_externref<H: GcHeap>(&self, heap: &H) -> Option<VMExternRef> {
        if self.is_externref(heap) {
            Some(VMExternRef::new_unchecked(self.unchecked_copy()))
        } else {
            None
        }
    }

    fn into_structref<H: GcHeap>(self, heap: &H) -> Result<VMStructRef, VMGcRef> {
        if self.is_structref(heap) {
            Ok(VMStructRef::new_unchecked(self))
        } else {
            Err(self)
        }
    }

    fn into_arrayref<H: GcHeap>(self, heap: &H) -> Result<VMArrayRef, VMGcRef> {
        if self.is_arrayref(heap) {
            Ok(VMArrayRef::new_unchecked(self))
        } else {
            Err(self)
        }
    }

    fn into_exnref<H: GcHeap>(self, heap: &H) -> Result<VMExnRef, VMGcRef> {
        if self.is_exnref(heap) {
            Ok(VMExnRef::new_unchecked(self))
        } else {
            Err(self)
        }
    }

    fn into_externref<H: GcHeap>(self, heap: &H) -> Result<VMExternRef, VMGcRef> {
        if self.is_externref(heap) {
            Ok(VMExternRef::new_unchecked(self))
        } else {
            Err(self)
        }
    }

    fn is_typed<T: GcHeapObject, H: GcHeap>(&self, heap: &H) -> bool {
        match self.gc_header(heap) {
            Some(header) => T::is(&header),
            None => false,
        }
    }

    fn as_typed<T: GcHeapObject, H: GcHeap>(&self, heap: &H) -> Option<TypedGcRef<T>> {
        if self.is_typed::<T, H>(heap) {
            Some(TypedGcRef::new_unchecked(self.unchecked_copy()))
        } else {
            None
        }
    }

    fn into_typed<T: GcHeapObject, H: GcHeap>(self, heap: &H) -> Result<TypedGcRef<T>, VMGcRef> {
        if self.is_typed::<T, H>(heap) {
            Ok(TypedGcRef::new_unchecked(self))
        } else {
            Err(self)
        }
    }

    fn as_structref_unchecked(&self) -> VMStructRef {
        VMStructRef::new_unchecked(self.unchecked_copy())
    }

    fn as_arrayref_unchecked(&self) -> VMArrayRef {
        VMArrayRef::new_unchecked(self.unchecked_copy())
    }

    fn as_exnref_unchecked(&self) -> VMExnRef {
        VMExnRef::new_unchecked(self.unchecked_copy())
    }

    fn as_typed_unchecked<T: GcHeapObject>(&self) -> TypedGcRef<T> {
        TypedGcRef::new_unchecked(self.unchecked_copy())
    }

    fn into_structref_unchecked(self) -> VMStructRef {
        VMStructRef::new_unchecked(self)
    }

    fn into_arrayref_unchecked(self) -> VMArrayRef {
        VMArrayRef::new_unchecked(self)
    }

    fn into_exnref_unchecked(self) -> VMExnRef {
        VMExnRef::new_unchecked(self)
    }

    fn into_externref_unchecked(self) -> VMExternRef {
        VMExternRef::new_unchecked(self)
    }

    fn into_typed_unchecked<T: GcHeapObject>(self) -> TypedGcRef<T> {
        TypedGcRef::new_unchecked(self)
    }
}
