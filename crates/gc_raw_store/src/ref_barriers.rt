//! The barriers of typed references.

use crate::store::GcStore;
use gc_heap::GcHeap;
use gc_refs::{TypedGcRef, VMArrayRef, VMExnRef, VMExternRef, VMGcRef, VMStructRef};

/// A reference to an object of one kind, which is copied and given up by way of the heap that holds the object.
pub trait RefBarriers: Sized {
    ghost use Rattle.std.specs.Prelude.{ℕ, ◌≡◌};
    ghost use Rattle.gc_heap.specs.Barriers.{CanName, CanUnname, cloned, dropped};

    /// The word.
    ghost word: { Self → ℕ };

    /// The same reference once more. A heap that counts references counts it.
    fn clone<H: GcHeap, D: Drop>(&self, store: &mut GcStore<H, D>) -> Self
        requires named { CanName store.old.heap (word self.now) }
        ensures value { word result ≡ word self.now }
        ensures store { store.new ≡ record store.old { heap = cloned store.old.heap (word self.now) } };

    /// The reference is given up. A heap that counts references takes it off.
    fn drop<H: GcHeap, D: Drop>(self, store: &mut GcStore<H, D>)
        requires named { CanUnname store.old.heap (word self) }
        ensures store { store.new ≡ record store.old { heap = dropped store.old.heap (word self) } };
}

impl RefBarriers for VMStructRef {
    ghost word = { λ r. r };

    fn clone<H: GcHeap, D: Drop>(&self, store: &mut GcStore<H, D>) -> VMStructRef {
        VMStructRef::new_unchecked(store.clone_gc_ref(self.as_gc_ref()))
    }

    fn drop<H: GcHeap, D: Drop>(self, store: &mut GcStore<H, D>) {
        store.drop_gc_ref(VMGcRef::from(self))
    }
}

impl RefBarriers for VMArrayRef {
    ghost word = { λ r. r };

    fn clone<H: GcHeap, D: Drop>(&self, store: &mut GcStore<H, D>) -> VMArrayRef {
        VMArrayRef::new_unchecked(store.clone_gc_ref(self.as_gc_ref()))
    }

    fn drop<H: GcHeap, D: Drop>(self, store: &mut GcStore<H, D>) {
        store.drop_gc_ref(VMGcRef::from(self))
    }
}

impl RefBarriers for VMExnRef {
    ghost word = { λ r. r };

    fn clone<H: GcHeap, D: Drop>(&self, store: &mut GcStore<H, D>) -> VMExnRef {
        VMExnRef::new_unchecked(store.clone_gc_ref(self.as_gc_ref()))
    }

    fn drop<H: GcHeap, D: Drop>(self, store: &mut GcStore<H, D>) {
        store.drop_gc_ref(VMGcRef::from(self))
    }
}

impl RefBarriers for VMExternRef {
    ghost word = { λ r. r };

    fn clone<H: GcHeap, D: Drop>(&self, store: &mut GcStore<H, D>) -> VMExternRef {
        VMExternRef::new_unchecked(store.clone_gc_ref(self.as_gc_ref()))
    }

    fn drop<H: GcHeap, D: Drop>(self, store: &mut GcStore<H, D>) {
        store.drop_gc_ref(VMGcRef::from(self))
    }
}

impl<T> RefBarriers for TypedGcRef<T> {
    ghost word = { λ r. r };

    fn clone<H: GcHeap, D: Drop>(&self, store: &mut GcStore<H, D>) -> TypedGcRef<T> {
        TypedGcRef::new_unchecked(store.clone_gc_ref(self.as_untyped()))
    }

    fn drop<H: GcHeap, D: Drop>(self, store: &mut GcStore<H, D>) {
        store.drop_gc_ref(VMGcRef::from(self))
    }
}
