//! References whose objects a type of their own tells apart.

ghost use Rattle.std.specs.Prelude.{◌≡◌};

use crate::header::VMGcHeader;
use crate::word::VMGcRef;
use std::marker::{Model, PhantomData};

/// What an object of a heap can be taken for, as its header tells.
pub trait GcHeapObject {
    ghost use Rattle.std.specs.Prelude.{Bool};
    ghost use Rattle.gc_refs.specs.Header.{Header};

    ghost is: { Header → Bool };

    /// Whether the object behind that header is one of these.
    fn is(header: &VMGcHeader) -> bool
        ensures { result ≡ is header.now };
}

/// Every object has a header.
impl GcHeapObject for VMGcHeader {
    ghost use Rattle.std.specs.Prelude.{true};

    ghost is = { λ _. true };

    fn is(_header: &VMGcHeader) -> bool {
        true
    }
}

/// A reference to an object that is a `T`. Two are equal exactly where their words are, whatever `T`
/// is.
#[derive(Drop)]
#[derive_where(Debug, PartialEq, Eq, Hash)]
pub struct TypedGcRef<T> {
    gc_ref: VMGcRef,
    object: PhantomData<T>,
}

impl<T> Model for TypedGcRef<T> {
    ghost use Rattle.std.specs.Prelude.{ℕ};

    ghost Value = { ℕ };

    ghost view = { λ r. r.gc_ref };

    ghost inverse = { λ n. record { gc_ref = n; object = record {} } };
}

impl<T> TypedGcRef<T> {
    /// The reference of that word, whose object isn't looked at.
    pub fn new_unchecked(gc_ref: VMGcRef) -> TypedGcRef<T>
        ensures { result ≡ gc_ref }
    {
        TypedGcRef {
            gc_ref,
            object: PhantomData,
        }
    }

    /// Lends the word.
    pub fn as_untyped(&self) -> &VMGcRef
        ensures { result.now ≡ self.now }
    {
        &self.gc_ref
    }

    /// The same word again. Heaps that count references are not told of it.
    pub fn unchecked_copy(&self) -> TypedGcRef<T>
        ensures { result ≡ self.now }
    {
        TypedGcRef::new_unchecked(self.gc_ref.unchecked_copy())
    }
}

impl<T> From<TypedGcRef<T>> for VMGcRef {
    ghost from_gives = { λ r word. word ≡ r };

    fn from(r: TypedGcRef<T>) -> VMGcRef {
        r.gc_ref
    }
}
