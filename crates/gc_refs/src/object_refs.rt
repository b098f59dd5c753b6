//! References whose objects are known to be of one kind.
//!
//! Each is a small value over a word. That the object really is of that kind is what the heap's tests
//! tell; a reference made without them keeps its word all the same.

ghost use Rattle.std.specs.Prelude.{◌≡◌};
ghost use Rattle.std.specs.Borrow.{Lends, sem};
ghost use Rattle.gc_refs.specs.contracts.object_refs.VMExnRef.{the_row as exn_row};
ghost use Rattle.gc_refs.specs.contracts.word.VMGcRef.{the_row as word_row};

use crate::word::VMGcRef;
use std::marker::Model;

/// A reference to a struct. Two are equal exactly where their words are.
#[derive(Debug, PartialEq, Eq, Hash, Drop)]
pub struct VMStructRef(VMGcRef);

impl Model for VMStructRef {
    ghost use Rattle.std.specs.Prelude.{ℕ};

    ghost Value = { ℕ };

    ghost view = { λ r. r.0 };

    ghost inverse = { λ n. record { 0 = n } };
}

impl VMStructRef {
    /// The reference of that word, whose object isn't looked at.
    pub fn new_unchecked(gc_ref: VMGcRef) -> VMStructRef
        ensures { result ≡ gc_ref }
    {
        VMStructRef(gc_ref)
    }

    /// Lends the word.
    pub fn as_gc_ref(&self) -> &VMGcRef
        ensures { result.now ≡ self.now }
    {
        &self.0
    }

    /// The same word again. Heaps that count references are not told of it.
    pub fn unchecked_copy(&self) -> VMStructRef
        ensures { result ≡ self.now }
    {
        VMStructRef(self.0.unchecked_copy())
    }
}

impl From<VMStructRef> for VMGcRef {
    ghost from_gives = { λ r word. word ≡ r };

    fn from(r: VMStructRef) -> VMGcRef {
        r.0
    }
}

/// A reference to an array. Two are equal exactly where their words are.
#[derive(Debug, PartialEq, Eq, Hash, Drop)]
pub struct VMArrayRef(VMGcRef);

impl Model for VMArrayRef {
    ghost use Rattle.std.specs.Prelude.{ℕ};

    ghost Value = { ℕ };

    ghost view = { λ r. r.0 };

    ghost inverse = { λ n. record { 0 = n } };
}

impl VMArrayRef {
    /// The reference of that word, whose object isn't looked at.
    pub fn new_unchecked(gc_ref: VMGcRef) -> VMArrayRef
        ensures { result ≡ gc_ref }
    {
        VMArrayRef(gc_ref)
    }

    /// Lends the word.
    pub fn as_gc_ref(&self) -> &VMGcRef
        ensures { result.now ≡ self.now }
    {
        &self.0
    }

    /// The same word again. Heaps that count references are not told of it.
    pub fn unchecked_copy(&self) -> VMArrayRef
        ensures { result ≡ self.now }
    {
        VMArrayRef(self.0.unchecked_copy())
    }
}

impl From<VMArrayRef> for VMGcRef {
    ghost from_gives = { λ r word. word ≡ r };

    fn from(r: VMArrayRef) -> VMGcRef {
        r.0
    }
}

/// A reference to an exception. Two are equal exactly where their words are.
#[derive(Debug, PartialEq, Eq, Hash, Drop)]
pub struct VMExnRef(VMGcRef);

impl Model for VMExnRef {
    ghost use Rattle.std.specs.Prelude.{ℕ};

    ghost Value = { ℕ };

    ghost view = { λ r. r.0 };

    ghost inverse = { λ n. record { 0 = n } };
}

impl VMExnRef {
    /// The reference of that word, whose object isn't looked at.
    pub fn new_unchecked(gc_ref: VMGcRef) -> VMExnRef
        ensures { result ≡ gc_ref }
    {
        VMExnRef(gc_ref)
    }

    /// Lends the word.
    pub fn as_gc_ref(&self) -> &VMGcRef
        ensures { result.now ≡ self.now }
    {
        &self.0
    }

    /// Lends the word for writing: the reference then has the word that is left there.
    pub fn as_gc_ref_mut(&mut self) -> &mut VMGcRef
        ensures* writes_back { sem 𝓛 (Lends exn_row word_row self.entry result (λ word. word)) }
        ensures value { result.now ≡ self.old }
    {
        &mut self.0
    }

    /// The same word again. Heaps that count references are not told of it.
    pub fn unchecked_copy(&self) -> VMExnRef
        ensures { result ≡ self.now }
    {
        VMExnRef(self.0.unchecked_copy())
    }
}

impl From<VMExnRef> for VMGcRef {
    ghost from_gives = { λ r word. word ≡ r };

    fn from(r: VMExnRef) -> VMGcRef {
        r.0
    }
}

/// A reference to an external object, which holds a value of the host. Two are equal exactly where their words are.
#[derive(Debug, PartialEq, Eq, Hash, Drop)]
pub struct VMExternRef(VMGcRef);

impl Model for VMExternRef {
    ghost use Rattle.std.specs.Prelude.{ℕ};

    ghost Value = { ℕ };

    ghost view = { λ r. r.0 };

    ghost inverse = { λ n. record { 0 = n } };
}

impl VMExternRef {
    /// The reference of that word, whose object isn't looked at.
    pub fn new_unchecked(gc_ref: VMGcRef) -> VMExternRef
        ensures { result ≡ gc_ref }
    {
        VMExternRef(gc_ref)
    }

    /// Lends the word.
    pub fn as_gc_ref(&self) -> &VMGcRef
        ensures { result.now ≡ self.now }
    {
        &self.0
    }

    /// The same word again. Heaps that count references are not told of it.
    pub fn unchecked_copy(&self) -> VMExternRef
        ensures { result ≡ self.now }
    {
        VMExternRef(self.0.unchecked_copy())
    }
}

impl From<VMExternRef> for VMGcRef {
    ghost from_gives = { λ r word. word ≡ r };

    fn from(r: VMExternRef) -> VMGcRef {
        r.0
    }
}
