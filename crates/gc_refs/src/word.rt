//! The word of a reference that is not null.

ghost use Rattle.std.specs.Prelude.{◌≡◌, ◌<◌, ◌+◌, ◌*◌, ◌/◌, ◌%◌, ◌^◌, ◌↔◌, true, false, IsTrue, MatchOption, MatchResult, SomeIff};
ghost use Rattle.std.specs.Option.{SomeIff};
ghost use Rattle.std.specs.Int.NonZero.{non_zero_u32_get};
ghost use Rattle.std.specs.Fmt.{WritesOnOk, digits};
ghost use Rattle.gc_refs.specs.Words.{i31_word, IsI31Word, IsHeapWord};

use crate::fault::RefFault;
use crate::i31::I31;
use std::fmt;
use std::marker::Model;
use std::num::NonZeroU32;

/// The word of a reference that is not null. Two words are equal exactly where their numbers are.
///
/// It is no `Copy` and no `Clone`, since a heap that counts references has to hear of each copy;
/// `unchecked_copy` is the way round that.
#[derive(Debug, PartialEq, Eq, Hash, Drop)]
pub struct VMGcRef(u32);

impl Model for VMGcRef {
    ghost use Rattle.std.specs.Prelude.{ℕ, ◌<◌, ◌^◌};

    ghost Value = { ℕ };

    ghost view = { λ r. r.0 };

    ghost invariant = { λ r. (0 < r.0) × (r.0 < 2 ^ 32) };

    ghost inverse = { λ n. record { 0 = n } };
}

impl VMGcRef {
    /// The bit of a word that says that it is a 31-bit number.
    pub const I31_REF_DISCRIMINANT: u32 = 1;

    /// The reference of that word; None exactly for 0, which is null.
    pub fn from_raw_u32(word: u32) -> Option<VMGcRef>
        ensures { SomeIff result (0 < word) word }
    {
        if word == 0 { None } else { Some(VMGcRef(word)) }
    }

    /// The reference of that word.
    pub fn from_raw_non_zero_u32(word: NonZeroU32) -> VMGcRef
        ensures { result ≡ non_zero_u32_get word }
    {
        VMGcRef(word.get())
    }

    /// The reference to the object at that place of a heap; None exactly where bit 0 is set, since
    /// the word would then be a 31-bit number.
    pub fn from_heap_index(index: NonZeroU32) -> Option<VMGcRef>
        ensures { MatchOption result (IsI31Word (non_zero_u32_get index)) (λ r. (r ≡ non_zero_u32_get index) × IsHeapWord r) }
    {
        let gc_ref = VMGcRef::from_raw_non_zero_u32(index);
        if gc_ref.is_i31() { None } else { Some(gc_ref) }
    }

    /// The reference that is that 31-bit number: its word is twice the number plus 1.
    pub fn from_i31(value: I31) -> VMGcRef
        ensures { result ≡ i31_word value }
    {
        VMGcRef(value.get_u32() * 2 + VMGcRef::I31_REF_DISCRIMINANT)
    }

    /// The word.
    pub fn as_raw_u32(&self) -> u32
        ensures value { result ≡ self.now }
        ensures not_null { 0 < result }
    {
        self.0
    }

    /// The word, as a number that is never 0.
    pub fn as_raw_non_zero_u32(&self) -> NonZeroU32
        ensures { non_zero_u32_get result ≡ self.now }
    {
        NonZeroU32::new(self.0).unwrap()
    }

    /// The same word again. Heaps that count references are not told of it.
    pub fn unchecked_copy(&self) -> VMGcRef
        ensures { result ≡ self.now }
    {
        VMGcRef(self.0)
    }

    /// The same 31-bit number again. No heap needs to hear of it.
    pub fn copy_i31(&self) -> VMGcRef
        requires { IsI31Word self.now }
        ensures { result ≡ self.now }
    {
        self.unchecked_copy()
    }

    /// The place of the object that the word names; `BadRef` exactly for a 31-bit number.
    pub fn heap_index(&self) -> Result<NonZeroU32, RefFault>
        ensures { MatchResult result (λ index. (non_zero_u32_get index ≡ self.now) × IsHeapWord self.now) (λ _. IsI31Word self.now) }
    {
        if self.is_i31() {
            Err(RefFault::BadRef)
        } else {
            Ok(self.as_raw_non_zero_u32())
        }
    }

    /// Whether the word is a 31-bit number.
    pub fn is_i31(&self) -> bool
        ensures { IsTrue result ↔ (self.now % 2 ≡ 1) }
    {
        self.0 % 2 == VMGcRef::I31_REF_DISCRIMINANT
    }

    /// The 31-bit number that the word is; None exactly where it names an object.
    pub fn as_i31(&self) -> Option<I31>
        ensures { MatchOption result (IsHeapWord self.now) (λ n. self.now ≡ i31_word n) }
    {
        if self.is_i31() {
            Some(self.unwrap_i31())
        } else {
            None
        }
    }

    /// The 31-bit number that the word is.
    pub fn unwrap_i31(&self) -> I31
        requires { IsI31Word self.now }
        ensures { self.now ≡ i31_word result }
    {
        I31::wrapping_u32(self.0 / 2)
    }
}

/// The word in lower-case hexadecimal digits; with `#`, after `0x`.
impl fmt::LowerHex for VMGcRef {
    fn fmt<W: fmt::Write>(&self, f: &mut fmt::Formatter<W>) -> fmt::Result
        ensures { WritesOnOk W.write_str_gives f.old result (digits 16 false self.now) f.new }
    {
        let word = self.0;
        fmt::LowerHex::fmt(&word, f)
    }
}

/// The word in upper-case hexadecimal digits; with `#`, after `0x`.
impl fmt::UpperHex for VMGcRef {
    fn fmt<W: fmt::Write>(&self, f: &mut fmt::Formatter<W>) -> fmt::Result
        ensures { WritesOnOk W.write_str_gives f.old result (digits 16 true self.now) f.new }
    {
        let word = self.0;
        fmt::UpperHex::fmt(&word, f)
    }
}
