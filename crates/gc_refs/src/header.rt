//! The header of an object: a kind word with 26 spare bits, and a type word.

ghost use Rattle.std.specs.Prelude.{◌≡◌, ◌≢◌, ◌<◌, ◌≤◌, ◌%◌, ◌^◌, ◌↔◌, ◌++◌, length, drop, IsTrue, MatchBool, MatchOption, SomeIff};
ghost use Rattle.gc_types.specs.declared.kind.VMGcKind.{VMGcKind};
ghost use Rattle.gc_refs.specs.Header.{header_of, with_spare, spare_bits, header_bytes, header_at, IsOfKind};
ghost use Rattle.gc_types.specs.Kinds.{IsKindOf};

use gc_types::{VMGcKind, VMSharedTypeIndex};
use std::marker::Model;

/// How many numbers the spare bits of a kind word tell apart.
const SPARE: u32 = 0x0400_0000;

/// The two words at the front of an object.
#[derive(Clone, Copy, Debug, PartialEq, Eq, Hash)]
pub struct VMGcHeader {
    kind_word: u32,
    ty: VMSharedTypeIndex,
}

impl Model for VMGcHeader {
    ghost use Rattle.std.specs.Prelude.{◌<◌, ◌^◌};
    ghost use Rattle.gc_refs.specs.Header.{Header};

    ghost Value = { Header };

    ghost view = { λ h. record { kind_word = h.kind_word; type_word = h.ty } };

    ghost invariant = { λ h. h.kind_word < 2 ^ 32 };

    ghost inverse = { λ h. record { kind_word = h.kind_word; ty = h.type_word } };
}

impl VMGcHeader {
    /// The header of an object of that kind and type, its spare bits 0.
    pub fn from_kind_and_index(kind: VMGcKind, ty: VMSharedTypeIndex) -> VMGcHeader
        ensures { result ≡ header_of kind ty }
    {
        VMGcHeader {
            kind_word: kind.as_u32(),
            ty,
        }
    }

    /// The header of an external object, which has no type.
    pub fn externref() -> VMGcHeader
        ensures { result ≡ header_of VMGcKind.ExternRef u32.MAX }
    {
        VMGcHeader::from_kind_and_index(VMGcKind::ExternRef, VMSharedTypeIndex::reserved())
    }

    /// The header of these two words.
    pub fn from_words(kind_word: u32, type_word: u32) -> VMGcHeader
        ensures { result ≡ record { kind_word = kind_word; type_word = type_word } }
    {
        VMGcHeader {
            kind_word,
            ty: VMSharedTypeIndex::new(type_word),
        }
    }

    /// The kind word: the kind bits, and below them the 26 spare bits.
    pub fn kind_word(&self) -> u32
        ensures { result ≡ self.now.kind_word }
    {
        self.kind_word
    }

    /// The type word as an index; the reserved one where the object has no type.
    pub fn type_index(&self) -> VMSharedTypeIndex
        ensures { result ≡ self.now.type_word }
    {
        self.ty
    }

    /// The type of the object; None exactly where it has none.
    pub fn ty(&self) -> Option<VMSharedTypeIndex>
        ensures { SomeIff result (self.now.type_word ≢ u32.MAX) self.now.type_word }
    {
        if self.ty.is_reserved() {
            None
        } else {
            Some(self.ty)
        }
    }

    /// The kind that the upper six bits of the kind word name; None exactly where they name none.
    pub fn kind(&self) -> Option<VMGcKind>
        ensures { MatchOption result ((kind : VMGcKind) → ¬ (IsOfKind kind self.now.kind_word)) (λ kind. IsOfKind kind self.now.kind_word) }
    {
        VMGcKind::from_high_bits_of_u32(self.kind_word)
    }

    /// Whether the object is of a kind that matches the given one; false where the kind word names no
    /// kind.
    pub fn matches_kind(&self, kind: VMGcKind) -> bool
        ensures { IsTrue result ↔ ((own : VMGcKind) × IsOfKind own self.now.kind_word × IsKindOf own kind) }
    {
        match self.kind() {
            Some(own) => own.matches(kind),
            None => false,
        }
    }

    /// The 26 spare bits.
    pub fn reserved_u26(&self) -> u32
        ensures { result ≡ self.now.kind_word % spare_bits }
    {
        self.kind_word % SPARE
    }

    /// Sets the 26 spare bits; kind and type stay.
    pub fn set_reserved_u26(&mut self, value: u32)
        requires { value < spare_bits }
        ensures { self.new ≡ with_spare value self.old }
    {
        self.kind_word = self.kind_word / SPARE * SPARE + value;
    }

    /// Sets the 26 spare bits, as `set_reserved_u26` does.
    pub fn unchecked_set_reserved_u26(&mut self, value: u32)
        requires { value < spare_bits }
        ensures { self.new ≡ with_spare value self.old }
    {
        self.set_reserved_u26(value);
    }

    /// The header that the first eight bytes are; None exactly where there are fewer.
    pub fn read_at(bytes: &[u8]) -> Option<VMGcHeader>
        ensures { SomeIff result (8 ≤ length bytes.now) (header_at bytes.now) }
    {
        let kind_word = u32::from_le_bytes(*bytes.first_chunk()?);
        let type_word = u32::from_le_bytes(*bytes[4..].first_chunk()?);
        Some(VMGcHeader::from_words(kind_word, type_word))
    }

    /// Writes the header over the first eight bytes; false exactly where there are fewer, which then
    /// stay as they are.
    pub fn write_at(&self, into: &mut [u8]) -> bool
        ensures told { IsTrue result ↔ (8 ≤ length into.old) }
        ensures bytes { MatchBool result (into.new ≡ header_bytes self.now ++ drop 8 into.old) (into.new ≡ into.old) }
    {
        if into.len() < 8 {
            return false;
        }
        into[..8].copy_from_slice(&self.to_bytes());
        true
    }

    /// The header's eight bytes.
    pub fn to_bytes(&self) -> [u8; 8]
        ensures { result ≡ header_bytes self.now }
    {
        let [k0, k1, k2, k3] = self.kind_word.to_le_bytes();
        let [t0, t1, t2, t3] = self.ty.as_u32().to_le_bytes();
        [k0, k1, k2, k3, t0, t1, t2, t3]
    }
}
