//! The index of a declared type.

ghost use Rattle.std.specs.Prelude.{◌≡◌, ◌↔◌, ◌<◌, ◌^◌, IsTrue};

use std::marker::Model;

/// The index of a type in its table, counted from 0. `u32::MAX` is reserved and means no type.
#[derive(Clone, Copy, Debug, PartialEq, Eq, Hash)]
pub struct VMSharedTypeIndex {
    bits: u32,
}

impl Model for VMSharedTypeIndex {
    ghost use Rattle.std.specs.Prelude.{ℕ, ◌<◌, ◌^◌};

    ghost Value = { ℕ };

    ghost view = { λ i. i.bits };

    ghost invariant = { λ i. i.bits < 2 ^ 32 };

    ghost inverse = { λ n. record { bits = n } };
}

impl VMSharedTypeIndex {
    /// The type index of that number.
    pub fn new(bits: u32) -> VMSharedTypeIndex
        ensures { result ≡ bits }
    {
        VMSharedTypeIndex { bits }
    }

    /// The number.
    pub fn as_u32(&self) -> u32
        ensures { result ≡ self.now }
    {
        self.bits
    }

    /// The index that means no type.
    pub fn reserved() -> VMSharedTypeIndex
        ensures { result ≡ u32.MAX }
    {
        VMSharedTypeIndex { bits: u32::MAX }
    }

    /// Whether this is the index that means no type.
    pub fn is_reserved(&self) -> bool
        ensures { IsTrue result ↔ (self.now ≡ u32.MAX) }
    {
        self.bits == u32::MAX
    }
}
