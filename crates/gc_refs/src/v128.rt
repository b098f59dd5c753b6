//! A 128-bit vector value.

ghost use Rattle.std.specs.Prelude.{◌≡◌};

use std::marker::Model;

/// 128 bits of a vector value.
#[derive(Clone, Copy, Debug, PartialEq, Eq, Hash)]
pub struct V128 {
    bits: u128,
}

impl Model for V128 {
    ghost use Rattle.std.specs.Prelude.{ℕ, ◌<◌, ◌^◌};

    ghost Value = { ℕ };

    ghost view = { λ v. v.bits };

    ghost invariant = { λ v. v.bits < 2 ^ 128 };

    ghost inverse = { λ n. record { bits = n } };
}

impl V128 {
    /// The bits as a number.
    pub fn as_u128(&self) -> u128
        ensures { result ≡ self.now }
    {
        self.bits
    }
}

impl From<u128> for V128 {
    ghost from_gives = { λ n v. v ≡ n };

    fn from(bits: u128) -> V128 {
        V128 { bits }
    }
}
