//! 31-bit numbers, which a reference holds in place of an object.

ghost use Rattle.std.specs.Prelude.{◌≡◌, ◌<◌, ◌%◌, ◌^◌, SomeIff, IfSome};
ghost use Rattle.gc_refs.specs.Words.{i31_numbers, signed_i31, FitsI31, low_i31};

use std::fmt;
use std::marker::Model;

/// A 31-bit number is below this one.
const NUMBERS: u32 = 0x8000_0000;

/// From this number on, bit 30 is set: the signed number is negative.
const SIGN: u32 = 0x4000_0000;

/// A 31-bit number, as in an `i31ref` of the WebAssembly GC proposal. Two are equal exactly where
/// their numbers are. `Default` is 0.
#[derive(Clone, Copy, PartialEq, Eq, Hash)]
pub struct I31 {
    value: u32,
}

impl Model for I31 {
    ghost use Rattle.std.specs.Prelude.{ℕ, ◌<◌};
    ghost use Rattle.gc_refs.specs.Words.{i31_numbers};

    ghost Value = { ℕ };

    ghost view = { λ i. i.value };

    ghost invariant = { λ i. i.value < i31_numbers };

    ghost inverse = { λ n. record { value = n } };
}

impl I31 {
    /// The 31-bit number of that unsigned value; None exactly where it is 2^31 or more.
    pub fn new_u32(value: u32) -> Option<I31>
        ensures { SomeIff result (value < i31_numbers) value }
    {
        if value < NUMBERS {
            Some(I31 { value })
        } else {
            None
        }
    }

    /// The 31-bit number of that signed value; None exactly outside -2^30 to 2^30 - 1.
    pub fn new_i32(value: i32) -> Option<I31>
        ensures bits { SomeIff result (FitsI31 value) (low_i31 value) }
        ensures reads_back { IfSome result (λ n. signed_i31 n ≡ value) }
    {
        let number = I31::wrapping_i32(value);
        if number.get_i32() == value {
            Some(number)
        } else {
            None
        }
    }

    /// The low 31 bits of the value.
    pub fn wrapping_u32(value: u32) -> I31
        ensures { result ≡ value % i31_numbers }
    {
        I31 {
            value: value % NUMBERS,
        }
    }

    /// The low 31 bits of the value. One from -2^30 to 2^30 - 1 is read back by `get_i32`.
    pub fn wrapping_i32(value: i32) -> I31
        ensures bits { result ≡ low_i31 value }
        ensures reads_back { FitsI31 value → signed_i31 result ≡ value }
    {
        I31::wrapping_u32(value.cast_unsigned())
    }

    /// The number as unsigned, below 2^31.
    pub fn get_u32(&self) -> u32
        ensures value { result ≡ self.now }
        ensures bound { result < i31_numbers }
    {
        self.value
    }

    /// The number as signed, with bit 30 extended as the sign.
    pub fn get_i32(&self) -> i32
        ensures value { result ≡ signed_i31 self.now }
        ensures bound { FitsI31 result }
    {
        let value = self.value;
        if value < SIGN {
            value as i32
        } else {
            value as i32 + i32::MIN
        }
    }
}

impl Default for I31 {
    ghost is_default = { λ n. n ≡ 0 };

    fn default() -> I31 {
        I31 { value: 0 }
    }
}

impl fmt::Debug for I31 {
    fn fmt<W: fmt::Write>(&self, f: &mut fmt::Formatter<W>) -> fmt::Result {
        let unsigned = self.get_u32();
        let signed = self.get_i32();
        f.debug_struct("I31")
            .field("as_u32", &unsigned)
            .field("as_i32", &signed)
            .finish()
    }
}
