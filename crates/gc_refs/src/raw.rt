//! Raw values, as they pass between a host and compiled code.

ghost use Rattle.std.specs.Prelude.{◌≡◌, ◌≤◌, ◌-◌, ◌++◌, take, replicate};
ghost use Rattle.std.specs.Int.{w32, w64, w128};
ghost use Rattle.gc_refs.specs.LittleEndian.{unsigned_at, signed_at, unsigned_bytes, signed_bytes};

use crate::pod::PodValType;
use crate::v128::V128;
use std::marker::Model;

/// A value in 16 bytes: a number with its lowest byte first, from byte 0 on. The value doesn't tell
/// which type it is of; each getter reads as many bytes as its type has.
#[derive(Clone, Copy, Debug)]
pub struct ValRaw {
    bytes: [u8; 16],
}

impl Model for ValRaw {
    ghost use Rattle.std.specs.Prelude.{ℕ, List};

    ghost Value = { List ℕ };

    ghost view = { λ v. v.bytes };

    ghost inverse = { λ bytes. record { bytes = bytes } };
}

/// The value whose first bytes are those of a number, the rest 0.
fn from_pod<const N: usize, T: PodValType<N>>(number: T) -> ValRaw
    requires { N ≤ 16 }
    ensures { result ≡ T.bytes_of number ++ replicate (16 - N) 0 }
{
    let mut front = [0; N];
    number.write_le(&mut front);
    let mut bytes = [0; 16];
    bytes[..N].copy_from_slice(&front);
    ValRaw { bytes }
}

/// The number that the first bytes of a value are.
fn to_pod<const N: usize, T: PodValType<N>>(value: &ValRaw) -> T
    requires { N ≤ 16 }
    ensures { result ≡ T.number_of (take N value.now) }
{
    T::read_le(value.bytes.first_chunk().unwrap())
}

impl ValRaw {
    /// An `i32`, in the first 4 bytes.
    pub fn i32(v: i32) -> ValRaw
        ensures { result ≡ signed_bytes w32 v ++ replicate 12 0 }
    {
        from_pod(v)
    }

    /// An `i64`, in the first 8 bytes.
    pub fn i64(v: i64) -> ValRaw
        ensures { result ≡ signed_bytes w64 v ++ replicate 8 0 }
    {
        from_pod(v)
    }

    /// The bits of an `f32`, in the first 4 bytes.
    pub fn f32(v: u32) -> ValRaw
        ensures { result ≡ unsigned_bytes w32 v ++ replicate 12 0 }
    {
        from_pod(v)
    }

    /// The bits of an `f64`, in the first 8 bytes.
    pub fn f64(v: u64) -> ValRaw
        ensures { result ≡ unsigned_bytes w64 v ++ replicate 8 0 }
    {
        from_pod(v)
    }

    /// A vector value, in the first 16 bytes.
    pub fn v128(v: u128) -> ValRaw
        ensures { result ≡ unsigned_bytes w128 v }
    {
        from_pod(V128::from(v))
    }

    /// A function reference, in the first 8 bytes.
    pub fn funcref(v: u64) -> ValRaw
        ensures { result ≡ unsigned_bytes w64 v ++ replicate 8 0 }
    {
        from_pod(v)
    }

    /// The word of an `externref`, 0 for null, in the first 4 bytes.
    pub fn externref(v: u32) -> ValRaw
        ensures { result ≡ unsigned_bytes w32 v ++ replicate 12 0 }
    {
        from_pod(v)
    }

    /// The word of an `anyref`, 0 for null, in the first 4 bytes.
    pub fn anyref(v: u32) -> ValRaw
        ensures { result ≡ unsigned_bytes w32 v ++ replicate 12 0 }
    {
        from_pod(v)
    }

    /// The word of an `exnref`, 0 for null, in the first 4 bytes.
    pub fn exnref(v: u32) -> ValRaw
        ensures { result ≡ unsigned_bytes w32 v ++ replicate 12 0 }
    {
        from_pod(v)
    }

    /// The `i32` that the first 4 bytes are.
    pub fn get_i32(&self) -> i32
        ensures { result ≡ signed_at w32 (take 4 self.now) }
    {
        to_pod(self)
    }

    /// The `i64` that the first 8 bytes are.
    pub fn get_i64(&self) -> i64
        ensures { result ≡ signed_at w64 (take 8 self.now) }
    {
        to_pod(self)
    }

    /// The bits of an `f32` that the first 4 bytes are.
    pub fn get_f32(&self) -> u32
        ensures { result ≡ unsigned_at w32 (take 4 self.now) }
    {
        to_pod(self)
    }

    /// The bits of an `f64` that the first 8 bytes are.
    pub fn get_f64(&self) -> u64
        ensures { result ≡ unsigned_at w64 (take 8 self.now) }
    {
        to_pod(self)
    }

    /// The vector value that the first 16 bytes are.
    pub fn get_v128(&self) -> u128
        ensures { result ≡ unsigned_at w128 self.now }
    {
        let vector: V128 = to_pod(self);
        vector.as_u128()
    }

    /// The function reference that the first 8 bytes are.
    pub fn get_funcref(&self) -> u64
        ensures { result ≡ unsigned_at w64 (take 8 self.now) }
    {
        to_pod(self)
    }

    /// The word of an `externref` that the first 4 bytes are.
    pub fn get_externref(&self) -> u32
        ensures { result ≡ unsigned_at w32 (take 4 self.now) }
    {
        to_pod(self)
    }

    /// The word of an `anyref` that the first 4 bytes are.
    pub fn get_anyref(&self) -> u32
        ensures { result ≡ unsigned_at w32 (take 4 self.now) }
    {
        to_pod(self)
    }

    /// The word of an `exnref` that the first 4 bytes are.
    pub fn get_exnref(&self) -> u32
        ensures { result ≡ unsigned_at w32 (take 4 self.now) }
    {
        to_pod(self)
    }
}
