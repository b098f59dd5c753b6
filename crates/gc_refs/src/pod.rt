//! Numbers that objects hold as little-endian bytes.

ghost use Rattle.std.specs.Prelude.{◌≡◌};
ghost use Rattle.std.specs.Int.{w8, w16, w32, w64, w128};
ghost use Rattle.gc_refs.specs.LittleEndian.{unsigned_at, signed_at, unsigned_bytes, signed_bytes};

use crate::v128::V128;

/// A number that lies in an object as `N` bytes, the lowest first.
pub trait PodValType<const N: usize>: Copy {
    ghost use Rattle.std.specs.Prelude.{List, ℕ};

    ghost number_of: { List ℕ → Self };

    ghost bytes_of: { Self → List ℕ };

    /// The number that these bytes are.
    fn read_le(bytes: &[u8; N]) -> Self
        ensures { result ≡ number_of bytes.now };

    /// Writes the number's bytes, which `read_le` reads as the same number.
    fn write_le(&self, into: &mut [u8; N])
        ensures bytes { into.new ≡ bytes_of self.now }
        ensures reads_back { number_of into.new ≡ self.now };
}

impl PodValType<1> for u8 {
    ghost number_of = { unsigned_at w8 };

    ghost bytes_of = { unsigned_bytes w8 };

    fn read_le(bytes: &[u8; 1]) -> u8 {
        u8::from_le_bytes(*bytes)
    }

    fn write_le(&self, into: &mut [u8; 1]) {
        *into = self.to_le_bytes();
    }
}

impl PodValType<2> for u16 {
    ghost number_of = { unsigned_at w16 };

    ghost bytes_of = { unsigned_bytes w16 };

    fn read_le(bytes: &[u8; 2]) -> u16 {
        u16::from_le_bytes(*bytes)
    }

    fn write_le(&self, into: &mut [u8; 2]) {
        *into = self.to_le_bytes();
    }
}

impl PodValType<4> for u32 {
    ghost number_of = { unsigned_at w32 };

    ghost bytes_of = { unsigned_bytes w32 };

    fn read_le(bytes: &[u8; 4]) -> u32 {
        u32::from_le_bytes(*bytes)
    }

    fn write_le(&self, into: &mut [u8; 4]) {
        *into = self.to_le_bytes();
    }
}

impl PodValType<8> for u64 {
    ghost number_of = { unsigned_at w64 };

    ghost bytes_of = { unsigned_bytes w64 };

    fn read_le(bytes: &[u8; 8]) -> u64 {
        u64::from_le_bytes(*bytes)
    }

    fn write_le(&self, into: &mut [u8; 8]) {
        *into = self.to_le_bytes();
    }
}

impl PodValType<1> for i8 {
    ghost number_of = { signed_at w8 };

    ghost bytes_of = { signed_bytes w8 };

    fn read_le(bytes: &[u8; 1]) -> i8 {
        i8::from_le_bytes(*bytes)
    }

    fn write_le(&self, into: &mut [u8; 1]) {
        *into = self.to_le_bytes();
    }
}

impl PodValType<2> for i16 {
    ghost number_of = { signed_at w16 };

    ghost bytes_of = { signed_bytes w16 };

    fn read_le(bytes: &[u8; 2]) -> i16 {
        i16::from_le_bytes(*bytes)
    }

    fn write_le(&self, into: &mut [u8; 2]) {
        *into = self.to_le_bytes();
    }
}

impl PodValType<4> for i32 {
    ghost number_of = { signed_at w32 };

    ghost bytes_of = { signed_bytes w32 };

    fn read_le(bytes: &[u8; 4]) -> i32 {
        i32::from_le_bytes(*bytes)
    }

    fn write_le(&self, into: &mut [u8; 4]) {
        *into = self.to_le_bytes();
    }
}

impl PodValType<8> for i64 {
    ghost number_of = { signed_at w64 };

    ghost bytes_of = { signed_bytes w64 };

    fn read_le(bytes: &[u8; 8]) -> i64 {
        i64::from_le_bytes(*bytes)
    }

    fn write_le(&self, into: &mut [u8; 8]) {
        *into = self.to_le_bytes();
    }
}

impl PodValType<16> for V128 {
    ghost number_of = { unsigned_at w128 };

    ghost bytes_of = { unsigned_bytes w128 };

    fn read_le(bytes: &[u8; 16]) -> V128 {
        V128::from(u128::from_le_bytes(*bytes))
    }

    fn write_le(&self, into: &mut [u8; 16]) {
        *into = self.as_u128().to_le_bytes();
    }
}
