//! The bytes of an object, lent for reading.

ghost use Rattle.std.specs.Prelude.{◌≡◌};
ghost use Rattle.std.specs.Int.{w8, w16, w32, w64, w128};
ghost use Rattle.gc_refs.specs.LittleEndian.{unsigned_at, signed_at};
ghost use Rattle.gc_refs.specs.Views.{LendsPart, ReadsNumber};

use crate::fault::DataFault;
use crate::parts::{part, read_pod};
use crate::v128::V128;
use std::marker::Model;

/// The bytes of an object, lent for reading. A view copies nothing and looks at no type: it refuses
/// each range that isn't inside its bytes. Numbers lie there with their lowest byte first.
#[derive(Drop)]
pub struct VMGcObjectData<'a> {
    bytes: &'a [u8],
}

impl<'a> Model for VMGcObjectData<'a> {
    ghost use Rattle.std.specs.Prelude.{ℕ, List};

    ghost Value = { List ℕ };

    ghost view = { λ d. d.bytes.now };
}

impl<'a> VMGcObjectData<'a> {
    /// The view of these bytes, the first of them at offset 0.
    pub fn from_slice(bytes: &'a [u8]) -> VMGcObjectData<'a>
        ensures { result ≡ bytes.now }
    {
        VMGcObjectData { bytes }
    }

    /// Lends the `len` bytes at an offset; `BadOffset` exactly where they aren't all inside.
    pub fn slice(&self, offset: u32, len: u32) -> Result<&[u8], DataFault>
        ensures { LendsPart 0 self.now offset len result }
    {
        part(0, self.bytes, offset, len)
    }

    /// The byte at an offset; `BadOffset` exactly where one of its bytes isn't inside.
    pub fn read_u8(&self, offset: u32) -> Result<u8, DataFault>
        ensures { ReadsNumber 1 (unsigned_at w8) 0 self.now offset result }
    {
        read_pod(0, self.bytes, offset)
    }

    /// The 16-bit number at an offset; `BadOffset` exactly where one of its bytes isn't inside.
    pub fn read_u16(&self, offset: u32) -> Result<u16, DataFault>
        ensures { ReadsNumber 2 (unsigned_at w16) 0 self.now offset result }
    {
        read_pod(0, self.bytes, offset)
    }

    /// The 32-bit number at an offset; `BadOffset` exactly where one of its bytes isn't inside.
    #[inline(always)]
    pub fn read_u32(&self, offset: u32) -> Result<u32, DataFault>
        ensures { ReadsNumber 4 (unsigned_at w32) 0 self.now offset result }
    {
        read_pod(0, self.bytes, offset)
    }

    /// The 64-bit number at an offset; `BadOffset` exactly where one of its bytes isn't inside.
    #[inline(always)]
    pub fn read_u64(&self, offset: u32) -> Result<u64, DataFault>
        ensures { ReadsNumber 8 (unsigned_at w64) 0 self.now offset result }
    {
        read_pod(0, self.bytes, offset)
    }

    /// The byte, as a signed number at an offset; `BadOffset` exactly where one of its bytes isn't inside.
    pub fn read_i8(&self, offset: u32) -> Result<i8, DataFault>
        ensures { ReadsNumber 1 (signed_at w8) 0 self.now offset result }
    {
        read_pod(0, self.bytes, offset)
    }

    /// The signed 16-bit number at an offset; `BadOffset` exactly where one of its bytes isn't inside.
    pub fn read_i16(&self, offset: u32) -> Result<i16, DataFault>
        ensures { ReadsNumber 2 (signed_at w16) 0 self.now offset result }
    {
        read_pod(0, self.bytes, offset)
    }

    /// The signed 32-bit number at an offset; `BadOffset` exactly where one of its bytes isn't inside.
    pub fn read_i32(&self, offset: u32) -> Result<i32, DataFault>
        ensures { ReadsNumber 4 (signed_at w32) 0 self.now offset result }
    {
        read_pod(0, self.bytes, offset)
    }

    /// The signed 64-bit number at an offset; `BadOffset` exactly where one of its bytes isn't inside.
    pub fn read_i64(&self, offset: u32) -> Result<i64, DataFault>
        ensures { ReadsNumber 8 (signed_at w64) 0 self.now offset result }
    {
        read_pod(0, self.bytes, offset)
    }

    /// The vector value at an offset; `BadOffset` exactly where one of its bytes isn't inside.
    pub fn read_v128(&self, offset: u32) -> Result<V128, DataFault>
        ensures { ReadsNumber 16 (unsigned_at w128) 0 self.now offset result }
    {
        read_pod(0, self.bytes, offset)
    }
}
