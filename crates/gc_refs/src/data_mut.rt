//! The bytes of an object, lent for reading and writing.

ghost use Rattle.std.specs.Prelude.{◌≡◌, ◌+◌, ◌<◌, ◌^◌, length};
ghost use Rattle.std.specs.Int.{w8, w16, w32, w64, w128};
ghost use Rattle.gc_refs.specs.LittleEndian.{unsigned_at, signed_at, unsigned_bytes, signed_bytes};
ghost use Rattle.gc_refs.specs.Views.{LendsPart, LendsPartMut, ReadsNumber, WritesPart, Copies};

use crate::fault::DataFault;
use crate::parts::{copy_part, part, place_of, read_pod, write_part, write_pod};
use crate::v128::V128;
use std::ops::Range;

/// The bytes of an object, lent for reading and writing. A view copies nothing and looks at no type:
/// it refuses each range that isn't inside its bytes. Numbers lie there with their lowest byte first.
#[derive(Drop)]
pub struct VMGcObjectDataMut<'a> {
    first: u32,
    bytes: &'a mut [u8],
}

impl<'a> VMGcObjectDataMut<'a> {
    ghost use Rattle.gc_refs.specs.SameView.{IsSameView};

    /// The view of these bytes, the first of them at offset 0.
    pub fn from_slice_mut(bytes: &'a mut [u8]) -> VMGcObjectDataMut<'a>
        ensures first { result.first ≡ 0 }
        ensures same_bytes { result.bytes.now ≡ bytes.old }
        ensures lent { result.bytes.ghost_name ≡ bytes.entry.ghost_name }
    {
        VMGcObjectDataMut { first: 0, bytes }
    }

    /// The view of these bytes, the first of them at that offset.
    pub fn from_part(first: u32, bytes: &'a mut [u8]) -> VMGcObjectDataMut<'a>
        requires { first + length bytes.old < 2 ^ 32 }
        ensures first { result.first ≡ first }
        ensures same_bytes { result.bytes.now ≡ bytes.old }
        ensures lent { result.bytes.ghost_name ≡ bytes.entry.ghost_name }
    {
        VMGcObjectDataMut { first, bytes }
    }

    /// Lends the `len` bytes at an offset; `BadOffset` exactly where they aren't all inside.
    pub fn slice(&self, offset: u32, len: u32) -> Result<&[u8], DataFault>
        ensures { LendsPart self.now.first self.now.bytes.now offset len result }
    {
        part(self.first, &*self.bytes, offset, len)
    }

    /// Lends the `len` bytes at an offset for writing; `BadOffset` exactly where they aren't all inside.
    pub fn slice_mut(&mut self, offset: u32, len: u32) -> Result<&mut [u8], DataFault>
        ensures { LendsPartMut self.old.first self.old.bytes.now offset len result }
    {
        let count = len as usize;
        let first = self.first;
        let bytes = &mut *self.bytes;
        match place_of(first, bytes, offset, count) {
            Ok(place) => Ok(&mut bytes[place..place + count]),
            Err(fault) => Err(fault),
        }
    }

    /// Writes these bytes at an offset; `BadOffset` exactly where they aren't all inside.
    pub fn copy_from_slice(&mut self, offset: u32, src: &[u8]) -> Result<(), DataFault>
        ensures bytes { WritesPart src.now self.old.first self.old.bytes.now self.new.bytes.now offset result }
        ensures same_view { IsSameView self.old self.new }
    {
        write_part(self.first, &mut *self.bytes, offset, src)
    }

    /// Copies a range of the bytes to a destination, also where the two overlap; `BadOffset` exactly
    /// where the range is reversed, or it or its copy isn't inside.
    pub fn copy_within(&mut self, src: Range<u32>, dest: u32) -> Result<(), DataFault>
        ensures bytes { Copies src.start src.end self.old.first self.old.bytes.now self.new.bytes.now dest result }
        ensures same_view { IsSameView self.old self.new }
    {
        copy_part(self.first, &mut *self.bytes, src, dest)
    }

    /// The byte at an offset; `BadOffset` exactly where one of its bytes isn't inside.
    pub fn read_u8(&self, offset: u32) -> Result<u8, DataFault>
        ensures { ReadsNumber 1 (unsigned_at w8) self.now.first self.now.bytes.now offset result }
    {
        read_pod(self.first, &*self.bytes, offset)
    }

    /// The 16-bit number at an offset; `BadOffset` exactly where one of its bytes isn't inside.
    pub fn read_u16(&self, offset: u32) -> Result<u16, DataFault>
        ensures { ReadsNumber 2 (unsigned_at w16) self.now.first self.now.bytes.now offset result }
    {
        read_pod(self.first, &*self.bytes, offset)
    }

    /// The 32-bit number at an offset; `BadOffset` exactly where one of its bytes isn't inside.
    pub fn read_u32(&self, offset: u32) -> Result<u32, DataFault>
        ensures { ReadsNumber 4 (unsigned_at w32) self.now.first self.now.bytes.now offset result }
    {
        read_pod(self.first, &*self.bytes, offset)
    }

    /// The 64-bit number at an offset; `BadOffset` exactly where one of its bytes isn't inside.
    pub fn read_u64(&self, offset: u32) -> Result<u64, DataFault>
        ensures { ReadsNumber 8 (unsigned_at w64) self.now.first self.now.bytes.now offset result }
    {
        read_pod(self.first, &*self.bytes, offset)
    }

    /// The byte, as a signed number at an offset; `BadOffset` exactly where one of its bytes isn't inside.
    pub fn read_i8(&self, offset: u32) -> Result<i8, DataFault>
        ensures { ReadsNumber 1 (signed_at w8) self.now.first self.now.bytes.now offset result }
    {
        read_pod(self.first, &*self.bytes, offset)
    }

    /// The signed 16-bit number at an offset; `BadOffset` exactly where one of its bytes isn't inside.
    pub fn read_i16(&self, offset: u32) -> Result<i16, DataFault>
        ensures { ReadsNumber 2 (signed_at w16) self.now.first self.now.bytes.now offset result }
    {
        read_pod(self.first, &*self.bytes, offset)
    }

    /// The signed 32-bit number at an offset; `BadOffset` exactly where one of its bytes isn't inside.
    pub fn read_i32(&self, offset: u32) -> Result<i32, DataFault>
        ensures { ReadsNumber 4 (signed_at w32) self.now.first self.now.bytes.now offset result }
    {
        read_pod(self.first, &*self.bytes, offset)
    }

    /// The signed 64-bit number at an offset; `BadOffset` exactly where one of its bytes isn't inside.
    pub fn read_i64(&self, offset: u32) -> Result<i64, DataFault>
        ensures { ReadsNumber 8 (signed_at w64) self.now.first self.now.bytes.now offset result }
    {
        read_pod(self.first, &*self.bytes, offset)
    }

    /// The vector value at an offset; `BadOffset` exactly where one of its bytes isn't inside.
    pub fn read_v128(&self, offset: u32) -> Result<V128, DataFault>
        ensures { ReadsNumber 16 (unsigned_at w128) self.now.first self.now.bytes.now offset result }
    {
        read_pod(self.first, &*self.bytes, offset)
    }

    /// Writes a byte at an offset; `BadOffset` exactly where one of its bytes isn't inside.
    pub fn write_u8(&mut self, offset: u32, val: u8) -> Result<(), DataFault>
        ensures bytes { WritesPart (unsigned_bytes w8 val) self.old.first self.old.bytes.now self.new.bytes.now offset result }
        ensures same_view { IsSameView self.old self.new }
    {
        write_pod(self.first, &mut *self.bytes, offset, val)
    }

    /// Writes a 16-bit number at an offset; `BadOffset` exactly where one of its bytes isn't inside.
    pub fn write_u16(&mut self, offset: u32, val: u16) -> Result<(), DataFault>
        ensures bytes { WritesPart (unsigned_bytes w16 val) self.old.first self.old.bytes.now self.new.bytes.now offset result }
        ensures same_view { IsSameView self.old self.new }
    {
        write_pod(self.first, &mut *self.bytes, offset, val)
    }

    /// Writes a 32-bit number at an offset; `BadOffset` exactly where one of its bytes isn't inside.
    pub fn write_u32(&mut self, offset: u32, val: u32) -> Result<(), DataFault>
        ensures bytes { WritesPart (unsigned_bytes w32 val) self.old.first self.old.bytes.now self.new.bytes.now offset result }
        ensures same_view { IsSameView self.old self.new }
    {
        write_pod(self.first, &mut *self.bytes, offset, val)
    }

    /// Writes a 64-bit number at an offset; `BadOffset` exactly where one of its bytes isn't inside.
    pub fn write_u64(&mut self, offset: u32, val: u64) -> Result<(), DataFault>
        ensures bytes { WritesPart (unsigned_bytes w64 val) self.old.first self.old.bytes.now self.new.bytes.now offset result }
        ensures same_view { IsSameView self.old self.new }
    {
        write_pod(self.first, &mut *self.bytes, offset, val)
    }

    /// Writes a byte, as a signed number at an offset; `BadOffset` exactly where one of its bytes isn't inside.
    pub fn write_i8(&mut self, offset: u32, val: i8) -> Result<(), DataFault>
        ensures bytes { WritesPart (signed_bytes w8 val) self.old.first self.old.bytes.now self.new.bytes.now offset result }
        ensures same_view { IsSameView self.old self.new }
    {
        write_pod(self.first, &mut *self.bytes, offset, val)
    }

    /// Writes a signed 16-bit number at an offset; `BadOffset` exactly where one of its bytes isn't inside.
    pub fn write_i16(&mut self, offset: u32, val: i16) -> Result<(), DataFault>
        ensures bytes { WritesPart (signed_bytes w16 val) self.old.first self.old.bytes.now self.new.bytes.now offset result }
        ensures same_view { IsSameView self.old self.new }
    {
        write_pod(self.first, &mut *self.bytes, offset, val)
    }

    /// Writes a signed 32-bit number at an offset; `BadOffset` exactly where one of its bytes isn't inside.
    pub fn write_i32(&mut self, offset: u32, val: i32) -> Result<(), DataFault>
        ensures bytes { WritesPart (signed_bytes w32 val) self.old.first self.old.bytes.now self.new.bytes.now offset result }
        ensures same_view { IsSameView self.old self.new }
    {
        write_pod(self.first, &mut *self.bytes, offset, val)
    }

    /// Writes a signed 64-bit number at an offset; `BadOffset` exactly where one of its bytes isn't inside.
    pub fn write_i64(&mut self, offset: u32, val: i64) -> Result<(), DataFault>
        ensures bytes { WritesPart (signed_bytes w64 val) self.old.first self.old.bytes.now self.new.bytes.now offset result }
        ensures same_view { IsSameView self.old self.new }
    {
        write_pod(self.first, &mut *self.bytes, offset, val)
    }

    /// Writes a vector value at an offset; `BadOffset` exactly where one of its bytes isn't inside.
    pub fn write_v128(&mut self, offset: u32, val: V128) -> Result<(), DataFault>
        ensures bytes { WritesPart (unsigned_bytes w128 val) self.old.first self.old.bytes.now self.new.bytes.now offset result }
        ensures same_view { IsSameView self.old self.new }
    {
        write_pod(self.first, &mut *self.bytes, offset, val)
    }
}
