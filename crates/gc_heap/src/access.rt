//! Reads and writes of numbers in objects, of any heap.
//!
//! Offsets are counted in bytes from an object's first byte, its header included, as layouts count
//! them. Numbers lie with their lowest byte first.

ghost use Rattle.std.specs.Prelude.{◌≡◌, Some};
ghost use Rattle.std.specs.FinMap as finite;
ghost use Rattle.std.specs.Int.{w8, w16, w32, w64, w128};
ghost use Rattle.gc_refs.specs.LittleEndian.{unsigned_at, unsigned_bytes};
ghost use Rattle.gc_view.specs.Heaps.{HeapObject};
ghost use Rattle.gc_heap.specs.Objects.{IsHeaderOf};
ghost use Rattle.gc_heap.specs.Content.{IsHeld};
ghost use Rattle.gc_heap.specs.Heap.{IsWritable};
ghost use Rattle.gc_heap.specs.Access.{IsReadable, ReadsData, WritesData};

use crate::heap::GcHeap;
use gc_refs::{V128, VMGcHeader, VMGcRef};

/// The header of a held object.
#[inline(always)]
pub fn header_of<H: GcHeap>(heap: &H, gc_ref: &VMGcRef) -> VMGcHeader
    requires sound { H.sound heap.now }
    requires held { IsHeld (H.seen heap.now) gc_ref.now }
    ensures { (object : HeapObject) → finite.get (H.seen heap.now).content gc_ref.now ≡ Some object → IsHeaderOf H.KIND object result }
{
    match heap.memory() {
        Some(memory) => memory.read_header(gc_ref.as_raw_u32() as usize),
        None => unreachable!(),
    }
}

/// The N bytes at an offset of an object, which are read where they lie in the memory, with no test.
#[inline(always)]
fn bytes_of<H: GcHeap, const N: usize>(heap: &H, gc_ref: &VMGcRef, offset: u32) -> [u8; N]
    requires sound { H.sound heap.now }
    requires inside { IsReadable H.KIND (H.seen heap.now) gc_ref.now offset N }
    ensures { ReadsData H.KIND (H.seen heap.now) gc_ref.now offset N (λ bytes. bytes) result }
{
    match heap.memory() {
        Some(memory) => memory.read_bytes(gc_ref.as_raw_u32() as usize + offset as usize),
        None => unreachable!(),
    }
}

/// The byte at an offset of an object.
#[inline(always)]
pub fn read_u8<H: GcHeap>(heap: &H, gc_ref: &VMGcRef, offset: u32) -> u8
    requires sound { H.sound heap.now }
    requires inside { IsReadable H.KIND (H.seen heap.now) gc_ref.now offset 1 }
    ensures { ReadsData H.KIND (H.seen heap.now) gc_ref.now offset 1 (unsigned_at w8) result }
{
    u8::from_le_bytes(bytes_of(heap, gc_ref, offset))
}

/// The 16-bit number at an offset of an object.
#[inline(always)]
pub fn read_u16<H: GcHeap>(heap: &H, gc_ref: &VMGcRef, offset: u32) -> u16
    requires sound { H.sound heap.now }
    requires inside { IsReadable H.KIND (H.seen heap.now) gc_ref.now offset 2 }
    ensures { ReadsData H.KIND (H.seen heap.now) gc_ref.now offset 2 (unsigned_at w16) result }
{
    u16::from_le_bytes(bytes_of(heap, gc_ref, offset))
}

/// The 32-bit number at an offset of an object.
#[inline(always)]
pub fn read_u32<H: GcHeap>(heap: &H, gc_ref: &VMGcRef, offset: u32) -> u32
    requires sound { H.sound heap.now }
    requires inside { IsReadable H.KIND (H.seen heap.now) gc_ref.now offset 4 }
    ensures { ReadsData H.KIND (H.seen heap.now) gc_ref.now offset 4 (unsigned_at w32) result }
{
    u32::from_le_bytes(bytes_of(heap, gc_ref, offset))
}

/// The 64-bit number at an offset of an object.
#[inline(always)]
pub fn read_u64<H: GcHeap>(heap: &H, gc_ref: &VMGcRef, offset: u32) -> u64
    requires sound { H.sound heap.now }
    requires inside { IsReadable H.KIND (H.seen heap.now) gc_ref.now offset 8 }
    ensures { ReadsData H.KIND (H.seen heap.now) gc_ref.now offset 8 (unsigned_at w64) result }
{
    u64::from_le_bytes(bytes_of(heap, gc_ref, offset))
}

/// The vector value at an offset of an object.
#[inline(always)]
pub fn read_v128<H: GcHeap>(heap: &H, gc_ref: &VMGcRef, offset: u32) -> V128
    requires sound { H.sound heap.now }
    requires inside { IsReadable H.KIND (H.seen heap.now) gc_ref.now offset 16 }
    ensures { ReadsData H.KIND (H.seen heap.now) gc_ref.now offset 16 (unsigned_at w128) result }
{
    V128::from(u128::from_le_bytes(bytes_of(heap, gc_ref, offset)))
}

/// Writes a byte at an offset of an object.
pub fn write_u8<H: GcHeap>(heap: &mut H, gc_ref: &VMGcRef, offset: u32, value: u8)
    requires sound { H.sound heap.old }
    requires inside { IsWritable H.KIND (H.seen heap.old) gc_ref.now offset 1 }
    ensures sound { H.sound heap.new }
    ensures written { WritesData H.KIND (H.seen heap.old) (H.seen heap.new) gc_ref.now offset (unsigned_bytes w8 value) }
{
    heap.write_object_data(gc_ref, offset, &value.to_le_bytes());
}

/// Writes a 16-bit number at an offset of an object.
pub fn write_u16<H: GcHeap>(heap: &mut H, gc_ref: &VMGcRef, offset: u32, value: u16)
    requires sound { H.sound heap.old }
    requires inside { IsWritable H.KIND (H.seen heap.old) gc_ref.now offset 2 }
    ensures sound { H.sound heap.new }
    ensures written { WritesData H.KIND (H.seen heap.old) (H.seen heap.new) gc_ref.now offset (unsigned_bytes w16 value) }
{
    heap.write_object_data(gc_ref, offset, &value.to_le_bytes());
}

/// Writes a 32-bit number at an offset of an object.
pub fn write_u32<H: GcHeap>(heap: &mut H, gc_ref: &VMGcRef, offset: u32, value: u32)
    requires sound { H.sound heap.old }
    requires inside { IsWritable H.KIND (H.seen heap.old) gc_ref.now offset 4 }
    ensures sound { H.sound heap.new }
    ensures written { WritesData H.KIND (H.seen heap.old) (H.seen heap.new) gc_ref.now offset (unsigned_bytes w32 value) }
{
    heap.write_object_data(gc_ref, offset, &value.to_le_bytes());
}

/// Writes a 64-bit number at an offset of an object.
pub fn write_u64<H: GcHeap>(heap: &mut H, gc_ref: &VMGcRef, offset: u32, value: u64)
    requires sound { H.sound heap.old }
    requires inside { IsWritable H.KIND (H.seen heap.old) gc_ref.now offset 8 }
    ensures sound { H.sound heap.new }
    ensures written { WritesData H.KIND (H.seen heap.old) (H.seen heap.new) gc_ref.now offset (unsigned_bytes w64 value) }
{
    heap.write_object_data(gc_ref, offset, &value.to_le_bytes());
}

/// Writes a vector value at an offset of an object.
pub fn write_v128<H: GcHeap>(heap: &mut H, gc_ref: &VMGcRef, offset: u32, value: V128)
    requires sound { H.sound heap.old }
    requires inside { IsWritable H.KIND (H.seen heap.old) gc_ref.now offset 16 }
    ensures sound { H.sound heap.new }
    ensures written { WritesData H.KIND (H.seen heap.old) (H.seen heap.new) gc_ref.now offset (unsigned_bytes w128 value) }
{
    heap.write_object_data(gc_ref, offset, &value.as_u128().to_le_bytes());
}
