//! Reads of the objects in a memory, by the words that lie at their places.
//!
//! Each read is in constant time and safe for every word: one that names no object may be refused, or is read as the words at
//! its place tell, and never outside the memory.

ghost use Rattle.std.specs.Prelude.{ℕ, ◌≡◌, ◌+◌, ◌%◌, ◌≤◌, ◌<◌, ◌↔◌, IfOk, IsErr, IsOkAnd, IsTrue, length};
ghost use Rattle.gc_types.specs.Layouts.{struct_base};
ghost use Rattle.gc_types.specs.declared.kind.VMGcKind.TheVariants.{ArrayRef, ExternRef};
ghost use Rattle.gc_refs.specs.Header.{IsOfKind};
ghost use Rattle.gc_view.specs.Bytes.{u32_at};
ghost use Rattle.gc_view.specs.Heaps.{HeapObject};
ghost use Rattle.gc_heap.specs.Extents.{array_length, held_size};
ghost use Rattle.gc_heap.specs.FreedHosts.{IsHostWord};
ghost use Rattle.gc_heap.specs.Lying.{IsRange, LiesIn, told_size};
ghost use Rattle.gc_heap.specs.Objects.{IsHeaderOf, IsObjectData};

use gc_memory::HeapMemory;
use gc_memory::offsets::{ALIGNMENT, COPYING_SIZE, COUNTING_SIZE, array_length, host_id};
use gc_refs::{RefFault, VMArrayRef, VMExternRef, VMGcHeader, VMGcObjectData, VMGcRef};
use gc_tables::ExternRefHostDataId;
use gc_types::{Layouts, VMGcKind};
use std::ops::Range;

/// The size that the words at a place tell.
#[inline(always)]
fn told_size(memory: &HeapMemory, layouts: Layouts, place: u32) -> u32
    requires { place + struct_base layouts ≤ length memory.now }
    ensures { result ≡ told_size layouts memory.now place }
{
    let at = place as usize;
    match layouts {
        Layouts::Null => memory.read_header(at).reserved_u26(),
        Layouts::Counting => memory.read_u32(at + COUNTING_SIZE as usize),
        Layouts::Copying => memory.read_u32(at + COPYING_SIZE as usize),
    }
}

/// Whether a header is one of an object of that kind.
fn is_of_kind(header: VMGcHeader, kind: VMGcKind) -> bool
    ensures { IsTrue result ↔ IsOfKind kind header.kind_word }
{
    header.kind() == Some(kind)
}

/// Where the bytes of an object lie. `BadRef` where they would not lie in the memory.
#[inline(always)]
pub fn object_range(
    memory: &HeapMemory,
    layouts: Layouts,
    gc_ref: &VMGcRef,
) -> Result<Range<usize>, RefFault>
    ensures inside { IfOk result (λ range. IsRange layouts memory.now gc_ref.now range.start range.end) }
    ensures held { (o : HeapObject) → LiesIn layouts memory.now gc_ref.now o
        → IsOkAnd result (λ range. (range.start ≡ gc_ref.now) × (range.end ≡ gc_ref.now + held_size layouts o)) }
    ensures number { gc_ref.now % 2 ≡ 1 → IsErr result }
{
    let place = gc_ref.as_raw_u32();
    let start = place as usize;
    let least = layouts.struct_base();
    let bytes = memory.byte_size();
    if place % ALIGNMENT != 0 || start + least as usize > bytes {
        return Err(RefFault::BadRef);
    }
    let size = told_size(memory, layouts, place);
    let end = start + size as usize;
    if size < least || end > bytes {
        return Err(RefFault::BadRef);
    }
    Ok(start..end)
}

/// How many bytes an object takes.
pub fn object_size(
    memory: &HeapMemory,
    layouts: Layouts,
    gc_ref: &VMGcRef,
) -> Result<usize, RefFault>
    ensures held { (o : HeapObject) → LiesIn layouts memory.now gc_ref.now o → IsOkAnd result (λ size. size ≡ held_size layouts o) }
    ensures number { gc_ref.now % 2 ≡ 1 → IsErr result }
{
    match object_range(memory, layouts, gc_ref) {
        Ok(range) => Ok(range.end - range.start),
        Err(fault) => Err(fault),
    }
}

/// The header of an object.
#[inline(always)]
pub fn header(
    memory: &HeapMemory,
    layouts: Layouts,
    gc_ref: &VMGcRef,
) -> Result<VMGcHeader, RefFault>
    ensures held { (o : HeapObject) → LiesIn layouts memory.now gc_ref.now o → IsOkAnd result (IsHeaderOf layouts o) }
    ensures number { gc_ref.now % 2 ≡ 1 → IsErr result }
{
    match object_range(memory, layouts, gc_ref) {
        Ok(range) => Ok(memory.read_header(range.start)),
        Err(fault) => Err(fault),
    }
}

/// Lends the bytes of an object for reading.
#[inline(always)]
pub fn object_data<'a>(
    memory: &'a HeapMemory,
    layouts: Layouts,
    gc_ref: &VMGcRef,
) -> Result<VMGcObjectData<'a>, RefFault>
    ensures held { (o : HeapObject) → LiesIn layouts memory.now gc_ref.now o → IsOkAnd result (IsObjectData layouts o) }
    ensures number { gc_ref.now % 2 ≡ 1 → IsErr result }
{
    match object_range(memory, layouts, gc_ref) {
        Ok(range) => Ok(VMGcObjectData::from_slice(memory.slice(
            range.start,
            range.end - range.start,
        ))),
        Err(fault) => Err(fault),
    }
}

/// The word at an offset of an object of that kind; `BadRef` where the word names none.
fn word_of(
    memory: &HeapMemory,
    layouts: Layouts,
    gc_ref: &VMGcRef,
    kind: VMGcKind,
    offset: u32,
) -> Result<u32, RefFault>
    requires { offset ≤ 28 }
    ensures held { (o : HeapObject) → LiesIn layouts memory.now gc_ref.now o → o.kind ≡ kind → offset + 4 ≤ held_size layouts o
        → IsOkAnd result (λ word. word ≡ u32_at memory.now (gc_ref.now + offset)) }
    ensures number { gc_ref.now % 2 ≡ 1 → IsErr result }
{
    match object_range(memory, layouts, gc_ref) {
        Ok(range) => {
            let at = gc_ref.as_raw_u32() as usize + offset as usize;
            let header = memory.read_header(range.start);
            if is_of_kind(header, kind) && at + 4 <= range.end {
                Ok(memory.read_u32(at))
            } else {
                Err(RefFault::BadRef)
            }
        }
        Err(fault) => Err(fault),
    }
}

/// The length of an array.
pub fn array_len(memory: &HeapMemory, layouts: Layouts, array: &VMArrayRef) -> Result<u32, RefFault>
    ensures held { (o : HeapObject) → LiesIn layouts memory.now array.now o → o.kind ≡ ArrayRef → IsOkAnd result (λ count. count ≡ array_length o) }
    ensures number { array.now % 2 ≡ 1 → IsErr result }
{
    word_of(
        memory,
        layouts,
        array.as_gc_ref(),
        VMGcKind::ArrayRef,
        array_length(layouts),
    )
}

/// The id of the host value of an external object.
pub fn host_data(
    memory: &HeapMemory,
    layouts: Layouts,
    external: &VMExternRef,
) -> Result<ExternRefHostDataId, RefFault>
    ensures held { (o : HeapObject) → LiesIn layouts memory.now external.now o → o.kind ≡ ExternRef → IsHostWord (u32_at o.bytes 0)
        → IsOkAnd result (λ id. id + 1 ≡ u32_at o.bytes 0) }
    ensures number { external.now % 2 ≡ 1 → IsErr result }
{
    let word = word_of(
        memory,
        layouts,
        external.as_gc_ref(),
        VMGcKind::ExternRef,
        host_id(layouts),
    );
    match word {
        Ok(raw) => match ExternRefHostDataId::from_raw(raw) {
            Some(id) => Ok(id),
            None => Err(RefFault::BadRef),
        },
        Err(fault) => Err(fault),
    }
}
