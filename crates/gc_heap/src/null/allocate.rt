//! New objects of a null heap.

ghost use Rattle.std.specs.Prelude.{ℕ, ◌≡◌, ◌+◌, ◌*◌, ◌/◌, ◌%◌, ◌≤◌, ◌<◌, ◌^◌, true, length, take, drop};
ghost use Rattle.gc_types.specs.declared.kind.Layouts.TheVariants.{Null};
ghost use Rattle.gc_types.specs.declared.kind.VMGcKind.{VMGcKind};
ghost use Rattle.gc_refs.specs.Header.{IsOfKind};
ghost use Rattle.gc_view.specs.Bytes.{SameBytes};
ghost use Rattle.gc_heap.specs.Heap.{Allocated};
ghost use Rattle.gc_heap.specs.NullWalk.{data_with, bump_word_end, placed, IsNew, AppendsObject};
ghost use Rattle.gc_heap.specs.NullStates.{bump_view, null_seen, IsBumped, IsNullSound};

use super::{NullHeap, WORD};
use crate::fault::HeapFault;
use crate::sizes::{NULL_LIMIT, need, round_up};
use gc_memory::HeapMemory;
use gc_memory::offsets::HEADER_SIZE;
use gc_refs::{VMGcHeader, VMGcRef};
use gc_types::Layouts;

/// Writes the data of a new object of `size` bytes at a place: its first word where that is told, and
/// zeros.
#[inline(always)]
fn write_data(memory: &mut HeapMemory, place: u32, size: u32, word: Option<u32>)
    requires word { bump_word_end word ≤ size }
    requires room { place + size ≤ length memory.old }
    ensures below { SameBytes memory.old memory.new 0 (place + 8) }
    ensures data_is { take (length (data_with word size)) (drop (place + 8) memory.new) ≡ data_with word size }
{
    let at = place as usize + HEADER_SIZE as usize;
    match word {
        None => memory.fill_zero(at, (size - HEADER_SIZE) as usize),
        Some(word) => {
            memory.write_u32(at, word);
            let rest = size - (HEADER_SIZE + WORD);
            memory.fill_zero(at + WORD as usize, rest as usize);
        }
    }
}

/// Writes a new object of `size` bytes at a place.
#[inline(always)]
fn write_object(
    memory: &mut HeapMemory,
    place: u32,
    header: VMGcHeader,
    size: u32,
    word: Option<u32>,
)
    requires new { IsNew header word size }
    requires small { size < NULL_LIMIT }
    requires room { place + size ≤ length memory.old }
    ensures { (kind : VMGcKind) → IsOfKind kind header.kind_word → AppendsObject memory.old memory.new place (placed kind header.type_word word size) size }
{
    let at = place as usize;
    let mut sized = header;
    sized.set_reserved_u26(size);
    memory.write_u32(at, sized.kind_word());
    memory.write_u32(at + WORD as usize, sized.type_index().as_u32());
    write_data(memory, place, size, word);
}

/// Allocates an object behind those of a memory, in the time that it takes to make it 0.
#[inline(always)]
fn allocate_in(
    memory: &mut HeapMemory,
    next: &mut u32,
    objects: &mut u64,
    header: VMGcHeader,
    size: u32,
    word: Option<u32>,
) -> Result<Result<VMGcRef, u64>, HeapFault>
    requires bumped { IsBumped memory.old next.old objects.old }
    requires new { IsNew header word size }
    ensures bumped { IsBumped memory.new next.new objects.new }
    ensures allocated { (scopes : ℕ) (kind : VMGcKind) → IsOfKind kind header.kind_word
        → Allocated Null (bump_view memory.old next.old objects.old scopes) (bump_view memory.new next.new objects.new scopes)
        (placed kind header.type_word word size) size result }
{
    if size >= NULL_LIMIT {
        return Err(HeapFault::TooLarge);
    }
    let place = round_up(u64::from(*next));
    let end = place + u64::from(size);
    if end > u64::from(memory.capacity()) {
        return Ok(Err(need(Layouts::Null, u64::from(size))));
    }
    write_object(memory, place as u32, header, size, word);
    *next = end as u32;
    *objects += 1;
    match VMGcRef::from_raw_u32(place as u32) {
        Some(gc_ref) => Ok(Ok(gc_ref)),
        None => unreachable!(),
    }
}

impl NullHeap {
    /// Allocates an object of `size` bytes with that header, and with that first word of data where
    /// it is told; the other bytes of its data are 0. The inner Err is the number of bytes that the
    /// memory would have to grow by.
    #[inline(always)]
    pub(super) fn allocate(
        &mut self,
        header: VMGcHeader,
        size: u32,
        word: Option<u32>,
    ) -> Result<Result<VMGcRef, u64>, HeapFault>
        requires sound { IsNullSound self.old }
        requires attached { (null_seen self.old).attached ≡ true }
        requires new { IsNew header word size }
        ensures sound { IsNullSound self.new }
        ensures allocated { (kind : VMGcKind) → IsOfKind kind header.kind_word
            → Allocated Null (null_seen self.old) (null_seen self.new) (placed kind header.type_word word size) size result }
    {
        match &mut self.memory {
            Some(memory) => allocate_in(
                memory,
                &mut self.next,
                &mut self.objects,
                header,
                size,
                word,
            ),
            None => unreachable!(),
        }
    }
}
