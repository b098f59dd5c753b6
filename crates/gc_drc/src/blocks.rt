//! Room for new objects, and what is written for each.

ghost use Rattle.std.specs.Prelude.{◌≡◌, ◌+◌, ◌-◌, ◌≤◌, ◌<◌, length};
ghost use Rattle.gc_drc.specs.Layout.{block_of};
ghost use Rattle.gc_drc.specs.Placing.{CanPlaceAt, WritesCountingBlock, FindsBlock, PlacesBlock};
ghost use Rattle.gc_drc.specs.Content.{IsSoundSpace};

use crate::space::CountedSpace;
use gc_free::FreeList;
use gc_heap::sizes::{need, round_up};
use gc_heap::{HeapFault, HeapMemory};
use gc_memory::offsets::{COUNTING_COUNT, COUNTING_SIZE};
use gc_refs::{VMGcHeader, VMGcRef};
use gc_types::Layouts;

/// Room that was taken for an object of that size.
#[derive(Clone, Copy, Debug, PartialEq, Eq)]
pub(crate) struct NewBlock {
    pub(crate) place: u32,
    pub(crate) size: u32,
}

/// The bytes of the block of an object of that size: the next multiple of 16.
pub(crate) fn block_of(size: u32) -> u64
    ensures { result ≡ block_of size }
{
    round_up(u64::from(size))
}

/// Writes the words and the zeroed data of a new object of `size` bytes at a place.
fn write_block(memory: &mut HeapMemory, place: u32, header: VMGcHeader, size: u32)
    requires least { 28 ≤ size }
    requires room { place + size ≤ length memory.old }
    ensures { WritesCountingBlock memory.old memory.new place header size }
{
    let at = place as usize;
    memory.fill_zero(
        at + COUNTING_COUNT as usize,
        (size - COUNTING_COUNT) as usize,
    );
    memory.write_header(at, header);
    memory.write_u64(at + COUNTING_COUNT as usize, 1);
    memory.write_u32(at + COUNTING_SIZE as usize, size);
}

impl CountedSpace {
    /// Takes room for an object of `size` bytes. The inner Err is the number of bytes that the memory
    /// would have to grow by.
    pub(crate) fn take_block(&mut self, size: u64) -> Result<Result<NewBlock, u64>, HeapFault>
        requires positive { 0 < size }
        ensures { FindsBlock self.old self.new size result }
    {
        let Ok(size) = u32::try_from(size) else {
            let _ = self.free.current_capacity();
            return Err(HeapFault::TooLarge);
        };
        let Some(block) = FreeList::aligned_size(size) else {
            let _ = self.free.current_capacity();
            return Err(HeapFault::TooLarge);
        };
        match self.free.alloc_fast(block) {
            Ok(Some(place)) => Ok(Ok(NewBlock {
                place: place.get(),
                size,
            })),
            Ok(None) => Ok(Err(need(Layouts::Counting, u64::from(size)))),
            Err(_) => Err(HeapFault::Memory),
        }
    }

    /// Allocates an object of `size` bytes with that header, whose data is 0 and which one word names. The
    /// inner Err is the number of bytes that the memory would have to grow by.
    pub(crate) fn allocate_zeroed(
        &mut self,
        header: VMGcHeader,
        size: u64,
    ) -> Result<Result<VMGcRef, u64>, HeapFault>
        requires sound { IsSoundSpace self.old }
        requires least { 28 ≤ size }
        ensures { PlacesBlock self.old self.new header size result }
    {
        match self.take_block(size) {
            Ok(Ok(block)) => Ok(Ok(self.write_object(header, block))),
            Ok(Err(need)) => Ok(Err(need)),
            Err(fault) => Err(fault),
        }
    }

    /// Writes a new object of that header at a block that was taken for it.
    pub(crate) fn write_object(&mut self, header: VMGcHeader, block: NewBlock) -> VMGcRef
        requires { CanPlaceAt self.old block.place block.size }
        ensures place { result ≡ block.place }
        ensures moved { self.new ≡ record self.old {
          memory = self.new.memory;
          objects = self.old.objects + 1;
          allocated = self.old.allocated + block_of block.size;
        } }
        ensures block { WritesCountingBlock self.old.memory self.new.memory block.place header block.size }
    {
        write_block(&mut self.memory, block.place, header, block.size);
        self.objects += 1;
        self.allocated += block_of(block.size) as usize;
        match VMGcRef::from_raw_u32(block.place) {
            Some(gc_ref) => gc_ref,
            None => unreachable!(),
        }
    }
}
