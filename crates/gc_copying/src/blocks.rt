//! Room for new objects, and what is written for each.
//!
//! ```text
//! offset   0           4           8      12              the next multiple of 16
//!          +-----------+-----------+------+---------------+
//!          | kind word | type word | size | data, zeroed  |
//!          +-----------+-----------+------+---------------+
//! ```

ghost use Rattle.std.specs.Prelude.{ℕ, ◌≡◌, ◌+◌, ◌-◌, ◌*◌, ◌/◌, ◌≤◌, ◌<◌, ◌^◌, length, IfSome, IfNone};
ghost use Rattle.gc_types.specs.declared.kind.Layouts.TheVariants.{Copying};
ghost use Rattle.gc_types.specs.Layouts.{round_up};
ghost use Rattle.gc_view.specs.Sizes.{alignment};
ghost use Rattle.gc_heap.specs.Heap.{IsTooLarge};
ghost use Rattle.gc_copying.specs.States.{IsSoundSemiSpace, copying_seen_in};
ghost use Rattle.gc_copying.specs.Placing.{CanPlaceBehind, WritesCopyingBlock, TellsRoom};

use crate::space::Space;
use gc_heap::HeapMemory;
use gc_heap::sizes::{need, round_up, size_limit};
use gc_memory::offsets::{COPYING_FORWARDING, COPYING_SIZE};
use gc_refs::{VMGcHeader, VMGcRef};
use gc_types::Layouts;

/// Whether a new object fits behind the last one.
#[derive(Clone, Copy, Debug, PartialEq, Eq)]
pub(crate) enum Room {
    /// It fits, and takes this many bytes.
    Fits(u32),
    /// The memory would have to grow by this many bytes.
    Lacks(u64),
    /// No heap can hold it.
    TooLarge,
}

/// The bytes that an object of `size` bytes takes: the next multiple of 16. None exactly where no heap can
/// hold them.
fn block_size(size: u64) -> Option<u32>
    ensures some { IfSome result (λ block. (block ≡ round_up size alignment) × (IsTooLarge Copying size → ⊥)) }
    ensures none { IfNone result (IsTooLarge Copying size) }
{
    if size >= size_limit(Layouts::Copying) {
        return None;
    }
    Some(round_up(size) as u32)
}

/// Writes the header, the size and the zeroed data of a new object of `size` bytes at a place.
#[inline(always)]
fn write_block(memory: &mut HeapMemory, place: u32, header: VMGcHeader, size: u32)
    requires least { 16 ≤ size }
    requires room { place + size ≤ length memory.old }
    ensures { WritesCopyingBlock memory.old memory.new place header size }
{
    let at = place as usize;
    memory.write_header(at, header);
    memory.write_u32(at + COPYING_SIZE as usize, size);
    memory.fill_zero(
        at + COPYING_FORWARDING as usize,
        (size - COPYING_FORWARDING) as usize,
    );
}

impl Space {
    /// Whether an object of `size` bytes fits behind the last one.
    #[inline(always)]
    pub(crate) fn room(&self, size: u64) -> Room
        requires sound { IsSoundSemiSpace self.now }
        requires positive { 0 < size }
        ensures { (scopes : ℕ) → TellsRoom (copying_seen_in scopes self.now) size result }
    {
        match block_size(size) {
            None => Room::TooLarge,
            Some(block) => {
                if u64::from(self.bump) + u64::from(block) <= u64::from(self.limit()) {
                    Room::Fits(block)
                } else {
                    Room::Lacks(need(Layouts::Copying, size))
                }
            }
        }
    }

    /// Writes a new object of `size` bytes behind the last one, and answers its place.
    #[inline(always)]
    pub(crate) fn write_object(&mut self, header: VMGcHeader, size: u32) -> VMGcRef
        requires { CanPlaceBehind self.old.memory self.old.bump self.old.objects size }
        ensures place { result ≡ self.old.bump }
        ensures moved { self.new ≡ record self.old { memory = self.new.memory; bump = self.old.bump + size; objects = self.old.objects + 1 } }
        ensures block { WritesCopyingBlock self.old.memory self.new.memory self.old.bump header size }
    {
        let place = self.bump;
        write_block(&mut self.memory, place, header, size);
        self.bump = place + size;
        self.objects += 1;
        match VMGcRef::from_raw_u32(place) {
            Some(gc_ref) => gc_ref,
            None => unreachable!(),
        }
    }
}
