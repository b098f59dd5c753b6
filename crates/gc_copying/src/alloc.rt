//! Allocation: each object goes behind the last one of the active half.

ghost use Rattle.std.specs.Prelude.{ℕ, ◌≡◌, ◌+◌, ◌≤◌, length};
ghost use Rattle.gc_types.specs.declared.kind.Layouts.TheVariants.{Copying};
ghost use Rattle.gc_types.specs.declared.kind.VMGcKind.{VMGcKind};
ghost use Rattle.gc_refs.specs.Header.{IsOfKind};
ghost use Rattle.gc_heap.specs.Heap.{Allocated};
ghost use Rattle.gc_heap.specs.Making.{CanMake, made};
ghost use Rattle.gc_copying.specs.Linking.{link_end, with_link};
ghost use Rattle.gc_copying.specs.States.{IsSoundSemiSpace, copying_seen_in};

use crate::blocks::Room;
use crate::space::Space;
use gc_heap::{FirstWord, HeapFault};
use gc_memory::offsets::COPYING_NEXT_EXTERNAL;
use gc_refs::{VMGcHeader, VMGcRef};
use gc_types::Layouts;

impl Space {
    /// Puts a new object in front of the list of external objects where it is one.
    fn link_external(&mut self, place: u32, first: &FirstWord)
        requires { place + link_end first.now ≤ length self.old.memory }
        ensures { self.new ≡ with_link self.old place first.now }
    {
        match first {
            FirstWord::Host(_) => {
                let next_at = place as usize + COPYING_NEXT_EXTERNAL as usize;
                self.memory.write_u32(next_at, self.externals);
                self.externals = place;
            }
            FirstWord::Zero | FirstWord::Length(_) => {}
        }
    }

    /// Allocates an object of `size` bytes with that header and first word, whose data is 0 behind it.
    #[inline(always)]
    pub(crate) fn allocate(
        &mut self,
        header: VMGcHeader,
        first: FirstWord,
        size: u64,
    ) -> Result<Result<VMGcRef, u64>, HeapFault>
        requires sound { IsSoundSemiSpace self.old }
        requires can { CanMake Copying header first size }
        ensures sound { IsSoundSemiSpace self.new }
        ensures allocated { (scopes : ℕ) (kind : VMGcKind) → IsOfKind kind header.kind_word
            → Allocated Copying (copying_seen_in scopes self.old) (copying_seen_in scopes self.new) (made Copying kind header first size) size result }
    {
        match self.room(size) {
            Room::Fits(block) => {
                let object = self.write_object(header, block);
                let place = object.as_raw_u32();
                first.write(&mut self.memory, Layouts::Copying, place);
                self.link_external(place, &first);
                Ok(Ok(object))
            }
            Room::Lacks(need) => Ok(Err(need)),
            Room::TooLarge => Err(HeapFault::TooLarge),
        }
    }
}
