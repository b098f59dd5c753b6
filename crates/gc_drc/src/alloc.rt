//! Allocation: the free list tells where a new object goes. Its count is 1, for the word that is
//! answered.

ghost use Rattle.std.specs.Prelude.{ℕ, ◌≡◌};
ghost use Rattle.gc_types.specs.declared.kind.Layouts.TheVariants.{Counting};
ghost use Rattle.gc_types.specs.declared.kind.VMGcKind.{VMGcKind};
ghost use Rattle.gc_refs.specs.Header.{IsOfKind};
ghost use Rattle.gc_heap.specs.Heap.{Allocated};
ghost use Rattle.gc_heap.specs.Making.{CanMake, made};
ghost use Rattle.gc_drc.specs.Content.{IsSoundSpace, counting_seen_in};

use crate::space::CountedSpace;
use gc_heap::{FirstWord, HeapFault};
use gc_refs::{VMGcHeader, VMGcRef};
use gc_types::Layouts;

impl CountedSpace {
    /// Allocates an object of `size` bytes with that header and first word, whose data is 0 behind it and whose count is 1.
    pub(crate) fn allocate_counted(
        &mut self,
        header: VMGcHeader,
        first: FirstWord,
        size: u64,
    ) -> Result<Result<VMGcRef, u64>, HeapFault>
        requires sound { IsSoundSpace self.old }
        requires can { CanMake Counting header first size }
        ensures sound { IsSoundSpace self.new }
        ensures allocated { (scopes : ℕ) (kind : VMGcKind) → IsOfKind kind header.kind_word
            → Allocated Counting (counting_seen_in scopes self.old) (counting_seen_in scopes self.new) (made Counting kind header first size) size result }
    {
        match self.allocate_zeroed(header, size) {
            Ok(Ok(object)) => {
                first.write(&mut self.memory, Layouts::Counting, object.as_raw_u32());
                Ok(Ok(object))
            }
            Ok(Err(need)) => Ok(Err(need)),
            Err(fault) => Err(fault),
        }
    }
}
