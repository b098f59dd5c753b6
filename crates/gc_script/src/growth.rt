//! The commands on the pages of the heap.

ghost use Rattle.std.specs.Prelude.{◌≡◌, Ok};
ghost use Rattle.gc_commands.specs.declared.command.Command.TheVariants as Command;
ghost use Rattle.gc_script.specs.Endings.{answer_of};
ghost use Rattle.gc_script.specs.State.{State, HoldsState};
ghost use Rattle.gc_script.specs.Run.{RunsOne, GoesOn};
ghost use Rattle.gc_store.specs.Stores.{IsSameStore};

use crate::ending::Ending;
use crate::runner::Runner;
use gc_commands::{Refusal, Reply};
use gc_heap::GcHeap;
use gc_store::{GrowFault, ResourceLimiter, Store};

impl Runner {
    /// Lets the heap grow by so many bytes.
    pub(crate) fn grow<H: GcHeap, L: ResourceLimiter>(
        &self,
        store: &mut Store<H, u64>,
        limiter: &mut L,
        bytes: u64,
    ) -> Ending
        ensures runs { (s : State) → HoldsState H.KIND store.old self.now s
            → RunsOne H.KIND store.old.alloc_counter (L.limits limiter.old) (L.limits limiter.new) s
            (Command.Grow bytes) (answer_of result) store.new self.now }
        ensures same { IsSameStore store.old store.new }
    {
        match store.gc_heap_grow(limiter, bytes) {
            Ok(()) => Ending::Done,
            Err(GrowFault::GcHeapGrowthFailed) => Ending::Refused(Refusal::GcHeapGrowthFailed),
            Err(GrowFault::Memory) => Ending::OutOfMemory,
        }
    }

    /// The bytes of the heap's memory.
    pub(crate) fn capacity<H: GcHeap>(&self, store: &Store<H, u64>) -> Reply
        ensures goes { (s : State) → HoldsState H.KIND store.now self.now s → GoesOn H.KIND s Command.Cap (Ok result) store.now self.now }
    {
        Reply::Capacity(store.gc_heap_capacity() as u64)
    }
}
