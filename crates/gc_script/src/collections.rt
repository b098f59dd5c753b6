//! The commands that collect.

ghost use Rattle.std.specs.Prelude.{◌≡◌, ℕ, Ok};
ghost use Rattle.gc_commands.specs.declared.command.Command.TheVariants as Command;
ghost use Rattle.gc_model.specs.Allocation.{Limits};
ghost use Rattle.gc_model.specs.Holds.{HoldsKept};
ghost use Rattle.gc_script.specs.State.{State, HoldsState};
ghost use Rattle.gc_script.specs.Steps.{Keeps};
ghost use Rattle.gc_script.specs.Run.{RunsOne};
ghost use Rattle.gc_store.specs.Stores.{IsSameStore};

use crate::runner::Runner;
use gc_commands::Reply;
use gc_heap::GcHeap;
use gc_store::Store;

/// What the heap holds after a collection, as a reply tells it.
fn held<H: GcHeap>(store: &Store<H, u64>) -> Reply
    ensures { (s : State) → HoldsKept H.KIND store.now s.table → Keeps H.KIND s result }
{
    Reply::Held {
        objects: store.held_objects(),
        hosts: store.held_host_values(),
    }
}

impl Runner {
    /// Collects, and tells what the heap holds.
    pub(crate) fn collect<H: GcHeap>(&self, store: &mut Store<H, u64>) -> Reply
        ensures runs { (limits : Limits) (s : State) → HoldsState H.KIND store.old self.now s
            → RunsOne H.KIND store.old.alloc_counter limits limits s Command.Gc (Ok result) store.new self.now }
        ensures kept { (s : State) → HoldsState H.KIND store.old self.now s → HoldsKept H.KIND store.new s.table }
        ensures same { IsSameStore store.old store.new }
    {
        store.gc();
        held(store)
    }

    /// Begins a collection, drops it after its first increment, and tells what the heap holds.
    pub(crate) fn collect_dropped<H: GcHeap>(&self, store: &mut Store<H, u64>) -> Reply
        ensures runs { (limits : Limits) (s : State) → HoldsState H.KIND store.old self.now s
            → RunsOne H.KIND store.old.alloc_counter limits limits s Command.GcDrop (Ok result) store.new self.now }
        ensures kept { (s : State) → HoldsState H.KIND store.old self.now s → HoldsKept H.KIND store.new s.table }
        ensures same { IsSameStore store.old store.new }
    {
        store.gc_dropped();
        held(store)
    }

    /// Collects increment by increment, and tells how many there were.
    pub(crate) fn collect_by_increments<H: GcHeap>(&self, store: &mut Store<H, u64>) -> Reply
        ensures runs { (limits : Limits) (s : State) → HoldsState H.KIND store.old self.now s
            → RunsOne H.KIND store.old.alloc_counter limits limits s Command.GcInc (Ok result) store.new self.now }
        ensures kept { (s : State) → HoldsState H.KIND store.old self.now s → HoldsKept H.KIND store.new s.table }
        ensures same { IsSameStore store.old store.new }
    {
        Reply::Increments(store.gc_by_increments())
    }
}
