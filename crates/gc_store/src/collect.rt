//! Collections, and what the heap holds.

ghost use Rattle.std.specs.Prelude.{ℕ, slice_get};
ghost use Rattle.gc_model.specs.Table.{Table};
ghost use Rattle.gc_model.specs.Reach.{HasNumber, IsKept, IsHost};
ghost use Rattle.gc_model.specs.Holds.{HoldsKept};
ghost use Rattle.gc_model.specs.Collects.{HoldsNumber, HoldsHosts};
ghost use Rattle.gc_store.specs.Collectings.{IsCollected};

use crate::store::Store;
use gc_heap::GcHeap;

impl<H: GcHeap, D: Drop> Store<H, D> {
    /// Collects: a heap that frees holds exactly what the roots reach afterwards. Where no heap is made
    /// it does nothing. It takes no memory, and its time is linear in the roots and what they reach.
    pub fn gc(&mut self)
        ensures { IsCollected H.KIND self.old self.new }
    {
        self.owner.is_ready();
        if self.owner.is_made() {
            self.owner.collect();
        }
    }

    /// How many objects the heap holds now, garbage among them.
    pub fn held_objects(&self) -> u64
        ensures placed { HoldsNumber D H.KIND self.now result }
        ensures kept { (t : Table D) → HoldsKept H.KIND self.now t → HasNumber (IsKept H.KIND t) result }
    {
        self.owner.heap().object_count()
    }

    /// How many host values the store has now: as many as the heap holds host objects, garbage among them.
    pub fn held_host_values(&self) -> u64
        ensures placed { HoldsHosts D H.KIND self.now result }
        ensures kept { (t : Table D) → HoldsKept H.KIND self.now t → HasNumber (λ (p : ℕ). IsKept H.KIND t p × IsHost (slice_get t.objects p)) result }
    {
        self.owner.hosts().len()
    }
}
