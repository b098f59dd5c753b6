//! Collections that are done increment by increment.

ghost use Rattle.std.specs.Prelude.{◌≡◌, ℕ, ◌-◌, ◌^◌, min, true};
ghost use Rattle.gc_heap.specs.Collection.{Start, IsIncrements};
ghost use Rattle.gc_model.specs.Table.{Table};
ghost use Rattle.gc_model.specs.Holds.{HoldsTable};
ghost use Rattle.gc_owner.specs.Owners.{OwnerValue, Collects, IsEnded, IsOwnerUnderWay, heap_kind};
ghost use Rattle.gc_store.specs.Collectings.{IsCollected};
ghost use Rattle.gc_store.specs.IncrementCounts.{CountsIncrements, TakesIncrements};

use crate::store::Store;
use gc_heap::{GcHeap, GcProgress};
use gc_owner::HeapOwner;

/// Does the increments of a collection of which none was done, and says how many there were.
fn run_increments<H: GcHeap, D: Drop>(owner: &mut HeapOwner<H, D>) -> u64
    ensures ended { (s : Start) (begun : OwnerValue H H.State D) → IsOwnerUnderWay (heap_kind H.KIND H.seen H.sound H.under_way) s 0 true begun owner.old
        → IsEnded H.KIND begun owner.new }
    ensures counted { (s : Start) (begun : OwnerValue H H.State D) → IsOwnerUnderWay (heap_kind H.KIND H.seen H.sound H.under_way) s 0 true begun owner.old
        → (n : ℕ) × (IsIncrements H.KIND s n × (result ≡ min n (2 ^ 64 - 1))) }
{
    let mut count: u64 = 0;
    'increments: loop {
        let progress = owner.increment();
        count = count.saturating_add(1);
        match progress {
            GcProgress::Continue => {}
            GcProgress::Complete => return count,
        }
    }
}

/// Collects increment by increment, and says how many there were.
fn collect_by_increments<H: GcHeap, D: Drop>(owner: &mut HeapOwner<H, D>) -> u64
    requires idle { owner.old.seen.idle ≡ true }
    requires attached { owner.old.seen.heap.attached ≡ true }
    ensures collects { Collects H.KIND owner.old.seen owner.new.seen }
    ensures counted { CountsIncrements H.KIND owner.old.seen result }
{
    owner.begin();
    run_increments(owner)
}

/// Begins a collection and drops it after its first increment: what is left of it is done then.
fn collect_dropped<H: GcHeap, D: Drop>(owner: &mut HeapOwner<H, D>)
    requires idle { owner.old.seen.idle ≡ true }
    requires attached { owner.old.seen.heap.attached ≡ true }
    ensures { Collects H.KIND owner.old.seen owner.new.seen }
{
    owner.begin();
    owner.increment();
    owner.finish();
}

impl<H: GcHeap, D: Drop> Store<H, D> {
    /// Collects as `gc` does, increment by increment, and says how many there were: 1 in a null heap, 3 in a counting
    /// heap, and in a copying heap 3 and one more for each 16,384 objects that the roots reach; 0 where no heap is
    /// made. It takes no memory.
    pub fn gc_by_increments(&mut self) -> u64
        ensures collected { IsCollected H.KIND self.old self.new }
        ensures increments { (t : Table D) → HoldsTable H.KIND self.old t → TakesIncrements H.KIND t result }
    {
        self.owner.is_ready();
        if self.owner.is_made() {
            collect_by_increments(&mut self.owner)
        } else {
            0
        }
    }

    /// Begins a collection and drops it after its first increment. It is then run to its end, so it collects as `gc`
    /// does. It takes no memory.
    pub fn gc_dropped(&mut self)
        ensures { IsCollected H.KIND self.old self.new }
    {
        self.owner.is_ready();
        if self.owner.is_made() {
            collect_dropped(&mut self.owner);
        }
    }
}
