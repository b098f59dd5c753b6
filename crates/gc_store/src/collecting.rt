//! A collection in increments, as a guard of its store.

ghost use Rattle.std.specs.Prelude.{◌≡◌, ◌+◌, ◌<◌, ◌≤◌, ℕ, Bool, true, false};
ghost use Rattle.gc_model.specs.Stores.{StoreView};
ghost use Rattle.gc_owner.specs.Owners.{heap_kind};
ghost use Rattle.gc_owner.specs.Going.{left_of};
ghost use Rattle.gc_store.specs.Collectings.{IsSpent, spent_from, IsOpen, IsClosed, DoesIncrement, CountsCollection};

use crate::store::Store;
use crate::suspended::{Suspended, Suspends};
use gc_heap::{GcHeap, GcProgress};
use gc_steps::Steps;
use std::mem;
use std::sync::ledger::Ledger;

/// The guard of something that was taken out of its place, which it gives back where it is dropped.
pub struct Guard<'a, S: Suspends + Drop> {
    home: &'a mut S::Home,
    inside: S,
}

/// A collection of a store's heap that is done in increments, between which other work may be done. The store is borrowed until the
/// guard is dropped, and is collected then as `gc` does it: what is left is done. Where no increment was done nothing is collected.
/// While the guard lives, a spent store stands in the store's place, and where the guard is forgotten (`std::mem::forget`) it stays there:
/// it has nothing in it, no types either, and refuses every handle of a root; it gets no root, and its heap is never made (`Memory`). No call of
/// the guard takes memory.
pub type Collecting<'a, H, D> = Guard<'a, Suspended<H, D>>;

impl<H: GcHeap + Drop, D: Drop> Store<H, D> {
    /// Starts a collection whose increments are done by the guard. Where the heap is made, the owned roots without handles are dropped
    /// at once; nothing else is done before the first increment. It takes no memory, and its time is linear in the owned roots.
    pub fn gc_start(&mut self) -> Collecting<'_, H, D>
        ensures same_reference { result.home.ghost_name ≡ self.entry.ghost_name }
        ensures spent { IsSpent D H.KIND result.home.now }
        ensures place { result.home.now ≡ spent_from self.old }
        ensures starts { IsOpen (heap_kind H.KIND H.seen H.sound H.under_way) self.old 0 true result.inside }
    {
        let spent = Store::spent(self.allocator(), self.id, self.config);
        let inside = Suspended::new(mem::replace(self, spent));
        Guard { home: self, inside }
    }
}

impl<H: GcHeap + Drop, D: Drop> Guard<'_, Suspended<H, D>> {
    /// Does one increment, and answers whether the collection is complete. The first one begins it, from the roots that stood where
    /// the guard was made. After `Complete`, and where no heap is made, it answers `Complete` and changes nothing. It takes no memory.
    pub fn collect_increment(&mut self) -> GcProgress
        ensures same_reference { self.new.home.ghost_name ≡ self.old.home.ghost_name }
        ensures home { self.new.home.now ≡ self.old.home.now }
        ensures goes { (old : StoreView D) (done : ℕ) (counted : Bool)
            → IsOpen (heap_kind H.KIND H.seen H.sound H.under_way) old done counted self.old.inside
            → DoesIncrement (heap_kind H.KIND H.seen H.sound H.under_way) old (done + 1) self.new.inside result }
        ensures over { (old : StoreView D) → IsClosed (heap_kind H.KIND H.seen H.sound H.under_way) old self.old.inside
            → (result ≡ GcProgress.Complete) × (self.new.inside ≡ self.old.inside) }
        ensures begun { self.new.inside.begun ≡ true }
        ensures less { result ≡ GcProgress.Continue → self.old.inside.begun ≡ true
            → left_of H.left self.new.inside.owner.heap self.new.inside.owner.state < left_of H.left self.old.inside.owner.heap self.old.inside.owner.state }
    {
        self.inside.increment()
    }

    /// Does all increments that are left, of a collection that wasn't begun all. It takes no memory.
    pub fn collect(&mut self)
        ensures same_reference { self.new.home.ghost_name ≡ self.old.home.ghost_name }
        ensures home { self.new.home.now ≡ self.old.home.now }
        ensures closes { (old : StoreView D) (done : ℕ) (counted : Bool)
            → IsOpen (heap_kind H.KIND H.seen H.sound H.under_way) old done counted self.old.inside
            → IsClosed (heap_kind H.KIND H.seen H.sound H.under_way) old self.new.inside }
        ensures over { (old : StoreView D) → IsClosed (heap_kind H.KIND H.seen H.sound H.under_way) old self.old.inside
            → self.new.inside ≡ self.old.inside }
    {
        self.inside.collect();
    }

    /// The same, and counts its steps: in a copying heap one for each object that the roots reach, for each reference in them, and
    /// for each root that isn't null, where no increment was done before. Of the other heaps no clause says how many they are.
    pub fn collect_counted<G: Ledger>(&mut self, steps: &mut Steps<G>)
        ensures same_reference { self.new.home.ghost_name ≡ self.old.home.ghost_name }
        ensures home { self.new.home.now ≡ self.old.home.now }
        ensures closes { (old : StoreView D) (done : ℕ) (counted : Bool)
            → IsOpen (heap_kind H.KIND H.seen H.sound H.under_way) old done counted self.old.inside
            → IsClosed (heap_kind H.KIND H.seen H.sound H.under_way) old self.new.inside }
        ensures over { (old : StoreView D) → IsClosed (heap_kind H.KIND H.seen H.sound H.under_way) old self.old.inside
            → (self.new.inside ≡ self.old.inside) × (steps.new ≡ steps.old) }
        ensures counted { (old : StoreView D) → IsOpen (heap_kind H.KIND H.seen H.sound H.under_way) old 0 true self.old.inside
            → old.heap.attached ≡ true → CountsCollection H.KIND old 0 steps.old steps.new }
        ensures rises { steps.old ≤ steps.new }
    {
        self.inside.collect_counted(steps);
    }
}

impl<S: Suspends + Drop> Drop for Guard<'_, S> {
    /// Gives back what was taken out of its place: of a collection that was begun what is left is done first. It takes no memory.
    fn drop(self)
        ensures gives { S.Gives self.entry.inside self.exit.0.now }
    {
        let Guard { home, inside } = self;
        *home = inside.give_back();
    }
}
