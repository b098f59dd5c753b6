//! A store while its heap is collected in increments: it is out of its place.

ghost use Rattle.std.specs.Prelude.{◌≡◌, ◌+◌, ◌<◌, ◌≤◌, ℕ, Bool, true, false, length};
ghost use Rattle.gc_heap.specs.Content.{IsHeap};
ghost use Rattle.gc_owner.specs.RootColumns.{AreFrames};
ghost use Rattle.gc_model.specs.Stores.{StoreView};
ghost use Rattle.gc_owner.specs.Owners.{Trims, heap_kind};
ghost use Rattle.gc_owner.specs.Counting.{ticks_of};
ghost use Rattle.gc_owner.specs.Going.{left_of};
ghost use Rattle.gc_store.specs.Collectings.{IsOpen, IsClosed, IsRunning, IsAsked, DoesIncrement, GivesStore, CountsCollection};

use crate::store::Store;
use gc_heap::{GcHeap, GcProgress};
use gc_owner::HeapOwner;
use gc_steps::Steps;
use gc_values::config::HeapConfig;
use gc_values::engine::StoreId;
use gc_values::interned::InternedValues;
use gc_values::subtypes::AskedPairs;
use std::marker::Model;
use std::sync::ledger::Ledger;

/// What was taken out of its place, and is given back.
pub trait Suspends {
    /// What stands in the place meanwhile, and what is given back.
    type Home: Drop;

    /// What is given back of this.
    ghost Gives: { Self → Self.Home → Type 0 };

    /// Gives it back, once what is under way has ended.
    fn give_back(self) -> Self::Home
        ensures { Gives self result };
}

/// What a store consists of, and whether its collection was begun.
#[derive(Drop)]
pub struct Suspended<H: GcHeap, D: Drop> {
    id: StoreId,
    config: HeapConfig,
    owner: HeapOwner<H, D>,
    interned: InternedValues,
    slot_counts: Vec<u32>,
    tries: u64,
    mark: usize,
    asked: AskedPairs,
    /// Whether an increment was asked for.
    begun: bool,
}

impl<H: GcHeap, D: Drop> Model for Suspended<H, D> {
    ghost use Rattle.std.specs.Coded.{codes};
    ghost use Rattle.std.specs.FinMap as map;
    ghost use Rattle.gc_store.specs.Suspensions.{SuspendedView, IsSuspended, suspended_view};
    ghost use Rattle.gc_store.specs.Stores.{tables_of};

    ghost Value = { SuspendedView H H.State D };

    ghost coded = { Prim.hlevel (codes, map.code, H.code, H.State.code, D.code) };

    ghost view = { λ c. suspended_view c.id c.config (tables_of c.interned c.asked) c.owner c.tries c.begun };

    ghost invariant = { λ c. IsSuspended (record { layouts = H.KIND; seen = H.seen; sound = H.sound; under_way = H.under_way })
        c.slot_counts.items (suspended_view c.id c.config (tables_of c.interned c.asked) c.owner c.tries c.begun) };
}

/// Drops the owned roots without handles, where the heap is made.
fn trim_made<H: GcHeap, D: Drop>(owner: &mut HeapOwner<H, D>)
    requires idle { owner.old.seen.idle ≡ true }
    ensures heap { IsHeap H.KIND owner.old.seen.heap }
    ensures frames { AreFrames owner.old.seen.roots.frames (length owner.old.seen.roots.slots) }
    ensures made { owner.old.seen.heap.attached ≡ true → Trims H.KIND owner.old.seen owner.new.seen }
    ensures unmade { owner.old.seen.heap.attached ≡ false → owner.new ≡ owner.old }
{
    owner.is_ready();
    if owner.is_made() {
        owner.trim();
    }
}

impl<H: GcHeap, D: Drop> Suspended<H, D> {
    /// Takes a store whose heap is to be collected. Where the heap is made, its owned roots without handles are dropped.
    pub(crate) fn new(store: Store<H, D>) -> Suspended<H, D>
        ensures { IsOpen (heap_kind H.KIND H.seen H.sound H.under_way) store 0 true result }
    {
        let Store {
            id,
            config,
            mut owner,
            interned,
            slot_counts,
            tries,
            mark,
            asked,
        } = store;
        trim_made(&mut owner);
        Suspended {
            id,
            config,
            owner,
            interned,
            slot_counts,
            tries,
            mark,
            asked,
            begun: false,
        }
    }

    /// Begins the collection, where it wasn't begun and the heap is made.
    fn begin(&mut self)
        ensures idle { self.old.begun ≡ false → self.old.owner.seen.idle ≡ true }
        ensures begun { self.new.begun ≡ true }
        ensures begins { (old : StoreView D) → IsAsked (heap_kind H.KIND H.seen H.sound H.under_way) old self.old
            → old.heap.attached ≡ true → IsRunning (heap_kind H.KIND H.seen H.sound H.under_way) old 0 true self.new }
        ensures unmade { (old : StoreView D) → IsAsked (heap_kind H.KIND H.seen H.sound H.under_way) old self.old
            → old.heap.attached ≡ false → self.new ≡ record self.old { begun = true } }
        ensures ticks { (old : StoreView D) → IsAsked (heap_kind H.KIND H.seen H.sound H.under_way) old self.old
            → old.heap.attached ≡ true → ticks_of H.ticks self.new.owner.state ≡ 0 }
        ensures same { self.old.begun ≡ true → self.new ≡ self.old }
    {
        if self.begun {
            return;
        }
        self.begun = true;
        if self.owner.is_made() {
            self.owner.begin_all();
        }
    }

    /// Does an increment, with which the collection begins where it wasn't begun, and answers whether it is complete.
    pub(crate) fn increment(&mut self) -> GcProgress
        ensures goes { (old : StoreView D) (done : ℕ) (counted : Bool) → IsOpen (heap_kind H.KIND H.seen H.sound H.under_way) old done counted self.old
            → DoesIncrement (heap_kind H.KIND H.seen H.sound H.under_way) old (done + 1) self.new result }
        ensures over { (old : StoreView D) → IsClosed (heap_kind H.KIND H.seen H.sound H.under_way) old self.old
            → (result ≡ GcProgress.Complete) × (self.new ≡ self.old) }
        ensures begun { self.new.begun ≡ true }
        ensures less { result ≡ GcProgress.Continue → self.old.begun ≡ true
            → left_of H.left self.new.owner.heap self.new.owner.state < left_of H.left self.old.owner.heap self.old.owner.state }
    {
        self.begin();
        self.step()
    }

    /// Does an increment of the collection that is under way, and answers whether it is complete; with none under way it does nothing.
    fn step(&mut self) -> GcProgress
        ensures goes { (old : StoreView D) (done : ℕ) (counted : Bool) → IsRunning (heap_kind H.KIND H.seen H.sound H.under_way) old done counted self.old
            → DoesIncrement (heap_kind H.KIND H.seen H.sound H.under_way) old (done + 1) self.new result }
        ensures none { self.old.owner.seen.idle ≡ true → (result ≡ GcProgress.Complete) × (self.new ≡ self.old) }
        ensures begun { self.new.begun ≡ self.old.begun }
        ensures less { result ≡ GcProgress.Continue
            → left_of H.left self.new.owner.heap self.new.owner.state < left_of H.left self.old.owner.heap self.old.owner.state }
    {
        self.owner.increment()
    }

    /// Runs the collection to its end.
    pub(crate) fn collect(&mut self)
        ensures closes { (old : StoreView D) (done : ℕ) (counted : Bool) → IsOpen (heap_kind H.KIND H.seen H.sound H.under_way) old done counted self.old
            → IsClosed (heap_kind H.KIND H.seen H.sound H.under_way) old self.new }
        ensures over { (old : StoreView D) → IsClosed (heap_kind H.KIND H.seen H.sound H.under_way) old self.old → self.new ≡ self.old }
    {
        self.begin();
        self.finish();
    }

    /// Does the increments that the collection that is under way has left; with none under way it does nothing.
    fn finish(&mut self)
        ensures ends { (old : StoreView D) (done : ℕ) (counted : Bool) → IsRunning (heap_kind H.KIND H.seen H.sound H.under_way) old done counted self.old
            → IsClosed (heap_kind H.KIND H.seen H.sound H.under_way) old self.new }
        ensures none { self.old.owner.seen.idle ≡ true → self.new ≡ self.old }
    {
        self.owner.finish();
    }

    /// Runs the collection to its end, and counts its steps.
    pub(crate) fn collect_counted<G: Ledger>(&mut self, steps: &mut Steps<G>)
        ensures closes { (old : StoreView D) (done : ℕ) (counted : Bool) → IsOpen (heap_kind H.KIND H.seen H.sound H.under_way) old done counted self.old
            → IsClosed (heap_kind H.KIND H.seen H.sound H.under_way) old self.new }
        ensures over { (old : StoreView D) → IsClosed (heap_kind H.KIND H.seen H.sound H.under_way) old self.old
            → (self.new ≡ self.old) × (steps.new ≡ steps.old) }
        ensures counted { (old : StoreView D) → IsOpen (heap_kind H.KIND H.seen H.sound H.under_way) old 0 true self.old → old.heap.attached ≡ true
            → CountsCollection H.KIND old 0 steps.old steps.new }
        ensures rises { steps.old ≤ steps.new }
    {
        self.begin();
        self.finish_counted(steps);
    }

    /// Does the increments that the collection that is under way has left, and counts their steps; with none under way it does nothing.
    fn finish_counted<G: Ledger>(&mut self, steps: &mut Steps<G>)
        ensures ends { (old : StoreView D) (done : ℕ) (counted : Bool) → IsRunning (heap_kind H.KIND H.seen H.sound H.under_way) old done counted self.old
            → IsClosed (heap_kind H.KIND H.seen H.sound H.under_way) old self.new }
        ensures none { self.old.owner.seen.idle ≡ true → (self.new ≡ self.old) × (steps.new ≡ steps.old) }
        ensures counted { (old : StoreView D) (done : ℕ) → IsRunning (heap_kind H.KIND H.seen H.sound H.under_way) old done true self.old
            → CountsCollection H.KIND old (ticks_of H.ticks self.old.owner.state) steps.old steps.new }
        ensures rises { steps.old ≤ steps.new }
    {
        self.owner.finish_counted(steps);
    }

    /// The store, once the collection that is under way has ended; one that wasn't begun isn't run.
    fn into_store(self) -> Store<H, D>
        ensures { GivesStore (heap_kind H.KIND H.seen H.sound H.under_way) self result }
    {
        let Suspended {
            id,
            config,
            owner: mut ended,
            interned,
            slot_counts,
            tries,
            mark,
            asked,
            begun: _,
        } = self;
        ended.finish();
        Store {
            id,
            config,
            owner: ended,
            interned,
            slot_counts,
            tries,
            mark,
            asked,
        }
    }
}

impl<H: GcHeap + Drop, D: Drop> Suspends for Suspended<H, D> {
    type Home = Store<H, D>;

    ghost Gives = { λ c s. GivesStore (heap_kind H.KIND H.seen H.sound H.under_way) c s };

    fn give_back(self) -> Store<H, D> {
        self.into_store()
    }
}
