//! Scopes of roots that end by themselves.

ghost use Rattle.std.specs.Prelude.{◌≡◌, ◌≤◌, ◌<◌, length, OnOk, OnErr};
ghost use Rattle.std.specs.Borrow.{sem};
ghost use Rattle.gc_model.specs.Table.{Table, leave};
ghost use Rattle.gc_model.specs.Accounts.{Account, HoldsAccount};
ghost use Rattle.gc_store.specs.Stores.{IsSameStore};

use gc_heap::GcHeap;
use gc_store::Store;
use std::alloc::AllocError;

/// A scope of roots: it begins where it is made, and where it is dropped the scoped roots go that were pushed in it.
pub struct RootScope<'a, H: GcHeap, D: Drop> {
    store: &'a mut Store<H, D>,
    /// How many scoped roots stood where the scope began.
    mark: usize,
}

impl<'a, H: GcHeap, D: Drop> RootScope<'a, H, D> {
    ghost use Rattle.gc_rooted.specs.RootScopes.{lends_store};

    /// Enters a scope of that store.
    pub fn new(store: &'a mut Store<H, D>) -> RootScope<'a, H, D>
        ensures same_reference { result.store.ghost_name ≡ store.entry.ghost_name }
        ensures unchanged { result.store.now ≡ store.old }
        ensures mark { result.mark ≡ length store.old.scoped }
    {
        let mark = store.enter_gc_lifo_scope();
        RootScope { store, mark }
    }

    /// The store.
    pub fn store(&mut self) -> &mut Store<H, D>
        ensures* writes_back { sem 𝓛 (lends_store H.row D.row H.State.row H.GcHeap self.entry result) }
        ensures value { result.now ≡ self.old.store.now }
    {
        &mut *self.store
    }

    /// Makes room: so many scoped roots can then be pushed, which takes no memory. An error is want of memory.
    pub fn reserve(&mut self, additional: usize) -> Result<(), AllocError>
        ensures same_reference { self.new.store.ghost_name ≡ self.old.store.ghost_name }
        ensures mark { self.new.mark ≡ self.old.mark }
        ensures room { OnOk result (additional ≤ self.new.store.now.spare) }
        ensures full { OnErr result (self.old.store.now.spare < additional) }
        ensures spare { self.old.store.now.spare ≤ self.new.store.now.spare }
        ensures rest { self.new.store.now ≡ record self.old.store.now { spare = self.new.store.now.spare } }
    {
        self.store.reserve_roots(additional)
    }
}

impl<H: GcHeap, D: Drop> Drop for RootScope<'_, H, D> {
    /// Leaves the scope. It takes no memory.
    fn drop(self)
        ensures leaves { (t : Table D) (a : Account) → HoldsAccount H.KIND self.entry.store.now t a
            → HoldsAccount H.KIND self.exit.0.now (leave self.entry.mark t) a }
        ensures same { IsSameStore self.entry.store.now self.exit.0.now }
        ensures spare { self.entry.store.now.spare ≤ self.exit.0.now.spare }
    {
        let RootScope { store, mark } = self;
        store.exit_gc_lifo_scope(mark);
    }
}
