//! Scopes of roots, the last one first.

ghost use Rattle.std.specs.Prelude.{◌≡◌, ◌≤◌, ◌<◌, length, OnOk, OnErr};
ghost use Rattle.gc_model.specs.Table.{Table, leave};
ghost use Rattle.gc_model.specs.Holds.{HoldsTable, Placing};
ghost use Rattle.gc_model.specs.Accounts.{Account, HoldsAccount};
ghost use Rattle.gc_store.specs.OwnedWords.{HoldsThere};
ghost use Rattle.gc_store.specs.RootRoom.{roots_left};
ghost use Rattle.gc_store.specs.Stores.{IsSameStore};

use crate::store::Store;
use gc_heap::GcHeap;
use std::alloc::AllocError;

impl<H: GcHeap, D: Drop> Store<H, D> {
    /// Enters a scope: the answer is the number of scoped roots, with which the scope is left.
    pub fn enter_gc_lifo_scope(&self) -> usize
        ensures seen { result ≡ length self.now.scoped }
        ensures table { (t : Table D) → HoldsTable H.KIND self.now t → result ≡ length t.scoped }
    {
        self.owner.scoped().len()
    }

    /// Leaves the scope that was entered with that many scoped roots: the roots past them, if there are any, are dropped,
    /// and their handles are `Unrooted` for ever. It takes no memory, and its time is linear in the
    /// roots that it drops.
    pub fn exit_gc_lifo_scope(&mut self, scope: usize)
        ensures leaves { (t : Table D) (a : Account) → HoldsAccount H.KIND self.old t a → HoldsAccount H.KIND self.new (leave scope t) a }
        ensures there { (t : Table D) (place : Placing) (a : Account) → HoldsThere H.KIND self.old t place a
            → HoldsThere H.KIND self.new (leave scope t) place a }
        ensures same { IsSameStore self.old self.new }
        ensures spare { self.old.spare ≤ self.new.spare }
    {
        self.owner.leave_scope(scope);
    }

    /// Makes room: so many scoped roots can then be pushed, which takes no memory. Nothing but a push lowers how many
    /// can. An error is want of memory.
    pub fn reserve_roots(&mut self, additional: usize) -> Result<(), AllocError>
        ensures room { OnOk result (additional ≤ self.new.spare) }
        ensures full { OnErr result (self.old.spare < additional) }
        ensures spare { self.old.spare ≤ self.new.spare }
        ensures rest { self.new ≡ record self.old { spare = self.new.spare } }
    {
        self.owner.is_ready();
        self.owner.reserve(additional)
    }

    /// How many scoped roots may still be pushed, by the configuration: none where as many scope ends as are counted
    /// dropped a root.
    pub fn roots_left(&self) -> u64
        ensures { (t : Table D) → HoldsTable H.KIND self.now t → result ≡ roots_left t }
    {
        if self.owner.generation() == u64::MAX {
            return 0;
        }
        let most = self.config.max_scoped as usize;
        most.saturating_sub(self.owner.scoped().len()) as u64
    }
}
