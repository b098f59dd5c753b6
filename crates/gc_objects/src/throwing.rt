//! Exceptions that are thrown, and taken where they are caught.

ghost use Rattle.std.specs.Prelude.{◌≡◌};
ghost use Rattle.gc_objects.specs.Thrown.{thrown};

use crate::marks::ExnRef;
use crate::places::exn_at;
use gc_heap::GcHeap;
use gc_rooted::{Rooted, RootedGcRef};
use gc_store::laws::stores_hold_tables;
use gc_store::{RootFault, Store};
use thiserror::Error;

/// What a throw answers: never a value.
#[derive(Clone, Copy, Debug, PartialEq, Eq, Error)]
pub enum ThrowFault {
    #[error("the handle is another store's")]
    WrongStore,
    #[error("the handle's root was dropped")]
    Unrooted,
    /// The exception is pending now.
    #[error("an exception was thrown")]
    ThrownException,
}

/// What a throw answers, by what making the exception pending did.
fn thrown<X>(answer: Result<(), RootFault>) -> Result<X, ThrowFault>
    ensures { result ≡ thrown answer }
{
    match answer {
        Ok(()) => Err(ThrowFault::ThrownException),
        Err(RootFault::WrongStore) => Err(ThrowFault::WrongStore),
        // It is refused in no other way than these two.
        Err(RootFault::Unrooted) => Err(ThrowFault::Unrooted),
        Err(RootFault::RootsFull) => Err(ThrowFault::Unrooted),
        Err(RootFault::Memory) => Err(ThrowFault::Unrooted),
    }
}

/// Throwing and catching at a store.
pub trait StoreExn {
    ghost use Rattle.std.specs.Prelude.{IsErr};
    ghost use Rattle.gc_values.specs.declared.root.GcRootIndex.{GcRootIndex};

    /// What the root names, where it is live, may be thrown.
    ghost may_throw: { Self → GcRootIndex → Type 0 };

    /// Throws an exception: it is pending afterwards, in place of one that was. No value is ever answered, so the call
    /// can stand where one of any type is wanted. It takes no memory.
    fn throw<X>(&mut self, exception: Rooted<ExnRef>) -> Result<X, ThrowFault>
        requires { may_throw self.old exception.index }
        ensures never { IsErr result };

    /// Takes the pending exception, which then has a scoped root; None exactly where none is pending. `RootsFull` where no
    /// further scoped root may be made; after a refusal it stays pending.
    fn take_pending_exception(&mut self) -> Result<Option<Rooted<ExnRef>>, RootFault>;
}

impl<H: GcHeap, D: Drop> StoreExn for Store<H, D> {
    ghost use Rattle.std.specs.Prelude.{◌≡◌, ◌≤◌, ◌<◌, IfOk, IsErr, OnErr, Err};
    ghost use Rattle.gc_types.specs.declared.kind.VMGcKind.{VMGcKind};
    ghost use Rattle.gc_model.specs.Table.{Table};
    ghost use Rattle.gc_model.specs.Accounts.{Account, HoldsAccount};
    ghost use Rattle.gc_store.specs.Stores.{IsSameStore, scoped_places};
    ghost use Rattle.gc_store.specs.Kinds.{NamesKind};
    ghost use Rattle.gc_objects.specs.Given.{root_of_handle, RootNamesKind};
    ghost use Rattle.gc_objects.specs.Thrown.{Throws, TakesThrown};

    ghost may_throw = { λ s root. NamesKind D H.KIND s VMGcKind.ExnRef root };

    fn throw<X>(&mut self, exception: Rooted<ExnRef>) -> Result<X, ThrowFault>
        requires { NamesKind D H.KIND self.old VMGcKind.ExnRef exception.index }
        ensures never { IsErr result }
        ensures throws { (t : Table D) (a : Account) → HoldsAccount H.KIND self.old t a
            → Throws H.KIND self.old t a exception.index result self.new }
        ensures same { IsSameStore self.old self.new }
        ensures spare { self.old.spare ≤ self.new.spare }
    {
        let root = exception.root_index();
        match exn_at(self, root) {
            Ok(_) => thrown(self.set_pending(root)),
            Err(fault) => thrown(Err(fault)),
        }
    }

    fn take_pending_exception(&mut self) -> Result<Option<Rooted<ExnRef>>, RootFault>
        ensures takes { (t : Table D) (a : Account) → HoldsAccount H.KIND self.old t a → TakesThrown H.KIND t a result self.new }
        ensures kind { IfOk result (λ handle. RootNamesKind D H.KIND self.new VMGcKind.ExnRef (root_of_handle handle)) }
        ensures err { OnErr result (self.new ≡ self.old) }
        ensures same { IsSameStore self.old self.new }
        ensures spare { scoped_places self.old ≤ scoped_places self.new }
        ensures reserved { 0 < self.old.spare → result ≡ Err RootFault.Memory → ⊥ }
    {
        stores_hold_tables(self);
        match self.take_pending() {
            Ok(Some(index)) => Ok(Some(Rooted::from_gc_root_index(self, index))),
            Ok(None) => Ok(None),
            Err(fault) => Err(fault),
        }
    }
}
