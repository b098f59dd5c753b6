//! References of class any: 31-bit numbers, structs and arrays.

ghost use Rattle.std.specs.Prelude.{◌≡◌, ◌≤◌, ◌<◌, IfOk, IfSome, OnErr, Err};
ghost use Rattle.gc_types.specs.declared.kind.VMGcKind.{VMGcKind};
ghost use Rattle.gc_model.specs.Holds.{HoldsTable};
ghost use Rattle.gc_model.specs.Table.{Table};
ghost use Rattle.gc_model.specs.Values.{Reference, small};
ghost use Rattle.gc_model.specs.Accounts.{Account, HoldsAccount};
ghost use Rattle.gc_store.specs.Roots.{is_of_store};
ghost use Rattle.gc_store.specs.Stores.{IsSameStore, scoped_places};
ghost use Rattle.gc_store.specs.Kinds.{NamesKind};
ghost use Rattle.gc_objects.specs.Answered.{Answers, IsNumber, IsStructRoot, IsArrayRoot, PushesHandle};

use crate::marks::{AnyRef, ArrayRef, StructRef};
use crate::places::{array_in, number_in, object_at, struct_in};
use gc_heap::GcHeap;
use gc_refs::I31;
use gc_rooted::{Rooted, RootedGcRef};
use gc_store::laws::stores_hold_tables;
use gc_store::{RootFault, Store};

impl AnyRef {
    /// A new scoped root for a 31-bit number: `RootsFull` where no further one may be made.
    pub fn from_i31<H: GcHeap, D: Drop>(
        store: &mut Store<H, D>,
        value: I31,
    ) -> Result<Rooted<AnyRef>, RootFault>
        ensures pushes { (t : Table D) (a : Account) → HoldsAccount H.KIND store.old t a → PushesHandle H.KIND t a (small value) result store.new }
        ensures kind { IfOk result (λ handle. NamesKind D H.KIND store.new VMGcKind.AnyRef handle.index) }
        ensures err { OnErr result (store.new ≡ store.old) }
        ensures same { IsSameStore store.old store.new }
        ensures spare { scoped_places store.old ≤ scoped_places store.new }
        ensures reserved { 0 < store.old.spare → result ≡ Err RootFault.Memory → ⊥ }
    {
        stores_hold_tables(store);
        match store.push_i31(value) {
            Ok(root) => Ok(Rooted::from_gc_root_index(store, root)),
            Err(fault) => Err(fault),
        }
    }

    /// The 31-bit number that the reference is; None exactly where it is none. `WrongStore`, then
    /// `Unrooted`. It makes no root, as the next two.
    pub fn as_i31<H: GcHeap, D: Drop>(
        store: &Store<H, D>,
        this: Rooted<AnyRef>,
    ) -> Result<Option<I31>, RootFault>
        ensures { (t : Table D) → HoldsTable H.KIND store.now t → Answers store.now t (is_of_store store.now this.index) this.index IsNumber result }
    {
        match &object_at(store, this.root_index()) {
            Ok(object) => Ok(number_in(object)),
            Err(fault) => Err(*fault),
        }
    }

    /// The same root as that of a struct; None exactly where the reference is none. `WrongStore`, then
    /// `Unrooted`.
    pub fn as_struct<H: GcHeap, D: Drop>(
        store: &Store<H, D>,
        this: Rooted<AnyRef>,
    ) -> Result<Option<Rooted<StructRef>>, RootFault>
        ensures answers { (t : Table D) → HoldsTable H.KIND store.now t
            → Answers store.now t (is_of_store store.now this.index) this.index (IsStructRoot t this.index) result }
        ensures kind { IfOk result (λ found. IfSome found (λ handle. NamesKind D H.KIND store.now VMGcKind.StructRef handle.index)) }
    {
        match &object_at(store, this.root_index()) {
            Ok(object) => match struct_in(object) {
                Some(_) => Ok(Some(this.cast())),
                None => Ok(None),
            },
            Err(fault) => Err(*fault),
        }
    }

    /// The same root as that of an array; None exactly where the reference is none. `WrongStore`, then
    /// `Unrooted`.
    pub fn as_array<H: GcHeap, D: Drop>(
        store: &Store<H, D>,
        this: Rooted<AnyRef>,
    ) -> Result<Option<Rooted<ArrayRef>>, RootFault>
        ensures answers { (t : Table D) → HoldsTable H.KIND store.now t
            → Answers store.now t (is_of_store store.now this.index) this.index (IsArrayRoot t this.index) result }
        ensures kind { IfOk result (λ found. IfSome found (λ handle. NamesKind D H.KIND store.now VMGcKind.ArrayRef handle.index)) }
    {
        match &object_at(store, this.root_index()) {
            Ok(object) => match array_in(object) {
                Some(_) => Ok(Some(this.cast())),
                None => Ok(None),
            },
            Err(fault) => Err(*fault),
        }
    }
}
