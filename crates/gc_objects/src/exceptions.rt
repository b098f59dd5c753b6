//! Exceptions.

ghost use Rattle.std.specs.Prelude.{◌≡◌, ◌≤◌, ◌<◌, IfOk, OnErr, Err};
ghost use Rattle.gc_types.specs.declared.kind.TypeKind.{TypeKind};
ghost use Rattle.gc_types.specs.declared.kind.VMGcKind.{VMGcKind};
ghost use Rattle.gc_model.specs.Holds.{HoldsTable};
ghost use Rattle.gc_model.specs.Table.{Table};
ghost use Rattle.gc_model.specs.Accounts.{Account, HoldsAccount};
ghost use Rattle.gc_model.specs.Policy.{policy_state};
ghost use Rattle.gc_store.specs.Roots.{is_of_store};
ghost use Rattle.gc_store.specs.Stores.{IsSameStore, scoped_places};
ghost use Rattle.gc_store.specs.Kinds.{NamesKind};
ghost use Rattle.gc_objects.specs.Kinds.{IsDeclaredAs};
ghost use Rattle.gc_objects.specs.Given.{ValNamesKind};
ghost use Rattle.gc_objects.specs.Answered.{Answers, HasTypeNamed, MatchesType, are_own_names};
ghost use Rattle.gc_objects.specs.Exns.{IsExn, HasTag, ExnCauses, AsksExn};
ghost use Rattle.gc_objects.specs.Makes.{Makes};
ghost use Rattle.gc_objects.specs.Reads.{ReadsAt};

use crate::access::read_found;
use crate::allocators::ExnRefPre;
use crate::checks::{ValueTypes, are_own, carries_id, check_values, is_of_store};
use crate::faults::{AccessFault, AllocFault, allocated_value};
use crate::making::{handed, make_of};
use crate::marks::ExnRef;
use crate::places::{exn_at, has_param_count, param_at};
use crate::val::Val;
use gc_heap::GcHeap;
use gc_rooted::{Rooted, RootedGcRef};
use gc_store::laws::stores_hold_tables;
use gc_store::{Place, ResourceLimiter, RootFault, Store};
use gc_types::{ExnType, Tag};

impl ExnRef {
    /// Makes an exception of the allocator's type with that tag and these values, and a scoped root for it. Refused as by
    /// `StructRef::new`.
    pub fn new<H: GcHeap, D: Drop, L: ResourceLimiter>(
        store: &mut Store<H, D>,
        limiter: &mut L,
        allocator: &ExnRefPre,
        tag: Tag,
        fields: &[Val],
    ) -> Result<Rooted<ExnRef>, AllocFault<()>>
        requires { IsDeclaredAs store.old TypeKind.Exn allocator.now }
        ensures makes { (t : Table D) (a : Account) → HoldsAccount H.KIND store.old t a
            → Makes (ExnCauses store.old t allocator.now fields.now) (AsksExn store.old t allocator.now tag fields.now)
            H.KIND store.old.alloc_counter (policy_state t a (L.limits limiter.old)) (L.limits limiter.new) result store.new }
        ensures kind { IfOk result (λ handle. NamesKind D H.KIND store.new VMGcKind.ExnRef handle.index) }
        ensures same { IsSameStore store.old store.new }
        ensures spare { scoped_places store.old ≤ scoped_places store.new }
    {
        stores_hold_tables(store);
        let ty = allocator.ty();
        if !carries_id(store, ty.engine(), ty.number()) || !are_own(store, fields) {
            return Err(AllocFault::WrongStore);
        }
        let index = ty.index();
        if !has_param_count(store, index, fields.len()) {
            return Err(AllocFault::FieldCount);
        }
        match check_values(store, &ValueTypes::Fields(index), fields) {
            Ok(()) => {
                let made = make_of(store, limiter, Place::Exn(index, tag), fields);
                handed(store, made)
            }
            Err(why) => Err(allocated_value(why)),
        }
    }

    /// The value of the field with that index, as `StructRef::field` reads one.
    pub fn field<H: GcHeap, D: Drop, R: RootedGcRef<ExnRef>>(
        store: &mut Store<H, D>,
        this: &R,
        index: usize,
    ) -> Result<Val, AccessFault>
        requires { NamesKind D H.KIND store.old VMGcKind.ExnRef (R.index this.now) }
        ensures reads { (t : Table D) (a : Account) → HoldsAccount H.KIND store.old t a
            → ReadsAt H.KIND store.old t a (R.index this.now) index result store.new }
        ensures kind { IfOk result (ValNamesKind D H.KIND store.new) }
        ensures err { OnErr result (store.new ≡ store.old) }
        ensures same { IsSameStore store.old store.new }
        ensures spare { scoped_places store.old ≤ scoped_places store.new }
        ensures reserved { 0 < store.old.spare → result ≡ Err AccessFault.Memory → ⊥ }
    {
        let root = this.root_index();
        let found = param_at(store, root, index);
        read_found(store, root, found)
    }

    /// The exception's type: `WrongStore`, then `Unrooted`.
    pub fn ty<H: GcHeap, D: Drop, R: RootedGcRef<ExnRef>>(
        store: &Store<H, D>,
        this: &R,
    ) -> Result<ExnType, RootFault>
        requires { NamesKind D H.KIND store.now VMGcKind.ExnRef (R.index this.now) }
        ensures { (t : Table D) → HoldsTable H.KIND store.now t
            → Answers store.now t (is_of_store store.now (R.index this.now)) (R.index this.now) (HasTypeNamed store.now (IsExn t)) result }
    {
        match exn_at(store, this.root_index()) {
            Ok(exn) => Ok(store.types().exn_type(exn.ty).unwrap()),
            Err(fault) => Err(fault),
        }
    }

    /// Whether the exception's type is that one, as `StructRef::matches_ty` tells.
    pub fn matches_ty<H: GcHeap, D: Drop, R: RootedGcRef<ExnRef>>(
        store: &Store<H, D>,
        this: &R,
        ty: &ExnType,
    ) -> Result<bool, RootFault>
        requires { NamesKind D H.KIND store.now VMGcKind.ExnRef (R.index this.now) }
        ensures { (t : Table D) → HoldsTable H.KIND store.now t
            → Answers store.now t (are_own_names store.now (R.index this.now) ty.now) (R.index this.now) (MatchesType t (IsExn t) ty.now.index) result }
    {
        let root = this.root_index();
        if !is_of_store(store, root) || !carries_id(store, ty.engine(), ty.number()) {
            return Err(RootFault::WrongStore);
        }
        match exn_at(store, root) {
            Ok(exn) => Ok(store.types().is_subtype(exn.ty, ty.index())),
            Err(fault) => Err(fault),
        }
    }

    /// The exception's tag: `WrongStore`, then `Unrooted`.
    pub fn tag<H: GcHeap, D: Drop, R: RootedGcRef<ExnRef>>(
        store: &Store<H, D>,
        this: &R,
    ) -> Result<Tag, RootFault>
        requires { NamesKind D H.KIND store.now VMGcKind.ExnRef (R.index this.now) }
        ensures { (t : Table D) → HoldsTable H.KIND store.now t
            → Answers store.now t (is_of_store store.now (R.index this.now)) (R.index this.now) (HasTag t) result }
    {
        match exn_at(store, this.root_index()) {
            Ok(exn) => Ok(exn.tag),
            Err(fault) => Err(fault),
        }
    }
}
