//! Structs.

ghost use Rattle.std.specs.Prelude.{◌≡◌, ◌≤◌, ◌<◌, IfOk, OnErr, Err};
ghost use Rattle.gc_types.specs.declared.kind.TypeKind.{TypeKind};
ghost use Rattle.gc_types.specs.declared.kind.VMGcKind.{VMGcKind};
ghost use Rattle.gc_model.specs.Holds.{HoldsTable};
ghost use Rattle.gc_model.specs.Table.{Table};
ghost use Rattle.gc_model.specs.Accounts.{Account, HoldsAccount};
ghost use Rattle.gc_model.specs.Policy.{policy_state};
ghost use Rattle.gc_store.specs.Roots.{is_of_store};
ghost use Rattle.gc_store.specs.Stores.{IsSameStore, scoped_places};
ghost use Rattle.gc_store.specs.Kinds.{NamesKind};
ghost use Rattle.gc_objects.specs.Kinds.{IsDeclaredAs};
ghost use Rattle.gc_objects.specs.Given.{ValNamesKind};
ghost use Rattle.gc_objects.specs.Answered.{Answers, IsStruct, HasTypeNamed, MatchesType, are_own_names};
ghost use Rattle.gc_objects.specs.Makes.{Makes, StructCauses, AsksStruct};
ghost use Rattle.gc_objects.specs.Reads.{ReadsAt};
ghost use Rattle.gc_objects.specs.Writes.{SetsField};

use crate::access::{read_found, write};
use crate::allocators::StructRefPre;
use crate::checks::{
    ValueTypes, are_own, carries_id, check_value, check_values, is_of_store, is_own,
};
use crate::faults::{AccessFault, AllocFault, accessed, accessed_value, allocated_value};
use crate::making::{handed, make_of};
use crate::marks::StructRef;
use crate::places::{field_at, has_field_count, struct_at};
use crate::val::Val;
use gc_heap::GcHeap;
use gc_rooted::{Rooted, RootedGcRef};
use gc_store::laws::stores_hold_tables;
use gc_store::{Place, ResourceLimiter, RootFault, Store};
use gc_types::StructType;

impl StructRef {
    /// Makes a struct of the allocator's type with these values, and a scoped root for it.
    ///
    /// Refused are, in this order: `WrongStore` where the allocator or a handle among the values is
    /// another store's; `FieldCount` where there aren't as many values as fields; of each value in turn
    /// `Unrooted` where its root is gone, then `TypeMismatch` where it doesn't fit its field; and then, as
    /// `Store::place` tells, `FuncTableFull`, `ContTableFull`, `TooLarge`, `RootsFull` and `HeapOutOfMemory`.
    /// `Memory` comes only where all tests of values passed. The allocation goes by the store's policy of
    /// growth.
    pub fn new<H: GcHeap, D: Drop, L: ResourceLimiter>(
        store: &mut Store<H, D>,
        limiter: &mut L,
        allocator: &StructRefPre,
        fields: &[Val],
    ) -> Result<Rooted<StructRef>, AllocFault<()>>
        requires { IsDeclaredAs store.old TypeKind.Struct allocator.now }
        ensures makes { (t : Table D) (a : Account) → HoldsAccount H.KIND store.old t a
            → Makes (StructCauses store.old t allocator.now fields.now) (AsksStruct store.old t allocator.now fields.now)
            H.KIND store.old.alloc_counter (policy_state t a (L.limits limiter.old)) (L.limits limiter.new) result store.new }
        ensures kind { IfOk result (λ handle. NamesKind D H.KIND store.new VMGcKind.StructRef handle.index) }
        ensures same { IsSameStore store.old store.new }
        ensures spare { scoped_places store.old ≤ scoped_places store.new }
    {
        stores_hold_tables(store);
        let ty = allocator.ty();
        if !carries_id(store, ty.engine(), ty.number()) || !are_own(store, fields) {
            return Err(AllocFault::WrongStore);
        }
        let index = ty.index();
        if !has_field_count(store, index, fields.len()) {
            return Err(AllocFault::FieldCount);
        }
        match check_values(store, &ValueTypes::Fields(index), fields) {
            Ok(()) => {
                let made = make_of(store, limiter, Place::Struct(index), fields);
                handed(store, made)
            }
            Err(why) => Err(allocated_value(why)),
        }
    }

    /// The value of the field with that index. Integers of 8 and 16 bits are read as unsigned ones. A
    /// reference that isn't null, a 31-bit number too, gets a scoped root of its own.
    ///
    /// Refused are, in this order: `WrongStore`, `Unrooted`, `OutOfBounds`, and `RootsFull` where a root
    /// is to be made. A refused read changes nothing.
    pub fn field<H: GcHeap, D: Drop, R: RootedGcRef<StructRef>>(
        store: &mut Store<H, D>,
        this: &R,
        index: usize,
    ) -> Result<Val, AccessFault>
        requires { NamesKind D H.KIND store.old VMGcKind.StructRef (R.index this.now) }
        ensures reads { (t : Table D) (a : Account) → HoldsAccount H.KIND store.old t a
            → ReadsAt H.KIND store.old t a (R.index this.now) index result store.new }
        ensures kind { IfOk result (ValNamesKind D H.KIND store.new) }
        ensures err { OnErr result (store.new ≡ store.old) }
        ensures same { IsSameStore store.old store.new }
        ensures spare { scoped_places store.old ≤ scoped_places store.new }
        ensures reserved { 0 < store.old.spare → result ≡ Err AccessFault.Memory → ⊥ }
    {
        let root = this.root_index();
        let found = field_at(store, root, index);
        read_found(store, root, found)
    }

    /// Gives the field with that index another value. Of a wider number that goes into 8 or 16 bits the
    /// low ones are kept.
    ///
    /// Refused are, in this order: `WrongStore` where the handle or that of the value is another store's;
    /// `Unrooted` where the struct's is gone; `OutOfBounds`; `Immutable`; of the value `Unrooted`, then
    /// `TypeMismatch`; and `FuncTableFull` and `ContTableFull` where no id is left for a function or a
    /// continuation that is new to the store. A refused write changes nothing. It takes memory for these
    /// values alone.
    pub fn set_field<H: GcHeap, D: Drop, R: RootedGcRef<StructRef>>(
        store: &mut Store<H, D>,
        this: &R,
        index: usize,
        value: Val,
    ) -> Result<(), AccessFault>
        requires { NamesKind D H.KIND store.old VMGcKind.StructRef (R.index this.now) }
        ensures sets { (t : Table D) (a : Account) → HoldsAccount H.KIND store.old t a
            → SetsField H.KIND store.old t a (R.index this.now) index value result store.new }
        ensures err { OnErr result (store.new ≡ store.old) }
        ensures same { IsSameStore store.old store.new }
        ensures spare { store.old.spare ≤ store.new.spare }
    {
        let root = this.root_index();
        if !is_of_store(store, root) || !is_own(store, &value) {
            return Err(AccessFault::WrongStore);
        }
        let found = match field_at(store, root, index) {
            Ok(found) => found,
            Err(fault) => return Err(accessed(fault)),
        };
        let named = match found {
            Some(named) => named,
            None => return Err(AccessFault::OutOfBounds),
        };
        if !named.field.mutability.is_var() {
            return Err(AccessFault::Immutable);
        }
        match check_value(store, Some(named.field), &value) {
            Ok(()) => write(store, root, named.index, &value),
            Err(why) => Err(accessed_value(why)),
        }
    }

    /// The struct's type: `WrongStore`, then `Unrooted`.
    pub fn ty<H: GcHeap, D: Drop, R: RootedGcRef<StructRef>>(
        store: &Store<H, D>,
        this: &R,
    ) -> Result<StructType, RootFault>
        requires { NamesKind D H.KIND store.now VMGcKind.StructRef (R.index this.now) }
        ensures { (t : Table D) → HoldsTable H.KIND store.now t
            → Answers store.now t (is_of_store store.now (R.index this.now)) (R.index this.now) (HasTypeNamed store.now (IsStruct t)) result }
    {
        match struct_at(store, this.root_index()) {
            Ok(ty) => Ok(store.types().struct_type(ty).unwrap()),
            Err(fault) => Err(fault),
        }
    }

    /// Whether the struct's type is that one, or one of its subtypes: `WrongStore` where the handle or the
    /// type is another store's, then `Unrooted`.
    pub fn matches_ty<H: GcHeap, D: Drop, R: RootedGcRef<StructRef>>(
        store: &Store<H, D>,
        this: &R,
        ty: &StructType,
    ) -> Result<bool, RootFault>
        requires { NamesKind D H.KIND store.now VMGcKind.StructRef (R.index this.now) }
        ensures { (t : Table D) → HoldsTable H.KIND store.now t
            → Answers store.now t (are_own_names store.now (R.index this.now) ty.now) (R.index this.now) (MatchesType t (IsStruct t) ty.now.index) result }
    {
        let root = this.root_index();
        if !is_of_store(store, root) || !carries_id(store, ty.engine(), ty.number()) {
            return Err(RootFault::WrongStore);
        }
        match struct_at(store, root) {
            Ok(own) => Ok(store.types().is_subtype(own, ty.index())),
            Err(fault) => Err(fault),
        }
    }
}
