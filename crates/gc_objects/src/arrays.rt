//! Arrays.

ghost use Rattle.std.specs.Prelude.{◌≡◌, ◌≤◌, ◌<◌, IfOk, OnErr, length, Err};
ghost use Rattle.gc_types.specs.declared.kind.TypeKind.{TypeKind};
ghost use Rattle.gc_types.specs.declared.kind.VMGcKind.{VMGcKind};
ghost use Rattle.gc_model.specs.Holds.{HoldsTable};
ghost use Rattle.gc_model.specs.Table.{Table};
ghost use Rattle.gc_model.specs.Accounts.{Account, HoldsAccount};
ghost use Rattle.gc_model.specs.Policy.{policy_state};
ghost use Rattle.gc_store.specs.Roots.{is_of_store};
ghost use Rattle.gc_store.specs.Stores.{IsSameStore, scoped_places};
ghost use Rattle.gc_store.specs.Kinds.{NamesKind};
ghost use Rattle.gc_objects.specs.Kinds.{IsDeclaredAs};
ghost use Rattle.gc_objects.specs.Given.{ValNamesKind};
ghost use Rattle.gc_objects.specs.Answered.{Answers, IsArray, HasLength, HasTypeNamed, MatchesType, CopiesTo, are_own_names};
ghost use Rattle.gc_objects.specs.Makes.{Makes, ElementsCauses, AsksElements, FillingCauses, AsksFilling, BytesCauses, AsksBytes};
ghost use Rattle.gc_objects.specs.Reads.{ReadsAt};
ghost use Rattle.gc_objects.specs.Writes.{SetsElement};

use crate::access::{read, write};
use crate::allocators::ArrayRefPre;
use crate::checks::{
    ValueTypes, are_own, carries_id, check_filling, check_value, check_values, is_of_store, is_own,
    is_own_of,
};
use crate::faults::{AccessFault, AllocFault, accessed, accessed_value, allocated_value};
use crate::making::{handed, make, make_bytes, make_elements};
use crate::marks::ArrayRef;
use crate::places::{array_at, element_of};
use crate::val::{Val, raw_of};
use gc_heap::GcHeap;
use gc_rooted::{Rooted, RootedGcRef};
use gc_store::laws::stores_hold_tables;
use gc_store::{Contents, Place, ResourceLimiter, RootFault, Store};
use gc_types::ArrayType;

impl ArrayRef {
    /// Makes an array of the allocator's type with so many elements, all of that value, and a scoped root
    /// for it. With no elements the value isn't looked at. No list of the elements is made.
    ///
    /// Refused are, in this order: `WrongStore`; `Unrooted` and `TypeMismatch` of the value; and then as by
    /// `StructRef::new`.
    pub fn new<H: GcHeap, D: Drop, L: ResourceLimiter>(
        store: &mut Store<H, D>,
        limiter: &mut L,
        allocator: &ArrayRefPre,
        elem: &Val,
        len: u32,
    ) -> Result<Rooted<ArrayRef>, AllocFault<()>>
        requires { IsDeclaredAs store.old TypeKind.Array allocator.now }
        ensures makes { (t : Table D) (a : Account) → HoldsAccount H.KIND store.old t a
            → Makes (FillingCauses store.old t allocator.now elem.now len) (AsksFilling store.old t allocator.now elem.now len)
            H.KIND store.old.alloc_counter (policy_state t a (L.limits limiter.old)) (L.limits limiter.new) result store.new }
        ensures kind { IfOk result (λ handle. NamesKind D H.KIND store.new VMGcKind.ArrayRef handle.index) }
        ensures same { IsSameStore store.old store.new }
        ensures spare { scoped_places store.old ≤ scoped_places store.new }
    {
        stores_hold_tables(store);
        let ty = allocator.ty();
        if !carries_id(store, ty.engine(), ty.number()) || !is_own_of(store, elem, len) {
            return Err(AllocFault::WrongStore);
        }
        let index = ty.index();
        match check_filling(store, element_of(store, index), elem, len) {
            Ok(()) => {
                let elems = Contents::Same(&raw_of(elem));
                let made = make(store, limiter, Place::Array(index, len), elems);
                handed(store, made)
            }
            Err(why) => Err(allocated_value(why)),
        }
    }

    /// Makes an array of the allocator's type with these elements, and a scoped root for it. Refused as by
    /// `new`, of each value in turn; `TooLarge` also where there are 2^32 elements or more, right behind the
    /// tests of values.
    pub fn new_fixed<H: GcHeap, D: Drop, L: ResourceLimiter>(
        store: &mut Store<H, D>,
        limiter: &mut L,
        allocator: &ArrayRefPre,
        elems: &[Val],
    ) -> Result<Rooted<ArrayRef>, AllocFault<()>>
        requires { IsDeclaredAs store.old TypeKind.Array allocator.now }
        ensures makes { (t : Table D) (a : Account) → HoldsAccount H.KIND store.old t a
            → Makes (ElementsCauses store.old t allocator.now elems.now) (AsksElements store.old t allocator.now elems.now)
            H.KIND store.old.alloc_counter (policy_state t a (L.limits limiter.old)) (L.limits limiter.new) result store.new }
        ensures kind { IfOk result (λ handle. NamesKind D H.KIND store.new VMGcKind.ArrayRef handle.index) }
        ensures same { IsSameStore store.old store.new }
        ensures spare { scoped_places store.old ≤ scoped_places store.new }
    {
        stores_hold_tables(store);
        let ty = allocator.ty();
        if !carries_id(store, ty.engine(), ty.number()) || !are_own(store, elems) {
            return Err(AllocFault::WrongStore);
        }
        let index = ty.index();
        match check_values(store, &ValueTypes::Elements(index), elems) {
            Ok(()) => {
                let made = make_elements(store, limiter, index, elems);
                handed(store, made)
            }
            Err(why) => Err(allocated_value(why)),
        }
    }

    /// Makes an array of 8-bit elements from these bytes, and a scoped root for it. Refused are, in this
    /// order: `WrongStore`; `NotI8Array` where the elements are of another type; and then as by `new_fixed`.
    pub fn new_from_i8_slice<H: GcHeap, D: Drop, L: ResourceLimiter>(
        store: &mut Store<H, D>,
        limiter: &mut L,
        allocator: &ArrayRefPre,
        elems: &[u8],
    ) -> Result<Rooted<ArrayRef>, AllocFault<()>>
        requires { IsDeclaredAs store.old TypeKind.Array allocator.now }
        ensures makes { (t : Table D) (a : Account) → HoldsAccount H.KIND store.old t a
            → Makes (BytesCauses store.old t allocator.now) (AsksBytes store.old t allocator.now elems.now)
            H.KIND store.old.alloc_counter (policy_state t a (L.limits limiter.old)) (L.limits limiter.new) result store.new }
        ensures kind { IfOk result (λ handle. NamesKind D H.KIND store.new VMGcKind.ArrayRef handle.index) }
        ensures same { IsSameStore store.old store.new }
        ensures spare { scoped_places store.old ≤ scoped_places store.new }
    {
        stores_hold_tables(store);
        let ty = allocator.ty();
        if !carries_id(store, ty.engine(), ty.number()) {
            return Err(AllocFault::WrongStore);
        }
        let index = ty.index();
        if !element_of(store, index).element_type.is_i8() {
            return Err(AllocFault::NotI8Array);
        }
        let made = make_bytes(store, limiter, index, elems);
        handed(store, made)
    }

    /// Copies the elements of an array of 8-bit elements. Refused are, in this order: `WrongStore`;
    /// `Unrooted`; `NotI8Array`; and `LengthMismatch` where there is more or less room than elements. It
    /// takes no memory, and a refused call changes nothing.
    pub fn copy_to_i8_slice<H: GcHeap, D: Drop, R: RootedGcRef<ArrayRef>>(
        store: &Store<H, D>,
        this: &R,
        dst: &mut [u8],
    ) -> Result<(), AccessFault>
        requires { NamesKind D H.KIND store.now VMGcKind.ArrayRef (R.index this.now) }
        ensures copies { (t : Table D) → HoldsTable H.KIND store.now t → CopiesTo store.now t (R.index this.now) (length dst.old) dst.new result }
        ensures err { OnErr result (dst.new ≡ dst.old) }
    {
        let root = this.root_index();
        let array = match array_at(store, root) {
            Ok(array) => array,
            Err(fault) => return Err(accessed(fault)),
        };
        if !element_of(store, array.ty).element_type.is_i8() {
            return Err(AccessFault::NotI8Array);
        }
        if array.len as usize != dst.len() {
            return Err(AccessFault::LengthMismatch);
        }
        store.copy_bytes(root, dst);
        Ok(())
    }

    /// The element with that index, as `StructRef::field` reads a field.
    pub fn get<H: GcHeap, D: Drop, R: RootedGcRef<ArrayRef>>(
        store: &mut Store<H, D>,
        this: &R,
        index: u32,
    ) -> Result<Val, AccessFault>
        requires { NamesKind D H.KIND store.old VMGcKind.ArrayRef (R.index this.now) }
        ensures reads { (t : Table D) (a : Account) → HoldsAccount H.KIND store.old t a
            → ReadsAt H.KIND store.old t a (R.index this.now) index result store.new }
        ensures kind { IfOk result (ValNamesKind D H.KIND store.new) }
        ensures err { OnErr result (store.new ≡ store.old) }
        ensures same { IsSameStore store.old store.new }
        ensures spare { scoped_places store.old ≤ scoped_places store.new }
        ensures reserved { 0 < store.old.spare → result ≡ Err AccessFault.Memory → ⊥ }
    {
        let root = this.root_index();
        let array = match array_at(store, root) {
            Ok(array) => array,
            Err(fault) => return Err(accessed(fault)),
        };
        if index >= array.len {
            return Err(AccessFault::OutOfBounds);
        }
        match read(store, root, index) {
            Ok(value) => Ok(value),
            Err(fault) => Err(accessed(fault)),
        }
    }

    /// Gives the element with that index another value, as `StructRef::set_field` does a field.
    ///
    /// Refused are, in this order: `WrongStore` where the handle or that of the value is another store's;
    /// `Unrooted` where the array's is gone; `Immutable`; of the value `Unrooted`, then `TypeMismatch`;
    /// `OutOfBounds`; and `FuncTableFull` and `ContTableFull`.
    pub fn set<H: GcHeap, D: Drop, R: RootedGcRef<ArrayRef>>(
        store: &mut Store<H, D>,
        this: &R,
        index: u32,
        value: Val,
    ) -> Result<(), AccessFault>
        requires { NamesKind D H.KIND store.old VMGcKind.ArrayRef (R.index this.now) }
        ensures sets { (t : Table D) (a : Account) → HoldsAccount H.KIND store.old t a
            → SetsElement H.KIND store.old t a (R.index this.now) index value result store.new }
        ensures err { OnErr result (store.new ≡ store.old) }
        ensures same { IsSameStore store.old store.new }
        ensures spare { store.old.spare ≤ store.new.spare }
    {
        let root = this.root_index();
        if !is_of_store(store, root) || !is_own(store, &value) {
            return Err(AccessFault::WrongStore);
        }
        let array = match array_at(store, root) {
            Ok(array) => array,
            Err(fault) => return Err(accessed(fault)),
        };
        let element = element_of(store, array.ty);
        if !element.mutability.is_var() {
            return Err(AccessFault::Immutable);
        }
        match check_value(store, Some(element), &value) {
            Ok(()) => {}
            Err(why) => return Err(accessed_value(why)),
        }
        if index >= array.len {
            return Err(AccessFault::OutOfBounds);
        }
        write(store, root, index, &value)
    }

    /// How many elements the array has: `WrongStore`, then `Unrooted`.
    pub fn len<H: GcHeap, D: Drop, R: RootedGcRef<ArrayRef>>(
        store: &Store<H, D>,
        this: &R,
    ) -> Result<u32, RootFault>
        requires { NamesKind D H.KIND store.now VMGcKind.ArrayRef (R.index this.now) }
        ensures { (t : Table D) → HoldsTable H.KIND store.now t
            → Answers store.now t (is_of_store store.now (R.index this.now)) (R.index this.now) (HasLength t) result }
    {
        match array_at(store, this.root_index()) {
            Ok(array) => Ok(array.len),
            Err(fault) => Err(fault),
        }
    }

    /// The array's type: `WrongStore`, then `Unrooted`.
    pub fn ty<H: GcHeap, D: Drop, R: RootedGcRef<ArrayRef>>(
        store: &Store<H, D>,
        this: &R,
    ) -> Result<ArrayType, RootFault>
        requires { NamesKind D H.KIND store.now VMGcKind.ArrayRef (R.index this.now) }
        ensures { (t : Table D) → HoldsTable H.KIND store.now t
            → Answers store.now t (is_of_store store.now (R.index this.now)) (R.index this.now) (HasTypeNamed store.now (IsArray t)) result }
    {
        match array_at(store, this.root_index()) {
            Ok(array) => Ok(store.types().array_type(array.ty).unwrap()),
            Err(fault) => Err(fault),
        }
    }

    /// Whether the array's type is that one, or one of its subtypes, as `StructRef::matches_ty` tells.
    pub fn matches_ty<H: GcHeap, D: Drop, R: RootedGcRef<ArrayRef>>(
        store: &Store<H, D>,
        this: &R,
        ty: &ArrayType,
    ) -> Result<bool, RootFault>
        requires { NamesKind D H.KIND store.now VMGcKind.ArrayRef (R.index this.now) }
        ensures { (t : Table D) → HoldsTable H.KIND store.now t
            → Answers store.now t (are_own_names store.now (R.index this.now) ty.now) (R.index this.now) (MatchesType t (IsArray t) ty.now.index) result }
    {
        let root = this.root_index();
        if !is_of_store(store, root) || !carries_id(store, ty.engine(), ty.number()) {
            return Err(RootFault::WrongStore);
        }
        match array_at(store, root) {
            Ok(array) => Ok(store.types().is_subtype(array.ty, ty.index())),
            Err(fault) => Err(fault),
        }
    }
}
