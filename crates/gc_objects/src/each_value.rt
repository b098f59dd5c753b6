//! Reading all values of an object.

ghost use Rattle.std.specs.Prelude.{◌≡◌, List, IfOk, IsSome, MatchResult, Some, length, if◌then◌else◌};
ghost use Rattle.std.specs.Borrow.{sem};
ghost use Rattle.gc_types.specs.declared.kind.VMGcKind.{VMGcKind};
ghost use Rattle.gc_types.specs.declared.value.FieldType.{FieldType};
ghost use Rattle.gc_types.specs.Declarations.{fields_at, elem_at};
ghost use Rattle.gc_types.specs.Layouts.{is_gc_storage};
ghost use Rattle.gc_model.specs.Holds.{HoldsTable};
ghost use Rattle.gc_model.specs.Table.{Table};
ghost use Rattle.gc_model.specs.Accounts.{Account, HoldsAccount};
ghost use Rattle.gc_store.specs.Kinds.{NamesKind};
ghost use Rattle.gc_objects.specs.Given.{field_types};
ghost use Rattle.gc_objects.specs.ValueRuns.{HasCounts, CanGive, LeavesAll, LeavesRoom, RefusesValues, is_reference_field, reference_fields};
ghost use Rattle.gc_objects.specs.ValueLends.{left_to, rests_refused};

use crate::faults::{AccessFault, accessed};
use crate::marks::{ArrayRef, ExnRef, StructRef};
use crate::places::{NamedArray, array_at, element_of, exn_at, struct_at};
use crate::values::{Elems, Fields, Values};
use gc_heap::GcHeap;
use gc_rooted::RootedGcRef;
use gc_store::laws::stores_hold_tables;
use gc_store::{GcRootIndex, Store};
use gc_types::VMSharedTypeIndex;

/// How many values an object has, and how many of them are references, null or not.
#[derive(Clone, Copy)]
pub(crate) struct ValueCounts {
    pub(crate) len: u32,
    pub(crate) references: usize,
}

/// Whether the field with that index of a struct or exception type keeps a reference.
fn keeps_reference<H: GcHeap, D: Drop>(
    store: &Store<H, D>,
    ty: VMSharedTypeIndex,
    index: usize,
) -> bool
    ensures { result ≡ is_reference_field (field_types store.now.types ty index) }
{
    match store.types().field(ty, index) {
        Some(field) => field.element_type.is_gc_ref(),
        None => false,
    }
}

/// How many of so many fields of a struct or exception type keep references. Its time is linear in their number.
fn count_references<H: GcHeap, D: Drop>(
    store: &Store<H, D>,
    ty: VMSharedTypeIndex,
    len: usize,
) -> usize
    ensures { (fields : List FieldType) → fields_at store.now.types ty ≡ Some fields → len ≡ length fields → result ≡ reference_fields fields }
{
    let mut references = 0;
    for index in 0..len {
        references += usize::from(keeps_reference(store, ty, index));
    }
    references
}

/// What is counted of the values of a struct or an exception of that type.
fn count_fields<H: GcHeap, D: Drop>(store: &Store<H, D>, ty: VMSharedTypeIndex) -> ValueCounts
    requires { IsSome (fields_at store.now.types ty) }
    ensures len { (fields : List FieldType) → fields_at store.now.types ty ≡ Some fields → result.len ≡ length fields }
    ensures references { (fields : List FieldType) → fields_at store.now.types ty ≡ Some fields → result.references ≡ reference_fields fields }
{
    let types = store.types();
    // A declared type has few fields, so that their number is a u32.
    types.are_declared();
    let len = types.fields_len(ty).unwrap();
    ValueCounts {
        len: len as u32,
        references: count_references(store, ty, len),
    }
}

/// What is counted of the elements of an array.
fn count_elements<H: GcHeap, D: Drop>(store: &Store<H, D>, array: NamedArray) -> ValueCounts
    requires { IsSome (elem_at store.now.types array.ty) }
    ensures len { result.len ≡ array.len }
    ensures references { (element : FieldType) → elem_at store.now.types array.ty ≡ Some element
        → result.references ≡ (if is_gc_storage element.element_type then array.len else 0) }
{
    let references = if element_of(store, array.ty).element_type.is_gc_ref() {
        array.len as usize
    } else {
        0
    };
    ValueCounts {
        len: array.len,
        references,
    }
}

/// All values of an object that a root names, once they are counted: `RootsFull` where fewer roots may still be made than
/// it has references, then `Memory` where there is no room for so many.
fn values_of<'a, H: GcHeap, D: Drop>(
    store: &'a mut Store<H, D>,
    root: GcRootIndex,
    counts: ValueCounts,
) -> Result<Values<'a, H, D>, AccessFault>
    requires { (t : Table D) → HoldsTable H.KIND store.old t → HasCounts store.old t root counts.len counts.references }
    ensures* rests { sem 𝓛 (rests_refused H.row D.row H.State.row H.GcHeap store.entry result) }
    ensures reads { (t : Table D) (a : Account) → HoldsAccount H.KIND store.old t a
        → MatchResult result (λ values. LeavesAll H.KIND store.old t a root (left_to values)) (λ fault. RefusesValues store.old t root fault) }
    ensures ready { IfOk result (λ values. CanGive D H.KIND (left_to values)) }
    ensures leaves { IfOk result (λ values. LeavesRoom store.old values.store.now) }
    ensures same_reference { IfOk result (λ values. values.store.ghost_name ≡ store.entry.ghost_name) }
{
    stores_hold_tables(store);
    if counts.references as u64 > store.roots_left() {
        return Err(AccessFault::RootsFull);
    }
    match store.reserve_roots(counts.references) {
        Ok(()) => Ok(Values::new(store, root, counts.len)),
        Err(_) => Err(AccessFault::Memory),
    }
}

impl StructRef {
    /// The values of all fields, one by one, in their order. The store is lent to the iterator, which takes no memory.
    ///
    /// Refused are, in this order: `WrongStore`, `Unrooted`, and `RootsFull` where the struct has more references, null ones
    /// counted too, than scoped roots may still be made. `Memory` comes where there is no room for so many roots. A refused
    /// call changes nothing. Its time is linear in the number of fields.
    pub fn fields<'a, H: GcHeap, D: Drop, R: RootedGcRef<StructRef>>(
        store: &'a mut Store<H, D>,
        this: &R,
    ) -> Result<Fields<'a, H, D>, AccessFault>
        requires { NamesKind D H.KIND store.old VMGcKind.StructRef (R.index this.now) }
        ensures* rests { sem 𝓛 (rests_refused H.row D.row H.State.row H.GcHeap store.entry result) }
        ensures reads { (t : Table D) (a : Account) → HoldsAccount H.KIND store.old t a
            → MatchResult result (λ values. LeavesAll H.KIND store.old t a (R.index this.now) (left_to values))
            (λ fault. RefusesValues store.old t (R.index this.now) fault) }
        ensures ready { IfOk result (λ values. CanGive D H.KIND (left_to values)) }
        ensures leaves { IfOk result (λ values. LeavesRoom store.old values.store.now) }
        ensures same_reference { IfOk result (λ values. values.store.ghost_name ≡ store.entry.ghost_name) }
    {
        let root = this.root_index();
        let counts = match struct_at(store, root) {
            Ok(ty) => count_fields(store, ty),
            Err(fault) => return Err(accessed(fault)),
        };
        values_of(store, root, counts)
    }
}

impl ExnRef {
    /// The values of all fields, one by one, as `StructRef::fields` gives those of a struct.
    pub fn fields<'a, H: GcHeap, D: Drop, R: RootedGcRef<ExnRef>>(
        store: &'a mut Store<H, D>,
        this: &R,
    ) -> Result<Fields<'a, H, D>, AccessFault>
        requires { NamesKind D H.KIND store.old VMGcKind.ExnRef (R.index this.now) }
        ensures* rests { sem 𝓛 (rests_refused H.row D.row H.State.row H.GcHeap store.entry result) }
        ensures reads { (t : Table D) (a : Account) → HoldsAccount H.KIND store.old t a
            → MatchResult result (λ values. LeavesAll H.KIND store.old t a (R.index this.now) (left_to values))
            (λ fault. RefusesValues store.old t (R.index this.now) fault) }
        ensures ready { IfOk result (λ values. CanGive D H.KIND (left_to values)) }
        ensures leaves { IfOk result (λ values. LeavesRoom store.old values.store.now) }
        ensures same_reference { IfOk result (λ values. values.store.ghost_name ≡ store.entry.ghost_name) }
    {
        let root = this.root_index();
        let counts = match exn_at(store, root) {
            Ok(exn) => count_fields(store, exn.ty),
            Err(fault) => return Err(accessed(fault)),
        };
        values_of(store, root, counts)
    }
}

impl ArrayRef {
    /// All elements, one by one, as `StructRef::fields` gives the fields of a struct; but its time is constant.
    pub fn elems<'a, H: GcHeap, D: Drop, R: RootedGcRef<ArrayRef>>(
        store: &'a mut Store<H, D>,
        this: &R,
    ) -> Result<Elems<'a, H, D>, AccessFault>
        requires { NamesKind D H.KIND store.old VMGcKind.ArrayRef (R.index this.now) }
        ensures* rests { sem 𝓛 (rests_refused H.row D.row H.State.row H.GcHeap store.entry result) }
        ensures reads { (t : Table D) (a : Account) → HoldsAccount H.KIND store.old t a
            → MatchResult result (λ values. LeavesAll H.KIND store.old t a (R.index this.now) (left_to values))
            (λ fault. RefusesValues store.old t (R.index this.now) fault) }
        ensures ready { IfOk result (λ values. CanGive D H.KIND (left_to values)) }
        ensures leaves { IfOk result (λ values. LeavesRoom store.old values.store.now) }
        ensures same_reference { IfOk result (λ values. values.store.ghost_name ≡ store.entry.ghost_name) }
    {
        let root = this.root_index();
        let counts = match array_at(store, root) {
            Ok(array) => count_elements(store, array),
            Err(fault) => return Err(accessed(fault)),
        };
        values_of(store, root, counts)
    }
}
