//! What handles name: structs with their fields, and arrays with their elements.

ghost use Rattle.std.specs.Prelude.{◌≡◌, ◌↔◌, IsTrue, IfOk, IfSome, IsSome, Some, length, option_map};
ghost use Rattle.gc_types.specs.declared.kind.VMGcKind.{VMGcKind};
ghost use Rattle.gc_types.specs.Declarations.{struct_fields_at, elem_at, fields_at};
ghost use Rattle.gc_model.specs.Holds.{HoldsTable};
ghost use Rattle.gc_model.specs.Table.{Table};
ghost use Rattle.gc_model.specs.Values.{Reference};
ghost use Rattle.gc_store.specs.Roots.{is_of_store, IsReference, FindsRoot, NamesReference, TellsReference};
ghost use Rattle.gc_store.specs.Kinds.{NamesKind};
ghost use Rattle.gc_objects.specs.Answered.{Answers, IsStruct, IsNamedArray, HasField, IsFieldOf, i31_in, struct_in, named_array_in};
ghost use Rattle.gc_objects.specs.Exns.{IsNamedExn, exn_in};
ghost use Rattle.gc_objects.specs.Reads.{IsTypedSomewhere};

use gc_heap::GcHeap;
use gc_refs::I31;
use gc_store::{GcRootIndex, RootFault, RootedObject, Store};
use gc_types::{FieldType, Tag, VMSharedTypeIndex};

/// An array that a handle names: its type and its length.
#[derive(Clone, Copy)]
pub(crate) struct NamedArray {
    pub(crate) ty: VMSharedTypeIndex,
    pub(crate) len: u32,
}

/// An exception that a handle names: its type and its tag.
#[derive(Clone, Copy)]
pub(crate) struct NamedExn {
    pub(crate) ty: VMSharedTypeIndex,
    pub(crate) tag: Tag,
}

/// A field that a handle and an index name: the index as the store takes it, and the field's type.
#[derive(Clone, Copy)]
pub(crate) struct NamedField {
    pub(crate) index: u32,
    pub(crate) field: FieldType,
}

/// The 31-bit number that a reference is, where it is one.
pub(crate) fn number_in(object: &RootedObject) -> Option<I31>
    ensures { result ≡ i31_in object.now }
{
    match object {
        RootedObject::I31(number) => Some(*number),
        RootedObject::Struct(_) => None,
        RootedObject::Array(..) => None,
        RootedObject::Host => None,
        RootedObject::Exn(..) => None,
    }
}

/// The type of the struct that a reference is, where it is one.
pub(crate) fn struct_in(object: &RootedObject) -> Option<VMSharedTypeIndex>
    ensures { result ≡ struct_in object.now }
{
    match object {
        RootedObject::I31(_) => None,
        RootedObject::Struct(ty) => Some(*ty),
        RootedObject::Array(..) => None,
        RootedObject::Host => None,
        RootedObject::Exn(..) => None,
    }
}

/// The array that a reference is, where it is one.
pub(crate) fn array_in(object: &RootedObject) -> Option<NamedArray>
    ensures { result ≡ named_array_in object.now }
{
    match object {
        RootedObject::I31(_) => None,
        RootedObject::Struct(_) => None,
        RootedObject::Array(ty, len) => Some(NamedArray { ty: *ty, len: *len }),
        RootedObject::Host => None,
        RootedObject::Exn(..) => None,
    }
}

/// The exception that a reference is, where it is one.
pub(crate) fn exn_in(object: &RootedObject) -> Option<NamedExn>
    ensures { result ≡ exn_in object.now }
{
    match object {
        RootedObject::I31(_) => None,
        RootedObject::Struct(_) => None,
        RootedObject::Array(..) => None,
        RootedObject::Host => None,
        RootedObject::Exn(ty, tag) => Some(NamedExn { ty: *ty, tag: *tag }),
    }
}

/// What a root's reference is: `WrongStore` where it is another store's, `Unrooted` where it isn't live.
pub(crate) fn object_at<H: GcHeap, D: Drop>(
    store: &Store<H, D>,
    root: GcRootIndex,
) -> Result<RootedObject, RootFault>
    ensures found { IfOk result (FindsRoot D H.KIND store.now root) }
    ensures answers { (t : Table D) → HoldsTable H.KIND store.now t → Answers store.now t (is_of_store store.now root) root (IsReference t) result }
    ensures live { (t : Table D) (r : Reference) → HoldsTable H.KIND store.now t → NamesReference store.now t root r → TellsReference t r result }
{
    store.object(root)
}

/// The type of the struct that a handle names, by its root.
pub(crate) fn struct_at<H: GcHeap, D: Drop>(
    store: &Store<H, D>,
    root: GcRootIndex,
) -> Result<VMSharedTypeIndex, RootFault>
    requires { NamesKind D H.KIND store.now VMGcKind.StructRef root }
    ensures found { IfOk result (λ ty. FindsRoot D H.KIND store.now root (RootedObject.Struct ty)) }
    ensures answers { (t : Table D) → HoldsTable H.KIND store.now t → Answers store.now t (is_of_store store.now root) root (IsStruct t) result }
{
    match &object_at(store, root) {
        Ok(object) => match struct_in(object) {
            Some(ty) => Ok(ty),
            None => unreachable!(),
        },
        Err(fault) => Err(*fault),
    }
}

/// The array that a handle names, by its root.
pub(crate) fn array_at<H: GcHeap, D: Drop>(
    store: &Store<H, D>,
    root: GcRootIndex,
) -> Result<NamedArray, RootFault>
    requires { NamesKind D H.KIND store.now VMGcKind.ArrayRef root }
    ensures found { IfOk result (λ named. FindsRoot D H.KIND store.now root (RootedObject.Array named.ty named.len)) }
    ensures answers { (t : Table D) → HoldsTable H.KIND store.now t → Answers store.now t (is_of_store store.now root) root (IsNamedArray t) result }
{
    match &object_at(store, root) {
        Ok(object) => match array_in(object) {
            Some(array) => Ok(array),
            None => unreachable!(),
        },
        Err(fault) => Err(*fault),
    }
}

/// The exception that a handle names, by its root.
pub(crate) fn exn_at<H: GcHeap, D: Drop>(
    store: &Store<H, D>,
    root: GcRootIndex,
) -> Result<NamedExn, RootFault>
    requires { NamesKind D H.KIND store.now VMGcKind.ExnRef root }
    ensures found { IfOk result (λ named. FindsRoot D H.KIND store.now root (RootedObject.Exn named.ty named.tag)) }
    ensures answers { (t : Table D) → HoldsTable H.KIND store.now t → Answers store.now t (is_of_store store.now root) root (IsNamedExn t) result }
    ensures everywhere { IfOk result (λ named. (t : Table D) (r : Reference) → HoldsTable H.KIND store.now t
        → NamesReference store.now t root r → IsNamedExn t r named) }
{
    match &object_at(store, root) {
        Ok(object) => match exn_in(object) {
            Some(exn) => Ok(exn),
            None => unreachable!(),
        },
        Err(fault) => Err(*fault),
    }
}

/// The type of the elements of an array type.
pub(crate) fn element_of<H: GcHeap, D: Drop>(
    store: &Store<H, D>,
    ty: VMSharedTypeIndex,
) -> FieldType
    requires { IsSome (elem_at store.now.types ty) }
    ensures { elem_at store.now.types ty ≡ Some result }
{
    store.types().array_elem(ty).unwrap()
}

/// Whether a struct type has so many fields.
pub(crate) fn has_field_count<H: GcHeap, D: Drop>(
    store: &Store<H, D>,
    ty: VMSharedTypeIndex,
    count: usize,
) -> bool
    ensures { IsTrue result ↔ (option_map length (struct_fields_at store.now.types ty) ≡ Some count) }
{
    store.types().struct_len(ty) == Some(count)
}

/// Whether an exception type has so many fields.
pub(crate) fn has_param_count<H: GcHeap, D: Drop>(
    store: &Store<H, D>,
    ty: VMSharedTypeIndex,
    count: usize,
) -> bool
    ensures { IsTrue result ↔ (option_map length (fields_at store.now.types ty) ≡ Some count) }
{
    store.types().fields_len(ty) == Some(count)
}

/// The field with that index of a struct or exception type, where there is one.
fn field_of<H: GcHeap, D: Drop>(
    store: &Store<H, D>,
    ty: VMSharedTypeIndex,
    index: usize,
) -> Option<NamedField>
    ensures { IsFieldOf store.now.types ty index result }
{
    let types = store.types();
    // A declared type has few fields, so that the index of one is a u32.
    types.are_declared();
    let field = types.field(ty, index)?;
    Some(NamedField {
        index: index as u32,
        field,
    })
}

/// The field with that index of the struct that a handle names, by its root, where there is one.
pub(crate) fn field_at<H: GcHeap, D: Drop>(
    store: &Store<H, D>,
    root: GcRootIndex,
    index: usize,
) -> Result<Option<NamedField>, RootFault>
    requires { NamesKind D H.KIND store.now VMGcKind.StructRef root }
    ensures typed { IfOk result (λ found. IfSome found (λ named. IsTypedSomewhere D H.KIND store.now root named.index named.field)) }
    ensures answers { (t : Table D) → HoldsTable H.KIND store.now t → Answers store.now t (is_of_store store.now root) root (HasField t index) result }
{
    match struct_at(store, root) {
        Ok(ty) => Ok(field_of(store, ty, index)),
        Err(fault) => Err(fault),
    }
}

/// The field with that index of the exception that a handle names, by its root, where there is one.
pub(crate) fn param_at<H: GcHeap, D: Drop>(
    store: &Store<H, D>,
    root: GcRootIndex,
    index: usize,
) -> Result<Option<NamedField>, RootFault>
    requires { NamesKind D H.KIND store.now VMGcKind.ExnRef root }
    ensures typed { IfOk result (λ found. IfSome found (λ named. IsTypedSomewhere D H.KIND store.now root named.index named.field)) }
    ensures answers { (t : Table D) → HoldsTable H.KIND store.now t → Answers store.now t (is_of_store store.now root) root (HasField t index) result }
{
    match exn_at(store, root) {
        Ok(exn) => Ok(field_of(store, exn.ty, index)),
        Err(fault) => Err(fault),
    }
}
