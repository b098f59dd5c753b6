//! The types of the stores, and objects of them.

ghost use Rattle.std.specs.Prelude.{ℕ, IfOk};
ghost use Rattle.gc_types.specs.declared.kind.TypeKind.{TypeKind};
ghost use Rattle.gc_types.specs.declared.kind.VMGcKind.{VMGcKind};
ghost use Rattle.gc_store.specs.Kinds.{NamesKind};
ghost use Rattle.gc_objects.specs.Kinds.{IsDeclaredAs};

use crate::fault::{Result, RunFault};
use gc_heap::GcHeap;
use gc_objects::{
    AnyRef, ArrayRef, ArrayRefPre, ExnRef, ExnRefPre, ExternRef, StructRef, StructRefPre, Val,
};
use gc_rooted::Rooted;
use gc_store::{PageLimit, Store};
use gc_types::{
    FieldType, Func, HeapType, Mutability, RefType, StorageType, Tag, VMSharedTypeIndex, ValType,
};

/// A type of functions.
const FUNCTION: u32 = 0;
/// The type of structs of an integer, a function or none, and two references.
pub(crate) const RECORD: u32 = 1;
/// The type of arrays of references.
pub(crate) const REFERENCES: u32 = 2;
/// The type of exceptions of an integer and two references.
const EXCEPTION: u32 = 3;
/// The type of structs of no fields.
pub(crate) const EMPTY: u32 = 4;
/// A type of structs that is a subtype of that one.
pub(crate) const NARROW: u32 = 5;
/// The type of structs of an 8-bit integer, a 64-bit one, a reference, a function or none, and a continuation or none.
pub(crate) const MIXED: u32 = 6;
/// The type of arrays of 8-bit integers.
pub(crate) const BYTES: u32 = 7;
/// The type of structs of two references.
pub(crate) const PAIR: u32 = 8;
/// The type of structs of an 8-bit integer and two references.
pub(crate) const TRACED: u32 = 9;
/// The first type that isn't declared.
pub(crate) const UNDECLARED: u32 = 10;

/// The tag of the exceptions.
const TAG: Tag = Tag {
    instance: 3,
    index: 7,
};

/// The most pages that a heap gets.
const MOST_PAGES: u32 = 64;

/// The type of references to anything of class any, or null.
const ANY: ValType = ValType::Ref(RefType {
    nullable: true,
    heap_type: HeapType::Any,
});

/// Fields that may be written, of each type of value that is used here.
const ANY_FIELD: FieldType = FieldType {
    mutability: Mutability::Var,
    element_type: StorageType::ValType(ANY),
};

const FUNC_FIELD: FieldType = FieldType {
    mutability: Mutability::Var,
    element_type: StorageType::ValType(ValType::Ref(RefType {
        nullable: true,
        heap_type: HeapType::Func,
    })),
};

const CONT_FIELD: FieldType = FieldType {
    mutability: Mutability::Var,
    element_type: StorageType::ValType(ValType::Ref(RefType {
        nullable: true,
        heap_type: HeapType::Cont,
    })),
};

const INT_FIELD: FieldType = FieldType {
    mutability: Mutability::Var,
    element_type: StorageType::ValType(ValType::I32),
};

const LONG_FIELD: FieldType = FieldType {
    mutability: Mutability::Var,
    element_type: StorageType::ValType(ValType::I64),
};

const BYTE_FIELD: FieldType = FieldType {
    mutability: Mutability::Var,
    element_type: StorageType::I8,
};

/// Declares the types of a new store, in the order of their indexes.
pub(crate) fn declare_types<H: GcHeap>(store: &mut Store<H, u64>) -> Result<()> {
    let record = [INT_FIELD, FUNC_FIELD, ANY_FIELD, ANY_FIELD];
    let mixed = [BYTE_FIELD, LONG_FIELD, ANY_FIELD, FUNC_FIELD, CONT_FIELD];
    let pair = [ANY_FIELD, ANY_FIELD];
    let traced = [BYTE_FIELD, ANY_FIELD, ANY_FIELD];
    let empty = VMSharedTypeIndex::new(EMPTY);
    let declared = [
        store.declare_func(&[], &[], None, false).is_ok(),
        store.declare_struct(&record, None, false).is_ok(),
        store.declare_array(ANY_FIELD, None, false).is_ok(),
        store.declare_exn(&[ValType::I32, ANY, ANY]).is_ok(),
        store.declare_struct(&[], None, false).is_ok(),
        store.declare_struct(&[], Some(empty), false).is_ok(),
        store.declare_struct(&mixed, None, false).is_ok(),
        store.declare_array(BYTE_FIELD, None, false).is_ok(),
        store.declare_struct(&pair, None, false).is_ok(),
        store.declare_struct(&traced, None, false).is_ok(),
    ];
    if declared.contains(&false) {
        return Err(RunFault::NoType);
    }
    Ok(())
}

/// The function of that number.
pub(crate) fn function(number: u32) -> Val {
    Val::FuncRef(Func::new(number, VMSharedTypeIndex::new(FUNCTION)))
}

/// An allocator of structs of that type.
fn structs<H: GcHeap>(store: &mut Store<H, u64>, ty: u32) -> Result<StructRefPre>
    ensures { IfOk result (IsDeclaredAs store.new TypeKind.Struct) }
{
    match store.types().struct_type(VMSharedTypeIndex::new(ty)) {
        Some(ty) => Ok(StructRefPre::new(store, ty)?),
        None => return Err(RunFault::NoType),
    }
}

/// An allocator of arrays of that type.
pub(crate) fn arrays<H: GcHeap>(store: &mut Store<H, u64>, ty: u32) -> Result<ArrayRefPre>
    ensures { IfOk result (IsDeclaredAs store.new TypeKind.Array) }
{
    match store.types().array_type(VMSharedTypeIndex::new(ty)) {
        Some(ty) => Ok(ArrayRefPre::new(store, ty)?),
        None => return Err(RunFault::NoType),
    }
}

/// An allocator of exceptions.
fn exceptions<H: GcHeap>(store: &mut Store<H, u64>) -> Result<ExnRefPre>
    ensures { IfOk result (IsDeclaredAs store.new TypeKind.Exn) }
{
    match store.types().exn_type(VMSharedTypeIndex::new(EXCEPTION)) {
        Some(ty) => Ok(ExnRefPre::new(store, ty)?),
        None => return Err(RunFault::NoType),
    }
}

/// A limiter under which memory is ample.
pub(crate) fn ample() -> PageLimit {
    PageLimit::new(MOST_PAGES)
}

/// A new struct of that type and of these values.
pub(crate) fn new_struct<H: GcHeap>(
    store: &mut Store<H, u64>,
    ty: u32,
    values: &[Val],
) -> Result<Rooted<StructRef>>
    ensures { IfOk result (λ handle. NamesKind ℕ H.KIND store.new VMGcKind.StructRef handle.index) }
{
    let allocator = structs(store, ty)?;
    Ok(StructRef::new(store, &mut ample(), &allocator, values)?)
}

/// A new array of these references.
pub(crate) fn new_array<H: GcHeap>(
    store: &mut Store<H, u64>,
    values: &[Val],
) -> Result<Rooted<ArrayRef>>
    ensures { IfOk result (λ handle. NamesKind ℕ H.KIND store.new VMGcKind.ArrayRef handle.index) }
{
    let allocator = arrays(store, REFERENCES)?;
    Ok(ArrayRef::new_fixed(store, &mut ample(), &allocator, values)?)
}

/// A new exception of these values.
pub(crate) fn new_exception<H: GcHeap>(
    store: &mut Store<H, u64>,
    values: &[Val],
) -> Result<Rooted<ExnRef>>
    ensures { IfOk result (λ handle. NamesKind ℕ H.KIND store.new VMGcKind.ExnRef handle.index) }
{
    let allocator = exceptions(store)?;
    Ok(ExnRef::new(store, &mut ample(), &allocator, TAG, values)?)
}

/// A new host object of that number.
pub(crate) fn new_host<H: GcHeap>(
    store: &mut Store<H, u64>,
    number: u64,
) -> Result<Rooted<ExternRef>>
    ensures { IfOk result (λ handle. NamesKind ℕ H.KIND store.new VMGcKind.ExternRef handle.index) }
{
    Ok(ExternRef::new(store, &mut ample(), number)?)
}

/// The same handle, which is found to be that of a struct still.
pub(crate) fn as_struct<H: GcHeap>(
    store: &Store<H, u64>,
    handle: Rooted<StructRef>,
) -> Result<Rooted<StructRef>>
    ensures { IfOk result (λ handle. NamesKind ℕ H.KIND store.now VMGcKind.StructRef handle.index) }
{
    match AnyRef::as_struct(store, handle.cast()) {
        Ok(Some(handle)) => Ok(handle),
        _ => return Err(RunFault::NoReference),
    }
}

/// The same handle, which is found to be that of an array still.
pub(crate) fn as_array<H: GcHeap>(
    store: &Store<H, u64>,
    handle: Rooted<ArrayRef>,
) -> Result<Rooted<ArrayRef>>
    ensures { IfOk result (λ handle. NamesKind ℕ H.KIND store.now VMGcKind.ArrayRef handle.index) }
{
    match AnyRef::as_array(store, handle.cast()) {
        Ok(Some(handle)) => Ok(handle),
        _ => return Err(RunFault::NoReference),
    }
}
