//! Which values fit a type.

ghost use Rattle.std.specs.Prelude.{◌≡◌};
ghost use Rattle.gc_types.specs.Subtyping.{supertypes_of};
ghost use Rattle.gc_model.specs.Fits.{matches, function_fits, cont_fits, fits_type};
ghost use Rattle.gc_model.specs.Holds.{HoldsTable};
ghost use Rattle.gc_model.specs.Table.{Table};
ghost use Rattle.gc_model.specs.Values.{Value};
ghost use Rattle.gc_values.specs.OwnTypes.{own_type, own_fits};
ghost use Rattle.gc_store.specs.Values.{RawStands};

use crate::store::Store;
use gc_heap::GcHeap;
use gc_model::classes::null_fits;
use gc_owner::GcClass;
use gc_types::{Func, HeapTopType, HeapType, RefType, ValType};
use gc_values::own_types::own_type;
use gc_values::root::{GcRootIndex, RawValue, RootedObject};

/// Whether a heap type matches that of a reference type.
fn matches<H: GcHeap, D: Drop>(store: &Store<H, D>, own: HeapType, ty: &RefType) -> bool
    ensures { result ≡ matches (supertypes_of store.now.types) own ty.now.heap_type }
{
    let own = RefType {
        nullable: false,
        heap_type: own,
    };
    let types = store.types();
    types.are_declared();
    types.matches_ref(&own, ty)
}

/// Whether a reference fits the type: null, or what a live root names.
fn reference_fits<H: GcHeap, D: Drop>(
    store: &Store<H, D>,
    ty: &RefType,
    class: GcClass,
    handle: Option<GcRootIndex>,
) -> bool
    ensures { (t : Table D) (x : Value) → HoldsTable H.KIND store.now t → RawStands store.now t (RawValue.Ref class handle) x
        → result ≡ fits_type t.types t.objects (ValType.Ref ty.now) x }
{
    let handle = match handle {
        Some(handle) => handle,
        None => return null_fits(ty, class),
    };
    match &store.object(handle) {
        Ok(object) => store.object_fits(ty, class, object),
        Err(_) => false,
    }
}

/// Whether a function or none fits a type.
fn function_fits<H: GcHeap, D: Drop>(store: &Store<H, D>, ty: &RefType, func: &Option<Func>) -> bool
    ensures { result ≡ function_fits store.now.types ty.now func.now }
{
    match func {
        Some(func) => matches(store, HeapType::ConcreteFunc(func.ty), ty),
        None => ty.nullable && matches!(ty.heap_type.top(), HeapTopType::Func),
    }
}

/// Whether a continuation or none fits a type.
fn cont_fits(ty: &RefType, cont: &Option<u64>) -> bool
    ensures { result ≡ cont_fits ty.now cont.now }
{
    match cont {
        Some(_) => matches!(ty.heap_type, HeapType::Cont),
        None => ty.nullable && matches!(ty.heap_type.top(), HeapTopType::Cont),
    }
}

impl<H: GcHeap, D: Drop> Store<H, D> {
    /// Whether an object, as a reference of that class, fits the type: where the type that it has by itself matches it.
    pub fn object_fits(&self, ty: &RefType, class: GcClass, object: &RootedObject) -> bool
        ensures { result ≡ own_fits (supertypes_of self.now.types) (own_type class object.now) ty.now.heap_type }
    {
        match own_type(class, object) {
            Some(own) => matches(self, own, ty),
            None => false,
        }
    }

    /// Whether a value fits a type, as the WebAssembly GC proposal matches value types: a number its own, null each nullable
    /// type of its class, what a handle names the type that the object has by itself and all above that. Where a handle's
    /// root isn't live, it fits none.
    pub fn value_fits(&self, ty: &ValType, value: &RawValue) -> bool
        ensures { (t : Table D) (x : Value) → HoldsTable H.KIND self.now t → RawStands self.now t value.now x
            → result ≡ fits_type t.types t.objects ty.now x }
    {
        match value {
            RawValue::I32(_) => matches!(ty, ValType::I32),
            RawValue::I64(_) => matches!(ty, ValType::I64),
            RawValue::F32(_) => matches!(ty, ValType::F32),
            RawValue::F64(_) => matches!(ty, ValType::F64),
            RawValue::V128(_) => matches!(ty, ValType::V128),
            RawValue::Func(func) => match ty {
                ValType::Ref(ty) => function_fits(self, ty, func),
                _ => false,
            },
            RawValue::Cont(cont) => match ty {
                ValType::Ref(ty) => cont_fits(ty, cont),
                _ => false,
            },
            RawValue::Ref(class, handle) => match ty {
                ValType::Ref(ty) => reference_fits(self, ty, *class, *handle),
                _ => false,
            },
        }
    }
}
