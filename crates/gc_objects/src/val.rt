//! The values that go in and out of objects.

ghost use Rattle.std.specs.Prelude.{◌≡◌};
ghost use Rattle.gc_model.specs.Holds.{HoldsTable};
ghost use Rattle.gc_model.specs.Table.{Table};
ghost use Rattle.gc_objects.specs.Given.{root_of_handle, raw_of, class_kind, IsGiven, RootIsOfKind};
ghost use Rattle.gc_objects.specs.Answered.{ValFitsType};

use crate::fits::raw_matches_ty;
use crate::marks::{AnyRef, ExnRef, ExternRef};
use gc_heap::GcHeap;
use gc_refs::V128;
use gc_rooted::{GcRef, Rooted, RootedGcRef};
use gc_store::{GcClass, GcRootIndex, RawValue, RootFault, Store};
use gc_types::{Func, ValType};

/// A value. Floating-point numbers are their bits; a reference is a handle of its class, or null.
#[derive(Clone, Copy, Debug)]
pub enum Val {
    I32(i32),
    I64(i64),
    F32(u32),
    F64(u64),
    V128(V128),
    /// A function, or none.
    FuncRef(Option<Func>),
    /// A continuation, which is a number of the embedder's, or none.
    ContRef(Option<u64>),
    ExternRef(Option<Rooted<ExternRef>>),
    AnyRef(Option<Rooted<AnyRef>>),
    ExnRef(Option<Rooted<ExnRef>>),
}

/// The root of a handle, where there is one.
fn root_of<T: GcRef>(handle: &Option<Rooted<T>>) -> Option<GcRootIndex>
    ensures { result ≡ root_of_handle handle.now }
{
    match handle {
        Some(handle) => Some(handle.root_index()),
        None => None,
    }
}

/// A value as the store takes it.
pub(crate) fn raw_of(value: &Val) -> RawValue
    ensures { result ≡ raw_of value.now }
{
    match value {
        Val::I32(number) => RawValue::I32(*number),
        Val::I64(number) => RawValue::I64(*number),
        Val::F32(bits) => RawValue::F32(*bits),
        Val::F64(bits) => RawValue::F64(*bits),
        Val::V128(bits) => RawValue::V128(*bits),
        Val::FuncRef(func) => RawValue::Func(*func),
        Val::ContRef(cont) => RawValue::Cont(*cont),
        Val::ExternRef(handle) => RawValue::Ref(GcClass::Extern, root_of(handle)),
        Val::AnyRef(handle) => RawValue::Ref(GcClass::Any, root_of(handle)),
        Val::ExnRef(handle) => RawValue::Ref(GcClass::Exn, root_of(handle)),
    }
}

/// A handle of a root, where there is one.
fn handle_of<H: GcHeap, D: Drop, T: GcRef>(
    store: &Store<H, D>,
    root: Option<GcRootIndex>,
) -> Option<Rooted<T>>
    requires { RootIsOfKind D H.KIND store.now T.KIND root }
    ensures { root_of_handle result ≡ root }
{
    match root {
        Some(root) => Some(Rooted::from_gc_root_index(store, root)),
        None => None,
    }
}

/// A reference of that class.
fn reference_of<H: GcHeap, D: Drop>(
    store: &Store<H, D>,
    class: GcClass,
    root: Option<GcRootIndex>,
) -> Val
    requires { RootIsOfKind D H.KIND store.now (class_kind class) root }
    ensures { raw_of result ≡ RawValue.Ref class root }
{
    match class {
        GcClass::Any => Val::AnyRef(handle_of(store, root)),
        GcClass::Extern => Val::ExternRef(handle_of(store, root)),
        GcClass::Exn => Val::ExnRef(handle_of(store, root)),
    }
}

/// A value that the store gave.
pub(crate) fn val_of<H: GcHeap, D: Drop>(store: &Store<H, D>, value: &RawValue) -> Val
    requires { IsGiven D H.KIND store.now value.now }
    ensures { raw_of result ≡ value.now }
{
    match value {
        RawValue::I32(number) => Val::I32(*number),
        RawValue::I64(number) => Val::I64(*number),
        RawValue::F32(bits) => Val::F32(*bits),
        RawValue::F64(bits) => Val::F64(*bits),
        RawValue::V128(bits) => Val::V128(*bits),
        RawValue::Func(func) => Val::FuncRef(*func),
        RawValue::Cont(cont) => Val::ContRef(*cont),
        RawValue::Ref(class, root) => reference_of(store, *class, *root),
    }
}

impl Val {
    /// Whether the value fits a type, as the store's types and objects say: `WrongStore` where its handle
    /// is another store's, `Unrooted` where it isn't live. A number fits its own type, null a nullable type
    /// of its class, a reference what its object's type matches, a function what its own type matches, a
    /// continuation the type of all continuations, and none a nullable type of functions or of
    /// continuations. It changes nothing.
    pub fn matches_ty<H: GcHeap, D: Drop>(
        &self,
        store: &Store<H, D>,
        ty: &ValType,
    ) -> Result<bool, RootFault>
        ensures { (t : Table D) → HoldsTable H.KIND store.now t → ValFitsType store.now t ty.now self.now result }
    {
        raw_matches_ty(store, &raw_of(self), ty)
    }
}
