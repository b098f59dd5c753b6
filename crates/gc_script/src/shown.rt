//! Values as replies show them.

ghost use Rattle.std.specs.Prelude.{◌≡◌, ℕ};
ghost use Rattle.gc_owner.specs.declared.entry.GcClass.{GcClass};
ghost use Rattle.gc_model.specs.Holds.{HoldsTable};
ghost use Rattle.gc_model.specs.Table.{Table};
ghost use Rattle.gc_model.specs.Values.{Reference, Value, reference};
ghost use Rattle.gc_store.specs.Roots.{IsReference};
ghost use Rattle.gc_store.specs.Values.{RawStands};
ghost use Rattle.gc_script.specs.Shapes.{shown_value};

use gc_commands::ReplyValue;
use gc_heap::GcHeap;
use gc_store::{GcRootIndex, RawValue, RootedObject, Store};

/// A reference that is not null as a reply shows it.
#[inline(always)]
fn shown_object(object: &RootedObject) -> ReplyValue
    ensures { (t : Table ℕ) (class : GcClass) (r : Reference) → IsReference t r object.now → result ≡ shown_value t (reference class r) }
{
    match object {
        RootedObject::I31(number) => ReplyValue::I31(number.get_u32()),
        RootedObject::Struct(ty) => ReplyValue::Struct(ty.as_u32()),
        RootedObject::Array(ty, _) => ReplyValue::Array(ty.as_u32()),
        RootedObject::Host => ReplyValue::Host,
        RootedObject::Exn(ty, tag) => ReplyValue::Exn(ty.as_u32(), tag.index),
    }
}

/// A root or null as a reply shows it.
#[inline(always)]
pub fn shown_root<H: GcHeap>(store: &Store<H, u64>, handle: Option<GcRootIndex>) -> ReplyValue
    ensures { (t : Table ℕ) (class : GcClass) (v : Value) → HoldsTable H.KIND store.now t → RawStands store.now t (RawValue.Ref class handle) v
        → result ≡ shown_value t v }
{
    let handle = match handle {
        Some(handle) => handle,
        None => return ReplyValue::Null,
    };
    match &store.object(handle) {
        Ok(object) => shown_object(object),
        // The root of a value that stands is live.
        Err(_) => ReplyValue::Null,
    }
}

/// A value as a reply shows it.
#[inline(always)]
pub(crate) fn shown<H: GcHeap>(store: &Store<H, u64>, value: &RawValue) -> ReplyValue
    ensures { (t : Table ℕ) (v : Value) → HoldsTable H.KIND store.now t → RawStands store.now t value.now v → result ≡ shown_value t v }
{
    match value {
        RawValue::I32(number) => ReplyValue::I32(*number),
        RawValue::I64(number) => ReplyValue::I64(*number),
        RawValue::F32(bits) => ReplyValue::F32(*bits),
        RawValue::F64(bits) => ReplyValue::F64(*bits),
        RawValue::V128(bits) => ReplyValue::V128(*bits),
        RawValue::Func(_) | RawValue::Cont(_) => ReplyValue::Opaque,
        RawValue::Ref(_, handle) => shown_root(store, *handle),
    }
}
