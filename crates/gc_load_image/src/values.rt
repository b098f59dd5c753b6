//! The values of lines, as a store takes them.

ghost use Rattle.std.specs.Prelude.{◌≡◌, ℕ, Some, MatchResult, slice_get, map};
ghost use Rattle.gc_model.specs.Table.{Table};
ghost use Rattle.gc_model.specs.Accounts.{Account};
ghost use Rattle.gc_store.specs.Stores.{IsSameStore};
ghost use Rattle.gc_image.specs.Text.{FitsImageReference, FitsImageValue};
ghost use Rattle.gc_load_image.specs.Stages.{FindsHandle, FailedValues, FindsRawValue, FoundValues, Standing, global_line_value};

use crate::fault::{LoadFault, told_of_root};
use gc_heap::GcHeap;
use gc_image::{GlobalLine, ImageReference, ImageValue};
use gc_refs::I31;
use gc_store::{GcRootIndex, RawValue, Store};
use std::alloc::Global;

/// The handle of what a reference names, where it isn't null: that of an object which was made, and else null; a 31-bit number
/// gets a new root.
fn handle_of<H: GcHeap>(
    store: &mut Store<H, u64>,
    handles: &[GcRootIndex],
    reference: ImageReference,
) -> Result<Option<GcRootIndex>, LoadFault>
    ensures finds { (t : Table ℕ) (a : Account) → Standing H.KIND handles.now store.old t a → FitsImageReference reference
        → FindsHandle H.KIND handles.now reference store.old t a result store.new }
    ensures same { IsSameStore store.old store.new }
{
    match reference {
        ImageReference::Null => Ok(None),
        ImageReference::Small(number) => match store.push_i31(I31::wrapping_u32(number)) {
            Ok(handle) => Ok(Some(handle)),
            Err(fault) => Err(told_of_root(fault)),
        },
        ImageReference::Object(number) => match handles.get(number) {
            Some(handle) => Ok(Some(*handle)),
            None => Ok(None),
        },
    }
}

/// A value, where each handle is that of the object with its index.
pub(crate) fn raw_value<H: GcHeap>(
    store: &mut Store<H, u64>,
    handles: &[GcRootIndex],
    value: &ImageValue,
) -> Result<RawValue, LoadFault>
    ensures finds { (t : Table ℕ) (a : Account) → Standing H.KIND handles.now store.old t a → FitsImageValue value.now
        → FindsRawValue H.KIND handles.now value.now store.old t a result store.new }
    ensures same { IsSameStore store.old store.new }
{
    match *value {
        ImageValue::I32(number) => Ok(RawValue::I32(number)),
        ImageValue::I64(number) => Ok(RawValue::I64(number)),
        ImageValue::F32(bits) => Ok(RawValue::F32(bits)),
        ImageValue::F64(bits) => Ok(RawValue::F64(bits)),
        ImageValue::V128(bits) => Ok(RawValue::V128(bits)),
        ImageValue::Ref(class, reference) => match handle_of(store, handles, reference) {
            Ok(handle) => Ok(RawValue::Ref(class, handle)),
            Err(fault) => Err(fault),
        },
    }
}

/// Values, in order.
pub(crate) fn raw_values<H: GcHeap>(
    alloc: Global,
    store: &mut Store<H, u64>,
    handles: &[GcRootIndex],
    values: &[ImageValue],
) -> Result<Vec<RawValue>, LoadFault>
    ensures finds { (t : Table ℕ) (a : Account) → Standing H.KIND handles.now store.old t a
        → ((index : ℕ) (v : ImageValue) → slice_get values.now index ≡ Some v → FitsImageValue v)
        → MatchResult result (λ raws. FoundValues H.KIND handles.now values.now store.old t a raws.items store.new)
        (λ why. FailedValues H.KIND handles.now values.now store.old t a why store.new) }
    ensures same { IsSameStore store.old store.new }
{
    let mut raws = Vec::with_capacity(alloc, values.len())?;
    for value in values {
        let raw = raw_value(store, handles, value)?;
        raws.extend_from_slice(&[raw])?;
    }
    Ok(raws)
}

/// What globals are to hold, in order.
pub(crate) fn global_values<H: GcHeap>(
    alloc: Global,
    store: &mut Store<H, u64>,
    handles: &[GcRootIndex],
    globals: &[GlobalLine],
) -> Result<Vec<RawValue>, LoadFault>
    ensures finds { (t : Table ℕ) (a : Account) → Standing H.KIND handles.now store.old t a
        → ((index : ℕ) (g : GlobalLine) → slice_get globals.now index ≡ Some g → FitsImageValue g.value)
        → MatchResult result (λ raws. FoundValues H.KIND handles.now (map global_line_value globals.now) store.old t a raws.items store.new)
        (λ why. FailedValues H.KIND handles.now (map global_line_value globals.now) store.old t a why store.new) }
    ensures same { IsSameStore store.old store.new }
{
    let mut raws = Vec::with_capacity(alloc, globals.len())?;
    for global in globals {
        let raw = raw_value(store, handles, &global.value)?;
        raws.extend_from_slice(&[raw])?;
    }
    Ok(raws)
}
