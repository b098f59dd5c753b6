//! Whether a value, as the store takes it, fits a type.

ghost use Rattle.gc_model.specs.Holds.{HoldsTable};
ghost use Rattle.gc_model.specs.Table.{Table};
ghost use Rattle.gc_objects.specs.Answered.{ChecksHandle, RawFitsType};

use crate::places::object_at;
use gc_heap::GcHeap;
use gc_store::{RawValue, RootFault, Store};
use gc_types::ValType;

/// Whether a value has no handle or a live one: `WrongStore`, then `Unrooted`.
fn check_handle<H: GcHeap, D: Drop>(store: &Store<H, D>, value: &RawValue) -> Result<(), RootFault>
    ensures { (t : Table D) → HoldsTable H.KIND store.now t → ChecksHandle store.now t value.now result }
{
    match value.handle() {
        Some(handle) => match &object_at(store, handle) {
            Ok(_) => Ok(()),
            Err(fault) => Err(*fault),
        },
        None => Ok(()),
    }
}

/// Whether a value, as the store takes it, fits a type, as `Val::matches_ty` tells.
pub fn raw_matches_ty<H: GcHeap, D: Drop>(
    store: &Store<H, D>,
    value: &RawValue,
    ty: &ValType,
) -> Result<bool, RootFault>
    ensures { (t : Table D) → HoldsTable H.KIND store.now t → RawFitsType store.now t ty.now value.now result }
{
    match check_handle(store, value) {
        Ok(()) => Ok(store.value_fits(ty, value)),
        Err(fault) => Err(fault),
    }
}
