//! References as raw words, by their types and without.

use crate::fault::{Result, RunFault};
use crate::page::Page;
use crate::setup::{new_array, new_host};
use gc_heap::GcHeap;
use gc_objects::{ArrayRef, ExternRef};
use gc_refs::{I31, ValRaw};
use gc_rooted::{OwnedRooted, Rooted, RootedGcRef, ref_eq};
use gc_store::Store;
use gc_types::HeapType;
use gc_wasm_types::WasmTy;

/// Whether an array fits the type of arrays, and a 31-bit number, which fits no type of objects.
pub(crate) fn run_fits<H: GcHeap>(page: &mut Page, store: &mut Store<H, u64>) -> Result<()> {
    let made = new_array(store, &[])?;
    let array = made.dynamic_concrete_type_check(store, false, &HeapType::Array);
    let five = I31::wrapping_u32(5);
    let number = five.dynamic_concrete_type_check(store, false, &HeapType::Array);
    writeln!(page, "an array fits: {array:?}, a number: {number:?}");
    Ok(())
}

/// Stores an array's word and loads it with a scoped root.
pub(crate) fn run_scoped<H: GcHeap>(page: &mut Page, store: &mut Store<H, u64>) -> Result<()> {
    let made = new_array(store, &[])?;
    let mut raw = ValRaw::anyref(0);
    made.store(store, &mut raw)?;
    let scoped = <Rooted<ArrayRef>>::load(store, &raw)?;
    let same = ref_eq(store, &made, &scoped);
    writeln!(page, "loaded, the same: {same:?}");
    Ok(())
}

/// Stores an array's word and loads it with an owned root.
pub(crate) fn run_owned<H: GcHeap>(page: &mut Page, store: &mut Store<H, u64>) -> Result<()> {
    let made = new_array(store, &[])?;
    let mut raw = ValRaw::anyref(0);
    made.store(store, &mut raw)?;
    let owned = <OwnedRooted<ArrayRef>>::load(store, &raw)?;
    let same = ref_eq(store, &made, &owned);
    writeln!(page, "owned, the same: {same:?}");
    Ok(())
}

/// Stores a handle that is there as one that may be none, and loads it as such.
pub(crate) fn run_or_null<H: GcHeap>(page: &mut Page, store: &mut Store<H, u64>) -> Result<()> {
    let made = new_array(store, &[])?;
    let mut raw = ValRaw::anyref(0);
    Some(made).store(store, &mut raw)?;
    let Ok(Some(found)) = <Option<Rooted<ArrayRef>>>::load(store, &raw) else {
        return Err(RunFault::NoReference);
    };
    let same = ref_eq(store, &made, &found);
    writeln!(page, "or null, the same: {same:?}");
    Ok(())
}

/// Stores a 31-bit number and loads it.
pub(crate) fn run_number<H: GcHeap>(page: &mut Page, store: &mut Store<H, u64>) -> Result<()> {
    let mut raw = ValRaw::anyref(0);
    I31::wrapping_u32(5).store(store, &mut raw)?;
    let number = I31::load(store, &raw);
    writeln!(page, "{number:?}");
    Ok(())
}

/// Stores null and loads it, and makes a handle of its word.
pub(crate) fn run_null<H: GcHeap>(page: &mut Page, store: &mut Store<H, u64>) -> Result<()> {
    let mut raw = ValRaw::anyref(3);
    <Option<Rooted<ArrayRef>>>::store(&None, store, &mut raw)?;
    let loaded = <Option<OwnedRooted<ArrayRef>>>::load(store, &raw)?;
    let found = ExternRef::from_raw(store, 0)?;
    writeln!(page, "none: {:?}", [loaded.is_none(), found.is_none()]);
    Ok(())
}

/// Makes a handle of the word of a host object.
pub(crate) fn run_raw<H: GcHeap>(page: &mut Page, store: &mut Store<H, u64>) -> Result<()> {
    let host = new_host(store, 7)?;
    let word = ExternRef::to_raw(store, &host)?;
    let Ok(Some(found)) = ExternRef::from_raw(store, word) else {
        return Err(RunFault::NoReference);
    };
    let same = ref_eq(store, &host, &found);
    writeln!(page, "a host object, the same: {same:?}");
    Ok(())
}

/// Makes an owned root for the word of a host object.
pub(crate) fn run_owned_raw<H: GcHeap>(page: &mut Page, store: &mut Store<H, u64>) -> Result<()> {
    let host = new_host(store, 8)?;
    let word = ExternRef::to_raw(store, &host)?;
    let Ok(Some(found)) = OwnedRooted::<ExternRef>::from_word(store, word) else {
        return Err(RunFault::NoReference);
    };
    let same = ref_eq(store, &host, &found);
    writeln!(page, "owned, the same: {same:?}");
    Ok(())
}

/// Pushes a root for the word of a host object, for which room is reserved.
pub(crate) fn run_pushed<H: GcHeap>(page: &mut Page, store: &mut Store<H, u64>) -> Result<()> {
    let host = new_host(store, 9)?.root_index();
    store.reserve_roots(2)?;
    let word = store.show_word(host)?;
    let Ok(Some(found)) = store.push_word(word) else {
        return Err(RunFault::NoReference);
    };
    let same = store.index_eq(host, found);
    writeln!(page, "pushed, the same: {same:?}");
    Ok(())
}
