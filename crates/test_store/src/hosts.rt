//! Values of the host, which are lent for writing.

use crate::page::Page;
use gc_heap::GcHeap;
use gc_refs::I31;
use gc_store::{GcRootIndex, PageLimit, RootFault, Store};

/// Adds one to the host value that a handle names, and writes why it isn't lent.
fn raise<H: GcHeap>(store: &mut Store<H, u64>, handle: GcRootIndex, page: &mut Page) {
    match store.host_data_mut(handle) {
        Ok(value) => *value = value.wrapping_add(1),
        Err(fault) => writeln!(page, "host_data_mut: {fault}"),
    }
}

/// Writes the host value that a handle names, where it names one.
fn show<H: GcHeap>(store: &Store<H, u64>, handle: GcRootIndex, page: &mut Page) {
    if let Ok(Some(value)) = store.host_data(handle) {
        writeln!(page, "host_data: {value}")
    }
}

/// Writes a host value through a copy of its handle, and tries to write a small integer.
fn raise_copy<H: GcHeap>(
    store: &mut Store<H, u64>,
    handle: GcRootIndex,
    page: &mut Page,
) -> Result<(), RootFault> {
    let copy = store.push_copy(handle)?;
    let small = store.push_i31(I31::wrapping_u32(5))?;
    raise(store, copy, page);
    show(store, handle, page);
    raise(store, small, page);
    Ok(())
}

/// A host value is read and written. Behind its scope a collection gives it back, where it frees.
pub(crate) fn run_hosts<H: GcHeap>(
    store: &mut Store<H, u64>,
    page: &mut Page,
) -> Result<(), RootFault> {
    let Ok(handle) = store.place_host(&mut PageLimit::new(4), 700) else {
        writeln!(page, "a host object is not placed");
        return Ok(());
    };
    raise_copy(store, handle, page)?;
    let held = store.held_host_values();
    store.exit_gc_lifo_scope(0);
    store.gc();
    let left = store.held_host_values();
    writeln!(page, "host values: {held}, then {left}");
    Ok(())
}
