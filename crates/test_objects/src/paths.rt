//! Small graphs and the paths in them.

use crate::fault::Result;
use crate::objects::NULL;
use crate::page::Page;
use crate::setup::{PAIR, new_struct};
use gc_heap::GcHeap;
use gc_objects::{AnyRef, StructRef, Val};
use gc_paths::{PathEntry, all_paths, path_to};
use gc_rooted::{Rooted, RootedGcRef};
use gc_store::{GcClass, GcRootIndex, Store};
use std::alloc::Global;

/// A struct as a value.
fn value_of(handle: Rooted<StructRef>) -> Val {
    Val::AnyRef(Some(handle.cast::<AnyRef>()))
}

/// Shows where each object's path comes from, and how long it is.
fn show_entries(page: &mut Page, name: &str, entries: &[PathEntry]) {
    writeln!(page, "{name}");
    for entry in entries {
        writeln!(page, "{:?}, length {}", entry.parent, entry.length);
    }
}

/// Shows the paths to all objects.
fn show_all<H: GcHeap>(
    page: &mut Page,
    alloc: Global,
    store: &mut Store<H, u64>,
    name: &str,
    scoped: bool,
) {
    match all_paths(alloc, store, scoped) {
        Ok(entries) => show_entries(page, name, &entries),
        Err(fault) => writeln!(page, "{name}: {fault:?}"),
    }
}

/// Shows the path to one object.
fn show_path<H: GcHeap>(
    page: &mut Page,
    alloc: Global,
    store: &mut Store<H, u64>,
    name: &str,
    target: GcRootIndex,
) {
    match path_to(alloc, store, target) {
        Ok(Some(entries)) => show_entries(page, name, &entries),
        Ok(None) => writeln!(page, "{name}: no path"),
        Err(fault) => writeln!(page, "{name}: {fault:?}"),
    }
}

/// Makes an object that another names, which a global names; answers the first.
fn new_chain<H: GcHeap>(store: &mut Store<H, u64>) -> Result<Rooted<StructRef>> {
    let first = new_struct(store, PAIR, &[NULL, NULL])?;
    let second = new_struct(store, PAIR, &[value_of(first), NULL])?;
    store.global_set(3, GcClass::Any, Some(second.root_index()))?;
    Ok(first)
}

/// One object that another names, which a global names: all paths from the global, and from the scoped roots too; and the path
/// to the first.
pub(crate) fn run_chain<H: GcHeap>(
    page: &mut Page,
    alloc: Global,
    store: &mut Store<H, u64>,
) -> Result<()> {
    let first = new_chain(store)?.root_index();
    show_all(page, alloc, store, "from the global", false);
    show_all(page, alloc, store, "from all roots", true);
    show_path(page, alloc, store, "to the first", first);
    Ok(())
}

/// Makes an object that two others name, one of which the other names first, and which a global names.
fn make_shared<H: GcHeap>(store: &mut Store<H, u64>) -> Result<()> {
    let first = new_struct(store, PAIR, &[NULL, NULL])?;
    let second = new_struct(store, PAIR, &[value_of(first), NULL])?;
    let third = new_struct(store, PAIR, &[value_of(second), value_of(first)])?;
    store.global_set(3, GcClass::Any, Some(third.root_index()))?;
    Ok(())
}

/// An object that two others name, one of which the other names first: its path is the shorter one. Then one more that a scoped
/// root alone names, of the same length as that of the global.
pub(crate) fn run_shared<H: GcHeap>(
    page: &mut Page,
    alloc: Global,
    store: &mut Store<H, u64>,
) -> Result<()> {
    make_shared(store)?;
    show_all(page, alloc, store, "shared", false);
    store.exit_gc_lifo_scope(0);
    new_struct(store, PAIR, &[NULL, NULL])?;
    show_all(page, alloc, store, "with a scoped one", true);
    Ok(())
}
