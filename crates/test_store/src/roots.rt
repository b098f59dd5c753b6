//! Scopes that end by themselves, room that is made in advance, and the roots by their numbers.

use crate::page::Page;
use gc_heap::GcHeap;
use gc_refs::I31;
use gc_rooted::RootScope;
use gc_store::{GcClass, RootAt, RootFault, Store};

/// Pushes two roots, in a scope that has room for them, and writes how many roots there are then.
fn push_two<H: GcHeap>(store: &mut Store<H, u64>, page: &mut Page) {
    let mut scope = RootScope::new(store);
    page.refused("reserve", scope.reserve(2));
    for value in 7..9 {
        page.refused("push_i31", scope.store().push_i31(I31::wrapping_u32(value)));
    }
    let roots = scope.store().enter_gc_lifo_scope();
    writeln!(page, "roots: {roots}")
}

/// Has a global and a slot of a frame name roots, which it pushes; a scope ends with its roots, and those before it stay.
fn place_roots<H: GcHeap>(store: &mut Store<H, u64>, page: &mut Page) -> Result<(), RootFault> {
    let five = store.push_i31(I31::wrapping_u32(5))?;
    let six = store.push_i31(I31::wrapping_u32(6))?;
    push_two(store, page);
    page.refused("global_set", store.global_set(3, GcClass::Any, Some(five)));
    page.refused("push_frame", store.push_frame(2));
    page.refused("slot_set", store.slot_set(1, GcClass::Any, Some(six)));
    Ok(())
}

/// Writes the name of a root by its number, and the word of what it names.
fn show_named<H: GcHeap>(
    store: &mut Store<H, u64>,
    number: u64,
    page: &mut Page,
) -> Result<(), RootFault> {
    if let RootAt::Root(name, handle) = store.root_at(number)? {
        let word = store.word(handle)?;
        writeln!(page, "root {number}: {name:?}, word {word}")
    }
    Ok(())
}

/// Writes what a root is by its number, in a scope of its own.
fn show_root<H: GcHeap>(store: &mut Store<H, u64>, number: u64, page: &mut Page) {
    let mut scope = RootScope::new(store);
    let shown = show_named(scope.store(), number, page);
    page.refused("root_at", shown)
}

/// A global, the second slot of a frame and two scoped roots, by their numbers.
pub(crate) fn run_roots<H: GcHeap>(store: &mut Store<H, u64>, page: &mut Page) {
    let placed = place_roots(store, page);
    page.refused("push_i31", placed);
    for number in [3, 18, 19, 20] {
        show_root(store, number, page);
    }
}
