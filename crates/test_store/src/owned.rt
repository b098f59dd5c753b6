//! Handles that are refused, and handles of owned roots, with a marker that stands in no library.

ghost use Rattle.gc_types.specs.declared.kind.VMGcKind.TheVariants.{AnyRef};
ghost use Rattle.gc_owner.specs.declared.entry.GcClass.TheVariants.{Any};

use crate::STRANGER;
use crate::page::Page;
use gc_heap::GcHeap;
use gc_refs::I31;
use gc_rooted::{GcRef, OwnedRooted, Rooted, RootedGcRef};
use gc_store::{GcClass, GcRootIndex, RootFault, Store};
use gc_types::VMGcKind;

/// A marker that stands in no library.
#[derive(Clone, Copy, Debug)]
struct Small;

impl GcRef for Small {
    ghost CLASS = { Any };

    ghost KIND = { AnyRef };

    const CLASS: GcClass = GcClass::Any;

    const KIND: VMGcKind = VMGcKind::AnyRef;
}

/// A handle of a scope that was left is refused, and one of another store; and no root is made beyond the greatest number of roots.
pub(crate) fn run_refused<H: GcHeap>(
    store: &mut Store<H, u64>,
    page: &mut Page,
) -> Result<(), RootFault> {
    let handle = store.push_i31(I31::wrapping_u32(5))?;
    store.exit_gc_lifo_scope(0);
    page.refused("of a scope that was left", store.object(handle));
    let foreign = GcRootIndex {
        store_id: STRANGER,
        ..handle
    };
    page.refused("of another store", store.object(foreign));
    for value in 0..5 {
        page.refused("the fifth root", store.push_i31(I31::wrapping_u32(value)));
    }
    store.exit_gc_lifo_scope(0);
    Ok(())
}

/// Two handles of a new owned root.
fn own_twice<H: GcHeap>(
    store: &mut Store<H, u64>,
) -> Result<Option<[OwnedRooted<Small>; 2]>, RootFault> {
    let index = store.push_i31(I31::wrapping_u32(9))?;
    let Some(rooted) = Rooted::<Small>::from_index(store, index)? else {
        return Ok(None);
    };
    let first = rooted.to_owned_rooted(store)?;
    let second = first.clone_in(store)?;
    Ok(Some([first, second]))
}

/// Gives one of two handles up, writes the word of what the other one still names, and gives that up.
fn give_up<H: GcHeap>(
    store: &mut Store<H, u64>,
    first: OwnedRooted<Small>,
    second: OwnedRooted<Small>,
    page: &mut Page,
) -> Result<(), RootFault> {
    let is_taken = first.unroot(store).is_ok();
    let rooted = second.to_rooted(store)?;
    let word = store.word(rooted.root_index())?;
    let is_last_taken = second.unroot(store).is_ok();
    writeln!(
        page,
        "given up {is_taken}, word {word}, given up {is_last_taken}"
    );
    Ok(())
}

/// An owned root outlives its scope and a collection, until the last of its handles is given up.
pub(crate) fn run_owned<H: GcHeap>(
    store: &mut Store<H, u64>,
    page: &mut Page,
) -> Result<(), RootFault> {
    let Some([first, second]) = own_twice(store)? else {
        writeln!(page, "a root is not of its marker");
        return Ok(());
    };
    store.exit_gc_lifo_scope(0);
    store.gc();
    give_up(store, first, second, page)?;
    store.exit_gc_lifo_scope(0);
    Ok(())
}
