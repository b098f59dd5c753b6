//! Clients of any heap, each on a new heap.

ghost use Rattle.std.specs.Prelude.{◌≡◌, []};
ghost use Rattle.gc_view.specs.Heaps.{detached_in};

use crate::fault::TestFault;
use crate::page::Page;
use crate::types::{NUMBER, NUMBERS, TRIPLE, declare};
use gc_heap::client::keep_number;
use gc_heap::{GcHeap, GcStoreTraceState};
use gc_roots::GcRootsList;
use gc_tables::ExternRefHostDataTable;
use gc_types::{Types, VMSharedTypeIndex};
use std::alloc::Global;
use test_client::collections::{Kept, run_collections};
use test_client::scope::{Scoped, attach_page, run_scope};

/// What two scopes do, one after the other: the memory is taken away in between.
fn run_scopes<H: GcHeap>(
    heap: &mut H,
    alloc: Global,
    types: &Types,
    spare: u32,
    size: u32,
) -> Result<(Scoped, bool), TestFault>
    requires sound { H.sound heap.old }
    requires detached { H.seen heap.old ≡ detached_in 0 }
{
    let structs = VMSharedTypeIndex::new(TRIPLE);
    let arrays = VMSharedTypeIndex::new(NUMBERS);
    let first = run_scope(heap, alloc, types, structs, arrays, spare, size)?;
    let second = run_scope(heap, alloc, types, structs, arrays, spare, size)?;
    Ok((first, first == second))
}

/// What two scopes do in a new heap.
fn new_scopes<H: GcHeap + Drop>(
    alloc: Global,
    spare: u32,
    size: u32,
) -> Result<(Scoped, bool), TestFault> {
    let types = declare(alloc)?;
    let mut heap = H::unattached(alloc);
    run_scopes(&mut heap, alloc, &types, spare, size)
}

/// Writes what a scope did in a new heap, and whether another one did the same.
pub(crate) fn show_scopes<H: GcHeap + Drop>(alloc: Global, spare: u32, size: u32, page: &mut Page) {
    match new_scopes::<H>(alloc, spare, size) {
        Ok((told, is_same)) => show_scoped(told, is_same, page),
        Err(fault) => write!(page, "{fault}"),
    }
}

/// Writes what a scope did, and whether another one did the same.
fn show_scoped(told: Scoped, is_same: bool, page: &mut Page) {
    let Scoped {
        given_back: [of_struct, of_array],
        spare,
        objects,
        bytes,
        wanted,
        memory,
    } = told;
    let again = if is_same { "twice" } else { "once" };
    write!(
        page,
        "{again} {of_struct} {of_array}, spare {spare}, {objects} objects, "
    );
    write!(page, "{bytes} bytes, {wanted:?}, {memory}")
}

/// What a client's collections keep in a new heap.
fn new_collections<H: GcHeap + Drop>(alloc: Global, ty: u32) -> Result<Kept, TestFault> {
    let types = declare(alloc)?;
    let mut heap = H::unattached(alloc);
    Ok(run_collections(&mut heap, alloc, types, VMSharedTypeIndex::new(ty))?)
}

/// Writes what a client's collections keep in a new heap.
pub(crate) fn show_collections<H: GcHeap + Drop>(alloc: Global, ty: u32, page: &mut Page) {
    match new_collections::<H>(alloc, ty) {
        Ok(kept) => write!(page, "{kept:?}"),
        Err(fault) => write!(page, "{fault}"),
    }
}

/// Keeps a number in a struct through a collection. Around the heap nothing is declared or rooted yet.
fn keep<H: GcHeap>(
    heap: &mut H,
    number: u32,
    alloc: Global,
    types: &mut Types,
    roots: &mut GcRootsList,
    hosts: &mut ExternRefHostDataTable<u8>,
) -> Result<u32, TestFault>
    requires sound { H.sound heap.old }
    requires detached { H.seen heap.old ≡ detached_in 0 }
    requires types { types.old.declarations ≡ [] }
    requires roots { roots.old.roots ≡ [] }
{
    attach_page(heap, alloc)?;
    let ty = types.declare_struct(&[NUMBER], None, true)?.index();
    let Some(layout) = types.struct_layout(H::KIND, ty) else {
        return Err(TestFault::NoObject);
    };
    roots.reserve(1)?;
    let mut trace = GcStoreTraceState {
        host_data_table: hosts,
        types: &*types,
    };
    let offset = H::KIND.struct_base();
    match keep_number(heap, ty, layout, offset, number, roots, &mut trace)? {
        Ok(kept) => Ok(kept),
        Err(_) => Err(TestFault::NoRoom),
    }
}

/// Keeps a number through a collection of a new heap.
fn new_kept<H: GcHeap + Drop>(alloc: Global, number: u32) -> Result<u32, TestFault> {
    let mut heap = H::unattached(alloc);
    let mut types = Types::new(alloc, 1, 1);
    let mut roots = GcRootsList::new(alloc);
    let mut hosts = ExternRefHostDataTable::new(alloc);
    keep(&mut heap, number, alloc, &mut types, &mut roots, &mut hosts)
}

/// Writes the number that a new heap kept.
pub(crate) fn show_kept<H: GcHeap + Drop>(alloc: Global, number: u32, page: &mut Page) {
    match new_kept::<H>(alloc, number) {
        Ok(kept) => write!(page, "{kept}"),
        Err(fault) => write!(page, "{fault}"),
    }
}
