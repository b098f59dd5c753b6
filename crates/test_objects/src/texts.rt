//! Texts of ids, of roots and handles, of trace information, and of the fault where a heap has no room.

use crate::fault::{Result, RunFault};
use crate::page::Page;
use crate::setup::{REFERENCES, TRACED, new_host};
use gc_heap::GcHeap;
use gc_objects::{AllocFault, ExternRef};
use gc_rooted::RootedGcRef;
use gc_store::{PageLimit, Store};
use gc_types::{Layouts, VMSharedTypeIndex};

/// Asks for a host object in a new store, whose heap is refused its first page: shows the bytes that it wanted.
pub(crate) fn run_refused<H: GcHeap>(page: &mut Page, store: &mut Store<H, u64>) -> Result<()> {
    match ExternRef::new(store, &mut PageLimit::new(0), 5) {
        Err(AllocFault::HeapOutOfMemory(full)) => {
            writeln!(page, "{full:?}");
            Ok(())
        }
        _ => Err(RunFault::NotRefused),
    }
}

/// Shows the id of a store, its first root, and a scoped and an owned handle.
pub(crate) fn run_handles<H: GcHeap>(page: &mut Page, store: &mut Store<H, u64>) -> Result<()> {
    let first = new_host(store, 6)?;
    let owned = first.to_owned_rooted(store)?;
    writeln!(page, "{:?}", store.id());
    writeln!(page, "{:?}", first.root_index());
    writeln!(page, "{first:?}");
    writeln!(page, "{owned:?}");
    Ok(())
}

/// Shows where the references of a struct and of an array lie in a copying heap.
pub(crate) fn run_traced<H: GcHeap>(page: &mut Page, store: &Store<H, u64>) {
    for ty in [TRACED, REFERENCES] {
        let ty = VMSharedTypeIndex::new(ty);
        let info = store.types().trace_info(Layouts::Copying, ty);
        writeln!(page, "{info:?}");
    }
}
