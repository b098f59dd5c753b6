//! What an embedder can prove: an entry is found after any number of collections.

ghost use Rattle.std.specs.Prelude.{◌≡◌, IfOk};
ghost use Rattle.example_graph.specs.Entries.{KeepsEntries};

use crate::fault::GraphFault;
use crate::nodes::{add_entry, key_of};
use gc_heap::GcHeap;
use gc_objects::Val;
use gc_store::{PageLimit, Store};

/// Collects: whole in even turns, in increments in odd ones.
fn collect<H: GcHeap>(store: &mut Store<H, u64>, turn: u32)
    ensures keeps { KeepsEntries H.KIND store.old store.new }
{
    if turn % 2 == 0 {
        store.gc();
    } else {
        store.gc_by_increments();
    }
}

/// Collects so many times.
pub(crate) fn collect_times<H: GcHeap>(store: &mut Store<H, u64>, times: u32)
    ensures keeps { KeepsEntries H.KIND store.old store.new }
{
    for turn in 0..times {
        collect(store, turn);
    }
}

/// Adds an entry, collects so many times, and finds its key.
pub(crate) fn find_after_collections<H: GcHeap>(
    store: &mut Store<H, u64>,
    limiter: &mut PageLimit,
    key: i64,
    times: u32,
) -> Result<i64, GraphFault>
    ensures found { IfOk result (λ found. found ≡ key) }
{
    let entry = add_entry(store, limiter, key, [Val::AnyRef(None), Val::AnyRef(None)])?;
    collect_times(store, times);
    key_of(store, &entry)
}
