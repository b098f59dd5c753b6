//! A graph is built, walked, collected, grown past its limit, and cut down.

use crate::fault::GraphFault;
use crate::nodes::declare_nodes;
use crate::ring::{cut_ring, insert, start_ring, walk};
use crate::survival::find_after_collections;
use gc_heap::GcHeap;
use gc_objects::StructRef;
use gc_rooted::OwnedRooted;
use gc_store::{GcHeapOutOfMemory, PageLimit, Store};
use std::io::Write;

/// The bytes of a page.
const PAGE: usize = 65_536;

/// The most pages of a heap here.
const MOST_PAGES: u32 = 32;

/// How many nodes a ring has before it grows to the limit.
const NODES: u32 = 20_000;

/// More nodes than any heap here has room for.
const TOO_MANY: u32 = 100_000;

/// The key of the entry that is looked for after collections.
const KEY: i64 = 7_000_000_007;

/// How many collections that is after.
const COLLECTIONS: u32 = 10;

/// Inserts nodes whose keys go from one number up to another.
fn fill<H: GcHeap>(
    store: &mut Store<H, u64>,
    limiter: &mut PageLimit,
    first: &OwnedRooted<StructRef>,
    from: u32,
    to: u32,
) -> Result<(), GraphFault> {
    for key in from..to {
        insert(store, limiter, first, i64::from(key))?;
    }
    Ok(())
}

/// How many nodes a ring has that was filled up, and why it has no more.
#[derive(Debug, Drop)]
struct Filled {
    nodes: u32,
    why: GcHeapOutOfMemory<()>,
}

/// Inserts nodes into a ring of so many until the heap is full.
fn fill_up<H: GcHeap>(
    store: &mut Store<H, u64>,
    limiter: &mut PageLimit,
    first: &OwnedRooted<StructRef>,
    nodes: u32,
) -> Result<Filled, GraphFault> {
    for key in nodes..TOO_MANY {
        match insert(store, limiter, first, i64::from(key)) {
            Ok(()) => {}
            Err(GraphFault::Full(why)) => return Ok(Filled { nodes: key, why }),
            Err(fault) => return Err(fault),
        }
    }
    Err(GraphFault::NoLimit)
}

/// Writes what a walk along the ring sees, and how large the heap is.
fn show_ring<H: GcHeap, W: Write + Drop>(
    store: &mut Store<H, u64>,
    first: &OwnedRooted<StructRef>,
    out: &mut W,
) -> Result<(), GraphFault> {
    let seen = walk(store, first, TOO_MANY)?;
    writeln!(
        out,
        "ring: {} nodes, of keys that add up to {}; {} share one; {} objects on {} pages",
        seen.nodes,
        seen.keys,
        seen.shared,
        store.held_objects(),
        store.gc_heap_capacity() / PAGE
    )?;
    Ok(())
}

/// Collects whole, then in increments, and writes what is held.
fn show_collections<H: GcHeap, W: Write + Drop>(
    store: &mut Store<H, u64>,
    out: &mut W,
) -> Result<(), GraphFault> {
    store.gc();
    writeln!(out, "collected: {} objects", store.held_objects())?;
    let increments = store.gc_by_increments();
    writeln!(
        out,
        "collected in {increments} increments: {} objects",
        store.held_objects()
    )?;
    Ok(())
}

/// Fills the ring up, and writes how far that went and why no further.
fn show_full<H: GcHeap, W: Write + Drop>(
    store: &mut Store<H, u64>,
    limiter: &mut PageLimit,
    first: &OwnedRooted<StructRef>,
    nodes: u32,
    out: &mut W,
) -> Result<(), GraphFault> {
    let filled = fill_up(store, limiter, first, nodes)?;
    writeln!(out, "full: {} nodes; {}", filled.nodes, filled.why)?;
    if let Some((from, to)) = limiter.last_refused() {
        writeln!(
            out,
            "growths refused: {}, the last from {from} to {to} pages",
            limiter.refusals()
        )?;
    }
    Ok(())
}

/// Walks a ring of one node, collects it, fills it up and cuts it, and writes what becomes of it.
fn run_ring<H: GcHeap, W: Write + Drop>(
    store: &mut Store<H, u64>,
    limiter: &mut PageLimit,
    first: &OwnedRooted<StructRef>,
    out: &mut W,
) -> Result<(), GraphFault> {
    fill(store, limiter, first, 1, NODES)?;
    show_ring(store, first, out)?;
    show_collections(store, out)?;
    show_full(store, limiter, first, NODES, out)?;
    show_ring(store, first, out)?;
    cut_ring(store, first)?;
    show_ring(store, first, out)?;
    show_collections(store, out)
}

/// Looks for an entry after collections, and writes what is found.
fn show_found<H: GcHeap, W: Write + Drop>(
    store: &mut Store<H, u64>,
    limiter: &mut PageLimit,
    out: &mut W,
) -> Result<(), GraphFault> {
    match find_after_collections(store, limiter, KEY, COLLECTIONS) {
        Ok(key) => writeln!(out, "found: {key} after {COLLECTIONS} collections")?,
        Err(GraphFault::Full(why)) => writeln!(out, "not added: {why}")?,
        Err(fault) => return Err(fault),
    }
    Ok(())
}

/// Builds a ring, and writes what becomes of it.
fn build_ring<H: GcHeap, W: Write + Drop>(
    store: &mut Store<H, u64>,
    limiter: &mut PageLimit,
    out: &mut W,
) -> Result<(), GraphFault> {
    let first = start_ring(store, limiter)?;
    run_ring(store, limiter, &first, out)
}

/// Builds a graph, and writes what becomes of it.
pub(crate) fn run_graph<H: GcHeap, W: Write + Drop>(
    store: &mut Store<H, u64>,
    out: &mut W,
) -> Result<(), GraphFault> {
    let mut limiter = PageLimit::new(MOST_PAGES);
    declare_nodes(store)?;
    build_ring(store, &mut limiter, out)?;
    show_found(store, &mut limiter, out)
}
