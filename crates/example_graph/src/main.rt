//! A graph that an embedder keeps in a store: rings of nodes that share one, grown to the limit of the heap and past it,
//! and collected whole and in increments, over a heap of each kind.
//!
//! What must be printed, in `stdout`, was worked out by hand from the sizes of nodes and the rule of growth.
#![tactic(auto)]

mod fault;
mod nodes;
mod ring;
mod runs;
mod survival;

ghost use Rattle.std.specs.Prelude.{◌≡◌};
ghost use Rattle.gc_view.specs.Heaps.{detached};

use crate::fault::GraphFault;
use crate::runs::run_graph;
use gc_copying::CopyingHeap;
use gc_drc::DrcHeap;
use gc_heap::{GcHeap, NullHeap};
use gc_store::{Engine, HeapConfig, Store, StoreId};
use std::alloc::Global;
use std::io;
use std::io::{BufWriter, Write};

/// Pages that each heap begins with.
const FIRST_PAGES: u32 = 1;

/// A graph in a store over that heap.
fn run_over<H: GcHeap + Drop, W: Write + Drop>(
    alloc: Global,
    id: StoreId,
    heap: H,
    config: HeapConfig,
    out: &mut W,
) -> Result<(), GraphFault>
    requires sound { H.sound heap }
    requires empty { H.seen heap ≡ detached }
{
    let mut store = Store::new(alloc, id, heap, config)?;
    run_graph(&mut store, out)
}

/// A graph in a store over a heap of each kind.
fn run_graphs<W: Write + Drop>(alloc: Global, out: &mut W) -> Result<(), GraphFault> {
    let mut engine = Engine::new(1);
    let config = HeapConfig::with_pages(FIRST_PAGES).ok_or(GraphFault::NoStore)?;
    writeln!(out, "== null")?;
    let id = engine.next_store_id().ok_or(GraphFault::NoStore)?;
    run_over(alloc, id, NullHeap::new(alloc), config, out)?;
    writeln!(out, "== counting")?;
    let id = engine.next_store_id().ok_or(GraphFault::NoStore)?;
    run_over(alloc, id, DrcHeap::new(alloc), config, out)?;
    writeln!(out, "== copying")?;
    let id = engine.next_store_id().ok_or(GraphFault::NoStore)?;
    run_over(alloc, id, CopyingHeap::new(alloc), config, out)
}

fn main(rt: HostRuntime) -> Result<(), GraphFault> {
    let alloc = rt.alloc();
    let mut out = BufWriter::new(alloc, io::writer(&rt))?;
    run_graphs(alloc, &mut out)?;
    out.flush()?;
    Ok(())
}
