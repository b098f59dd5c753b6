//! Lists and maps in small stores over a heap of each kind, with what is answered printed.
//!
//! What must be printed, in `stdout`, was worked out by hand from the rules in docs/.
#![tactic(auto)]

mod fault;
mod kits;
mod lists;
mod maps;
mod page;

ghost use Rattle.std.specs.Prelude.{◌≡◌};
ghost use Rattle.gc_view.specs.Heaps.{detached};

use crate::fault::RunFault;
use crate::page::Page;
use gc_copying::CopyingHeap;
use gc_drc::DrcHeap;
use gc_heap::{GcHeap, NullHeap};
use gc_lists::ListFault;
use gc_store::{HeapConfig, PageLimit, Store, StoreId};
use gc_types::Layouts;
use std::alloc::Global;

/// The id of each store.
const STORE: StoreId = StoreId {
    engine: 0,
    number: 0,
};

/// What a store may have, and what is run on it.
#[derive(Clone, Copy)]
struct Step {
    title: &'static str,
    kind: Layouts,
    /// How many pages its heap may have, and how many owned roots there may be.
    max_pages: u32,
    max_owned: u32,
}

impl Step {
    /// Whether its store has room for all cases.
    fn is_ample(self) -> bool {
        self.max_pages > 0 && self.max_owned > 0
    }
}

/// A step with ample memory.
const AMPLE: Step = Step {
    title: "null",
    kind: Layouts::Null,
    max_pages: 4,
    max_owned: 64,
};

/// The steps of the program.
const STEPS: [Step; 5] = [
    AMPLE,
    Step {
        title: "counting",
        kind: Layouts::Counting,
        ..AMPLE
    },
    Step {
        title: "copying",
        kind: Layouts::Copying,
        ..AMPLE
    },
    Step {
        title: "no owned root",
        max_owned: 0,
        ..AMPLE
    },
    Step {
        title: "no page",
        max_pages: 0,
        ..AMPLE
    },
];

/// Makes a first cell and a first node, or is refused them.
fn run_first<H: GcHeap>(
    page: &mut Page,
    store: &mut Store<H, u64>,
    limiter: &mut PageLimit,
) -> Result<(), ListFault> {
    lists::run_first_cell(page, store, limiter)?;
    maps::run_first_node(page, store, limiter)
}

/// Makes lists and maps where there is room.
fn run_ample<H: GcHeap>(
    page: &mut Page,
    alloc: Global,
    store: &mut Store<H, u64>,
    limiter: &mut PageLimit,
) -> Result<(), ListFault> {
    lists::run_lists(page, alloc, store, limiter)?;
    maps::run_maps(page, alloc, store, limiter)?;
    maps::run_few_roots(page, alloc, store, limiter)
}

/// Runs all cases of a step.
fn run_cases<H: GcHeap>(
    page: &mut Page,
    alloc: Global,
    store: &mut Store<H, u64>,
    step: Step,
) -> Result<(), ListFault> {
    let mut limiter = PageLimit::new(step.max_pages);
    run_first(page, store, &mut limiter)?;
    if step.is_ample() {
        run_ample(page, alloc, store, &mut limiter)
    } else {
        Ok(())
    }
}

/// Runs a step on a store over that heap.
fn run_over<H: GcHeap + Drop>(
    page: &mut Page,
    alloc: Global,
    config: HeapConfig,
    heap: H,
    step: Step,
) -> Result<(), RunFault>
    requires sound { H.sound heap }
    requires empty { H.seen heap ≡ detached }
{
    let mut store = Store::new(alloc, STORE, heap, config)?;
    let ran = run_cases(page, alloc, &mut store, step);
    drop(store);
    Ok(ran?)
}

/// The configuration of a step's store.
fn config_of(step: Step) -> Result<HeapConfig, RunFault> {
    HeapConfig::new(1, 2048, step.max_owned, None).ok_or(RunFault::NoConfiguration)
}

/// Does a step.
fn do_step(page: &mut Page, alloc: Global, step: Step) -> Result<(), RunFault> {
    writeln!(page, "== {}", step.title);
    let config = config_of(step)?;
    match step.kind {
        Layouts::Null => run_over(page, alloc, config, NullHeap::new(alloc), step),
        Layouts::Counting => run_over(page, alloc, config, DrcHeap::new(alloc), step),
        Layouts::Copying => run_over(page, alloc, config, CopyingHeap::new(alloc), step),
    }
}

/// Does each step.
fn do_steps(page: &mut Page, alloc: Global) -> Result<(), RunFault> {
    for step in STEPS {
        do_step(page, alloc, step)?;
    }
    Ok(())
}

/// What is printed.
fn shown(alloc: Global) -> Result<String, RunFault> {
    let mut page = Page::new(alloc);
    do_steps(&mut page, alloc)?;
    Ok(page.finish()?)
}

fn main(rt: HostRuntime) -> Result<(), RunFault> {
    let text = shown(rt.alloc())?;
    print!(rt; "{text}")?;
    Ok(())
}
