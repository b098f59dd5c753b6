//! Calls of a store that no command of a script makes, over a heap of each kind, and what each answers.
//!
//! What must be printed, in `stdout`, was worked out by hand from the rules in docs/.
#![tactic(auto)]

mod growth;
mod hosts;
mod owned;
mod page;
mod roots;

ghost use Rattle.std.specs.Prelude.{◌≡◌};
ghost use Rattle.gc_view.specs.Heaps.{detached};

use crate::growth::run_growth;
use crate::hosts::run_hosts;
use crate::owned::{run_owned, run_refused};
use crate::page::Page;
use crate::roots::run_roots;
use gc_copying::CopyingHeap;
use gc_drc::DrcHeap;
use gc_heap::{GcHeap, NullHeap};
use gc_store::{HeapConfig, Store, StoreId};
use std::alloc::Global;
use std::io;

/// The most scoped roots of a store here, and the most owned ones.
const MAX_ROOTS: u32 = 4;

/// The store of the cases.
const STORE: StoreId = StoreId {
    engine: 0,
    number: 0,
};

/// Another store, whose handles are none of its own.
const STRANGER: StoreId = StoreId {
    engine: 0,
    number: 1,
};

/// Runs all cases on a store.
fn run_cases<H: GcHeap>(alloc: Global, store: &mut Store<H, u64>, page: &mut Page) {
    run_growth(alloc, store, page);
    let refused = run_refused(store, page);
    page.refused("handles", refused);
    let owned = run_owned(store, page);
    page.refused("owned roots", owned);
    let hosts = run_hosts(store, page);
    page.refused("host values", hosts);
    run_roots(store, page)
}

/// Runs all cases on a new store over that heap.
fn run_over<H: GcHeap + Drop>(alloc: Global, config: HeapConfig, heap: H, page: &mut Page)
    requires sound { H.sound heap }
    requires empty { H.seen heap ≡ detached }
{
    match Store::new(alloc, STORE, heap, config) {
        Ok(mut store) => {
            run_cases(alloc, &mut store, page);
            drop(store)
        }
        Err(fault) => writeln!(page, "no store: {fault}"),
    }
}

/// Runs all cases over a heap of each kind.
fn run_all(alloc: Global, page: &mut Page) {
    let Some(config) = HeapConfig::new(1, MAX_ROOTS, MAX_ROOTS, None) else {
        return writeln!(page, "no configuration");
    };
    writeln!(page, "== null");
    run_over(alloc, config, NullHeap::new(alloc), page);
    writeln!(page, "== counting");
    run_over(alloc, config, DrcHeap::new(alloc), page);
    writeln!(page, "== copying");
    run_over(alloc, config, CopyingHeap::new(alloc), page)
}

/// What must be printed.
fn answers(alloc: Global) -> io::Result<String> {
    let mut page = Page::new(alloc);
    run_all(alloc, &mut page);
    page.finish()
}

fn main(rt: HostRuntime) -> io::Result<()> {
    let shown = answers(rt.alloc())?;
    print!(rt; "{shown}")
}
