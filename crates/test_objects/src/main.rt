//! Calls on typed handles, on references as raw words, on what handles and types have to do with each other, collections in increments
//! and paths, each on small stores over a heap of each kind, with what they answer printed.
//!
//! What must be printed, in `stdout`, was worked out from the rules in docs/: by hand, but that of collections by another program.
#![tactic(auto)]

mod collections;
mod fault;
mod kinships;
mod objects;
mod page;
mod paths;
mod setup;
mod texts;
mod values;
mod words;

ghost use Rattle.std.specs.Prelude.{◌≡◌};
ghost use Rattle.gc_view.specs.Heaps.{detached};

use crate::collections::{MANY_ROUNDS, ROUNDS, run_counted, run_forgotten, run_rounds};
use crate::fault::{Result, RunFault};
use crate::page::Page;
use crate::setup::declare_types;
use gc_copying::CopyingHeap;
use gc_drc::DrcHeap;
use gc_heap::{GcHeap, NullHeap};
use gc_store::{HeapConfig, Store, StoreId};
use gc_types::Layouts;
use std::alloc::Global;

/// The id of each store.
const STORE: StoreId = StoreId {
    engine: 3,
    number: 5,
};

/// How many scoped roots a store may have, and how many owned ones.
const SCOPED_ROOTS: u32 = 20_000;

const OWNED_ROOTS: u32 = 16;

/// What is run on a store of its own.
#[derive(Clone, Copy)]
enum Part {
    /// Texts, and what handles and types have to do with each other.
    Kinships,
    /// Objects that are made, read and written.
    Objects,
    /// Values one by one, and references as raw words.
    Words,
    /// Collections in increments.
    Rounds,
    /// The same of many objects.
    ManyRounds,
    /// A collection that is counted.
    Counted,
    /// A collection that is forgotten.
    Forgotten,
    /// The paths in small graphs.
    Paths,
}

/// The parts, by their titles and the kinds of heap that they are run over.
const STEPS: [(&str, Layouts, Part); 20] = [
    ("kinships, null", Layouts::Null, Part::Kinships),
    ("kinships, counting", Layouts::Counting, Part::Kinships),
    ("kinships, copying", Layouts::Copying, Part::Kinships),
    ("objects, null", Layouts::Null, Part::Objects),
    ("objects, counting", Layouts::Counting, Part::Objects),
    ("objects, copying", Layouts::Copying, Part::Objects),
    ("words, null", Layouts::Null, Part::Words),
    ("words, counting", Layouts::Counting, Part::Words),
    ("words, copying", Layouts::Copying, Part::Words),
    ("collections, null", Layouts::Null, Part::Rounds),
    ("collections, counting", Layouts::Counting, Part::Rounds),
    ("collections, copying", Layouts::Copying, Part::Rounds),
    ("counted, null", Layouts::Null, Part::Counted),
    ("counted, counting", Layouts::Counting, Part::Counted),
    ("counted, copying", Layouts::Copying, Part::Counted),
    ("many objects, copying", Layouts::Copying, Part::ManyRounds),
    ("forgotten, copying", Layouts::Copying, Part::Forgotten),
    ("paths, null", Layouts::Null, Part::Paths),
    ("paths, counting", Layouts::Counting, Part::Paths),
    ("paths, copying", Layouts::Copying, Part::Paths),
];

/// Shows texts, the first of a store whose heap isn't made, and what handles and types have to do with each other.
fn run_kinships<H: GcHeap>(page: &mut Page, store: &mut Store<H, u64>) -> Result<()> {
    texts::run_refused(page, store)?;
    texts::run_handles(page, store)?;
    texts::run_traced(page, store);
    kinships::run_subtypes(page, store);
    kinships::run_hashes(page, store)?;
    kinships::run_widened(page, store)
}

/// Makes, reads and writes objects.
fn run_objects<H: GcHeap>(page: &mut Page, store: &mut Store<H, u64>) -> Result<()> {
    objects::run_fields(page, store)?;
    objects::run_writes(page, store)?;
    objects::run_circle(page, store)?;
    objects::run_bytes(page, store)?;
    objects::run_numbers(page, store)?;
    objects::run_hosts(page, store)?;
    objects::run_converted(page, store)?;
    objects::run_exceptions(page, store)?;
    objects::run_thrown(page, store)?;
    objects::run_owned(page, store)
}

/// Reads values one by one, and stores and loads references as raw words of their types.
fn run_words<H: GcHeap>(page: &mut Page, store: &mut Store<H, u64>) -> Result<()> {
    values::run_struct(page, store)?;
    values::run_array(page, store)?;
    values::run_exception(page, store)?;
    words::run_fits(page, store)?;
    words::run_scoped(page, store)?;
    words::run_owned(page, store)?;
    words::run_or_null(page, store)?;
    words::run_number(page, store)?;
    run_raw_words(page, store)
}

/// Makes handles of raw words.
fn run_raw_words<H: GcHeap>(page: &mut Page, store: &mut Store<H, u64>) -> Result<()> {
    words::run_null(page, store)?;
    words::run_raw(page, store)?;
    words::run_owned_raw(page, store)?;
    words::run_pushed(page, store)
}

/// Asks for the paths in small graphs.
fn run_paths<H: GcHeap>(page: &mut Page, alloc: Global, store: &mut Store<H, u64>) -> Result<()> {
    paths::run_chain(page, alloc, store)?;
    paths::run_shared(page, alloc, store)
}

/// Runs a part on a new store.
fn run_part<H: GcHeap + Drop>(
    page: &mut Page,
    alloc: Global,
    store: &mut Store<H, u64>,
    part: Part,
) -> Result<()> {
    declare_types(store)?;
    match part {
        Part::Kinships => run_kinships(page, store),
        Part::Objects => run_objects(page, store),
        Part::Words => run_words(page, store),
        Part::Rounds => run_rounds(page, store, &ROUNDS),
        Part::ManyRounds => run_rounds(page, store, &MANY_ROUNDS),
        Part::Counted => run_counted(page, store),
        Part::Forgotten => run_forgotten(page, store),
        Part::Paths => run_paths(page, alloc, store),
    }
}

/// Runs a part on a store over that heap.
fn run_over<H: GcHeap + Drop>(page: &mut Page, alloc: Global, heap: H, part: Part) -> Result<()>
    requires sound { H.sound heap }
    requires empty { H.seen heap ≡ detached }
{
    let config = HeapConfig::new(1, SCOPED_ROOTS, OWNED_ROOTS, None);
    let config = config.ok_or(RunFault::NoConfiguration)?;
    let mut store = Store::new(alloc, STORE, heap, config)?;
    let ran = run_part(page, alloc, &mut store, part);
    drop(store);
    ran
}

/// Runs a part on a store over a heap of that kind.
fn run_on(page: &mut Page, alloc: Global, kind: Layouts, part: Part) -> Result<()> {
    match kind {
        Layouts::Null => run_over(page, alloc, NullHeap::new(alloc), part),
        Layouts::Counting => run_over(page, alloc, DrcHeap::new(alloc), part),
        Layouts::Copying => run_over(page, alloc, CopyingHeap::new(alloc), part),
    }
}

/// Does each step.
fn run_all(page: &mut Page, alloc: Global) -> Result<()> {
    for (title, kind, part) in STEPS.iter() {
        writeln!(page, "== {title}");
        run_on(page, alloc, *kind, *part)?;
    }
    Ok(())
}

/// What is printed.
fn shown(alloc: Global) -> Result<String> {
    let mut page = Page::new(alloc);
    run_all(&mut page, alloc)?;
    Ok(page.finish()?)
}

fn main(rt: HostRuntime) -> Result<()> {
    let text = shown(rt.alloc())?;
    print!(rt; "{text}")?;
    Ok(())
}
