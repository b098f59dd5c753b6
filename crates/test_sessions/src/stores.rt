//! Runs scripts on stores, and writes what they give.

ghost use Rattle.std.specs.Prelude.{◌≡◌};
ghost use Rattle.gc_view.specs.Heaps.{detached};

use crate::opaque::hold_asked;
use crate::page::Page;
use crate::table::Header;
use gc_copying::CopyingHeap;
use gc_drc::DrcHeap;
use gc_heap::{GcHeap, NullHeap};
use gc_script::{Command, Reply, parse_line, reply_text, run_script};
use gc_store::{HeapConfig, Scripted, Store, StoreId};
use std::alloc::{AllocError, Global};
use std::num::NonZeroU32;

/// The line that stands between two scripts of one store.
const CUT: &str = "---\n";

/// The store that a session runs on.
const STORE: StoreId = StoreId {
    engine: 0,
    number: 0,
};

/// The number that a word is, and else 0.
fn number_of(word: Option<&str>) -> u32 {
    word.unwrap_or("").parse().unwrap_or(0)
}

/// Runs a script on a new store over a heap of the header's collector, and writes its replies and what the limiter refused.
pub(crate) fn push_store(
    alloc: Global,
    header: Header<'_>,
    script: &str,
    page: &mut Page,
) -> Result<(), AllocError> {
    let mut words = header.words.split_whitespace();
    let collector = words.next().unwrap_or("");
    let first_pages = number_of(words.next());
    let max_roots = number_of(words.next());
    let counter = NonZeroU32::new(header.number("counter", 0));
    let Some(config) = HeapConfig::new(first_pages, max_roots, max_roots, counter) else {
        page.push("there is no such configuration\n");
        return Ok(());
    };
    match collector {
        "copying" => run_over(CopyingHeap::new(alloc), alloc, config, header, script, page),
        "counting" => run_over(DrcHeap::new(alloc), alloc, config, header, script, page),
        _ => run_over(NullHeap::new(alloc), alloc, config, header, script, page),
    }
}

/// Runs a script on a new store over that heap.
fn run_over<H: GcHeap + Drop>(
    heap: H,
    alloc: Global,
    config: HeapConfig,
    header: Header<'_>,
    script: &str,
    page: &mut Page,
) -> Result<(), AllocError>
    requires sound { H.sound heap }
    requires empty { H.seen heap ≡ detached }
{
    let answers = answers_of(alloc, header)?;
    let mut store = Store::new(alloc, STORE, heap, config)?;
    run_answered(alloc, &mut store, header, answers, script, page);
    drop(store);
    Ok(())
}

/// Runs a script on a store, with a limiter that answers so.
fn run_answered<H: GcHeap + Drop>(
    alloc: Global,
    store: &mut Store<H, u64>,
    header: Header<'_>,
    answers: Vec<bool>,
    script: &str,
    page: &mut Page,
) {
    let mut limiter = Scripted::new(answers);
    hold_asked(store, &mut limiter, header);
    if header.has("dropped") {
        drop_collection(store, &mut limiter, header.number("dropped", 0));
    }
    run_parts(alloc, store, &mut limiter, script, page);
    push_refused(&limiter, page)
}

/// The answers that a header lists.
fn answers_of(alloc: Global, header: Header<'_>) -> Result<Vec<bool>, AllocError> {
    header
        .value("answers")
        .unwrap_or("")
        .split_whitespace()
        .map(|word| word == "yes")
        .collect(alloc)
}

/// Lets the heap grow by a byte, starts a collection, and drops it after so many increments.
fn drop_collection<H: GcHeap + Drop>(
    store: &mut Store<H, u64>,
    limiter: &mut Scripted,
    increments: u32,
) {
    let _grown = store.gc_heap_grow(limiter, 1);
    let mut collecting = store.gc_start();
    for _ in 0..increments {
        collecting.collect_increment();
    }
}

/// Runs the scripts that a script is cut into, one after the other.
fn run_parts<H: GcHeap>(
    alloc: Global,
    store: &mut Store<H, u64>,
    limiter: &mut Scripted,
    script: &str,
    page: &mut Page,
) {
    for (place, part) in script.split(CUT).enumerate() {
        if place > 0 {
            page.push(CUT);
        }
        let ran = run_whole(alloc, store, limiter, part, page);
        page.keep(ran);
    }
}

/// Runs a script as a whole.
fn run_whole<H: GcHeap>(
    alloc: Global,
    store: &mut Store<H, u64>,
    limiter: &mut Scripted,
    script: &str,
    page: &mut Page,
) -> Result<(), AllocError> {
    let commands = commands_of(alloc, script)?;
    match run_script(alloc, store, limiter, commands.as_slice()) {
        Ok(replies) => push_replies(alloc, replies.as_slice(), page),
        Err(_) => Err(AllocError),
    }
}

/// The commands of a script.
fn commands_of(alloc: Global, script: &str) -> Result<Vec<Command>, AllocError> {
    script
        .lines()
        .map(|line| parse_line(alloc, line.as_bytes()))
        .try_collect(alloc)
}

/// Writes replies, each on a line of its own.
fn push_replies(alloc: Global, replies: &[Reply], page: &mut Page) -> Result<(), AllocError> {
    for reply in replies.iter() {
        let text = reply_text(alloc, reply)?;
        writeln!(page, "{text}");
    }
    Ok(())
}

/// Writes what a limiter refused.
fn push_refused(limiter: &Scripted, page: &mut Page) {
    let refusals = limiter.refusals();
    match limiter.last_refused() {
        Some((from, to)) => writeln!(page, "refusals {refusals}\nlast {from} {to}"),
        None => writeln!(page, "refusals {refusals}\nlast none"),
    }
}
