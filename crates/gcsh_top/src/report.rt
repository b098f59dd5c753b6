//! Forms that run a script without replies, and write a report of the store that it leaves.

ghost use Rattle.gcsh_top.specs.Answers.{Reported};
ghost use Rattle.gcsh_top.specs.Chosen.{HasSameId};
ghost use Rattle.gcsh_top.specs.ImageReports.{ReportedImage};
ghost use Rattle.gcsh_top.specs.PathReports.{ReportedPaths};
ghost use Rattle.gcsh_top.specs.Reports.{WroteText};
ghost use Rattle.gcsh_top.specs.Runs.{HoldsFirstTable};

use crate::silence::Silence;
use crate::sink::Sink;
use crate::source::Source;
use crate::status::Status;
use crate::top::run_form;
use crate::words::Form;
use crate::write::write_all;
use gc_heap::GcHeap;
use gc_paths::PathFault;
use gc_store::Store;
use gcsh_reports::{path_report, save_report};
use std::alloc::Global;

/// Runs the script that is the input without replies, and writes the report of the paths to what the roots
/// reach.
pub(crate) fn run_paths<H: GcHeap, S: Source, K: Sink>(
    alloc: Global,
    form: Form,
    source: &mut S,
    sink: &mut K,
    store: &mut Store<H, u64>,
) -> Status
    requires { HoldsFirstTable H.KIND form store.old }
    ensures ran { Reported H.KIND form (record { before = S.tells source.old; after = S.tells source.new })
        (record { before = K.tells sink.old; after = K.tells sink.new }) store.new result
        (λ mid. ReportedPaths H.KIND mid (record { before = K.tells sink.old; after = K.tells sink.new }) store.new result) }
    ensures same { HasSameId store.old store.new }
{
    let mut silence = Silence::new();
    match run_form(alloc, form, source, &mut silence, store) {
        Status::Done => report_paths(alloc, sink, store),
        status => status,
    }
}

/// Writes the report of the paths to what the roots of a store reach.
fn report_paths<H: GcHeap, K: Sink>(
    alloc: Global,
    sink: &mut K,
    store: &mut Store<H, u64>,
) -> Status
    ensures reported { ReportedPaths H.KIND store.old (record { before = K.tells sink.old; after = K.tells sink.new }) store.new result }
    ensures same { HasSameId store.old store.new }
{
    match path_report(alloc, store) {
        Ok(text) => write_report(sink, text.as_bytes()),
        Err(PathFault::RootsFull) => write_report(sink, b"RootsFull\n"),
        Err(_) => Status::NoMemory,
    }
}

/// Runs the script that is the input without replies, and writes the image of what the globals reach.
pub(crate) fn run_save<H: GcHeap, S: Source, K: Sink>(
    alloc: Global,
    form: Form,
    source: &mut S,
    sink: &mut K,
    store: &mut Store<H, u64>,
) -> Status
    requires { HoldsFirstTable H.KIND form store.old }
    ensures ran { Reported H.KIND form (record { before = S.tells source.old; after = S.tells source.new })
        (record { before = K.tells sink.old; after = K.tells sink.new }) store.new result
        (λ mid. ReportedImage H.KIND mid (record { before = K.tells sink.old; after = K.tells sink.new }) store.new result) }
    ensures same { HasSameId store.old store.new }
{
    let mut silence = Silence::new();
    match run_form(alloc, form, source, &mut silence, store) {
        Status::Done => report_image(alloc, sink, store),
        status => status,
    }
}

/// Writes the image of what the globals of a store reach.
fn report_image<H: GcHeap, K: Sink>(
    alloc: Global,
    sink: &mut K,
    store: &mut Store<H, u64>,
) -> Status
    ensures reported { ReportedImage H.KIND store.old (record { before = K.tells sink.old; after = K.tells sink.new }) store.new result }
    ensures same { HasSameId store.old store.new }
{
    match save_report(alloc, store) {
        Ok(text) => write_report(sink, &text),
        Err(_) => Status::NoMemory,
    }
}

/// Writes a report, and flushes.
pub(crate) fn write_report<K: Sink>(sink: &mut K, text: &[u8]) -> Status
    ensures { WroteText text.now (record { before = K.tells sink.old; after = K.tells sink.new }) result }
{
    if write_all(sink, text).is_err() {
        return Status::WriteFault;
    }
    match sink.flush() {
        Ok(()) => Status::Done,
        Err(_) => Status::WriteFault,
    }
}
