//! The form that fills a map of heap objects.

ghost use Rattle.std.specs.Prelude.{◌≤◌};
ghost use Rattle.gcsh_reports.specs.Filling.{max_inserts};
ghost use Rattle.gcsh_top.specs.Chosen.{HasSameId};
ghost use Rattle.gcsh_top.specs.ListReports.{ReportedLists};
ghost use Rattle.gcsh_top.specs.Runs.{HoldsFirstTable};

use crate::report::write_report;
use crate::sink::Sink;
use crate::status::Status;
use crate::words::Form;
use gc_heap::GcHeap;
use gc_store::{PageLimit, Store};
use gcsh_reports::fill_report;
use std::alloc::Global;

/// Makes so many inserts into a map in a new store, collects, and writes what became of them.
pub(crate) fn run_lists<H: GcHeap, K: Sink>(
    alloc: Global,
    form: Form,
    inserts: u32,
    sink: &mut K,
    store: &mut Store<H, u64>,
) -> Status
    requires ready { HoldsFirstTable H.KIND form store.old }
    requires most { inserts ≤ max_inserts }
    ensures ran { ReportedLists H.KIND form inserts (record { before = K.tells sink.old; after = K.tells sink.new }) store.new result }
    ensures same { HasSameId store.old store.new }
{
    let mut limiter = PageLimit::new(form.most);
    match fill_report(alloc, store, &mut limiter, inserts) {
        Ok(text) => write_report(sink, text.as_bytes()),
        Err(_) => Status::NoMemory,
    }
}
