//! The form that loads an image.

ghost use Rattle.std.specs.Prelude.{MatchResult};
ghost use Rattle.gcsh_top.specs.Chosen.{HasSameId};
ghost use Rattle.gcsh_top.specs.Input.{ReadWhole, UnreadInput};
ghost use Rattle.gcsh_top.specs.LoadReports.{RanLoad, ReportedLoad};
ghost use Rattle.gcsh_top.specs.Runs.{HoldsFirstTable};

use crate::read::{ReadFault, read_piece};
use crate::report::write_report;
use crate::sink::Sink;
use crate::source::Source;
use crate::status::Status;
use crate::top::PIECE;
use crate::words::Form;
use gc_heap::GcHeap;
use gc_store::{PageLimit, Store};
use gcsh_reports::load_report;
use std::alloc::Global;

/// Loads the image that is the input into a new store, collects, and writes what the heap holds then.
pub(crate) fn run_load<H: GcHeap, S: Source, K: Sink>(
    alloc: Global,
    form: Form,
    source: &mut S,
    sink: &mut K,
    store: &mut Store<H, u64>,
) -> Status
    requires { HoldsFirstTable H.KIND form store.old }
    ensures ran { RanLoad H.KIND form (record { before = S.tells source.old; after = S.tells source.new })
        (record { before = K.tells sink.old; after = K.tells sink.new }) store.new result }
    ensures same { HasSameId store.old store.new }
{
    match read_input(alloc, source) {
        Ok(input) => report_load(alloc, form, &input, sink, store),
        Err(status) => status,
    }
}

/// Loads an image, and writes what the heap holds then.
fn report_load<H: GcHeap, K: Sink>(
    alloc: Global,
    form: Form,
    input: &[u8],
    sink: &mut K,
    store: &mut Store<H, u64>,
) -> Status
    requires { HoldsFirstTable H.KIND form store.old }
    ensures reported { ReportedLoad H.KIND form input.now (record { before = K.tells sink.old; after = K.tells sink.new }) store.new result }
    ensures same { HasSameId store.old store.new }
{
    let mut limiter = PageLimit::new(form.most);
    match load_report(alloc, store, &mut limiter, input) {
        Ok(text) => write_report(sink, text.as_bytes()),
        Err(_) => Status::NoMemory,
    }
}

/// Reads an input to its end. Where that can't be done the answer is the status that says why.
fn read_input<S: Source>(alloc: Global, source: &mut S) -> Result<Vec<u8>, Status>
    ensures { MatchResult result (λ input. ReadWhole (record { before = S.tells source.old; after = S.tells source.new }) input.items)
        (UnreadInput (record { before = S.tells source.old; after = S.tells source.new })) }
{
    let Ok(mut piece) = vec![in alloc; 0u8; PIECE] else {
        return Err(Status::NoMemory);
    };
    let mut input = Vec::new(alloc);
    loop {
        let count = match read_piece(source, &mut piece, input.len()) {
            Ok(count) => count,
            Err(ReadFault::Source) => return Err(Status::ReadFault),
            Err(ReadFault::TooLong) => return Err(Status::TooLong),
        };
        if count == 0 {
            return Ok(input);
        }
        if input.extend_from_slice(&piece[..count]).is_err() {
            return Err(Status::NoMemory);
        }
    }
}
