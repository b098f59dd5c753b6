//! Runs the top call on scripts, with ends in memory, and writes what they give.

use crate::page::Page;
use crate::table::Header;
use gcsh_top::{MemSink, MemSource, Sink, Source, Stores, gcsh_top};
use std::alloc::{AllocError, Global};
use std::str;

/// The room of a sink for which the header says none, in bytes.
pub(crate) const USUAL_ROOM: u32 = 1 << 16;

/// The words of a text.
fn words_of(alloc: Global, text: &str) -> Result<Vec<String>, AllocError> {
    text.split_whitespace()
        .map(|word| String::from_str(alloc, word))
        .try_collect(alloc)
}

/// Runs the top call with these words on new stores, and answers its status.
pub(crate) fn run_top<S: Source, K: Sink>(
    alloc: Global,
    words: &str,
    source: &mut S,
    sink: &mut K,
) -> Result<u8, AllocError> {
    let words = words_of(alloc, words)?;
    let mut stores = Stores::new(alloc)?;
    let status = gcsh_top(alloc, words.as_slice(), source, sink, &mut stores);
    drop(stores);
    Ok(status)
}

/// Runs the top call on a script, of which these reads fail, and answers its status.
pub(crate) fn run_script(
    alloc: Global,
    words: &str,
    script: String,
    reads: Vec<u64>,
    sink: &mut MemSink,
) -> Result<u8, AllocError> {
    let mut source = MemSource::new(script.into_bytes(), reads);
    run_top(alloc, words, &mut source, sink)
}

/// A sink with the room that the header says, whose writes fail where it says, 0 being the flush.
fn sink_of(alloc: Global, header: Header<'_>) -> Result<MemSink, AllocError> {
    let failing = header.numbers(alloc, "writes")?;
    MemSink::new(alloc, header.number("room", USUAL_ROOM) as usize, failing)
}

/// Runs the top call on a script, and writes what its sink took and its status.
pub(crate) fn push_program(
    alloc: Global,
    header: Header<'_>,
    script: String,
    page: &mut Page,
) -> Result<(), AllocError> {
    let mut sink = sink_of(alloc, header)?;
    let reads = header.numbers(alloc, "reads")?;
    let status = run_script(alloc, header.words, script, reads, &mut sink)?;
    push_output(text_of(&sink), header.has("folded"), status, page);
    Ok(())
}

/// The text that a sink took.
pub(crate) fn text_of(sink: &MemSink) -> &str {
    str::from_utf8(sink.bytes()).unwrap_or("no text")
}

/// Writes what a sink took, and a status.
pub(crate) fn push_output(text: &str, is_folded: bool, status: u8, page: &mut Page) {
    if is_folded {
        push_folded(text, page);
    } else {
        page.push(text);
    }
    if text.is_empty() || text.ends_with('\n') {
        writeln!(page, "status {status}")
    } else {
        writeln!(page, "\nstatus {status} within a line")
    }
}

/// Writes the lines of a text, those that stand several times in a row once, as `{N*LINE}`.
fn push_folded(text: &str, page: &mut Page) {
    let mut lines = text.lines();
    let Some(mut last) = lines.next() else {
        return;
    };
    let mut times = 1u32;
    for line in lines {
        if line == last {
            times = times.saturating_add(1);
            continue;
        }
        push_times(last, times, page);
        last = line;
        times = 1;
    }
    push_times(last, times, page)
}

/// Writes a line that stands so many times in a row.
fn push_times(line: &str, times: u32, page: &mut Page) {
    if times == 1 {
        writeln!(page, "{line}")
    } else {
        writeln!(page, "{{{times}*{line}}}")
    }
}
