//! Runs the top call over a reader and a writer that give and take by parts, and writes what was called.

use crate::ends::{Log, Reader, Writer};
use crate::page::Page;
use crate::runs::run_top;
use crate::table::Header;
use gcsh_top::{StdSink, StdSource};
use std::alloc::{AllocError, Global};

/// Runs the top call on a script, and writes the calls of its ends and its status.
pub(crate) fn push_traced(
    alloc: Global,
    header: Header<'_>,
    script: &str,
    page: &mut Page,
) -> Result<(), AllocError> {
    let log = Log::new(alloc);
    let status = run_logged(alloc, header, script, &log)?;
    log.push(status, page);
    Ok(())
}

/// Runs the top call on a script over ends that log their calls, and answers its status.
fn run_logged(
    alloc: Global,
    header: Header<'_>,
    script: &str,
    log: &Log,
) -> Result<u8, AllocError> {
    let reader = Reader {
        left: script.as_bytes(),
        gives: header.number("gives", u32::MAX) as usize,
        failing: header.number("reads", 0),
        calls: 0,
        first_told: header.number("from", 1),
        log,
    };
    let writer = Writer {
        takes: header.number("takes", u32::MAX) as usize,
        failing_write: header.number("writes", 0),
        failing_flush: header.number("flushes", 0),
        writes: 0,
        flushes: 0,
        log,
    };
    let mut source = StdSource::new(reader);
    let mut sink = StdSink::new(writer);
    run_top(alloc, header.words, &mut source, &mut sink)
}
