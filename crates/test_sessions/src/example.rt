//! Runs an example through the top call, and compares what it gives with what it must.

use crate::page::Page;
use crate::runs::{USUAL_ROOM, push_output, run_script, text_of};
use gcsh_top::MemSink;
use std::alloc::AllocError;
use std::fs;

/// The text of a file; none where it can't be read.
fn read_file(rt: &HostRuntime, name: &str) -> String {
    match fs::read_to_string(rt, name) {
        Ok(text) => text,
        Err(_) => String::new(rt.alloc()),
    }
}

/// Writes `ok` where an example gave what it must, and else what it gave.
fn push_compared(given: &str, wanted: &str, status: u8, page: &mut Page) {
    if status == 0 && !wanted.is_empty() && given == wanted {
        page.push("ok\n");
    } else {
        push_output(given, false, status, page);
    }
}

/// Runs the example of a header's words: the file of its script, that of its output, and the words of the command line.
pub(crate) fn push_example(
    rt: &HostRuntime,
    words: &str,
    page: &mut Page,
) -> Result<(), AllocError> {
    let (script, rest) = words.split_once(' ').unwrap_or((words, ""));
    let (output, words) = rest.split_once(' ').unwrap_or((rest, ""));
    let mut sink = MemSink::new(rt.alloc(), USUAL_ROOM as usize, Vec::new(rt.alloc()))?;
    let reads = Vec::new(rt.alloc());
    let status = run_script(rt.alloc(), words, read_file(rt, script), reads, &mut sink)?;
    let wanted = read_file(rt, output);
    push_compared(text_of(&sink), wanted.as_str(), status, page);
    Ok(())
}
