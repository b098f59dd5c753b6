//! Calls the lowest crates, as the rows of standard input say, and prints each row with its answer.
//!
//! A line `== NAME` begins a section; what stands before the first is a comment, and so is a row that begins with `//`. A row is a name with
//! words and numbers behind it, mixed; a number is decimal, or hexadecimal after `0x`. The sections begin anew each time, and their rows are:
//!
//! - `types`: `table`, `family` and `chain COUNT` begin with no types, a few of each shape, or structs that extend one another. `struct`, `array`,
//!   `func` and `exn` declare one, `ref`, `field` and `subtype` match two, `layout` tells where values lie; `climb SUBS SUPS` counts;
//! - `free`: `list BYTES` begins a free list; `take SIZE` and `counted SIZE` take a block, `give PLACE` gives it back, `grow BYTES` adds capacity;
//! - `words`, `headers`, `values`: calls on words, on headers and trace words, and on numbers as bytes and raw values;
//! - `views`: `bytes N..` begins with bytes, `fill OFFSET LENGTH BYTE` fills what a view of them lends, whose first byte is at 12;
//! - `hosts`, `functions`, `continuations`, `slab`, `memory`, `roots`: calls on one of them;
//! - `replies`: the text of a reply;
//! - `lines`: a row is a line of a script, and printed is the command that it is, without the row (`src/lines.rt`).
//!
//! What must be printed, in `stdout`, was worked out by hand from the meaning of each call.
#![tactic(auto)]

mod answers;
mod fault;
mod free;
mod functions;
mod headers;
mod hosts;
mod layouts;
mod lines;
mod memory;
mod numbers;
mod printed;
mod replies;
mod roots;
mod row;
mod shapes;
mod slab;
mod spelled;
mod tracked;
mod type_words;
mod types;
mod values;
mod views;
mod words;

use crate::fault::CaseFault;
use std::alloc::{AllocError, Global};
use std::io;

/// Adds each section of a text with its answers.
fn answer_sections(alloc: Global, text: &str, out: &mut String) -> Result<(), AllocError> {
    for section in text.split("== ").skip(1) {
        let (name, rows) = section.split_once('\n').unwrap_or((section, ""));
        write!(out, "== {name}\n")?;
        answer_section(alloc, name, rows, out)?;
    }
    Ok(())
}

/// Adds the answers to the rows of a section.
fn answer_section(
    alloc: Global,
    name: &str,
    rows: &str,
    out: &mut String,
) -> Result<(), AllocError> {
    match name {
        "types" => types::answer(alloc, rows, out),
        "free" => free::answer(alloc, rows, out),
        "words" => words::answer(alloc, rows, out),
        "headers" => headers::answer(alloc, rows, out),
        "values" => values::answer(alloc, rows, out),
        "views" => views::answer(alloc, rows, out),
        "hosts" => hosts::answer(alloc, rows, out),
        "functions" => functions::answer(alloc, rows, out),
        "continuations" => functions::answer_continuations(alloc, rows, out),
        "slab" => slab::answer(alloc, rows, out),
        "memory" => memory::answer(alloc, rows, out),
        "roots" => roots::answer(alloc, rows, out),
        "replies" => replies::answer(alloc, rows, out),
        "lines" => lines::answer(alloc, rows, out),
        _ => out.push_str("no such section\n"),
    }
}

fn main(rt: HostRuntime) -> Result<(), CaseFault> {
    let alloc = rt.alloc();
    let text = io::read_to_string(alloc, rt.reader())?;
    let mut page = String::new(alloc);
    answer_sections(alloc, text.as_str(), &mut page)?;
    print!(rt; "{page}")?;
    Ok(())
}
