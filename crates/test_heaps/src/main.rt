//! Does what the lines of standard input say to a heap of each kind, and prints each line with what the
//! null, the counting and the copying heap answer; one answer stands for all three where they agree. Two cases of
//! one kind of heap, to which no row comes, are printed behind.
//!
//! A line that is empty or begins with `//` is no row. Roots are counted from 0, in the order in which they
//! were made; so are the fields of a struct, the elements of an array, and the words of an exception, which
//! are its instance, its tag and its fields. The rows:
//!
//! - `heaps PAGES` begins new heaps of so many pages;
//! - `struct TYPE`, `array TYPE LENGTH` and `host VALUE` make an object, `number N` a 31-bit number, `copy
//!   ROOT` and `show ROOT` a copy of a word, for a root and for a frame slot: the index of the new root;
//!   `chain N` makes N structs and one more, each of which names the one before it;
//! - `link ROOT FIELD ROOT`, `clear ROOT FIELD` and `put ROOT FIELD NUMBER` write a reference, null or a
//!   number; `drop ROOT` gives a root up, `leave ROOT` a frame slot; `grow PAGES` grows the memory;
//! - `gc` collects: how many increments it took;
//! - `count` tells what there is, `heap` how long the memory is; `at ROOT` where an object lies, `header
//!   ROOT` its kind word, type and size, `data ROOT N` so many words of its data, and `raw ROOT FROM TO`
//!   bytes of it, in hexadecimal;
//! - `see ROOT FIELD..` tells what a path leads to, and `same ROOT FIELD.. and ROOT FIELD..` whether two
//!   lead to one word;
//! - `refused WORD` tells which of six reads refuse a word, by an x: those of the header, the size, the
//!   place, the data, an array's length, and a host value;
//! - `store` makes an object of each kind in a new heap with a host table, over bytes that aren't 0: where each lies,
//!   and the first word of the first;
//! - `keep NUMBER` is the number that a client keeps through a collection of a new heap;
//! - `scopes SPARE BYTES` is a client's scope in a new heap, and another one after its memory was taken away:
//!   where a struct and an array lay that were given back, the spare bits of a header that was set, what there
//!   was, the bytes that a struct of so many bytes wanted, and those of the memory;
//! - `collections TYPE` is what a client's three collections keep of two objects in a new heap: whether the
//!   first, which is dropped after one increment, had more to do, and the type and size of the first object.
//!
//! The types are in `types.rt`. What must be printed, in `stdout`, was worked out by hand from the layouts
//! in docs/FORMATS.md and the rules of the heaps in docs/DEFINITIONS.md.
#![tactic(auto)]

mod clients;
mod fault;
mod looks;
mod page;
mod paths;
mod revived;
mod rows;
mod steps;
mod stores;
mod table;
mod types;
mod untyped;
mod words;

use crate::fault::TestFault;
use crate::page::Page;
use crate::revived::show_revived;
use crate::table::show_table;
use crate::untyped::show_untyped;
use std::alloc::Global;
use std::io;

/// What must be printed.
fn answers(alloc: Global, text: &str) -> Result<String, TestFault> {
    let mut page = Page::new(alloc);
    show_table(alloc, text, &mut page);
    show_untyped(alloc, &mut page);
    show_revived(alloc, &mut page);
    page.finish()
}

fn main(rt: HostRuntime) -> Result<(), TestFault> {
    let alloc = rt.alloc();
    let text = io::read_to_string(alloc, rt.reader())?;
    let shown = answers(alloc, text.as_str())?;
    print!(rt; "{shown}")?;
    Ok(())
}
