//! Reads images from standard input, one a row, and prints of each whether it is well, or what becomes of it on its way through heaps.
//!
//! In a row `;` stands for a line feed, and `{N*TEXT}` for N times the text; rows that begin with `//` say nothing. Each row is printed, and
//! under it what is told of it.
//! - Behind `well ` stands an image of which it is told whether it is well. Behind `each ` stands one in which each byte is exchanged in turn
//!   for each of the 256: told are, for each place, how many of these make a well text.
//! - Any other image is loaded into a new store over a copying heap, saved from there, and what was saved is handed on to a heap of another kind, until it
//!   went from each kind to each other. Told is, for each heap, `same` where what was saved is what was loaded, and else the text or the refusal.
//! - With words in front it goes through a heap of each kind. Behind `few N` a store may have N scoped roots; behind `crowded N` too, and it gets as
//!   many further roots as it may have before it is saved; behind `declares N` too, and a function type is declared before it is saved; behind `pages N` a heap
//!   may have N pages.
//!
//! What must be printed, in `stdout`, was worked out by hand from the rules in docs/FORMATS.md, and for `each ` by another program that keeps them.
#![tactic(auto)]

mod rows;
mod trips;
mod wells;

use crate::rows::{Ask, ask_of, bytes_of, push_trip};
use crate::trips::{Setup, Trip, trip_of};
use crate::wells::{push_counts, push_well};
use std::alloc::{AllocError, Global};
use std::io;
use thiserror::Error;

/// Why the rows can't be read or run.
#[derive(Debug, Drop, Error)]
enum RowsFault {
    #[error(transparent)]
    File(#[from] io::Error),
    #[error(transparent)]
    Memory(#[from(alloc)] AllocError),
}

/// Takes an image from heap to heap. Where one refuses it the next one gets what this one got.
fn push_stops(
    alloc: Global,
    setup: Setup,
    image: Vec<u8>,
    out: &mut String,
) -> Result<(), AllocError> {
    let mut bytes = image;
    for stop in 0..setup.stops {
        let (name, trip) = trip_of(alloc, stop, setup, bytes.as_slice())?;
        write!(out, "{name} ")?;
        push_trip(bytes.as_slice(), &trip, out)?;
        if let Trip::Saved(saved) = trip {
            bytes = saved;
        }
    }
    Ok(())
}

/// Writes what is told of a row.
fn push_answer(alloc: Global, row: &str, out: &mut String) -> Result<(), AllocError> {
    let (ask, text) = ask_of(row);
    let bytes = bytes_of(alloc, text)?;
    match ask {
        Ask::Well => push_well(alloc, bytes.as_slice(), out),
        Ask::Each => push_counts(alloc, bytes.as_slice(), out),
        Ask::Trip(setup) => push_stops(alloc, setup, bytes, out),
    }
}

/// What is printed of the rows of a text.
fn answers(alloc: Global, text: &str) -> Result<String, AllocError> {
    let mut out = String::new(alloc);
    for row in text.lines() {
        writeln!(out, "{row}")?;
        if !row.starts_with("//") {
            push_answer(alloc, row, &mut out)?;
        }
    }
    Ok(out)
}

fn main(rt: HostRuntime) -> Result<(), RowsFault> {
    let text = io::read_to_string(rt.alloc(), rt.reader())?;
    let shown = answers(rt.alloc(), text.as_str())?;
    print!(rt; "{shown}")?;
    Ok(())
}
