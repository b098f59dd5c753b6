//! The table: each row is put to a heap of each kind.

use crate::clients::{show_collections, show_kept, show_scopes};
use crate::fault::TestFault;
use crate::looks::look;
use crate::page::Page;
use crate::rows::{Row, firsts, is_row, low_u32, row_of};
use crate::steps::{answer_change, answer_collect, answer_make};
use crate::stores::show_store;
use crate::types::declare;
use crate::words::{Does, Start};
use gc_copying::CopyingHeap;
use gc_drc::DrcHeap;
use gc_heap::{GcHeap, NullHeap};
use std::alloc::Global;
use std::mem;
use test_mutator::Mutator;

/// The greatest number of pages of a heap.
const MOST_PAGES: u32 = 65535;

/// A mutator over a new heap of so many pages.
fn new_mutator<H: GcHeap + Drop>(alloc: Global, pages: u32) -> Result<Mutator<H>, TestFault> {
    if pages > MOST_PAGES {
        return Err(TestFault::BadRow);
    }
    let types = declare(alloc)?;
    Ok(Mutator::new(alloc, H::unattached(alloc), types, pages)?)
}

/// Begins with a new heap of so many pages.
fn begin<H: GcHeap + Drop>(alloc: Global, m: &mut Mutator<H>, pages: u32, page: &mut Page) {
    match new_mutator(alloc, pages) {
        Ok(new) => {
            drop(mem::replace(m, new));
            write!(page, "begun")
        }
        Err(fault) => write!(page, "{fault}"),
    }
}

/// Answers a row on new heaps.
fn start<H: GcHeap + Drop>(
    alloc: Global,
    m: &mut Mutator<H>,
    starts: Start,
    numbers: &[u64],
    page: &mut Page,
) {
    let [first, second, _] = firsts(numbers);
    match starts {
        Start::Heaps => begin(alloc, m, low_u32(first), page),
        Start::Store => show_store::<H>(alloc, page),
        Start::Keep => show_kept::<H>(alloc, low_u32(first), page),
        Start::Scopes => show_scopes::<H>(alloc, low_u32(first), low_u32(second), page),
        Start::Collections => show_collections::<H>(alloc, low_u32(first), page),
    }
}

/// Answers a row.
fn answer<H: GcHeap + Drop>(alloc: Global, m: &mut Mutator<H>, row: &Row, page: &mut Page) {
    let numbers = row.numbers.as_slice();
    match row.does {
        Does::Starts(starts) => start(alloc, m, starts, numbers, page),
        Does::Makes(make) => answer_make(m, make, numbers, page),
        Does::Changes(change) => answer_change(m, change, numbers, page),
        Does::Collects => answer_collect(m, page),
        Does::Looks(looks) => look(m, looks, numbers, row.others.as_slice(), page),
    }
}

/// Answers the row of a line.
fn answer_line<H: GcHeap + Drop>(alloc: Global, m: &mut Mutator<H>, line: &str, page: &mut Page) {
    match row_of(alloc, line) {
        Ok(row) => answer(alloc, m, &row, page),
        Err(fault) => write!(page, "{fault}"),
    }
}

/// Writes a line for each line of the table: its answer, or nothing.
fn answer_lines<H: GcHeap + Drop>(alloc: Global, m: &mut Mutator<H>, text: &str, page: &mut Page) {
    for line in text.lines() {
        if is_row(line) {
            answer_line(alloc, m, line, page);
        }
        writeln!(page, "");
    }
}

/// Writes what a new heap answers to each line of the table.
fn answer_table<H: GcHeap + Drop>(alloc: Global, text: &str, page: &mut Page) {
    match new_mutator::<H>(alloc, 1) {
        Ok(mut m) => {
            answer_lines(alloc, &mut m, text, page);
            drop(m)
        }
        Err(fault) => write!(page, "{fault}"),
    }
}

/// Writes each row with what the heaps answer.
pub(crate) fn show_table(alloc: Global, text: &str, page: &mut Page) {
    let (mut null, mut counting) = (Page::new(alloc), Page::new(alloc));
    let mut copying = Page::new(alloc);
    answer_table::<NullHeap>(alloc, text, &mut null);
    answer_table::<DrcHeap>(alloc, text, &mut counting);
    answer_table::<CopyingHeap>(alloc, text, &mut copying);
    show_rows(
        text,
        null.text.as_str(),
        counting.text.as_str(),
        copying.text.as_str(),
        page,
    );
}

/// Writes each row with its three answers.
fn show_rows(text: &str, null: &str, counting: &str, copying: &str, page: &mut Page) {
    let answers = null.lines().zip(counting.lines()).zip(copying.lines());
    for (line, ((null, counting), copying)) in text.lines().zip(answers) {
        if is_row(line) {
            show_row(line, null, counting, copying, page);
        }
    }
}

/// Writes a row with its three answers, or with one where they agree.
fn show_row(line: &str, null: &str, counting: &str, copying: &str, page: &mut Page) {
    if null == counting && counting == copying {
        writeln!(page, "{line}: {null}")
    } else {
        writeln!(page, "{line}: {null} | {counting} | {copying}")
    }
}
