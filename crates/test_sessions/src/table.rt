//! Reads a table into sessions, and runs them.

use crate::example::push_example;
use crate::expand::expand_block;
use crate::page::Page;
use crate::runs::push_program;
use crate::stores::push_store;
use crate::traced::push_traced;
use std::alloc::{AllocError, Global};
use std::io;

/// What a session runs.
#[derive(Clone, Copy)]
pub(crate) enum Kind {
    /// The top call, with ends in memory.
    Program,
    /// The top call, with ends that give and take by parts and whose calls are told.
    Traced,
    /// A script on a store of its own.
    Store,
    /// The top call on an example.
    Example,
}

/// What a header begins with, by what it runs.
const MARKS: [(&str, Kind); 4] = [
    ("# ", Kind::Program),
    ("~ ", Kind::Traced),
    ("! ", Kind::Store),
    ("= ", Kind::Example),
];

/// What a line runs that is a header; nothing of any other line.
pub(crate) fn kind_of(line: &str) -> Option<Kind> {
    for (mark, kind) in MARKS {
        if line.starts_with(mark) {
            return Some(kind);
        }
    }
    None
}

/// The words of a header, and its options.
#[derive(Clone, Copy)]
pub(crate) struct Header<'a> {
    pub(crate) words: &'a str,
    /// The options, with `|` between them: the name of each, and what stands behind it.
    options: &'a str,
}

impl<'a> Header<'a> {
    /// That of a line.
    fn of(line: &'a str) -> Header<'a> {
        let (_, rest) = line.split_once(' ').unwrap_or((line, ""));
        let (words, options) = rest.split_once('|').unwrap_or((rest, ""));
        Header { words, options }
    }

    /// What stands behind an option; nothing where the header doesn't have it.
    pub(crate) fn value(&self, name: &str) -> Option<&'a str> {
        for option in self.options.split('|') {
            let (own, value) = option.trim().split_once(' ').unwrap_or((option.trim(), ""));
            if own == name {
                return Some(value);
            }
        }
        None
    }

    /// Whether the header has an option.
    pub(crate) fn has(&self, name: &str) -> bool {
        self.value(name).is_some()
    }

    /// The number behind an option; the usual one where the header doesn't have it.
    pub(crate) fn number(&self, name: &str, usual: u32) -> u32 {
        self.value(name).unwrap_or("").parse().unwrap_or(usual)
    }

    /// The numbers behind an option; none where the header doesn't have it.
    pub(crate) fn numbers(&self, alloc: Global, name: &str) -> Result<Vec<u64>, AllocError> {
        self.value(name)
            .unwrap_or("")
            .split_whitespace()
            .map(|word| word.parse().unwrap_or(0))
            .collect(alloc)
    }
}

/// Runs the session of a header, whose script stands in its block.
fn push_session(
    rt: &HostRuntime,
    kind: Kind,
    header: Header<'_>,
    block: &str,
    page: &mut Page,
) -> Result<(), AllocError> {
    let script = expand_block(rt.alloc(), block, !header.has("unended"));
    match kind {
        Kind::Program => push_program(rt.alloc(), header, script, page),
        Kind::Traced => push_traced(rt.alloc(), header, script.as_str(), page),
        Kind::Store => push_store(rt.alloc(), header, script.as_str(), page),
        Kind::Example => push_example(rt, header.words, page),
    }
}

/// Runs the sessions of a block.
fn push_block(rt: &HostRuntime, block: &str, page: &mut Page) {
    for line in block.lines() {
        if let Some(kind) = kind_of(line) {
            writeln!(page, "{line}");
            let pushed = push_session(rt, kind, Header::of(line), block, page);
            page.keep(pushed);
        }
    }
}

/// What the sessions of a table give.
pub(crate) fn table_answers(rt: &HostRuntime, table: &str) -> io::Result<String> {
    let mut page = Page::new(rt.alloc());
    for block in table.split("\n\n") {
        push_block(rt, block, &mut page);
    }
    page.finish()
}
