//! A reader and a writer that give and take by parts, and log what is called.

use crate::page::Page;
use std::alloc::Global;
use std::cell::RefCell;
use std::fmt::Display;
use std::io;
use std::io::{ErrorKind, Read, Write};

/// The calls of both ends, in order, one a line.
#[derive(Drop)]
pub(crate) struct Log {
    page: RefCell<Page>,
}

impl Log {
    /// Nothing was called.
    pub(crate) fn new(alloc: Global) -> Log {
        Log {
            page: RefCell::new(Page::new(alloc)),
        }
    }

    /// Puts a call behind the others: what `writeln!` calls.
    fn write_fmt<T: Display + Drop>(&self, call: T) {
        if let Ok(mut page) = self.page.try_borrow_mut() {
            page.write_fmt(call);
        }
    }

    /// Writes the calls, and a status.
    pub(crate) fn push(&self, status: u8, page: &mut Page) {
        if let Ok(calls) = self.page.try_borrow() {
            page.push(calls.as_str());
        }
        writeln!(page, "status {status}")
    }
}

/// A reader of a script.
#[derive(Drop)]
pub(crate) struct Reader<'a> {
    pub(crate) left: &'a [u8],
    pub(crate) gives: usize,
    /// The number of the read that fails, from 1 on.
    pub(crate) failing: u32,
    pub(crate) calls: u32,
    pub(crate) first_told: u32,
    pub(crate) log: &'a Log,
}

impl Read for Reader<'_> {
    fn read(&mut self, buf: &mut [u8]) -> io::Result<usize> {
        let asked = buf.len();
        self.calls = self.calls.saturating_add(1);
        if self.calls == self.failing {
            writeln!(self.log, "read {asked}: fault");
            return Err(ErrorKind::Other.into());
        }
        let count = self.left.len().min(self.gives).min(asked);
        buf[..count].copy_from_slice(&self.left[..count]);
        self.left = &self.left[count..];
        if self.calls >= self.first_told {
            writeln!(self.log, "read {asked}: {count}");
        }
        Ok(count)
    }
}

/// A writer that keeps nothing.
#[derive(Drop)]
pub(crate) struct Writer<'a> {
    pub(crate) takes: usize,
    /// The number of the write that fails, from 1 on.
    pub(crate) failing_write: u32,
    /// The number of the flush that fails, from 1 on.
    pub(crate) failing_flush: u32,
    pub(crate) writes: u32,
    pub(crate) flushes: u32,
    pub(crate) log: &'a Log,
}

impl Write for Writer<'_> {
    fn write(&mut self, buf: &[u8]) -> io::Result<usize> {
        let asked = buf.len();
        self.writes = self.writes.saturating_add(1);
        if self.writes == self.failing_write {
            writeln!(self.log, "write {asked}: fault");
            return Err(ErrorKind::Other.into());
        }
        let count = asked.min(self.takes);
        let text = str::from_utf8(&buf[..count]).unwrap_or("no text");
        writeln!(self.log, "write {asked}: {text:?}");
        Ok(count)
    }

    fn flush(&mut self) -> io::Result<()> {
        self.flushes = self.flushes.saturating_add(1);
        if self.flushes == self.failing_flush {
            writeln!(self.log, "flush: fault");
            return Err(ErrorKind::Other.into());
        }
        writeln!(self.log, "flush");
        Ok(())
    }
}
