//! What is printed.

use std::alloc::{AllocError, Global};
use std::fmt::Display;
use std::io;
use std::io::ErrorKind;

/// The text that is printed at the end. A call that is refused where it isn't to be writes why, so that the text is another one; only
/// want of memory for the text itself is kept. So writing is a call without an answer.
#[derive(Drop)]
pub(crate) struct Page {
    text: String,
    is_cut: bool,
}

impl Page {
    /// Nothing is written so far.
    pub(crate) fn new(alloc: Global) -> Page {
        Page {
            text: String::new(alloc),
            is_cut: false,
        }
    }

    /// Puts a text behind what is written: what `write!` and `writeln!` call.
    pub(crate) fn write_fmt<T: Display + Drop>(&mut self, text: T) {
        let written: Result<(), AllocError> = write!(self.text, "{text}");
        if written.is_err() {
            self.is_cut = true;
        }
    }

    /// Writes why a call is refused; nothing where it is done.
    pub(crate) fn refused<T: Drop, F: Display + Drop>(&mut self, call: &str, answer: Result<T, F>) {
        if let Err(fault) = answer {
            writeln!(self, "{call}: {fault}")
        }
    }

    /// What is printed.
    pub(crate) fn finish(self) -> io::Result<String> {
        let Page { text, is_cut } = self;
        if is_cut {
            return Err(ErrorKind::OutOfMemory.into());
        }
        Ok(text)
    }
}
