//! What is printed.

use std::alloc::{AllocError, Global};
use std::fmt::Display;

/// The text that is printed. Where it finds no memory, that is told at the end, so that writing is a call without an answer.
#[derive(Drop)]
pub(crate) struct Page {
    text: String,
    full: Option<AllocError>,
}

impl Page {
    /// Nothing is written so far.
    pub(crate) fn new(alloc: Global) -> Page {
        Page {
            text: String::new(alloc),
            full: None,
        }
    }

    /// Puts a text behind what is written: what `writeln!` calls.
    pub(crate) fn write_fmt<T: Display + Drop>(&mut self, text: T) {
        if let Err(full) = write!(self.text, "{text}") {
            self.full = Some(full);
        }
    }

    /// What is printed.
    pub(crate) fn finish(self) -> Result<String, AllocError> {
        let Page { text, full } = self;
        match full {
            Some(full) => Err(full),
            None => Ok(text),
        }
    }
}
