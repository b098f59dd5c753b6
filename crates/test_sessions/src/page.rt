//! Text that is put together.

use std::alloc::{AllocError, Global};
use std::fmt::Display;
use std::io;
use std::io::ErrorKind;

/// A text, and whether there was no memory for some of it: so that to put more behind it is a call without an answer.
#[derive(Drop)]
pub(crate) struct Page {
    text: String,
    is_cut: bool,
}

impl Page {
    /// Nothing is written so far.
    pub(crate) fn new(alloc: Global) -> Page {
        Page {
            text: String::new(alloc),
            is_cut: false,
        }
    }

    /// Notes that a part is wanting, where a call had no memory.
    pub(crate) fn keep<F: Drop>(&mut self, answer: Result<(), F>) {
        if answer.is_err() {
            self.is_cut = true;
        }
    }

    /// Puts a text behind what is written.
    pub(crate) fn push(&mut self, text: &str) {
        let pushed = self.text.push_str(text);
        self.keep(pushed)
    }

    /// Puts a character behind what is written.
    pub(crate) fn push_char(&mut self, c: char) {
        let pushed = self.text.push(c);
        self.keep(pushed)
    }

    /// Puts a text behind what is written: what `write!` and `writeln!` call.
    pub(crate) fn write_fmt<T: Display + Drop>(&mut self, text: T) {
        let written: Result<(), AllocError> = write!(self.text, "{text}");
        self.keep(written)
    }

    /// What is written so far.
    pub(crate) fn as_str(&self) -> &str {
        self.text.as_str()
    }

    /// What is written, whole or not.
    pub(crate) fn into_text(self) -> String {
        let Page { text, .. } = self;
        text
    }

    /// What is written, where it is whole.
    pub(crate) fn finish(self) -> io::Result<String> {
        let Page { text, is_cut } = self;
        if is_cut {
            return Err(ErrorKind::OutOfMemory.into());
        }
        Ok(text)
    }
}
