//! What is printed.

use crate::fault::TestFault;
use std::alloc::Global;
use std::fmt::Display;

/// The text that is printed at the end. Whether it is whole is told then alone, so writing is a call without an answer.
#[derive(Drop)]
pub(crate) struct Page {
    pub(crate) text: String,
    is_whole: bool,
}

impl Page {
    /// Nothing is written so far.
    pub(crate) fn new(alloc: Global) -> Page {
        Page {
            text: String::new(alloc),
            is_whole: true,
        }
    }

    /// Puts a text behind what is written: what `write!` and `writeln!` call.
    pub(crate) fn write_fmt<T: Display + Drop>(&mut self, text: T) {
        if write!(self.text, "{text}").is_err() {
            self.is_whole = false;
        }
    }

    /// What is printed, if nothing of it was lost.
    pub(crate) fn finish(self) -> Result<String, TestFault> {
        let Page { text, is_whole } = self;
        if is_whole {
            Ok(text)
        } else {
            Err(TestFault::NoRoom)
        }
    }
}
