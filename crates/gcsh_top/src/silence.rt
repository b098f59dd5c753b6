//! A sink for replies that nobody reads.

ghost use Rattle.std.specs.Prelude.{◌≡◌, true, false, Ok, length};
ghost use Rattle.gcsh_top.specs.Reports.{silent};

use crate::sink::{Sink, SinkFault};
use std::marker::Model;

/// A sink that drops what it takes, and never fails.
#[derive(Debug, Drop)]
pub(crate) struct Silence {
    flushed: bool,
}

impl Model for Silence {
    ghost use Rattle.std.specs.Prelude.{Bool};

    ghost Value = { Bool };

    ghost view = { λ s. s.flushed };
}

impl Silence {
    /// One that took nothing yet.
    pub(crate) fn new() -> Silence
        ensures { result ≡ false }
    {
        Silence { flushed: false }
    }
}

impl Sink for Silence {
    ghost tells = { λ s. silent s };

    fn write(&mut self, bytes: &[u8]) -> Result<usize, SinkFault>
        ensures all { result ≡ Ok (length bytes.now) }
        ensures state { self.new ≡ false }
    {
        self.flushed = false;
        Ok(bytes.len())
    }

    fn flush(&mut self) -> Result<(), SinkFault>
        ensures done { result ≡ Ok tt }
        ensures state { self.new ≡ true }
    {
        self.flushed = true;
        Ok(())
    }
}
