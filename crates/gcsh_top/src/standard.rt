//! Standard input and output as a source and a sink.
//!
//! Each call makes one call of std. What the world gives or takes is told by no contract, so the
//! two tell counts alone.

ghost use Rattle.std.specs.Prelude.{◌≡◌, ◌≤◌, IfOk, None, length};
ghost use Rattle.gcsh_top.specs.Counts.{after_flush, input_after_read, after_write, fresh_input, fresh_output};

use crate::sink::{Sink, SinkFault};
use crate::source::{Source, SourceFault};
use std::io::{Read, Write};
use std::marker::Model;

/// A reader as a source, as the reader of standard input.
#[derive(Drop)]
pub struct StdSource<R> {
    reader: R,
    faults: u64,
    given: u64,
    ended: bool,
}

impl<R> Model for StdSource<R> {
    ghost use Rattle.gcsh_top.specs.Counts.{Input};

    ghost Value = { Input };

    ghost view = { λ s. record { faults = s.faults; given = s.given; ended = s.ended } };
}

impl<R: Read> StdSource<R> {
    /// A source that wasn't read yet.
    pub fn new(reader: R) -> StdSource<R>
        ensures { result ≡ fresh_input }
    {
        StdSource {
            reader,
            faults: 0,
            given: 0,
            ended: false,
        }
    }
}

impl<R: Read> Source for StdSource<R> {
    ghost tells = { λ s. record { left = None; faults = s.faults; given = s.given; ended = s.ended } };

    fn read(&mut self, buf: &mut [u8]) -> Result<usize, SourceFault>
        ensures within { IfOk result (λ n. n ≤ length buf.new) }
        ensures state { self.new ≡ input_after_read self.old buf.new result }
    {
        match self.reader.read(buf) {
            Ok(count) => {
                self.given = self.given.saturating_add(count as u64);
                self.ended = count == 0 && !buf.is_empty();
                Ok(count)
            }
            Err(_) => {
                self.faults = self.faults.saturating_add(1);
                self.ended = false;
                Err(SourceFault)
            }
        }
    }
}

/// A writer as a sink, as a buffer before standard output.
#[derive(Drop)]
pub struct StdSink<W> {
    writer: W,
    faults: u64,
    flushed: bool,
}

impl<W> Model for StdSink<W> {
    ghost use Rattle.gcsh_top.specs.Counts.{Output};

    ghost Value = { Output };

    ghost view = { λ s. record { faults = s.faults; flushed = s.flushed } };
}

impl<W: Write> StdSink<W> {
    /// A sink that wasn't written yet.
    pub fn new(writer: W) -> StdSink<W>
        ensures { result ≡ fresh_output }
    {
        StdSink {
            writer,
            faults: 0,
            flushed: false,
        }
    }
}

impl<W: Write> Sink for StdSink<W> {
    ghost tells = { λ s. record { held = None; faults = s.faults; flushed = s.flushed } };

    #[inline(always)]
    fn write(&mut self, bytes: &[u8]) -> Result<usize, SinkFault>
        ensures within { IfOk result (λ n. n ≤ length bytes.now) }
        ensures state { self.new ≡ after_write self.old bytes.now result }
    {
        self.flushed = false;
        match self.writer.write(bytes) {
            Ok(count) => {
                if count == 0 && !bytes.is_empty() {
                    self.faults = self.faults.saturating_add(1);
                }
                Ok(count)
            }
            Err(_) => {
                self.faults = self.faults.saturating_add(1);
                Err(SinkFault)
            }
        }
    }

    fn flush(&mut self) -> Result<(), SinkFault>
        ensures state { self.new ≡ after_flush self.old result }
    {
        match self.writer.flush() {
            Ok(()) => {
                self.flushed = true;
                Ok(())
            }
            Err(_) => {
                self.faults = self.faults.saturating_add(1);
                self.flushed = false;
                Err(SinkFault)
            }
        }
    }
}
