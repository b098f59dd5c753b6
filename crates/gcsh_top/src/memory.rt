//! A source and a sink in memory, which tell their bytes and fail at the calls that they are told to.

ghost use Rattle.std.specs.Prelude.{◌≡◌, ◌↔◌, ◌-◌, ◌⊎◌, ◌++◌, Contains, IfOk, IsErr, Some, drop, length, min, take};
ghost use Rattle.gcsh_top.specs.Counts.{saturated_sum};
ghost use Rattle.gcsh_top.specs.Memory.{IsSinkFull, sink_after_flush, source_after_read, sink_after_write, fresh_sink, fresh_source};

use crate::sink::{Sink, SinkFault};
use crate::source::{Source, SourceFault};
use std::alloc::{AllocError, Global};
use std::marker::Model;

/// A source over bytes in memory.
#[derive(Debug, Drop)]
pub struct MemSource {
    bytes: Vec<u8>,
    at: usize,
    failing: Vec<u64>,
    calls: u64,
    faults: u64,
    given: u64,
    ended: bool,
}

impl Model for MemSource {
    ghost use Rattle.std.specs.Prelude.{◌≤◌, drop, vec_len};
    ghost use Rattle.gcsh_top.specs.Memory.{SourceState};

    ghost Value = { SourceState };

    ghost view = { λ s. record {
      left = drop s.at s.bytes.items;
      failing = s.failing.items;
      calls = s.calls;
      counts = record {
        faults = s.faults;
        given = s.given;
        ended = s.ended;
      };
    } };

    ghost invariant = { λ s. s.at ≤ vec_len s.bytes };
}

impl MemSource {
    /// A source of `bytes`. Its reads are numbered from 1; the ones whose number stands in
    /// `failing` fail, and each other one gives as many bytes as it can.
    pub fn new(bytes: Vec<u8>, failing: Vec<u64>) -> MemSource
        ensures { result ≡ fresh_source bytes.items failing.items }
    {
        MemSource {
            bytes,
            at: 0,
            failing,
            calls: 0,
            faults: 0,
            given: 0,
            ended: false,
        }
    }
}

impl Source for MemSource {
    ghost tells = { λ s. record { left = Some s.left; faults = s.counts.faults; given = s.counts.given; ended = s.counts.ended } };

    fn read(&mut self, buf: &mut [u8]) -> Result<usize, SourceFault>
        ensures fails { IsErr result ↔ Contains self.old.failing (saturated_sum self.old.calls 1) }
        ensures most { IfOk result (λ n. n ≡ min (length buf.new) (length self.old.left)) }
        ensures bytes { IfOk result (λ n. buf.new ≡ take n self.old.left ++ drop n buf.old) }
        ensures state { self.new ≡ source_after_read self.old buf.new result }
    {
        self.calls = self.calls.saturating_add(1);
        if self.failing.contains(&self.calls) {
            self.faults = self.faults.saturating_add(1);
            self.ended = false;
            return Err(SourceFault);
        }
        let count = copy_front(&self.bytes[self.at..], buf);
        self.at += count;
        self.given = self.given.saturating_add(count as u64);
        self.ended = count == 0 && !buf.is_empty();
        Ok(count)
    }
}

/// Copies as many bytes of `from` as go into the front of `to`, and answers how many.
fn copy_front(from: &[u8], to: &mut [u8]) -> usize
    ensures count { result ≡ min (length to.new) (length from.now) }
    ensures bytes { to.new ≡ take result from.now ++ drop result to.old }
{
    let count = from.len().min(to.len());
    to[..count].copy_from_slice(&from[..count]);
    count
}

/// A sink that keeps the bytes that it takes.
#[derive(Debug, Drop)]
pub struct MemSink {
    bytes: Vec<u8>,
    room: usize,
    failing: Vec<u64>,
    calls: u64,
    faults: u64,
    flushed: bool,
}

impl Model for MemSink {
    ghost use Rattle.std.specs.Prelude.{◌≤◌, vec_capacity, vec_len};
    ghost use Rattle.gcsh_top.specs.Memory.{SinkState};

    ghost Value = { SinkState };

    ghost view = { λ s. record {
      held = s.bytes.items;
      room = s.room;
      failing = s.failing.items;
      calls = s.calls;
      counts = record { faults = s.faults; flushed = s.flushed };
    } };

    ghost invariant = { λ s. (vec_len s.bytes ≤ s.room) × (s.room ≤ vec_capacity s.bytes) };
}

impl MemSink {
    /// A sink with room for `room` bytes, which is made here. Its writes are numbered from 1; the
    /// ones whose number stands in `failing` fail, and so does one of some bytes where no room is
    /// left; each other one takes as many bytes as there is room for. A flush fails where 0 stands
    /// in `failing`. Takes no memory afterwards.
    pub fn new(alloc: Global, room: usize, failing: Vec<u64>) -> Result<MemSink, AllocError>
        ensures { IfOk result (λ sink. sink ≡ fresh_sink room failing.items) }
    {
        Ok(MemSink {
            bytes: Vec::with_capacity(alloc, room)?,
            room,
            failing,
            calls: 0,
            faults: 0,
            flushed: false,
        })
    }

    /// The bytes that it holds.
    pub fn bytes(&self) -> &[u8]
        ensures { result.now ≡ self.now.held }
    {
        self.bytes.as_slice()
    }
}

impl Sink for MemSink {
    ghost tells = { λ s. record { held = Some s.held; faults = s.counts.faults; flushed = s.counts.flushed } };

    fn write(&mut self, bytes: &[u8]) -> Result<usize, SinkFault>
        ensures fails { IsErr result ↔ (Contains self.old.failing (saturated_sum self.old.calls 1) ⊎ IsSinkFull self.old bytes.now) }
        ensures most { IfOk result (λ n. n ≡ min (length bytes.now) (self.old.room - length self.old.held)) }
        ensures state { self.new ≡ sink_after_write self.old bytes.now result }
    {
        self.flushed = false;
        self.calls = self.calls.saturating_add(1);
        let left = self.room - self.bytes.len();
        if self.failing.contains(&self.calls) || (left == 0 && !bytes.is_empty()) {
            self.faults = self.faults.saturating_add(1);
            return Err(SinkFault);
        }
        let count = left.min(bytes.len());
        match self.bytes.extend_from_slice(&bytes[..count]) {
            Ok(()) => Ok(count),
            Err(_) => unreachable!(),
        }
    }

    fn flush(&mut self) -> Result<(), SinkFault>
        ensures fails { IsErr result ↔ Contains self.old.failing 0 }
        ensures state { self.new ≡ sink_after_flush self.old result }
    {
        if self.failing.contains(&0) {
            self.faults = self.faults.saturating_add(1);
            self.flushed = false;
            return Err(SinkFault);
        }
        self.flushed = true;
        Ok(())
    }
}
