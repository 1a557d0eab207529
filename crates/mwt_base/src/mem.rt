// A source and a sink in memory whose failures are planned, by the numbers of their calls.
ghost use Rattle.std.specs.Prelude.{◌≡◌, ℕ, ◌<◌, ◌≤◌, ◌+◌, ◌||◌, not, List, [], Some, false, drop, take, length, vec_len, vec_capacity, IfOk, OnErr, is_err};
ghost use Rattle.std.specs.Io.{ReadsAtMost, WritesAtMost};
ghost use Rattle.std.specs.Io.KnownBytes.{ReadConsumes};
ghost use Rattle.mwt_base.specs.Causes.{HasCause, Rose};
ghost use Rattle.mwt_base.specs.Planned.{PlannedCalls, PlannedSource, PlannedSink, planned, fails_next, counted, taken_count, is_full, after_read, after_failed_read, after_write, after_failed_write};
ghost use Rattle.mwt_base.specs.Sure.{given_count};
ghost use Rattle.mwt_base.specs.Told.{WriteGrows};

use crate::sure::give;
use crate::{Bytes, Failed, NoMemory, Sink, Source};
use std::alloc::Global;
use std::marker::Model;

// Which calls are to fail, how many were made, and how many failed.
#[derive(Drop)]
struct Plan {
    fail: Vec<u64>,
    calls: u64,
    faults: u64,
}

impl Model for Plan {
    ghost Value = { PlannedCalls };

    ghost view = { λ p. record { fail = p.fail.items; calls = p.calls; faults = p.faults } };
}

impl Plan {
    fn new(fail: Vec<u64>) -> Self
        ensures { result ≡ planned fail.items }
    {
        Plan {
            fail,
            calls: 0,
            faults: 0,
        }
    }

    // Counts one more call. It fails where its number is planned, or where it cannot be done.
    fn call(&mut self, possible: bool) -> Result<(), Failed>
        ensures fails { is_err result ≡ (fails_next self.old || not possible) }
        ensures counts { self.new ≡ counted (is_err result) self.old }
        ensures later { self.old.faults ≤ self.new.faults }
        ensures risen { OnErr result (Rose self.old.faults self.new.faults) }
    {
        self.calls = self.calls.saturating_add(1);
        if possible && !self.fail.contains(&self.calls) {
            return Ok(());
        }
        self.faults = self.faults.saturating_add(1);
        Err(Failed)
    }
}

/// A source of bytes in memory, whose reads fail where it is planned.
#[derive(Drop)]
pub struct MemSource {
    bytes: Bytes,
    at: usize,
    chunk: usize,
    plan: Plan,
}

impl Model for MemSource {
    ghost Value = { PlannedSource };

    ghost view = { λ s. record { left = drop s.at s.bytes; chunk = s.chunk; plan = s.plan } };

    ghost invariant = { λ s. (s.at ≤ length s.bytes) × (0 < s.chunk) };
}

impl MemSource {
    /// A source of these bytes, at most `chunk` of them a read. A read fails, and takes nothing,
    /// exactly where its number, from 1, stands in `fail`. Takes no memory.
    pub fn new(bytes: Bytes, chunk: usize, fail: Vec<u64>) -> Self
        requires { 0 < chunk }
        ensures { result ≡ record { left = bytes; chunk = chunk; plan = planned fail.items } }
    {
        MemSource {
            bytes,
            at: 0,
            chunk,
            plan: Plan::new(fail),
        }
    }
}

impl Source for MemSource {
    ghost left = { λ s. Some s.left };

    ghost faults = { λ s. s.plan.faults };

    ghost reads = { λ s. s.plan.calls };

    fn read(&mut self, buf: &mut [u8]) -> Result<usize, Failed>
        ensures fails { is_err result ≡ fails_next self.old.plan }
        ensures count { IfOk result (λ k. k ≡ given_count self.old.left self.old.chunk buf.old) }
        ensures given { IfOk result (λ k. take k buf.new ≡ take k self.old.left) }
        ensures after { IfOk result (λ k. self.new ≡ after_read self.old k) }
        ensures failed { OnErr result (self.new ≡ after_failed_read self.old) }

        // What every source promises.
        ensures bound { ReadsAtMost result buf.new }
        ensures bytes { ReadConsumes (Some self.old.left) (Some self.new.left) result buf.new }
        ensures cause { HasCause self.old.plan.faults self.new.plan.faults result }
        ensures counted { self.new.plan.calls ≤ self.old.plan.calls + 1 }
    {
        self.plan.call(true)?;
        let count = give(&self.bytes.as_slice()[self.at..], self.chunk, buf);
        self.at += count;
        Ok(count)
    }
}

/// A sink in memory, whose writes fail where it is planned or where no room is left.
#[derive(Drop)]
pub struct MemSink {
    written: Vec<u8>,
    chunk: usize,
    room: usize,
    plan: Plan,
}

impl Model for MemSink {
    ghost Value = { PlannedSink };

    ghost view = { λ s. record { written = s.written.items; chunk = s.chunk; room = s.room; plan = s.plan } };

    ghost invariant = { λ s. (vec_len s.written ≤ s.room) × (s.room ≤ vec_capacity s.written) × (0 < s.chunk) };
}

impl MemSink {
    /// Takes the memory for `room` bytes, and no more later. A write takes at most `chunk` bytes. It
    /// fails, and takes nothing, exactly where its number, from 1, stands in `fail`, or where there is
    /// something to write and no room is left.
    pub fn new(
        alloc: Global,
        chunk: usize,
        room: usize,
        fail: Vec<u64>,
    ) -> Result<MemSink, NoMemory>
        requires { 0 < chunk }
        ensures { IfOk result (λ sink.
            sink ≡ record { written = []; chunk = chunk; room = room; plan = planned fail.items }) }
    {
        let written = Vec::with_capacity(alloc, room)?;
        Ok(MemSink {
            written,
            chunk,
            room,
            plan: Plan::new(fail),
        })
    }

    /// All bytes that were written.
    pub fn bytes(&self) -> &[u8]
        ensures { result.now ≡ self.now.written }
    {
        &self.written
    }
}

impl Sink for MemSink {
    ghost written = { λ s. Some s.written };

    ghost faults = { λ s. s.plan.faults };

    fn write(&mut self, buf: &[u8]) -> Result<usize, Failed>
        ensures fails { is_err result ≡ (fails_next self.old.plan || is_full self.old buf.now) }
        ensures count { IfOk result (λ k. k ≡ taken_count self.old buf.now) }
        ensures after { IfOk result (λ k. self.new ≡ after_write self.old buf.now k) }
        ensures failed { OnErr result (self.new ≡ after_failed_write self.old) }

        // What every sink promises.
        ensures bound { WritesAtMost result buf.now }
        ensures some { IfOk result (λ k. 0 < length buf.now → 0 < k) }
        ensures bytes { WriteGrows (Some self.old.written) (Some self.new.written) result buf.now }
        ensures cause { HasCause self.old.plan.faults self.new.plan.faults result }
    {
        let free = self.room - self.written.len();
        self.plan.call(buf.is_empty() || free > 0)?;
        let count = buf.len().min(self.chunk).min(free);
        self.written.extend_from_slice(&buf[..count]).unwrap();
        Ok(count)
    }
}
