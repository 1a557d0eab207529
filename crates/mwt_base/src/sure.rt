// A source and a sink in memory, of which no call fails.
ghost use Rattle.std.specs.Prelude.{◌≡◌, ℕ, ◌<◌, ◌≤◌, Some, drop, take, length, min, vec_len, vec_capacity, IfOk, List};
ghost use Rattle.std.specs.Io.{ReadsAtMost, WritesAtMost};
ghost use Rattle.std.specs.Io.KnownBytes.{ReadConsumes};
ghost use Rattle.mwt_base.specs.Causes.{HasCause};
ghost use Rattle.mwt_base.specs.Sure.{Collected, Collects, Supply, after_sure_read, collected_bytes, given_count, nothing_collected};
ghost use Rattle.mwt_base.specs.Told.{WriteGrows};

use crate::{Bytes, Failed, NoMemory, Sink, Source};
use std::alloc::Global;
use std::marker::Model;

/// A source of bytes in memory. No read of it fails.
#[derive(Drop)]
pub struct SureSource {
    bytes: Bytes,
    at: usize,
    chunk: usize,
}

impl Model for SureSource {
    ghost Value = { Supply };

    ghost view = { λ s. record { left = drop s.at s.bytes; chunk = s.chunk } };

    ghost invariant = { λ s. (s.at ≤ length s.bytes) × (0 < s.chunk) };
}

impl SureSource {
    /// A source of these bytes, at most `chunk` of them a read. Takes no memory.
    pub fn new(bytes: Bytes, chunk: usize) -> Self
        requires { 0 < chunk }
        ensures { result ≡ record { left = bytes; chunk = chunk } }
    {
        SureSource {
            bytes,
            at: 0,
            chunk,
        }
    }
}

impl Source for SureSource {
    ghost left = { λ s. Some s.left };

    ghost faults = { λ s. 0 };

    ghost reads = { λ s. 0 };

    fn read(&mut self, buf: &mut [u8]) -> Result<usize, Failed>
        ensures count { result ≡ Ok (given_count self.old.left self.old.chunk buf.old) }
        ensures given { IfOk result (λ k. take k buf.new ≡ take k self.old.left) }
        ensures after { IfOk result (λ k. self.new ≡ after_sure_read self.old k) }

        // What every source promises.
        ensures bound { ReadsAtMost result buf.new }
        ensures bytes { ReadConsumes (Some self.old.left) (Some self.new.left) result buf.new }
        ensures cause { HasCause 0 0 result }
    {
        let count = give(&self.bytes.as_slice()[self.at..], self.chunk, buf);
        self.at += count;
        Ok(count)
    }
}

// Copies as much as there is, at most a chunk.
pub(crate) fn give(rest: &[u8], chunk: usize, buf: &mut [u8]) -> usize
    requires { 0 < chunk }
    ensures count { result ≡ min (min (length rest.now) chunk) (length buf.old) }
    ensures within { result ≤ length rest.now }
    ensures room { result ≤ length buf.new }
    ensures given { take result buf.new ≡ take result rest.now }
    ensures end { result ≡ 0 → 0 < length buf.new → length rest.now ≡ 0 }
{
    let count = rest.len().min(chunk).min(buf.len());
    buf[..count].copy_from_slice(&rest[..count]);
    count
}

/// A sink in memory. No write to it fails: it takes all, counts it, and keeps as much of it as it has
/// room for.
#[derive(Drop)]
pub struct SureSink {
    kept: Vec<u8>,
    room: usize,
    whole: bool,
    count: u64,
}

impl Model for SureSink {
    ghost Value = { Collected };

    ghost view = { λ s. record { kept = s.kept.items; room = s.room; whole = s.whole; count = s.count } };

    ghost invariant = { λ s. (vec_len s.kept ≤ s.room) × (s.room ≤ vec_capacity s.kept) };
}

impl SureSink {
    /// Takes the memory for `room` bytes, and no more later.
    pub fn new(alloc: Global, room: usize) -> Result<SureSink, NoMemory>
        ensures { IfOk result (λ sink. sink ≡ nothing_collected room) }
    {
        match Vec::with_capacity(alloc, room) {
            Ok(kept) => Ok(SureSink {
                kept,
                room,
                whole: true,
                count: 0,
            }),
            Err(_) => Err(NoMemory),
        }
    }

    /// The first bytes of all that came.
    pub fn bytes(&self) -> &[u8]
        ensures { result.now ≡ self.now.kept }
    {
        &self.kept
    }

    /// How many bytes came. The count stays at `u64::MAX` once it is reached.
    pub fn count(&self) -> u64
        ensures { result ≡ self.now.count }
    {
        self.count
    }
}

impl Sink for SureSink {
    ghost written = { collected_bytes };

    ghost faults = { λ s. 0 };

    fn write(&mut self, buf: &[u8]) -> Result<usize, Failed>
        ensures all { result ≡ Ok (length buf.now) }
        ensures collects { Collects self.old buf.now self.new }

        // What every sink promises.
        ensures bound { WritesAtMost result buf.now }
        ensures some { IfOk result (λ k. 0 < length buf.now → 0 < k) }
        ensures bytes { WriteGrows (collected_bytes self.old) (collected_bytes self.new) result buf.now }
        ensures cause { HasCause 0 0 result }
    {
        let free = self.room - self.kept.len();
        if buf.len() > free {
            self.whole = false;
        }
        self.kept
            .extend_from_slice(&buf[..buf.len().min(free)])
            .unwrap();
        self.count = self.count.saturating_add(buf.len() as u64);
        Ok(buf.len())
    }
}
