// What the program reads from and writes to, the gate that its workers pass, and running out of memory.
ghost use Rattle.std.specs.Prelude.{◌≡◌, ◌+◌, ◌<◌, ◌≤◌, ℕ, List, length, IfOk};
ghost use Rattle.std.specs.declared.option.Option.{Option};
ghost use Rattle.std.specs.Io.{ReadsAtMost, WritesAtMost};
ghost use Rattle.std.specs.Io.KnownBytes.{ReadConsumes};
ghost use Rattle.mwt_base.specs.Causes.{HasCause};
ghost use Rattle.mwt_base.specs.Told.{WriteGrows};

use std::alloc::{AllocError, AllocFailed};
use thiserror::Error;

/// A call of the outside failed.
#[derive(Clone, Copy, Debug, PartialEq, Eq, Error)]
#[error("a read or a write failed")]
pub struct Failed;

/// Out of memory. It is an error of its own, merged with no other.
#[derive(Clone, Copy, Debug, PartialEq, Eq, Error)]
#[error("out of memory")]
pub struct NoMemory;

impl From<AllocError> for NoMemory {
    fn from(_: AllocError) -> Self {
        NoMemory
    }
}

impl<T: Drop> From<AllocFailed<T>> for NoMemory {
    fn from(_: AllocFailed<T>) -> Self {
        NoMemory
    }
}

/// Where the program reads from.
pub trait Source {
    /// The bytes not yet read, where the source tells.
    ghost left: { Self → Option (List ℕ) };

    /// How often a read has failed.
    ghost faults: { Self → ℕ };

    /// A number of reads: each call adds one at the most.
    ghost reads: { Self → ℕ };

    /// Reads some bytes into the front of `buf`. `Ok(0)` for a `buf` with room is the end.
    fn read(&mut self, buf: &mut [u8]) -> Result<usize, Failed>
        ensures bound { ReadsAtMost result buf.new }
        ensures bytes { ReadConsumes (left self.old) (left self.new) result buf.new }
        ensures cause { HasCause (faults self.old) (faults self.new) result }
        ensures counted { reads self.new ≤ reads self.old + 1 };
}

/// Where the program writes to.
pub trait Sink {
    /// The bytes written, where the sink tells.
    ghost written: { Self → Option (List ℕ) };

    /// How often a write has failed.
    ghost faults: { Self → ℕ };

    /// Writes some of the first bytes of `buf`; `Ok(0)` only where `buf` is empty.
    fn write(&mut self, buf: &[u8]) -> Result<usize, Failed>
        ensures bound { WritesAtMost result buf.now }
        ensures some { IfOk result (λ k. 0 < length buf.now → 0 < k) }
        ensures bytes { WriteGrows (written self.old) (written self.new) result buf.now }
        ensures cause { HasCause (faults self.old) (faults self.new) result };
}

/// Where a worker is.
#[derive(Clone, Copy, Debug, PartialEq, Eq)]
pub enum Place {
    Begin,
    Edge,
    End,
}

/// What a worker passes at each place. It changes nothing that a contract sees.
pub trait Gate: Sync {
    fn at(&self, worker: u32, place: Place);
}

/// A gate that does nothing.
#[derive(Clone, Copy, Debug, PartialEq, Eq)]
pub struct OpenGate;

impl Gate for OpenGate {
    fn at(&self, _worker: u32, _place: Place) {}
}
