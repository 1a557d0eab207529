// A gate at which two workers meet.
ghost use Rattle.std.specs.Prelude.{◌≤◌};

use crate::outside::{Gate, Place};
use std::hint;
use std::sync::atomic::{AtomicBool, AtomicU64, Ordering};

// How many turns a worker is held at most.
const MOST_TURNS: u32 = 1_000_000_000;

/// A gate for tests. It holds each of the workers 0 and 1 at the first edge that it comes to, until the
/// other has come to its own first edge, and each hold ends after 1,000,000,000 turns at the latest. So
/// workers of which one begins after the other has ended are noticed.
#[derive(Drop)]
pub struct MeetGate {
    // Whether the worker 0 has come to an edge, and the worker 1.
    first_came: AtomicBool,
    second_came: AtomicBool,
    // How many of the two holds ended because the other worker had come.
    met: AtomicU64,
}

impl MeetGate {
    /// A gate that no worker has passed. Takes no memory.
    pub fn new() -> MeetGate {
        MeetGate {
            first_came: AtomicBool::new(false),
            second_came: AtomicBool::new(false),
            met: AtomicU64::new(0),
        }
    }

    /// 2 less the number of holds that ended because the other worker had come.
    pub fn misses(&self) -> u64
        ensures { result ≤ 2 }
    {
        2u64.saturating_sub(self.met.load(Ordering::SeqCst))
    }

    // Holds a worker that comes for the first time until the other has come, for so many turns at most.
    fn hold(&self, came: &AtomicBool, other_came: &AtomicBool, turns: u32) {
        if came.swap(true, Ordering::SeqCst) {
            return;
        }
        for _ in 0..turns {
            if other_came.load(Ordering::SeqCst) {
                self.met.fetch_add(1, Ordering::SeqCst);
                return;
            }
            hint::spin_loop();
        }
    }
}

impl Gate for MeetGate {
    fn at(&self, worker: u32, place: Place) {
        if place != Place::Edge {
            return;
        }
        match worker {
            0 => self.hold(&self.first_came, &self.second_came, MOST_TURNS),
            1 => self.hold(&self.second_came, &self.first_came, MOST_TURNS),
            _ => {}
        }
    }
}

#[cfg(test)]
mod tests;
