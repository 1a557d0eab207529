// Workers that steal: the live list at any number of them, that two of them run at the same time, and
// how often each passes the gate.
ghost use Rattle.std.specs.Prelude.{◌≡◌, ◌<◌, ◌≤◌};
ghost use Rattle.mwt_base.specs.Limits.{most_workers};

use crate::helpers::{FIVE, TWENTY, dead_of, eliminated_at};
use dual_checker::Elimination;
use lmt_network::Network;
use mwt_base::{Gate, MeetGate, OpenGate, Place};
use std::alloc::Global;
use std::sync::atomic::{AtomicU64, Ordering};
use std::test::Fail;
use std::thread::Threads;
use steal_workers::{Dealing, settle_all};

/// Counts how often each of the workers 0 to 7 begins and ends, a byte for each.
#[derive(Drop)]
pub struct CountGate {
    pub begun: AtomicU64,
    pub ended: AtomicU64,
}

impl CountGate {
    pub fn new() -> CountGate {
        CountGate {
            begun: AtomicU64::new(0),
            ended: AtomicU64::new(0),
        }
    }
}

impl Gate for CountGate {
    fn at(&self, worker: u32, place: Place) {
        let one = 1u64 << (8 * (worker % 8));
        match place {
            Place::Begin => {
                self.begun.fetch_add(one, Ordering::SeqCst);
            }
            Place::Edge => {}
            Place::End => {
                self.ended.fetch_add(one, Ordering::SeqCst);
            }
        }
    }
}

// The edges that are dead where so many workers have settled.
fn dead_by<R: Threads + Sync, G: Gate>(
    rt: &R,
    alloc: Global,
    net: &Network,
    workers: u32,
    dealing: Dealing,
    gate: &G,
) -> Result<Vec<u32>, Fail>
    requires some { 0 < workers }
    requires few { workers ≤ most_workers }
{
    let Ok(settled) = settle_all(rt, alloc, net, workers, dealing, gate) else {
        return Err(Fail::from("no memory"));
    };
    Ok(dead_of(alloc, &settled.flags)?)
}

// The same of 1, 2 and 64 workers.
fn dead_by_teams<R: Threads + Sync>(
    rt: &R,
    alloc: Global,
    net: &Network,
    dealing: Dealing,
) -> Result<[Vec<u32>; 3], Fail> {
    Ok([
        dead_by(rt, alloc, net, 1, dealing, &OpenGate)?,
        dead_by(rt, alloc, net, 2, dealing, &OpenGate)?,
        dead_by(rt, alloc, net, 64, dealing, &OpenGate)?,
    ])
}

#[test]
fn any_number_of_workers(rt: HostRuntime) -> Result<(), Fail> {
    let alloc = rt.alloc();
    let five = eliminated_at(&rt, alloc, &FIVE)?.net;
    let Elimination { net, flags } = eliminated_at(&rt, alloc, &TWENTY)?;
    let dead = dead_of(alloc, &flags)?;
    for dealing in [Dealing::Blocks, Dealing::Stripes] {
        for found in &dead_by_teams(&rt, alloc, &five, dealing)? {
            assert_eq!(rt; found.as_slice(), [2, 3, 6].as_slice());
        }
        for found in &dead_by_teams(&rt, alloc, &net, dealing)? {
            assert_eq!(rt; found.as_slice(), dead.as_slice());
        }
    }
    Ok(())
}

#[test]
fn two_workers_meet(rt: HostRuntime) -> Result<(), Fail> {
    let alloc = rt.alloc();
    let five = eliminated_at(&rt, alloc, &FIVE)?.net;
    for dealing in [Dealing::Blocks, Dealing::Stripes] {
        let gate = MeetGate::new();
        let dead = dead_by(&rt, alloc, &five, 2, dealing, &gate)?;
        assert_eq!(rt; gate.misses(), 0);
        assert_eq!(rt; dead.as_slice(), [2, 3, 6].as_slice());
    }
    Ok(())
}

#[test]
fn each_worker_begins_and_ends_once(rt: HostRuntime) -> Result<(), Fail> {
    let alloc = rt.alloc();
    let five = eliminated_at(&rt, alloc, &FIVE)?.net;
    let gate = CountGate::new();
    dead_by(&rt, alloc, &five, 4, Dealing::Stripes, &gate)?;
    assert_eq!(rt; gate.begun.load(Ordering::SeqCst), 0x0101_0101);
    assert_eq!(rt; gate.ended.load(Ordering::SeqCst), 0x0101_0101);
    Ok(())
}
