// The gate by itself, since the tests of workers rest on it.

use super::MeetGate;
use crate::outside::{Gate, Place};
use std::test::Fail;

// How long a worker waits here for one that never comes.
const TURNS: u32 = 1_000;

#[test]
fn a_new_gate_has_missed_both(rt: HostRuntime) -> Result<(), Fail> {
    assert_eq!(rt; MeetGate::new().misses(), 2);
    Ok(())
}

#[test]
fn a_lone_worker_meets_nobody(rt: HostRuntime) -> Result<(), Fail> {
    let gate = MeetGate::new();
    gate.hold(&gate.first_came, &gate.second_came, TURNS);
    assert_eq!(rt; gate.misses(), 2);
    Ok(())
}

// The other worker comes after the first has gone on: it meets it, but was not met.
#[test]
fn a_late_worker_meets_the_first(rt: HostRuntime) -> Result<(), Fail> {
    let gate = MeetGate::new();
    gate.hold(&gate.first_came, &gate.second_came, TURNS);
    gate.hold(&gate.second_came, &gate.first_came, TURNS);
    assert_eq!(rt; gate.misses(), 1);
    Ok(())
}

// A worker is held at its first edge alone.
#[test]
fn a_worker_is_held_once(rt: HostRuntime) -> Result<(), Fail> {
    let gate = MeetGate::new();
    gate.hold(&gate.first_came, &gate.second_came, TURNS);
    gate.at(1, Place::Edge);
    gate.at(0, Place::Edge);
    gate.at(1, Place::Edge);
    assert_eq!(rt; gate.misses(), 1);
    Ok(())
}

// Only the edges of the workers 0 and 1 count.
#[test]
fn other_places_and_workers_pass(rt: HostRuntime) -> Result<(), Fail> {
    let gate = MeetGate::new();
    for place in [Place::Begin, Place::End] {
        gate.at(0, place);
        gate.at(1, place);
    }
    gate.at(2, Place::Edge);
    gate.hold(&gate.first_came, &gate.second_came, TURNS);
    assert_eq!(rt; gate.misses(), 2);
    Ok(())
}
