// Workers on one thread: the one that runs first steals all that the others were dealt.

use crate::helpers::eliminated_at;
use edge_marks::Marks;
use lmt_network::Network;
use mwt_base::OpenGate;
use std::alloc::Global;
use std::test::Fail;
use steal_workers::{Dealing, RunEnd, WorkerState};

// Five points of whose eight candidate edges each is live.
const SPOKES: [(i64, i64); 5] = [(0, 0), (4, 0), (4, 4), (0, 4), (2, 2)];

// How the workers 1 and 0 end, of whom 1 runs before 0, and how many tasks each has stolen.
fn run_in_turn(alloc: Global, net: &Network) -> Result<([RunEnd; 2], [u64; 2]), Fail> {
    let Ok((marks, mut seat)) = Marks::open(alloc, net, 3) else {
        return Err(Fail::from("no memory"));
    };
    let made = WorkerState::team(alloc, net, &marks, &mut seat, 2, Dealing::Stripes);
    let Ok(mut team) = made else {
        return Err(Fail::from("no memory"));
    };
    let ends = [
        team[1].run(&marks, net, &OpenGate),
        team[0].run(&marks, net, &OpenGate),
    ];
    Ok((ends, [team[1].stolen(), team[0].stolen()]))
}

#[test]
fn tasks_are_stolen_on_one_thread(rt: HostRuntime) -> Result<(), Fail> {
    let alloc = rt.alloc();
    let net = eliminated_at(&rt, alloc, &SPOKES)?.net;
    assert_eq!(rt; net.edges(), 8);
    let (ends, stolen) = run_in_turn(alloc, &net)?;
    assert_eq!(rt; ends, [RunEnd::Quiet, RunEnd::Quiet]);
    assert_eq!(rt; stolen, [4, 0]);
    Ok(())
}

// How many tasks the worker 3 of five has stolen, where it runs alone: all but its own.
fn stolen_by_the_fourth(alloc: Global, net: &Network, dealing: Dealing) -> Result<u64, Fail> {
    let Ok((marks, mut seat)) = Marks::open(alloc, net, 6) else {
        return Err(Fail::from("no memory"));
    };
    let Ok(mut team) = WorkerState::team(alloc, net, &marks, &mut seat, 5, dealing) else {
        return Err(Fail::from("no memory"));
    };
    team[3].run(&marks, net, &OpenGate);
    Ok(team[3].stolen())
}

// Of the eight edges the fourth of five workers is dealt one by stripes, and two by blocks.
#[test]
fn own_tasks_are_those_of_the_dealing(rt: HostRuntime) -> Result<(), Fail> {
    let alloc = rt.alloc();
    let net = eliminated_at(&rt, alloc, &SPOKES)?.net;
    assert_eq!(rt; stolen_by_the_fourth(alloc, &net, Dealing::Stripes)?, 7);
    assert_eq!(rt; stolen_by_the_fourth(alloc, &net, Dealing::Blocks)?, 6);
    Ok(())
}
