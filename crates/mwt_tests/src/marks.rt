// The marks of a network: what passes name, two seats on one thread, and four on four threads.
ghost use Rattle.std.specs.Prelude.{◌≡◌, ◌<◌, ◌≤◌, length, All, IfOk};
ghost use Rattle.edge_marks.specs.Handles.{Belongs};

use crate::helpers::{FIVE, TWENTY, dead_of, eliminated_at};
use dual_checker::Elimination;
use edge_marks::{Found, Kill, Look, Marks, Seat, Settle};
use lmt_network::Network;
use std::alloc::{AllocError, Global};
use std::marker::Model;
use std::test::Fail;
use std::thread;
use std::thread::Threads;

// One pass, and the kill of the edge that it finds.
fn settle_once(marks: &Marks, net: &Network, seat: &mut Seat) -> (Settle, Option<Kill>)
    requires { Belongs marks.now seat.old × (net.now ≡ marks.now.net) }
    ensures { Belongs marks.now seat.new }
{
    match marks.settle(net, seat) {
        Settle::Lone(e) => (Settle::Lone(e), Some(marks.kill(seat, e))),
        found => (found, None),
    }
}

// The kill of an edge that is no hull edge, was not tried and has no support.
fn kill_unsupported(marks: &Marks, net: &Network, seat: &mut Seat, e: u32) -> Option<Kill>
    requires belongs { Belongs marks.now seat.old × (net.now ≡ marks.now.net) }
    requires inside { e < length marks.now.net.edges }
    ensures { Belongs marks.now seat.new }
{
    if net.is_hull(e) || seat.tried(e) {
        return None;
    }
    match marks.examine(net, seat, e) {
        Found::Supported(_, _) => None,
        Found::Unsupported => Some(marks.kill(seat, e)),
    }
}

// The edges that passes name and kill, in this order, and what the last pass answers.
fn settle_out(
    alloc: Global,
    marks: &Marks,
    net: &Network,
    seat: &mut Seat,
) -> Result<(Vec<u32>, Settle), AllocError>
    requires { Belongs marks.now seat.old × (net.now ≡ marks.now.net) }
    ensures { Belongs marks.now seat.new }
{
    let mut named = Vec::new(alloc);
    for _ in 0..net.edges() {
        match settle_once(marks, net, seat) {
            (Settle::Lone(e), Some(Kill::First)) => named.push(e)?,
            (found, _) => return Ok((named, found)),
        }
    }
    let (found, _) = settle_once(marks, net, seat);
    Ok((named, found))
}

// What passes name until one names none, what that one answers, and which edges are dead at the end.
fn passes_over(alloc: Global, net: &Network) -> Result<(Vec<u32>, Settle, Vec<u32>), Fail> {
    let Ok((marks, mut seat)) = Marks::open(alloc, net, 1) else {
        return Err(Fail::from("no memory"));
    };
    let (named, end) = settle_out(alloc, &marks, net, &mut seat)?;
    Ok((named, end, dead_of(alloc, &marks.close(seat))?))
}

// The same of the first of two seats, and what the second, which has killed none, sees of the edges 3 and 4.
fn passes_of_the_first(
    alloc: Global,
    net: &Network,
) -> Result<(Vec<u32>, Settle, [Look; 2], Vec<u32>), Fail> {
    let Ok((marks, mut first)) = Marks::open(alloc, net, 2) else {
        return Err(Fail::from("no memory"));
    };
    if net.edges() < 5 {
        return Err(Fail::from("too few edges"));
    }
    let mut second = marks.split(&mut first);
    let (named, end) = settle_out(alloc, &marks, net, &mut first)?;
    let seen = [marks.look(&mut second, 3), marks.look(&mut second, 4)];
    drop(second);
    Ok((named, end, seen, dead_of(alloc, &marks.close(first))?))
}

#[test]
fn marks_of_five_points(rt: HostRuntime) -> Result<(), Fail> {
    let alloc = rt.alloc();
    let net = eliminated_at(&rt, alloc, &FIVE)?.net;
    assert_eq!(rt; net.edges(), 10);
    let (named, end, seen, dead) = passes_of_the_first(alloc, &net)?;
    assert_eq!(rt; end, Settle::Quiet);
    assert_eq!(rt; named.as_slice(), [3, 2, 6].as_slice());
    assert_eq!(rt; seen, [Look::Killed, Look::Live]);
    assert_eq!(rt; dead.as_slice(), [2, 3, 6].as_slice());
    Ok(())
}

// The edges that passes name until Quiet are those that plain elimination drops, over several words.
#[test]
fn marks_of_many_edges(rt: HostRuntime) -> Result<(), Fail> {
    let alloc = rt.alloc();
    let Elimination { net, flags } = eliminated_at(&rt, alloc, &TWENTY)?;
    assert!(rt; net.edges() > 64);
    let (mut named, end, dead) = passes_over(alloc, &net)?;
    named.sort()?;
    assert_eq!(rt; end, Settle::Quiet);
    assert!(rt; named.len() > 0);
    assert_eq!(rt; named.as_slice(), dead_of(alloc, &flags)?.as_slice());
    assert_eq!(rt; dead.as_slice(), named.as_slice());
    Ok(())
}

// Two seats examine the edge 3 of the five points, which has no support, before either kills it. Then the
// first kills it, and then the second does. At last, whether the edge 4 has a support.
fn two_kills(alloc: Global, net: &Network) -> Result<([Kill; 2], bool), Fail> {
    let Ok((marks, mut first)) = Marks::open(alloc, net, 2) else {
        return Err(Fail::from("no memory"));
    };
    if net.edges() < 5 || net.is_hull(3) {
        return Err(Fail::from("another network"));
    }
    let mut second = marks.split(&mut first);
    if first.tried(3) || second.tried(3) {
        return Err(Fail::from("tried before"));
    }
    let Found::Unsupported = marks.examine(net, &mut first, 3) else {
        return Err(Fail::from("supported for the first"));
    };
    let Found::Unsupported = marks.examine(net, &mut second, 3) else {
        return Err(Fail::from("supported for the second"));
    };
    let kills = [marks.kill(&mut first, 3), marks.kill(&mut second, 3)];
    let fourth = match marks.examine(net, &mut first, 4) {
        Found::Supported(_, _) => true,
        Found::Unsupported => false,
    };
    drop(second);
    marks.close(first);
    Ok((kills, fourth))
}

#[test]
fn two_seats_kill_one_edge(rt: HostRuntime) -> Result<(), Fail> {
    let alloc = rt.alloc();
    let net = eliminated_at(&rt, alloc, &FIVE)?.net;
    let (kills, fourth) = two_kills(alloc, &net)?;
    assert_eq!(rt; kills, [Kill::First, Kill::Already]);
    assert!(rt; fourth);
    Ok(())
}

// Looks at all edges several times, and kills those that are live and have no support.
fn roam(marks: &Marks, net: &Network, seat: &mut Seat)
    requires { Belongs marks.now seat.old × (net.now ≡ marks.now.net) }
    ensures { Belongs marks.now seat.new }
{
    for _ in 0..4u32 {
        for e in 0..net.edges() {
            if let Look::Live = marks.look(seat, e) {
                kill_unsupported(marks, net, seat, e);
            }
        }
    }
}

// Four seats roam at the same time, each on a thread of its own.
fn roam_by_four<R: Threads + Sync>(
    rt: &R,
    alloc: Global,
    marks: &Marks,
    net: &Network,
    first: &mut Seat,
) -> Result<(), AllocError>
    requires belongs { Belongs marks.now first.old × (net.now ≡ marks.now.net) }
    requires splits { 4 ≤ first.old.known.splits }
    ensures { Belongs marks.now first.new }
{
    let (a, b) = (marks.split(first), marks.split(first));
    let (c, d) = (marks.split(first), marks.split(first));
    let mut seats = Vec::from_array(alloc, [a, b, c, d])?;
    thread::for_each_mut(
        rt,
        seats.as_mut_slice(),
        4,
        &|_, seat: &mut Seat|
            requires { Belongs marks.now seat.old × (net.now ≡ marks.now.net) }
        { roam(marks, net, seat) },
    );
    Ok(())
}

// What a fifth seat's passes answer at last once four threads have roamed, and the dead edges.
fn dead_by_four<R: Threads + Sync>(
    rt: &R,
    alloc: Global,
    net: &Network,
) -> Result<(Settle, Vec<u32>), Fail> {
    let Ok((marks, mut first)) = Marks::open(alloc, net, 5) else {
        return Err(Fail::from("no memory"));
    };
    roam_by_four(rt, alloc, &marks, net, &mut first)?;
    let (_, end) = settle_out(alloc, &marks, net, &mut first)?;
    Ok((end, dead_of(alloc, &marks.close(first))?))
}

#[test]
fn marks_by_four_threads(rt: HostRuntime) -> Result<(), Fail> {
    let alloc = rt.alloc();
    let Elimination { net, flags } = eliminated_at(&rt, alloc, &TWENTY)?;
    let dead = dead_of(alloc, &flags)?;
    for _ in 0..20u32 {
        let (end, found) = dead_by_four(&rt, alloc, &net)?;
        assert_eq!(rt; end, Settle::Quiet);
        assert_eq!(rt; found.as_slice(), dead.as_slice());
    }
    Ok(())
}
