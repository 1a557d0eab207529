// Ranks of killed edges: by one and by several threads, by plain elimination alone, and with one rank
// lowered, against a slow program straight from the definition of a derivation.
ghost use Rattle.std.specs.Prelude.{◌≡◌, ◌<◌, ◌≤◌, IfOk, length};
ghost use Rattle.mwt_base.specs.Limits.{most_workers};
ghost use Rattle.ticket_marks.specs.Handles.{Belongs};

use crate::helpers::{Ends, FIVE, TWENTY, dead_of, eliminated_at, points_of, swept};
use crate::live_edges::is_over;
use crate::sets::{SETS, at, is_minimal_between, is_pair};
use crate::workers::CountGate;
use dual_checker::{Elimination, derivation, network_of};
use exact_predicates::{Diamond, Points};
use lmt_network::{Network, Ranks};
use mwt_base::{Gate, MeetGate, OpenGate};
use mwt_tool::generate;
use std::alloc::Global;
use std::sync::atomic::Ordering;
use std::test::Fail;
use std::thread::Threads;
use ticket_marks::{TicketFound, TicketKill, TicketMarks, finish, rank_all};
use tsplib_points::read_points;

// An edge, and the other sides of two triangles between which it is locally minimal, by their numbers.
type Pair = (usize, [usize; 4]);

// Which edges are on the hull, and every locally minimal pair of each.
#[derive(Drop)]
struct Definition {
    on_hull: Vec<bool>,
    pairs: Vec<Pair>,
}

fn rank_at(ranks: &[u64], e: usize) -> u64 {
    ranks.get(e).copied().unwrap_or(0)
}

fn number_of(ends: &[Ends], u: u32, v: u32) -> usize {
    let wanted = (u.min(v), u.max(v));
    ends.iter().take_while(|pair| **pair != wanted).count()
}

// The corners of the empty triangles on the left of u to v.
fn corners(
    alloc: Global,
    points: &Points,
    ends: &[Ends],
    u: u32,
    v: u32,
) -> Result<Vec<u32>, Fail> {
    let mut found = Vec::new(alloc);
    for a in 0..points.len() {
        if is_over(points, ends, u, v, a) {
            found.push(a)?;
        }
    }
    Ok(found)
}

fn is_minimal(points: &Points, u: u32, v: u32, a: u32, b: u32) -> bool {
    let (Some(p), Some(q)) = (at(points, u), at(points, v)) else {
        return false;
    };
    let (Some(r), Some(s)) = (at(points, a), at(points, b)) else {
        return false;
    };
    is_minimal_between(p, q, r, s)
}

impl Definition {
    // Of these points and candidate edges.
    fn of(alloc: Global, points: &Points, hull: &[u32], ends: &[Ends]) -> Result<Definition, Fail> {
        let mut on_hull = Vec::new(alloc);
        let mut pairs = Vec::new(alloc);
        for (e, (u, v)) in ends.iter().enumerate() {
            let (u, v) = (*u, *v);
            on_hull.push(is_pair(hull, u, v) || is_pair(hull, v, u))?;
            let right = corners(alloc, points, ends, v, u)?;
            for a in &corners(alloc, points, ends, u, v)? {
                for b in &right {
                    if is_minimal(points, u, v, *a, *b) {
                        let near = [number_of(ends, u, *a), number_of(ends, v, *a)];
                        let far = [number_of(ends, u, *b), number_of(ends, v, *b)];
                        pairs.push((e, [near[0], near[1], far[0], far[1]]))?;
                    }
                }
            }
        }
        Ok(Definition { on_hull, pairs })
    }

    // Whether each hull edge has 0, and in each locally minimal pair of an edge with a rank above 0
    // another side has a lower one above 0.
    fn allows(&self, ranks: &[u64]) -> bool {
        let mut on_hull = self.on_hull.iter().enumerate();
        let mut pairs = self.pairs.iter();
        on_hull.all(|(e, is)| !*is || rank_at(ranks, e) == 0)
            && pairs.all(|(e, others)| {
                let rank = rank_at(ranks, *e);
                rank == 0
                    || others.iter().any(|f| {
                        let other = rank_at(ranks, *f);
                        0 < other && other < rank
                    })
            })
    }
}

// A network, which of its edges are dead, and what the definition says of it.
#[derive(Drop)]
struct Known {
    net: Network,
    dead: Vec<u32>,
    definition: Definition,
}

impl Known {
    // Of points at these places, with the diamond test off.
    fn at<R: Threads + Sync>(rt: &R, alloc: Global, places: &[(i64, i64)]) -> Result<Known, Fail> {
        let points = points_of(alloc, places)?;
        let hull = swept(alloc, &points)?.hull;
        let Elimination { net, flags } = eliminated_at(rt, alloc, places)?;
        let mut ends = Vec::new(alloc);
        for e in 0..net.edges() {
            let edge = net.edge(e);
            ends.push((edge.a, edge.b))?;
        }
        let definition = Definition::of(alloc, &points, hull.as_slice(), &ends)?;
        let dead = dead_of(alloc, &flags)?;
        Ok(Known {
            net,
            dead,
            definition,
        })
    }
}

// The ranks of all edges.
fn listed(alloc: Global, ranks: &Ranks) -> Result<Vec<u64>, Fail> {
    let mut list = Vec::new(alloc);
    for e in 0..ranks.len() {
        list.push(ranks.get(e))?;
    }
    Ok(list)
}

// The edges with a rank above 0.
fn killed(alloc: Global, ranks: &[u64]) -> Result<Vec<u32>, Fail> {
    let mut list = Vec::new(alloc);
    let mut e = 0u32;
    for rank in ranks {
        if *rank > 0 {
            list.push(e)?;
        }
        e = e.saturating_add(1);
    }
    Ok(list)
}

// The ranks by so many workers.
fn ranks_by<R: Threads + Sync, G: Gate>(
    rt: &R,
    alloc: Global,
    net: &Network,
    workers: u32,
    gate: &G,
) -> Result<Vec<u64>, Fail>
    requires some { 0 < workers }
    requires few { workers ≤ most_workers }
{
    let Ok(ranks) = rank_all(rt, alloc, net, workers, gate) else {
        return Err(Fail::from("no memory"));
    };
    if !derivation(net, &ranks) {
        return Err(Fail::from("no derivation"));
    }
    listed(alloc, &ranks)
}

// Whether these ranks are a derivation.
fn is_derivation(net: &Network, ranks: Vec<u64>) -> Result<bool, Fail> {
    if ranks.len() != net.edges() as usize {
        return Err(Fail::from("not one rank for each edge"));
    }
    Ok(derivation(net, &Ranks::of(ranks)))
}

#[test]
fn ranks_of_five_points(rt: HostRuntime) -> Result<(), Fail> {
    let alloc = rt.alloc();
    let net = eliminated_at(&rt, alloc, &FIVE)?.net;
    let ranks = ranks_by(&rt, alloc, &net, 1, &OpenGate)?;
    assert_eq!(rt; ranks.as_slice(), [0, 0, 3, 1, 0, 0, 2, 0, 0, 0].as_slice());
    let equal = Vec::from_array(alloc, [0, 0, 1, 1, 0, 0, 2, 0, 0, 0])?;
    assert!(rt; !is_derivation(&net, equal)?);
    Ok(())
}

// Two seats find the edge 3 of the five points without a support, and then each of them kills it.
fn two_kills(alloc: Global, net: &Network) -> Result<[TicketKill; 2], Fail> {
    let Ok((marks, mut first)) = TicketMarks::open(alloc, net, 2) else {
        return Err(Fail::from("no memory"));
    };
    if net.edges() < 4 || net.is_hull(3) || first.splits() == 0 {
        return Err(Fail::from("another network"));
    }
    let mut second = marks.split(&mut first);
    if first.tried(3) || second.tried(3) {
        return Err(Fail::from("tried before"));
    }
    let TicketFound::Unsupported = marks.examine(net, &mut first, 3) else {
        return Err(Fail::from("supported for the first"));
    };
    let TicketFound::Unsupported = marks.examine(net, &mut second, 3) else {
        return Err(Fail::from("supported for the second"));
    };
    let kills = [marks.kill(&mut first, 3), marks.kill(&mut second, 3)];
    drop(second);
    marks.close(first);
    Ok(kills)
}

#[test]
fn two_seats_kill_one_edge_by_tickets(rt: HostRuntime) -> Result<(), Fail> {
    let alloc = rt.alloc();
    let net = eliminated_at(&rt, alloc, &FIVE)?.net;
    let kills = two_kills(alloc, &net)?;
    assert_eq!(rt; kills, [TicketKill::First(1), TicketKill::Already(1)]);
    Ok(())
}

// Plain elimination alone gives such ranks too, but it passes no gate: two workers that meet are noticed.
#[test]
fn two_workers_meet_in_rank_all(rt: HostRuntime) -> Result<(), Fail> {
    let alloc = rt.alloc();
    let net = eliminated_at(&rt, alloc, &FIVE)?.net;
    let gate = MeetGate::new();
    assert_eq!(rt; gate.misses(), 2);
    let ranks = ranks_by(&rt, alloc, &net, 2, &gate)?;
    assert_eq!(rt; gate.misses(), 0);
    assert_eq!(rt; killed(alloc, &ranks)?.as_slice(), [2, 3, 6].as_slice());
    Ok(())
}

#[test]
fn each_worker_begins_and_ends_once_in_rank_all(rt: HostRuntime) -> Result<(), Fail> {
    let alloc = rt.alloc();
    let net = eliminated_at(&rt, alloc, &FIVE)?.net;
    let gate = CountGate::new();
    ranks_by(&rt, alloc, &net, 4, &gate)?;
    assert_eq!(rt; gate.begun.load(Ordering::SeqCst), 0x0101_0101);
    assert_eq!(rt; gate.ended.load(Ordering::SeqCst), 0x0101_0101);
    Ok(())
}

// The ranks of plain elimination alone, which begins with 0 for each edge.
fn finished(alloc: Global, net: &Network) -> Result<Vec<u64>, Fail> {
    let Ok((marks, seat)) = TicketMarks::open(alloc, net, 1) else {
        return Err(Fail::from("no memory"));
    };
    let mut ranks = marks.close(seat);
    finish(net, &mut ranks);
    listed(alloc, &ranks)
}

#[test]
fn small_sets_by_the_definition(rt: HostRuntime) -> Result<(), Fail> {
    let alloc = rt.alloc();
    for places in SETS {
        let known = Known::at(&rt, alloc, places)?;
        let plain = finished(alloc, &known.net)?;
        for ranks in &[ranks_by(&rt, alloc, &known.net, 2, &OpenGate)?, plain] {
            assert!(rt; known.definition.allows(ranks), "{places:?}");
            assert!(rt; killed(alloc, ranks)? == known.dead, "{places:?}");
        }
    }
    Ok(())
}

#[test]
fn four_threads_by_the_definition(rt: HostRuntime) -> Result<(), Fail> {
    let alloc = rt.alloc();
    let known = Known::at(&rt, alloc, &TWENTY)?;
    assert!(rt; known.dead.len() > 0);
    for _ in 0..20u32 {
        let ranks = ranks_by(&rt, alloc, &known.net, 4, &OpenGate)?;
        assert!(rt; known.definition.allows(&ranks));
        assert!(rt; killed(alloc, &ranks)? == known.dead);
    }
    Ok(())
}

// With one rank lowered by one, ranks are a derivation exactly where the definition allows them.
fn lowered<R: Threads + Sync>(
    rt: &R,
    alloc: Global,
    places: &[(i64, i64)],
) -> Result<[u32; 2], Fail> {
    let known = Known::at(rt, alloc, places)?;
    let ranks = ranks_by(rt, alloc, &known.net, 1, &OpenGate)?;
    let mut answers = [0u32; 2];
    for e in &known.dead {
        let mut lower = ranks.clone()?;
        if let Some(rank) = lower.get_mut(*e as usize) {
            *rank = rank.saturating_sub(1);
        }
        let allowed = known.definition.allows(&lower);
        if is_derivation(&known.net, lower)? != allowed {
            return Err(Fail::from("another answer"));
        }
        let count = &mut answers[usize::from(allowed)];
        *count = count.saturating_add(1);
    }
    Ok(answers)
}

// Of the five points only the edge 0 to 3 needs its rank to be above that of another; with the rank 0 an
// edge is live, and allows none that it has killed.
#[test]
fn ranks_lowered_by_one(rt: HostRuntime) -> Result<(), Fail> {
    let alloc = rt.alloc();
    for places in SETS {
        lowered(&rt, alloc, places)?;
    }
    let [refused, allowed] = lowered(&rt, alloc, &TWENTY)?;
    assert!(rt; refused > 0 && allowed > 0);
    Ok(())
}

// The network of a made file with the seed 7, with the diamond test on.
fn made_network<R: Threads + Sync>(rt: &R, alloc: Global, n: u32) -> Result<Network, Fail>
    requires least { 3 ≤ n }
    requires most { n ≤ 10000 }
{
    let Ok(text) = generate(alloc, 7, n) else {
        return Err(Fail::from("no memory"));
    };
    let Ok(file) = read_points(alloc, &text) else {
        return Err(Fail::from("no file"));
    };
    let hull = swept(alloc, &file.points)?.hull;
    match network_of(rt, alloc, &file.points, &hull, Diamond::On) {
        Ok(net) => Ok(net),
        Err(_) => Err(Fail::from("stopped")),
    }
}

#[test]
fn any_number_of_workers_in_rank_all(rt: HostRuntime) -> Result<(), Fail> {
    let alloc = rt.alloc();
    let net = made_network(&rt, alloc, 300)?;
    let alone = killed(alloc, &ranks_by(&rt, alloc, &net, 1, &OpenGate)?)?;
    assert!(rt; alone.len() > 0);
    for workers in [2, 8, 64] {
        let ranks = ranks_by(&rt, alloc, &net, workers, &OpenGate)?;
        assert!(rt; killed(alloc, &ranks)? == alone, "{workers} workers");
    }
    Ok(())
}
