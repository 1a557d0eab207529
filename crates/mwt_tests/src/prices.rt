// Prices, anchors and bounds of small sets, worked out by another program from the definitions; and of more sets
// as a slow program finds them.
ghost use Rattle.std.specs.Prelude.{◌≡◌, All, Contains, IfOk, length};
ghost use Rattle.lmt_network.specs.Flags.{live_edges, live_numbers};
ghost use Rattle.lmt_network.specs.Numbers.{AreLive};

use crate::helpers::{eliminated, points_of, swept};
use crate::sets::SETS;
use crate::slow_prices;
use exact_predicates::{Edges, Points};
use lmt_network::{Flags, Network, plain_settle};
use price_ascent::Prices;
use skeleton_faces::skeleton;
use std::alloc::{AllocError, Global};
use std::test::Fail;
use std::thread::Threads;

// The network of these points, with the diamond test off.
fn network_of(rt: &(impl Threads + Sync), alloc: Global, points: &Points) -> Result<Network, Fail>
    ensures { IfOk result (λ net. net.points ≡ points.now.points) }
{
    let hull = swept(alloc, points)?.hull;
    Ok(eliminated(rt, alloc, points, &hull)?.net)
}

// The live edges of a network.
fn settled(alloc: Global, net: &Network) -> Result<Flags, Fail>
    ensures one_each { IfOk result (λ flags. length flags ≡ length net.now.edges) }
    ensures live { IfOk result (λ flags. AreLive net.now (live_numbers flags)) }
{
    let count = net.edges();
    let mut flags = match Flags::all(alloc, count) {
        Ok(flags) => flags,
        Err(_) => return Err(Fail::from("no memory")),
    };
    plain_settle(net, &mut flags);
    Ok(flags)
}

// The skeleton of the live edges, or no edges.
fn anchored(
    alloc: Global,
    points: &Points,
    net: &Network,
    flags: &Flags,
    inner: bool,
) -> Result<Edges, Fail>
    requires same_points { net.now.points ≡ points.now.points }
    requires one_each { length flags.now ≡ length net.now.edges }
    ensures { IfOk result (λ edges. All (Contains (live_edges net.now flags.now)) edges) }
{
    if !inner {
        return Ok(Edges::of(Vec::new(alloc)));
    }
    match skeleton(alloc, points, net, flags) {
        Ok(edges) => Ok(edges),
        Err(_) => Err(Fail::from("no memory")),
    }
}

/// What a report says of a live edge: its ends, its value, and its left and its right anchor.
pub type Line = (u32, u32, i64, i64, i64);

/// What prices say of the live edges.
pub fn lines_of(
    alloc: Global,
    net: &Network,
    flags: &Flags,
    prices: &Prices,
) -> Result<Vec<Line>, AllocError>
    requires one_each { length flags.now ≡ length net.now.edges }
    requires priced { length prices.now ≡ length net.now.edges }
{
    let mut lines = Vec::new(alloc);
    for e in 0..net.edges() {
        if flags.live(e) {
            let edge = net.edge(e);
            lines.push((
                edge.a,
                edge.b,
                prices.value(e),
                prices.left(e),
                prices.right(e),
            ))?;
        }
    }
    Ok(lines)
}

// The lines of the live edges, and the bound, after an ascent. Inner edges have anchors, or not.
fn priced(
    rt: &(impl Threads + Sync),
    alloc: Global,
    places: &[(i64, i64)],
    inner: bool,
    sweeps: u32,
) -> Result<(Vec<Line>, i128), Fail> {
    let points = points_of(alloc, places)?;
    let net = network_of(rt, alloc, &points)?;
    let flags = settled(alloc, &net)?;
    let edges = anchored(alloc, &points, &net, &flags, inner)?;
    let Ok(prices) = Prices::ascent(alloc, &net, &flags, &edges, sweeps) else {
        return Err(Fail::from("no memory"));
    };
    Ok((lines_of(alloc, &net, &flags, &prices)?, prices.bound(&net)))
}

// The square of side 1, whose two diagonals are no skeleton edges.
#[test]
fn square(rt: HostRuntime) -> Result<(), Fail> {
    let places = [(0, 0), (1, 0), (1, 1), (0, 1)];
    let (lines, bound) = priced(&rt, rt.alloc(), &places, true, 16)?;
    assert_eq!(rt;
        lines.as_slice(),
        [
            (0, 1, 0, 0, 0),
            (0, 2, 0, 0, 0),
            (0, 3, -2_000_000, 0, 0),
            (1, 2, -2_000_000, 0, 0),
            (1, 3, 5_414_213, 0, 0),
            (2, 3, 0, 0, 0),
        ]
        .as_slice()
    );
    assert_eq!(rt; bound, 5_414_213);
    Ok(())
}

// Five points, of whose ten candidate edges seven are live, none of which crosses another.
#[test]
fn five_points(rt: HostRuntime) -> Result<(), Fail> {
    let places = [(0, 0), (2, -2), (7, -3), (10, 0), (5, 1)];
    let (lines, bound) = priced(&rt, rt.alloc(), &places, true, 16)?;
    assert_eq!(rt;
        lines.as_slice(),
        [
            (0, 1, 19_505_172, 0, 0),
            (0, 2, 0, 0, 0),
            (1, 2, -7_335_086, 0, 0),
            (1, 3, 0, 0, 0),
            (2, 3, 2_236_067, 0, 0),
            (2, 4, 0, 0, 0),
            (3, 4, 11_577_727, 0, 0),
        ]
        .as_slice()
    );
    assert_eq!(rt; bound, 31_082_899);
    Ok(())
}

// Without a sweep anchors of inner edges take what the hull leaves; without such anchors it is lost.
#[test]
fn spokes(rt: HostRuntime) -> Result<(), Fail> {
    let places = [(0, 0), (6, 4), (6, 9), (6, 30), (12, 0)];
    let (lines, bound) = priced(&rt, rt.alloc(), &places, true, 0)?;
    assert_eq!(rt;
        lines.as_slice(),
        [
            (0, 1, 3_605_551, 11_513_877, 0),
            (0, 2, 5_408_326, 0, 0),
            (0, 3, 46_502_444, 0, 0),
            (0, 4, 19_211_102, 0, 0),
            (1, 2, 2_500_000, 0, 11_513_877),
            (1, 4, 3_605_551, 0, 0),
            (2, 3, 10_500_000, 0, 0),
            (2, 4, 5_408_326, 0, 0),
            (3, 4, 46_502_444, 0, 0),
        ]
        .as_slice()
    );
    assert_eq!(rt; bound, 135_243_744);
    let (_, bound) = priced(&rt, rt.alloc(), &places, false, 0)?;
    assert_eq!(rt; bound, 112_215_990);
    Ok(())
}

// Prices after some sweeps are those of a slow program, with anchors of inner edges and without.
#[test]
fn sets_as_a_slow_program_prices_them(rt: HostRuntime) -> Result<(), Fail> {
    let alloc = rt.alloc();
    for places in SETS {
        let points = points_of(alloc, places)?;
        let net = network_of(&rt, alloc, &points)?;
        let flags = settled(alloc, &net)?;
        for (inner, sweeps) in [(true, 0), (true, 1), (true, 16), (false, 3)] {
            let edges = anchored(alloc, &points, &net, &flags, inner)?;
            let Ok(prices) = Prices::ascent(alloc, &net, &flags, &edges, sweeps) else {
                return Err(Fail::from("no memory"));
            };
            let slow = slow_prices::ascent(alloc, &net, &flags, &edges, sweeps)?;
            for e in 0..net.edges() {
                let found = [prices.value(e), prices.left(e), prices.right(e)];
                assert!(rt; slow.get(e as usize) == Some(&found), "{places:?}");
            }
        }
    }
    Ok(())
}
