// A short caller of each library: what it has to show of what it hands over, and what it gets.
// docs/CALLING.md quotes these functions.
ghost use Rattle.std.specs.Prelude.{◌≡◌, IfOk};
ghost use Rattle.exact_predicates.specs.Candidates.{AreCandidates};
ghost use Rattle.exact_predicates.specs.Hull.{IsHull};
ghost use Rattle.exact_predicates.specs.declared.diamond.Diamond.TheVariants.{Off as test_off};

use crate::helpers::{FIVE, bytes_of, eliminated, plain_file, points_of, swept};
use cert_text::{read_report, write_report};
use diamond_edges::candidates;
use dual_checker::{Verdict, check};
use empty_triangles::triangles;
use exact_predicates::{Diamond, Edges, Hull, Points, Tri, orient};
use hull_sweep::{Start, sweep};
use length_enclosure::enclosure;
use lmt_network::Network;
use mwt_base::{Bytes, NoMemory, OpenGate, SureSource, read_whole};
use mwt_tool::{Settings, solve};
use point_grid::Grid;
use price_ascent::Prices;
use skeleton_faces::skeleton;
use std::alloc::Global;
use std::test::Fail;
use std::thread::Threads;
use steal_workers::{Dealing, settle_all};
use tsplib_points::read_points;

// The corners of a square and its middle.
const SQUARE: [(i64, i64); 5] = [(0, 0), (4, 0), (4, 4), (0, 4), (2, 2)];

#[test]
fn all_that_a_source_has(rt: HostRuntime) -> Result<(), Fail> {
    let bytes = bytes_of(Vec::from_slice(rt.alloc(), b"all of it")?)?;
    let mut source = SureSource::new(bytes, 4);
    let Ok(read) = read_whole(rt.alloc(), &mut source, 9) else {
        return Err(Fail::from("no memory"));
    };
    assert_eq!(rt; read.as_slice(), b"all of it".as_slice());
    Ok(())
}

#[test]
fn points_of_a_file(rt: HostRuntime) -> Result<(), Fail> {
    let bytes = bytes_of(plain_file(rt.alloc(), &SQUARE)?)?;
    let Ok(file) = read_points(rt.alloc(), &bytes) else {
        return Err(Fail::from("refused"));
    };
    assert_eq!(rt; (file.points.len(), file.unit, file.merged), (5, 0, 0));
    Ok(())
}

// Whether the corners of a triangle turn left. None where a number is not that of a point.
fn turns_left(points: &Points, t: Tri) -> Option<bool> {
    let count = points.len();
    if t.a >= count || t.b >= count || t.c >= count {
        return None;
    }
    Some(orient(points.at(t.a), points.at(t.b), points.at(t.c)) > 0)
}

#[test]
fn a_turn(rt: HostRuntime) -> Result<(), Fail> {
    let points = points_of(rt.alloc(), &SQUARE)?;
    assert_eq!(rt; turns_left(&points, Tri { a: 0, b: 3, c: 2 }), Some(true));
    assert_eq!(rt; turns_left(&points, Tri { a: 0, b: 2, c: 3 }), Some(false));
    assert_eq!(rt; turns_left(&points, Tri { a: 0, b: 3, c: 5 }), None);
    Ok(())
}

#[test]
fn a_hull_and_a_length(rt: HostRuntime) -> Result<(), Fail> {
    let points = points_of(rt.alloc(), &SQUARE)?;
    let Ok(Start { hull, tris }) = sweep(rt.alloc(), &points) else {
        return Err(Fail::from("no memory"));
    };
    assert_eq!(rt; hull.as_slice(), [0, 3, 4, 1].as_slice());
    let ends = enclosure(&points, &hull, &tris);
    assert_eq!(rt; (ends.lo, ends.hi), (27_313_708, 27_313_712));
    Ok(())
}

// The candidate edges and the number of the empty triangles over them.
fn enumerated(
    rt: &(impl Threads + Sync),
    alloc: Global,
    points: &Points,
    hull: &Hull,
) -> Result<(Edges, u32), Fail>
    requires { IsHull points.now.points hull.now }
    ensures { IfOk result (λ found. AreCandidates points.now.points hull.now test_off found.0) }
{
    let Ok(grid) = Grid::new(alloc, points) else {
        return Err(Fail::from("no memory"));
    };
    let Ok(edges) = candidates(rt, alloc, points, &grid, hull, Diamond::Off) else {
        return Err(Fail::from("dense, or no memory"));
    };
    let Ok(tris) = triangles(rt, alloc, points, &grid, &edges) else {
        return Err(Fail::from("dense, or no memory"));
    };
    let count = tris.len();
    Ok((edges, count))
}

#[test]
fn edges_and_triangles(rt: HostRuntime) -> Result<(), Fail> {
    let points = points_of(rt.alloc(), &SQUARE)?;
    let hull = swept(rt.alloc(), &points)?.hull;
    let (edges, triangles) = enumerated(&rt, rt.alloc(), &points, &hull)?;
    assert_eq!(rt; (edges.len(), triangles), (8, 4));
    Ok(())
}

// The number of skeleton edges, and the bound after sixteen sweeps.
fn priced(
    rt: &(impl Threads + Sync),
    alloc: Global,
    points: &Points,
    net: &Network,
) -> Result<(u32, i128), NoMemory>
    requires { net.now.points ≡ points.now.points }
{
    let settled = settle_all(rt, alloc, net, 2, Dealing::Stripes, &OpenGate)?;
    let skeleton = skeleton(alloc, points, net, &settled.flags)?;
    let prices = Prices::ascent(alloc, net, &settled.flags, &skeleton, 16)?;
    Ok((skeleton.len(), prices.bound(net)))
}

#[test]
fn a_bound(rt: HostRuntime) -> Result<(), Fail> {
    let points = points_of(rt.alloc(), &FIVE)?;
    let hull = swept(rt.alloc(), &points)?.hull;
    let net = eliminated(&rt, rt.alloc(), &points, &hull)?.net;
    let answer = priced(&rt, rt.alloc(), &points, &net);
    assert_eq!(rt; answer.ok(), Some((7, 31_082_899)));
    Ok(())
}

// Whether the text is that of a good report. None if memory runs out, and for a text or points that are
// refused.
fn is_valid(rt: &(impl Threads + Sync), alloc: Global, text: &Bytes) -> Option<bool> {
    let report = read_report(alloc, text).ok()?;
    let verdict = check(rt, alloc, &report).ok()?;
    Some(verdict == Verdict::Valid)
}

#[test]
fn a_report_and_its_check(rt: HostRuntime) -> Result<(), Fail> {
    let bytes = bytes_of(plain_file(rt.alloc(), &SQUARE)?)?;
    let Ok(file) = read_points(rt.alloc(), &bytes) else {
        return Err(Fail::from("refused"));
    };
    let settings = Settings {
        workers: 2,
        diamond: Diamond::On,
        sweeps: 16,
    };
    let Ok(report) = solve(&rt, rt.alloc(), &file, &settings, &OpenGate) else {
        return Err(Fail::from("dense, or no memory"));
    };
    assert_eq!(rt; report.bound, 27_313_708);
    let Ok(text) = write_report(rt.alloc(), &report) else {
        return Err(Fail::from("no memory"));
    };
    assert_eq!(rt; is_valid(&rt, rt.alloc(), &text), Some(true));
    Ok(())
}
