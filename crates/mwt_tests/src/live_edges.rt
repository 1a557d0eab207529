// Candidate and live edges against a slow program straight from their definitions, over edges as pairs
// of numbers: the greatest closed list is what is left of all candidates, where edges without a support
// are taken out until none is left.

use crate::by_definition::edges_by_definition;
use crate::helpers::{Ends, eliminated, live_ends, points_of, swept};
use crate::sets::{SETS, at, in_order, is_minimal_between, is_pair};
use diamond_edges::candidates;
use dual_checker::{CheckStop, Elimination};
use empty_triangles::{TriStop, triangles};
use exact_predicates::{Diamond, Points};
use point_grid::Grid;
use std::alloc::Global;
use std::test::Fail;
use std::thread::Threads;

// The ends of all candidates.
fn all_candidates(alloc: Global, points: &Points) -> Result<Vec<Ends>, Fail> {
    let mut all = Vec::new(alloc);
    for edge in &edges_by_definition(alloc, points)? {
        all.push((edge.a, edge.b))?;
    }
    Ok(all)
}

fn has(edges: &[Ends], u: u32, v: u32) -> bool {
    edges.contains(&(u.min(v), u.max(v)))
}

/// Whether uva is an empty triangle, counter-clockwise, with all its sides among the edges.
pub fn is_over(points: &Points, edges: &[Ends], u: u32, v: u32, a: u32) -> bool {
    let (Some(p), Some(q), Some(r)) = (at(points, u), at(points, v), at(points, a)) else {
        return false;
    };
    let held = points
        .as_slice()
        .iter()
        .filter(|s| in_order(p, q, s) >= 0 && in_order(q, r, s) >= 0 && in_order(r, p, s) >= 0)
        .count();
    in_order(p, q, r) > 0 && held == 3 && has(edges, u, v) && has(edges, v, a) && has(edges, a, u)
}

fn has_support(points: &Points, edges: &[Ends], u: u32, v: u32) -> bool {
    let (Some(p), Some(q)) = (at(points, u), at(points, v)) else {
        return false;
    };
    for a in 0..points.len() {
        for b in 0..points.len() {
            if is_over(points, edges, u, v, a) && is_over(points, edges, v, u, b) {
                if let (Some(r), Some(s)) = (at(points, a), at(points, b)) {
                    if is_minimal_between(p, q, r, s) {
                        return true;
                    }
                }
            }
        }
    }
    false
}

fn greatest_closed(alloc: Global, points: &Points, hull: &[u32]) -> Result<Vec<Ends>, Fail> {
    let mut live = all_candidates(alloc, points)?;
    for _ in 0..live.len() {
        let mut kept = Vec::new(alloc);
        for (u, v) in &live {
            let on_hull = is_pair(hull, *u, *v) || is_pair(hull, *v, *u);
            if on_hull || has_support(points, &live, *u, *v) {
                kept.push((*u, *v))?;
            }
        }
        live = kept;
    }
    Ok(live)
}

#[test]
fn greatest_closed_lists(rt: HostRuntime) -> Result<(), Fail> {
    let alloc = rt.alloc();
    for places in SETS {
        let points = points_of(alloc, places)?;
        let hull = swept(alloc, &points)?.hull;
        let elimination = eliminated(&rt, alloc, &points, &hull)?;
        let count = elimination.net.edges() as usize;
        assert_eq!(rt; count, all_candidates(alloc, &points)?.len(), "{places:?}");
        let live = greatest_closed(alloc, &points, hull.as_slice())?;
        assert!(rt; live_ends(alloc, &elimination)? == live, "{places:?}");
    }
    Ok(())
}

// The network of five points in convex position, by the numbers of its edges.
#[test]
fn network_of_five_points(rt: HostRuntime) -> Result<(), Fail> {
    let alloc = rt.alloc();
    let points = points_of(alloc, &[(0, 0), (2, -2), (7, -3), (10, 0), (5, 1)])?;
    let hull = swept(alloc, &points)?.hull;
    let Elimination { net, flags } = eliminated(&rt, alloc, &points, &hull)?;
    assert_eq!(rt; net.edges(), 10);
    assert_eq!(rt; net.tris(), 10);
    assert_eq!(rt; flags.len(), 10);
    assert_eq!(rt; flags.count(), 7);
    assert_eq!(rt; net.hull(), [0, 1, 3, 4, 2].as_slice());
    let mut sides = 0usize;
    for e in 0..net.edges() {
        assert_eq!(rt; flags.live(e), e != 2 && e != 3 && e != 6, "{e}");
        assert_eq!(rt; net.is_hull(e), [0, 1, 5, 8, 9].contains(&e), "{e}");
        sides = sides.saturating_add(net.left(e).len());
        sides = sides.saturating_add(net.right(e).len());
    }
    assert_eq!(rt; sides, 30);
    assert_eq!(rt; (net.edge(2).a, net.edge(2).b), (0, 3));
    assert_eq!(rt; net.weight(0), 2_828_427);
    assert_eq!(rt; net.weight(7), 4_472_135);
    Ok(())
}

// The first points of the parabola: all of them on the hull, and each triangle of them empty.
fn parabola(alloc: Global, count: i64) -> Result<Points, Fail> {
    let mut places = Vec::new(alloc);
    for i in 0..count {
        places.push((i, i.saturating_mul(i)))?;
    }
    points_of(alloc, &places)
}

// How many candidate edges the first points of the parabola have, and how many empty triangles, or why
// these are not listed.
fn counts_of(
    rt: &(impl Threads + Sync),
    alloc: Global,
    count: i64,
) -> Result<(u32, Result<u32, TriStop>), Fail> {
    let points = parabola(alloc, count)?;
    let hull = swept(alloc, &points)?.hull;
    let grid = Grid::new(alloc, &points).map_err(|_| Fail::from("no memory"))?;
    let edges = match candidates(rt, alloc, &points, &grid, &hull, Diamond::Off) {
        Ok(edges) => edges,
        Err(_) => return Err(Fail::from("stopped")),
    };
    match triangles(rt, alloc, &points, &grid, &edges) {
        Ok(tris) => Ok((edges.len(), Ok(tris.len()))),
        Err(stop) => Ok((edges.len(), Err(stop))),
    }
}

// 289 of these points have no more empty triangles than the limit, 290 and 400 have more; 895 have more
// candidate edges.
#[test]
fn limits_of_edges_and_triangles(rt: HostRuntime) -> Result<(), Fail> {
    let alloc = rt.alloc();
    assert_eq!(rt; counts_of(&rt, alloc, 289)?, (41_616, Ok(3_981_264)));
    assert_eq!(rt; counts_of(&rt, alloc, 290)?, (41_905, Err(TriStop::Dense)));
    assert_eq!(rt; counts_of(&rt, alloc, 400)?, (79_800, Err(TriStop::Dense)));
    let points = parabola(alloc, 895)?;
    let hull = swept(alloc, &points)?.hull;
    let stop = Elimination::of(&rt, alloc, &points, &hull, Diamond::Off).err();
    assert_eq!(rt; stop, Some(CheckStop::DenseEdges));
    Ok(())
}
