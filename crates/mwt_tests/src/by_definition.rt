// Candidate edges and empty triangles as plain programs find them, which follow the definitions.

use crate::helpers::swept;
use crate::sets::{at, in_order, is_empty, is_inside_box, is_pair};
use diamond_edges::candidates;
use empty_triangles::triangles;
use exact_predicates::{Diamond, Edge, Edges, Hull, Point, Points, Tri, Tris};
use point_grid::Grid;
use std::alloc::Global;
use std::test::Fail;
use std::thread::Threads;

/// The edges with no point between, one by one.
pub fn edges_by_definition(alloc: Global, points: &Points) -> Result<Vec<Edge>, Fail> {
    let mut edges = Vec::new(alloc);
    for a in 0..points.len() {
        for b in a.saturating_add(1)..points.len() {
            let (Some(p), Some(q)) = (at(points, a), at(points, b)) else {
                continue;
            };
            let is_clear = points
                .as_slice()
                .iter()
                .all(|r| in_order(p, q, r) != 0 || !is_inside_box(p, q, r));
            if is_clear && a < b {
                edges.push(Edge { a, b })?;
            }
        }
    }
    Ok(edges)
}

fn has_edge(edges: &[Edge], u: u32, v: u32) -> bool {
    edges
        .iter()
        .any(|e| (e.a == u && e.b == v) || (e.a == v && e.b == u))
}

// The empty triangles with three of these sides, one by one.
fn tris_by_definition(alloc: Global, points: &Points, edges: &[Edge]) -> Result<Vec<Tri>, Fail> {
    let mut tris = Vec::new(alloc);
    for a in 0..points.len() {
        for b in 0..points.len() {
            for c in 0..points.len() {
                if a < b && a < c && b != c {
                    let t = Tri { a, b, c };
                    let has_sides = has_edge(edges, a, b)
                        && has_edge(edges, b, c)
                        && has_edge(edges, c, a);
                    if has_sides && is_empty(points, &t) {
                        tris.push(t)?;
                    }
                }
            }
        }
    }
    Ok(tris)
}

/// What is enumerated, with the diamond test off or on.
#[derive(Drop)]
pub struct Found {
    pub hull: Hull,
    pub edges: Edges,
    pub tris: Tris,
}

impl Found {
    /// Of these points.
    pub fn of(
        rt: &(impl Threads + Sync),
        alloc: Global,
        points: &Points,
        diamond: Diamond,
    ) -> Result<Found, Fail> {
        let hull = swept(alloc, points)?.hull;
        let grid = Grid::new(alloc, points).map_err(|_| Fail::from("no memory"))?;
        let edges = match candidates(rt, alloc, points, &grid, &hull, diamond) {
            Ok(edges) => edges,
            Err(_) => return Err(Fail::from("stopped")),
        };
        match triangles(rt, alloc, points, &grid, &edges) {
            Ok(tris) => Ok(Found { hull, edges, tris }),
            Err(_) => Err(Fail::from("stopped")),
        }
    }
}

// The inner product of the vectors from p to q and from p to r.
fn along(p: &Point, q: &Point, r: &Point) -> i128 {
    let width = i128::from(q.x).saturating_sub(i128::from(p.x));
    let height = i128::from(q.y).saturating_sub(i128::from(p.y));
    let right = i128::from(r.x).saturating_sub(i128::from(p.x));
    let up = i128::from(r.y).saturating_sub(i128::from(p.y));
    width
        .saturating_mul(right)
        .saturating_add(height.saturating_mul(up))
}

// Whether r lies in the open triangle on the left of p to q whose base angles have the tangent 4/5.
fn is_in_diamond(p: &Point, q: &Point, r: &Point) -> bool {
    let turn = in_order(p, q, r).saturating_mul(5);
    turn > 0 && turn < along(p, q, r).saturating_mul(4) && turn < along(q, p, r).saturating_mul(4)
}

// Whether an edge passes the diamond test: it is on the hull, or one of its diamonds holds no point.
fn passes(points: &Points, hull: &[u32], edge: &Edge) -> bool {
    let (Some(p), Some(q)) = (at(points, edge.a), at(points, edge.b)) else {
        return false;
    };
    let others = points.as_slice();
    is_pair(hull, edge.a, edge.b)
        || is_pair(hull, edge.b, edge.a)
        || !others.iter().any(|r| is_in_diamond(p, q, r))
        || !others.iter().any(|r| is_in_diamond(q, p, r))
}

/// The numbers of candidates and of triangles, where they are those of the definitions.
pub fn compared(
    rt: &(impl Threads + Sync),
    alloc: Global,
    points: &Points,
    diamond: Diamond,
) -> Result<(usize, usize), Fail> {
    let found = Found::of(rt, alloc, points, diamond)?;
    let mut edges = Vec::new(alloc);
    for edge in &edges_by_definition(alloc, points)? {
        if diamond == Diamond::Off || passes(points, found.hull.as_slice(), edge) {
            edges.push(*edge)?;
        }
    }
    if found.edges.as_slice() != edges.as_slice() {
        return Err(Fail::from("other candidates"));
    }
    let tris = tris_by_definition(alloc, points, &edges)?;
    if found.tris.as_slice() != tris.as_slice() {
        return Err(Fail::from("other triangles"));
    }
    Ok((edges.len(), tris.len()))
}
