// The network of edges and triangles.
ghost use Rattle.std.specs.Prelude.{◌≡◌, ◌≤◌, ◌<◌, ◌*◌, ◌^◌, ◌↔◌, ℕ, length, IsTrue, IfOk, IfSome, IsNone, AllPairs, Contains, slice_index};
ghost use Rattle.exact_predicates.specs.declared.diamond.Diamond.{Diamond};
ghost use Rattle.exact_predicates.specs.Hull.{IsHull};
ghost use Rattle.exact_predicates.specs.Plane.{IsInRange};
ghost use Rattle.exact_predicates.specs.PointSet.{point_at};
ghost use Rattle.exact_predicates.specs.Candidates.{AreCandidates, AreTrianglesOver, IsEmptyOver, HasEdge};
ghost use Rattle.mwt_base.specs.Limits.{most_edges, most_triangles};
ghost use Rattle.length_enclosure.specs.Enclosure.{weight};
ghost use Rattle.lmt_network.specs.Network.{NetworkParts, IsNetwork, edge_at, tri_at};
ghost use Rattle.lmt_network.specs.Numbers.{IsHullNumber, IsOnLeft, IsOnRight, IsMinimalPair, IsNumberOf, IsSideOf, HasSide};
ghost use Rattle.exact_predicates.specs.Triangulation.{HasCorners};

use crate::tables::{edge_starts, find_edge, hull_flags, row, row_starts, rows, side_keys};
use exact_predicates::{Edge, Edges, Hull, Point, Points, Tri, Tris, d2, strictly_convex};
use length_enclosure::weight;
use mwt_base::NoMemory;
use std::alloc::Global;
use std::marker::Model;

/// The points of a problem with their hull, its candidate edges, and the empty triangles that these
/// bound. An edge or a triangle is known by its number, its place in the list.
#[derive(Drop)]
pub struct Network {
    points: Vec<Point>,
    hull: Vec<u32>,
    edges: Edges,
    tris: Tris,
    // Where the edges of each lesser end begin in `edges`, and where the last of them end.
    edge_starts: Vec<u32>,
    // Of each edge, whether it is a hull edge.
    on_hull: Vec<bool>,
    // Of each triangle, the keys of its three sides: the row of the triangles that have this side.
    keys: Vec<u32>,
    // Where each row begins in `rows`, and where the last one ends.
    starts: Vec<u32>,
    rows: Vec<u32>,
}

impl Model for Network {
    ghost use Rattle.lmt_network.specs.Network.{NetworkParts};

    ghost Value = { NetworkParts };

    ghost use Rattle.lmt_network.specs.Inside.{parts_of, IsSound};

    ghost view = { parts_of };

    ghost invariant = { IsSound };
}

impl Network {
    /// The network of the candidate edges and of all empty triangles over these. One side of each
    /// triangle is looked up among the edges that have its lesser end; all else takes linear time.
    pub fn build(
        alloc: Global,
        points: &Points,
        hull: &Hull,
        edges: Edges,
        tris: Tris,
    ) -> Result<Network, NoMemory>
        requires hull_is { IsHull points.now.points hull.now }
        requires candidates { (diamond : Diamond) × AreCandidates points.now.points hull.now diamond edges }
        requires triangles { AreTrianglesOver points.now.points edges tris }
        requires few_edges { length edges ≤ most_edges }
        requires few_tris { length tris ≤ most_triangles }
        ensures { IfOk result (λ net. net ≡
            record { points = points.now.points; hull = hull.now; edges = edges; tris = tris }) }
    {
        let edge_starts = edge_starts(alloc, edges.as_slice(), points.len())?;
        let on_hull = hull_flags(alloc, edges.as_slice(), &edge_starts, hull.as_slice())?;
        let keys = side_keys(alloc, edges.as_slice(), &edge_starts, tris.as_slice())?;
        let starts = row_starts(alloc, &keys, 2 * edges.len())?;
        let rows = rows(alloc, &keys, 2 * edges.len(), &starts)?;
        let points = Vec::from_slice(alloc, points.as_slice())?;
        let hull = Vec::from_slice(alloc, hull.as_slice())?;
        Ok(Network {
            points,
            hull,
            edges,
            tris,
            edge_starts,
            on_hull,
            keys,
            starts,
            rows,
        })
    }

    /// How many edges there are.
    pub fn edges(&self) -> u32
        ensures value { result ≡ length self.now.edges }
        ensures valid { IsNetwork self.now }
    {
        self.edges.len()
    }

    /// How many triangles there are.
    pub fn tris(&self) -> u32
        ensures value { result ≡ length self.now.tris }
        ensures valid { IsNetwork self.now }
    {
        self.tris.len()
    }

    /// The edge of this number.
    pub fn edge(&self, e: u32) -> Edge
        requires { e < length self.now.edges }
        ensures value { result ≡ edge_at self.now e }
        ensures ends_in { result.b < length self.now.points }
    {
        self.edges.get(e)
    }

    /// The triangle of this number.
    pub fn tri(&self, t: u32) -> Tri
        requires { t < length self.now.tris }
        ensures value { result ≡ tri_at self.now t }
        ensures empty { IsEmptyOver self.now.points self.now.edges result }
    {
        self.tris.get(t)
    }

    /// The numbers of the triangle's sides: of `a` to `b`, of `b` to `c` and of `c` to `a`.
    pub fn sides(&self, t: u32) -> [u32; 3]
        requires { t < length self.now.tris }
        ensures ab { IsNumberOf self.now (tri_at self.now t).a (tri_at self.now t).b (slice_index result 0) }
        ensures bc { IsNumberOf self.now (tri_at self.now t).b (tri_at self.now t).c (slice_index result 1) }
        ensures ca { IsNumberOf self.now (tri_at self.now t).c (tri_at self.now t).a (slice_index result 2) }
        ensures only { (f : ℕ) → IsSideOf self.now t f → Contains result f }
    {
        let first = 3 * t as usize;
        [
            self.keys[first] / 2,
            self.keys[first + 1] / 2,
            self.keys[first + 2] / 2,
        ]
    }

    /// The edge's length in millionths of the unit, rounded down. Each call takes the root anew.
    pub fn weight(&self, e: u32) -> u64
        requires { e < length self.now.edges }
        ensures value { result ≡ weight self.now.points ((edge_at self.now e).a, (edge_at self.now e).b) }
        ensures bound { result < 3 * 10 ^ 15 }
    {
        let edge = self.edge(e);
        weight(d2(self.point(edge.a), self.point(edge.b)))
    }

    /// The number of the edge with the ends `u` and `v`, in either order; None exactly where there is
    /// no such edge.
    pub fn edge_number(&self, u: u32, v: u32) -> Option<u32>
        ensures some { IfSome result (IsNumberOf self.now u v) }
        ensures none { IsNone result ↔ ¬ HasEdge self.now.edges u v }
    {
        find_edge(self.edges.as_slice(), &self.edge_starts, u, v)
    }

    /// Whether the edge is an edge of the hull.
    pub fn is_hull(&self, e: u32) -> bool
        requires { e < length self.now.edges }
        ensures { IsTrue result ↔ IsHullNumber self.now e }
    {
        self.on_hull[e as usize]
    }

    /// The points of the hull, in its order from point 0.
    pub fn hull(&self) -> &[u32]
        ensures value { result.now ≡ self.now.hull }
        ensures valid { IsHull self.now.points self.now.hull }
    {
        &self.hull
    }

    /// The numbers of the triangles with the edge's side `a` to `b`, ascending.
    pub fn left(&self, e: u32) -> &[u32]
        requires { e < length self.now.edges }
        ensures ascending { AllPairs (λ s t. s < t) result.now }
        ensures members { (t : ℕ) → Contains result.now t ↔ IsOnLeft self.now e t }
    {
        row(&self.rows, &self.starts, 2 * e)
    }

    /// The numbers of the triangles with the edge's side `b` to `a`, ascending.
    pub fn right(&self, e: u32) -> &[u32]
        requires { e < length self.now.edges }
        ensures ascending { AllPairs (λ s t. s < t) result.now }
        ensures members { (t : ℕ) → Contains result.now t ↔ IsOnRight self.now e t }
    {
        row(&self.rows, &self.starts, 2 * e + 1)
    }

    // The point of this number.
    fn point(&self, p: u32) -> &Point
        requires { p < length self.now.points }
        ensures value { result.now ≡ point_at self.now.points p }
        ensures in_range { IsInRange result.now }
    {
        &self.points[p as usize]
    }

    /// Whether the edge is locally minimal between a triangle on its left and one on its right: their
    /// quadrilateral is not strictly convex, or its other diagonal is not shorter. After Dickerson
    /// and Montague, "A (usually?) connected subgraph of the minimum weight triangulation" (1996).
    pub fn minimal_pair(&self, e: u32, l: u32, r: u32) -> bool
        requires on_left { IsOnLeft self.now e l }
        requires on_right { IsOnRight self.now e r }
        requires e_in { e < length self.now.edges }
        ensures { IsTrue result ↔ IsMinimalPair self.now e l r }
    {
        let edge = self.edge(e);
        let u = self.point(edge.a);
        let v = self.point(edge.b);
        let a = self.point(apex(self.tri(l), edge.a));
        let b = self.point(apex(self.tri(r), edge.b));
        d2(u, v) <= d2(a, b) || !strictly_convex(u, v, a, b)
    }
}

// The corner of the triangle before u, opposite to the side that begins at u.
fn apex(t: Tri, u: u32) -> u32
    requires { (v : ℕ) × HasSide t u v }
    ensures { (v : ℕ) → HasSide t u v → HasCorners t u v result }
{
    if t.a == u {
        t.c
    } else if t.b == u {
        t.a
    } else {
        t.b
    }
}
