// The lists of points, edges and triangles in public types, and steps in them.
ghost use Rattle.std.specs.Prelude.{◌≡◌, ◌≢◌, ◌<◌, length, slice_index, AllPairs, IfSome, None};
ghost use Rattle.std.specs.List.{HoldsAt};
ghost use Rattle.exact_predicates.specs.Candidates.{EdgePrecedes, HasEdge, Joins};
ghost use Rattle.exact_predicates.specs.Hull.{ring_pairs};

use crate::edge::Edge;
use crate::point::Point;
use crate::tri::Tri;
use mwt_base::ItemList;

/// Points in any order, with any ids and coordinates.
pub type PointList = ItemList<Point>;

/// The numbers of the points of a hull, in cyclic order. Its pairs are each number with the next,
/// and the last with the first.
pub type Hull = ItemList<u32>;

/// Triangles, in any order and as often as they are listed.
pub type Tris = ItemList<Tri>;

/// Edges, in any order and as often as they are listed.
pub type Edges = ItemList<Edge>;

/// The place of the edge with these two ends in an ascending list of edges, or none where it is not
/// listed. The time is logarithmic.
pub fn place_of_edge(edges: &[Edge], u: u32, v: u32) -> Option<usize>
    requires ascending { AllPairs EdgePrecedes edges.now }
    requires apart { u ≢ v }
    ensures within { IfSome result (λ k. k < length edges.now) }
    ensures joins { IfSome result (HoldsAt (λ e. Joins e u v) edges.now) }
    ensures none { result ≡ None → ¬ HasEdge edges.now u v }
{
    match edges.binary_search(&Edge::of(u, v)) {
        Ok(place) => Some(place),
        Err(_) => None,
    }
}

/// The number that comes after the one at a place of a hull: the next one, and after the last the
/// first. The two are a pair of the hull.
pub fn next_on_hull(hull: &[u32], place: usize) -> u32
    requires { place < length hull.now }
    ensures in_pairs { place < length (ring_pairs hull.now) }
    ensures pair { HoldsAt (λ s. s ≡ (slice_index hull.now place, result)) (ring_pairs hull.now) place }
{
    if place + 1 < hull.len() {
        hull[place + 1]
    } else {
        hull[0]
    }
}
