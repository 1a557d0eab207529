// The empty triangles with two given corners.
ghost use Rattle.std.specs.Prelude.{◌≡◌, ◌≢◌, ◌+◌, ◌<◌, AllPairs, Contains, MatchOption, length, slice_index, OnOk};
ghost use Rattle.exact_predicates.specs.PointSet.{IsPointSet};
ghost use Rattle.empty_triangles.specs.Enumeration.{AreStarts, AreThirds};
ghost use Rattle.empty_triangles.specs.Corners.{AreMarked, IsCorner};
ghost use Rattle.empty_triangles.specs.Rays.{AreTurning, AreSeen, AreLists};

use crate::corner::Corner;
use crate::sights::fill_seen;
use exact_predicates::{Edge, Points};
use mwt_base::NoMemory;
use point_grid::is_left;

/// Puts the third corners of the empty triangles over the edges whose first two corners are a given one and
/// its neighbour `b`, in this turn, ascending, in place of what was there.
pub(crate) fn fill_thirds(
    points: &Points,
    edges: &[Edge],
    starts: &[usize],
    corner: &Corner,
    b: u32,
    places: &mut Vec<usize>,
    thirds: &mut Vec<u32>,
) -> Result<(), NoMemory>
    requires starts { AreStarts edges.now starts.now }
    requires count { length starts.now ≡ length points.now.points + 1 }
    requires a_in { corner.now.a < length points.now.points }
    requires corner { IsCorner points.now.points edges.now corner.now.a corner.now.row.items corner.now.heads.items }
    requires marked { AreMarked corner.now.row.items corner.now.heads.items corner.now.marks.items }
    requires lists { AreLists points.now.points corner.now.heads.items (length corner.now.seen.items) corner.now.seen.items }
    requires neighbor { Contains corner.now.row.items b }
    requires b_in { b < length points.now.points }
    ensures are { OnOk result (AreThirds points.now.points edges.now corner.now.a b thirds.new.items) }
    ensures ascending { OnOk result (AllPairs ◌<◌ thirds.new.items) }
{
    // The proof takes from `len` that these are the points of a problem.
    prove!(corner.a < points.len());
    match place_in(points, corner.a, &corner.heads, b) {
        Some(j) => {
            thirds_at(points, edges, starts, corner, j, places, thirds)?;
            thirds.sort_unstable();
            Ok(())
        }
        None => {
            thirds.clear();
            Ok(())
        }
    }
}

// The place of the point `b` among points that go round `a` to the right, or none.
fn place_in(points: &Points, a: u32, heads: &[u32], b: u32) -> Option<usize>
    requires a_in { a < length points.now.points }
    requires heads { AreTurning points.now.points a heads.now }
    requires b_in { b < length points.now.points }
    ensures { MatchOption result (¬ Contains heads.now b) (λ i. (i < length heads.now) × (slice_index heads.now i ≡ b)) }
{
    let i = first_not_left(points, a, heads, b);
    if i < heads.len() && heads[i] == b {
        Some(i)
    } else {
        None
    }
}

// The first of them that does not lie to the left of the line from `a` to `b`, or their end.
fn first_not_left(points: &Points, a: u32, heads: &[u32], b: u32) -> usize
    requires a_in { a < length points.now.points }
    requires heads { AreTurning points.now.points a heads.now }
    requires b_in { b < length points.now.points }
    ensures { Contains heads.now b → (result < length heads.now) × (slice_index heads.now result ≡ b) }
{
    let mut from = 0;
    let mut to = heads.len();
    while from < to {
        let middle = from + (to - from) / 2;
        if is_left(points, a, b, heads[middle]) {
            from = middle + 1;
        } else {
            to = middle;
        }
    }
    from
}

// The same for the second corner at the place `j` of the heads, in any order: as it sees them, which a list
// tells or a pass finds.
fn thirds_at(
    points: &Points,
    edges: &[Edge],
    starts: &[usize],
    corner: &Corner,
    j: usize,
    places: &mut Vec<usize>,
    thirds: &mut Vec<u32>,
) -> Result<(), NoMemory>
    requires points { IsPointSet points.now.points }
    requires starts { AreStarts edges.now starts.now }
    requires count { length starts.now ≡ length points.now.points + 1 }
    requires a_in { corner.now.a < length points.now.points }
    requires corner { IsCorner points.now.points edges.now corner.now.a corner.now.row.items corner.now.heads.items }
    requires marked { AreMarked corner.now.row.items corner.now.heads.items corner.now.marks.items }
    requires lists { AreLists points.now.points corner.now.heads.items (length corner.now.seen.items) corner.now.seen.items }
    requires j_in { j < length corner.now.heads.items }
    requires neighbor { Contains corner.now.row.items (slice_index corner.now.heads.items j) }
    ensures are { OnOk result (AreThirds points.now.points edges.now corner.now.a (slice_index corner.now.heads.items j) thirds.new.items) }
    ensures distinct { OnOk result (AllPairs (λ c d. c ≢ d) thirds.new.items) }
{
    if j < corner.seen.len() {
        return thirds_among(points, edges, starts, corner, j, &corner.seen[j], thirds);
    }
    fill_seen(points, corner.a, &corner.heads, j, places)?;
    thirds_among(points, edges, starts, corner, j, places, thirds)
}

// The same, of the places that it sees.
fn thirds_among(
    points: &Points,
    edges: &[Edge],
    starts: &[usize],
    corner: &Corner,
    j: usize,
    places: &[usize],
    thirds: &mut Vec<u32>,
) -> Result<(), NoMemory>
    requires points { IsPointSet points.now.points }
    requires starts { AreStarts edges.now starts.now }
    requires count { length starts.now ≡ length points.now.points + 1 }
    requires a_in { corner.now.a < length points.now.points }
    requires corner { IsCorner points.now.points edges.now corner.now.a corner.now.row.items corner.now.heads.items }
    requires j_in { j < length corner.now.heads.items }
    requires neighbor { Contains corner.now.row.items (slice_index corner.now.heads.items j) }
    requires marked { AreMarked corner.now.row.items corner.now.heads.items corner.now.marks.items }
    requires seen { AreSeen points.now.points corner.now.heads.items j places.now }
    ensures are { OnOk result (AreThirds points.now.points edges.now corner.now.a (slice_index corner.now.heads.items j) thirds.new.items) }
    ensures distinct { OnOk result (AllPairs (λ c d. c ≢ d) thirds.new.items) }
{
    thirds.clear();
    let b = corner.heads[j];
    for t in 0..places.len() {
        let k = places[t];
        if corner.joins(edges, starts, b, k) {
            thirds.push(corner.heads[k])?;
        }
    }
    Ok(())
}
