// Whether a flip makes an edge of triangles shorter.
ghost use Rattle.std.specs.Prelude.{◌↔◌, ◌<◌, length, All, IsTrue};
ghost use Rattle.exact_predicates.specs.Flip.{IsMinimalBetween};
ghost use Rattle.dual_checker.specs.HalfEdges.{IsWithinPoints, HasMinimalWith, HasMinimal, IsMinimalAt};

use crate::half_edges::{HalfEdge, HalfEdges, Side};
use crate::rim::Rim;
use exact_predicates::{Points, crosses, d2};

/// Whether each inner edge is locally minimal between two triangles.
pub fn is_minimal(points: &Points, halves: &HalfEdges, rim: &Rim) -> bool
    requires within { All (IsWithinPoints points.now.points) halves.now }
    ensures { IsTrue result ↔ All (λ h. IsMinimalAt points.now.points halves.now rim.now h.side) halves.now }
{
    for half in halves.as_slice() {
        if !is_minimal_at(points, halves, rim, half.side) {
            return false;
        }
    }
    true
}

fn is_minimal_at(points: &Points, halves: &HalfEdges, rim: &Rim, side: Side) -> bool
    requires from_in { side.from < length points.now.points }
    requires to_in { side.to < length points.now.points }
    requires within { All (IsWithinPoints points.now.points) halves.now }
    ensures { IsTrue result ↔ IsMinimalAt points.now.points halves.now rim.now side }
{
    if side.to <= side.from {
        return true;
    }
    if rim.has(side) {
        return true;
    }
    has_minimal(points, side, halves.on(side), halves.on(side.reversed()))
}

// Whether a side is locally minimal between one of these triangles and one of those.
fn has_minimal(points: &Points, side: Side, lefts: &[HalfEdge], rights: &[HalfEdge]) -> bool
    requires from_in { side.from < length points.now.points }
    requires to_in { side.to < length points.now.points }
    requires lefts_in { All (IsWithinPoints points.now.points) lefts.now }
    requires rights_in { All (IsWithinPoints points.now.points) rights.now }
    ensures { IsTrue result ↔ HasMinimal points.now.points side lefts.now rights.now }
{
    for left in lefts {
        if has_minimal_with(points, side, left.apex, rights) {
            return true;
        }
    }
    false
}

fn has_minimal_with(points: &Points, side: Side, apex: u32, rights: &[HalfEdge]) -> bool
    requires from_in { side.from < length points.now.points }
    requires to_in { side.to < length points.now.points }
    requires apex_in { apex < length points.now.points }
    requires rights_in { All (IsWithinPoints points.now.points) rights.now }
    ensures { IsTrue result ↔ HasMinimalWith points.now.points side apex rights.now }
{
    for right in rights {
        if is_minimal_between(points, side, apex, right.apex) {
            return true;
        }
    }
    false
}

// Whether a side is locally minimal between the triangles with these two apexes.
fn is_minimal_between(points: &Points, side: Side, left: u32, right: u32) -> bool
    requires from_in { side.from < length points.now.points }
    requires to_in { side.to < length points.now.points }
    requires left_in { left < length points.now.points }
    requires right_in { right < length points.now.points }
    ensures { IsTrue result ↔ IsMinimalBetween points.now.points side.from side.to left right }
{
    let u = points.at(side.from);
    let v = points.at(side.to);
    let a = points.at(left);
    let b = points.at(right);
    d2(u, v) <= d2(a, b) || !crosses(u, v, a, b)
}
