// Whether a side of an edge is free.
ghost use Rattle.std.specs.Prelude.{◌<◌, ◌↔◌, IsTrue, MatchBool, length};
ghost use Rattle.exact_predicates.specs.Plane.{IsInRange};
ghost use Rattle.point_grid.specs.Tree.{AreSpotsOf};
ghost use Rattle.diamond_edges.specs.Enumeration.{IsLinked};
ghost use Rattle.diamond_edges.specs.Rows.{AreGuesses, IsBlocked, IsClear};

use crate::sector::direction;
use crate::slots::{EdgeSide, learn, slot_blocks};
use exact_predicates::{Point, Points};
use point_grid::BoxTree;

// Whether a point blocks the left side of `p` to `q`, which is the given side of an edge in this direction.
// Slots are asked first, and a point that blocks is kept there.
fn is_blocked(
    points: &Points,
    tree: &BoxTree,
    slots: &mut [u32],
    side: EdgeSide,
    direction: usize,
    p: &Point,
    q: &Point,
) -> bool
    requires tree { AreSpotsOf points.now.points tree.now }
    requires slots { AreGuesses points.now.points slots.old }
    requires direction_in { direction < 32 }
    requires p_in { IsInRange p.now }
    requires q_in { IsInRange q.now }
    ensures slots { AreGuesses points.now.points slots.new }
    ensures is { MatchBool result (IsBlocked points.now.points p.now q.now) (IsClear points.now.points p.now q.now) }
{
    if slot_blocks(points, slots, side, direction, p, q) {
        return true;
    }
    match tree.blocker(p, q) {
        Some(spot) => {
            learn(points, spot.number, side, slots);
            true
        }
        None => false,
    }
}

/// Whether a side of the edge from `a` to `b` is free.
pub(crate) fn is_linked(points: &Points, tree: &BoxTree, slots: &mut [u32], a: u32, b: u32) -> bool
    requires tree { AreSpotsOf points.now.points tree.now }
    requires slots { AreGuesses points.now.points slots.old }
    requires a_in { a < length points.now.points }
    requires b_in { b < length points.now.points }
    ensures slots { AreGuesses points.now.points slots.new }
    ensures is { IsTrue result ↔ IsLinked points.now.points a b }
{
    let p = points.at(a);
    let q = points.at(b);
    let direction = direction(p, q);
    if !is_blocked(points, tree, slots, EdgeSide::Left, direction, p, q) {
        return true;
    }
    !is_blocked(points, tree, slots, EdgeSide::Right, direction, q, p)
}
