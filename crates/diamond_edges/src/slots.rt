// Points that are likely to block edges from a point: the nearest known ones in 32 directions, and some
// that did block others. What stands in the slots is a guess, and no result depends on it.
ghost use Rattle.std.specs.Prelude.{ℕ, ◌≡◌, ◌<◌, ◌≤◌, ◌*◌, ◌^◌, IsTrue, length, unsigned_abs};
ghost use Rattle.exact_predicates.specs.Plane.{IsInRange};
ghost use Rattle.exact_predicates.specs.PointSet.{point_at};
ghost use Rattle.exact_predicates.specs.declared.point.Point.{Point};
ghost use Rattle.point_grid.specs.Frames.{IsInFrame};
ghost use Rattle.diamond_edges.specs.Rows.{AreGuesses, IsBlocked};

use crate::sector::{direction, direction_of_frame};
use exact_predicates::{Point, Points, blocks, d2};
use point_grid::{Frame, blocks_left_of_all, blocks_right_of_all};

// Slots for so many directions. After them, for each side, stand one for the point that blocked it last and
// so many for points that blocked it before.
const DIRECTIONS: usize = 32;

const LEARNED: usize = 8;

pub(crate) const SLOTS: usize = DIRECTIONS + 2 * (1 + LEARNED);

// How many slots of directions to one side are asked.
const ASKED: usize = 4;

// How many slots are asked in all.
const TRIES: usize = 1 + ASKED + LEARNED;

/// A side of the edges from a point.
#[derive(Clone, Copy)]
pub(crate) enum EdgeSide {
    Left,
    Right,
}

impl EdgeSide {
    // The slot for the point that blocked this side last.
    fn last(self) -> usize
        ensures { result ≤ 41 }
    {
        match self {
            EdgeSide::Left => DIRECTIONS,
            EdgeSide::Right => DIRECTIONS + 1 + LEARNED,
        }
    }

    // The slot that is asked at the turn `k`, for an edge or a frame in this direction: first the last one
    // that blocked, then those in nearby directions, then those that blocked before.
    fn slot(self, direction: usize, k: usize) -> usize
        requires direction_in { direction < 32 }
        requires k_in { k < 13 }
        ensures { result < 50 }
    {
        if k == 0 {
            return self.last();
        }
        if k > ASKED {
            return self.last() + (k - ASKED);
        }
        let first = match self {
            EdgeSide::Left => direction,
            EdgeSide::Right => direction + (DIRECTIONS + 1 - ASKED),
        };
        (first + k - 1) % DIRECTIONS
    }
}

/// Puts the point `w` into its slot as it is seen from the point `a`, if it is nearer than the one
/// there.
pub(crate) fn note(points: &Points, a: u32, w: u32, slots: &mut [u32])
    requires a_in { a < length points.now.points }
    requires w_in { w < length points.now.points }
    requires slots { AreGuesses points.now.points slots.old }
    ensures { AreGuesses points.now.points slots.new }
{
    let p = points.at(a);
    let q = points.at(w);
    let place = direction(p, q);
    let there = slots[place];
    if w != a && (there == a || d2(p, q) < d2(p, points.at(there))) {
        slots[place] = w;
    }
}

/// Keeps the point `w`, which blocked this side of an edge, before those that did earlier.
pub(crate) fn learn(points: &Points, w: u32, side: EdgeSide, slots: &mut [u32])
    requires w_in { w < length points.now.points }
    requires slots { AreGuesses points.now.points slots.old }
    ensures { AreGuesses points.now.points slots.new }
{
    for k in 0..LEARNED {
        let place = side.last() + LEARNED - k;
        slots[place] = slots[place - 1];
    }
    slots[side.last()] = w;
}

/// Whether a point in one of the slots blocks the left side of `p` to `q`, which is the given side of an edge
/// in this direction. The point is kept.
pub(crate) fn slot_blocks(
    points: &Points,
    slots: &mut [u32],
    side: EdgeSide,
    direction: usize,
    p: &Point,
    q: &Point,
) -> bool
    requires slots { AreGuesses points.now.points slots.old }
    requires direction_in { direction < 32 }
    requires p_in { IsInRange p.now }
    requires q_in { IsInRange q.now }
    ensures slots { AreGuesses points.now.points slots.new }
    ensures blocked { IsTrue result → IsBlocked points.now.points p.now q.now }
{
    for k in 0..TRIES {
        let w = slots[side.slot(direction, k)];
        if blocks(p, q, points.at(w)) {
            slots[side.last()] = w;
            return true;
        }
    }
    false
}

// Whether a point in one of the slots blocks the left side of the point `a` to each point in the frame.
// A slot that has `a` itself is empty; after one, no slot of points that blocked before is filled.
fn slot_blocks_left(points: &Points, slots: &[u32], direction: usize, a: u32, frame: &Frame) -> bool
    requires slots { AreGuesses points.now.points slots.now }
    requires direction_in { direction < 32 }
    requires a_in { a < length points.now.points }
    ensures { IsTrue result → (q : Point) → IsInFrame frame.now q →
        IsBlocked points.now.points (point_at points.now.points a) q }
{
    let p = points.at(a);
    for k in 0..TRIES {
        let w = slots[EdgeSide::Left.slot(direction, k)];
        if w != a {
            if blocks_left_of_all(p, points.at(w), frame) {
                return true;
            }
        } else if k > ASKED {
            return false;
        }
    }
    false
}

// The same of the left side of each point in the frame to the point `a`.
fn slot_blocks_right(
    points: &Points,
    slots: &[u32],
    direction: usize,
    a: u32,
    frame: &Frame,
) -> bool
    requires slots { AreGuesses points.now.points slots.now }
    requires direction_in { direction < 32 }
    requires a_in { a < length points.now.points }
    ensures { IsTrue result → (q : Point) → IsInFrame frame.now q →
        IsBlocked points.now.points q (point_at points.now.points a) }
{
    let p = points.at(a);
    for k in 0..TRIES {
        let w = slots[EdgeSide::Right.slot(direction, k)];
        if w != a {
            if blocks_right_of_all(p, points.at(w), frame) {
                return true;
            }
        } else if k > ASKED {
            return false;
        }
    }
    false
}

/// Whether both sides of each edge from the point `a` to a point in the frame are surely blocked. A frame
/// that is wider than it is far is not tried.
pub(crate) fn is_dead(points: &Points, slots: &[u32], a: u32, frame: &Frame) -> bool
    requires slots { AreGuesses points.now.points slots.now }
    requires a_in { a < length points.now.points }
    ensures { IsTrue result → (q : Point) → IsInFrame frame.now q →
        IsBlocked points.now.points (point_at points.now.points a) q
        × IsBlocked points.now.points q (point_at points.now.points a) }
{
    let p = points.at(a);
    if seems_wide(p, frame) {
        return false;
    }
    let direction = direction_of_frame(p, frame);
    slot_blocks_left(points, slots, direction, a, frame)
        && slot_blocks_right(points, slots, direction, a, frame)
}

// Whether a frame is wider or higher than it is far from `p`.
fn seems_wide(p: &Point, frame: &Frame) -> bool
    requires p_in { IsInRange p.now }
{
    let far = gap(p.x, frame.left, frame.right) + gap(p.y, frame.low, frame.high);
    far < frame.right - frame.left || far < frame.high - frame.low
}

/// How far `x` is from the numbers from `low` to `high`.
pub(crate) fn gap(x: i64, low: i64, high: i64) -> i64
    requires x_in { unsigned_abs x ≤ 10 ^ 9 }
    requires low_in { unsigned_abs low ≤ 10 ^ 9 }
    requires high_in { unsigned_abs high ≤ 10 ^ 9 }
    ensures { unsigned_abs result ≤ 2 * 10 ^ 9 }
{
    if x < low {
        low - x
    } else if high < x {
        x - high
    } else {
        0
    }
}
