// Frames of points.
ghost use Rattle.std.specs.Prelude.{◌≡◌, ◌⊎◌, ◌<◌, ◌≤◌, ◌^◌, ◌-ℤ◌, ◌≤ℤ◌, unsigned_abs, length, All};
ghost use Rattle.exact_predicates.specs.Plane.{IsInRange};
ghost use Rattle.point_grid.specs.Frames.{IsInFrame, Extends, IsFrameOf};

use crate::frame::{Frame, View};
use crate::spot::Spot;
use exact_predicates::{Point, Points};

// The frame of one point.
fn frame_of(p: &Point) -> Frame
    requires { IsInRange p.now }
    ensures left { result.left ≡ p.now.x }
    ensures right { result.right ≡ p.now.x }
    ensures low { result.low ≡ p.now.y }
    ensures high { result.high ≡ p.now.y }
{
    Frame {
        left: p.x,
        right: p.x,
        low: p.y,
        high: p.y,
    }
}

// The lesser of two numbers.
fn lesser(a: i64, b: i64) -> i64
    requires a_in { unsigned_abs a ≤ 10 ^ 9 }
    requires b_in { unsigned_abs b ≤ 10 ^ 9 }
    ensures first { result ≤ℤ a }
    ensures second { result ≤ℤ b }
    ensures pick { (result ≡ a) ⊎ (result ≡ b) }
    ensures bound { unsigned_abs result ≤ 10 ^ 9 }
{
    if a < b { a } else { b }
}

// The greater of two numbers.
fn greater(a: i64, b: i64) -> i64
    requires a_in { unsigned_abs a ≤ 10 ^ 9 }
    requires b_in { unsigned_abs b ≤ 10 ^ 9 }
    ensures first { a ≤ℤ result }
    ensures second { b ≤ℤ result }
    ensures pick { (result ≡ a) ⊎ (result ≡ b) }
    ensures bound { unsigned_abs result ≤ 10 ^ 9 }
{
    if a < b { b } else { a }
}

// The frame of those in `frame` and one point more.
fn extended(frame: Frame, p: &Point) -> Frame
    requires { IsInRange p.now }
    ensures { Extends frame p.now result }
{
    Frame {
        left: lesser(frame.left, p.x),
        right: greater(frame.right, p.x),
        low: lesser(frame.low, p.y),
        high: greater(frame.high, p.y),
    }
}

/// A frame of the spot `head` and the others.
pub(crate) fn frame_around(head: &Spot, others: &[Spot]) -> Frame
    ensures head { IsInFrame result head.now.point }
    ensures others { All (λ s. IsInFrame result s.point) others.now }
{
    let mut frame = frame_of(&head.point);
    for s in others {
        frame = extended(frame, &s.point);
    }
    frame
}

/// The least frame that has these points.
pub(crate) fn frame_of_all(points: &Points) -> Frame
    ensures { IsFrameOf points.now.points (length points.now.points) result }
{
    let count = points.len();
    let mut frame = frame_of(points.at(0));
    for r in 1..count {
        frame = extended(frame, points.at(r));
    }
    frame
}

/// The frame as it is seen from `p`.
pub(crate) fn seen_from(frame: &Frame, p: &Point) -> View
    requires { IsInRange p.now }
    ensures left { result.left ≡ frame.now.left -ℤ p.now.x }
    ensures right { result.right ≡ frame.now.right -ℤ p.now.x }
    ensures low { result.low ≡ frame.now.low -ℤ p.now.y }
    ensures high { result.high ≡ frame.now.high -ℤ p.now.y }
{
    View {
        left: frame.left - p.x,
        right: frame.right - p.x,
        low: frame.low - p.y,
        high: frame.high - p.y,
    }
}
