// Where queries look for points.
ghost use Rattle.std.specs.Prelude.{◌≡◌, ◌↔◌, ◌*◌, ◌^◌, ◌≤◌, ℕ, pos, ◌+ℤ◌, ◌-ℤ◌, ◌*ℤ◌, ◌≤ℤ◌, IsTrue, unsigned_abs};
ghost use Rattle.exact_predicates.specs.declared.point.Point.{Point};
ghost use Rattle.exact_predicates.specs.Plane.{IsInRange, IsInLeftDiamond};
ghost use Rattle.exact_predicates.specs.Triangulation.{IsCorner};
ghost use Rattle.point_grid.specs.Regions.{IsProper, Lies, IsWithinBounds};

use crate::bounds::Bounds;
use exact_predicates::{Point, Tri, in_closed_triangle, in_left_diamond, strictly_between};

/// Where a query looks for points: strictly between two points; in a triangle or on its rim, but for its
/// corners; in the left diamond of two points.
#[derive(Clone, Copy)]
pub(crate) enum Region {
    Segment(Point, Point),
    Triangle(Tri, Point, Point, Point),
    Diamond(Point, Point),
}

impl Region {
    /// Whether the point `x` with the number `r` lies in the region.
    pub(crate) fn has(&self, r: u32, x: &Point) -> bool
        requires proper { IsProper self.now }
        requires x_in { IsInRange x.now }
        ensures { IsTrue result ↔ Lies self.now r x.now }
    {
        match self {
            Region::Segment(p, q) => strictly_between(p, q, x),
            Region::Triangle(t, a, b, c) => !is_corner(t, r) && in_closed_triangle(a, b, c, x),
            Region::Diamond(p, q) => in_left_diamond(p, q, x),
        }
    }

    /// A box round the region.
    pub(crate) fn bounds(&self) -> Bounds
        requires { IsProper self.now }
        ensures { (r : ℕ) (x : Point) → Lies self.now r x → IsWithinBounds result x }
    {
        match self {
            Region::Segment(p, q) => around(p, q),
            Region::Triangle(_, a, b, c) => wider(&around(a, b), c),
            Region::Diamond(p, q) => around_diamond(p, q),
        }
    }
}

// Whether `r` is the number of a corner of `t`.
fn is_corner(t: &Tri, r: u32) -> bool
    ensures { IsTrue result ↔ IsCorner t.now r }
{
    r == t.a || r == t.b || r == t.c
}

// The least box that has two points.
fn around(p: &Point, q: &Point) -> Bounds
    requires p_in { IsInRange p.now }
    requires q_in { IsInRange q.now }
    ensures first { IsWithinBounds result p.now }
    ensures second { IsWithinBounds result q.now }
{
    Bounds {
        left: lower(p.x, q.x),
        right: upper(p.x, q.x),
        low: lower(p.y, q.y),
        high: upper(p.y, q.y),
    }
}

// The least box that has another and a point.
fn wider(bounds: &Bounds, p: &Point) -> Bounds
    requires { IsInRange p.now }
    ensures has { IsWithinBounds result p.now }
    ensures all { (q : Point) → IsWithinBounds bounds.now q → IsWithinBounds result q }
{
    Bounds {
        left: lower(bounds.left, p.x),
        right: upper(bounds.right, p.x),
        low: lower(bounds.low, p.y),
        high: upper(bounds.high, p.y),
    }
}

// A box round the left diamond of two points, with the coordinates of its apex rounded outwards.
fn around_diamond(p: &Point, q: &Point) -> Bounds
    requires p_in { IsInRange p.now }
    requires q_in { IsInRange q.now }
    ensures { (r : Point) → IsInLeftDiamond p.now q.now r → IsWithinBounds result r }
{
    let x = apex(p.x, q.x, p.y, q.y);
    let y = apex(p.y, q.y, q.x, p.x);
    let ends = around(p, q);
    Bounds {
        left: lower(ends.left, x),
        right: upper(ends.right, x + 1),
        low: lower(ends.low, y),
        high: upper(ends.high, y + 1),
    }
}

// A sum of small multiples.
fn mix(m: i64, x: i64, n: i64, y: i64) -> i64
    requires m_in { unsigned_abs m ≤ 5 }
    requires x_in { unsigned_abs x ≤ 2 * 10 ^ 9 }
    requires n_in { unsigned_abs n ≤ 5 }
    requires y_in { unsigned_abs y ≤ 2 * 10 ^ 9 }
    ensures value { result ≡ (m *ℤ x) +ℤ (n *ℤ y) }
    ensures bound { unsigned_abs result ≤ 2 * 10 ^ 10 }
{
    m * x + n * y
}

// A coordinate of the apex of a diamond, rounded down: it lies in the middle of `a` and `b`, and further
// by two fifths of `c - d`.
fn apex(a: i64, b: i64, c: i64, d: i64) -> i64
    requires a_in { unsigned_abs a ≤ 10 ^ 9 }
    requires b_in { unsigned_abs b ≤ 10 ^ 9 }
    requires c_in { unsigned_abs c ≤ 10 ^ 9 }
    requires d_in { unsigned_abs d ≤ 10 ^ 9 }
    ensures below { (pos 10 *ℤ result) ≤ℤ ((pos 5 *ℤ (a +ℤ b)) +ℤ (pos 4 *ℤ (c -ℤ d))) }
    ensures above { ((pos 5 *ℤ (a +ℤ b)) +ℤ (pos 4 *ℤ (c -ℤ d))) ≤ℤ (pos 10 *ℤ (result +ℤ pos 1)) }
    ensures bound { unsigned_abs result ≤ 2 * 10 ^ 9 }
{
    mix(5, a + b, 4, c - d).div_euclid(10)
}

// The lesser of two numbers.
fn lower(a: i64, b: i64) -> i64
    requires a_in { unsigned_abs a ≤ 2 * 10 ^ 10 }
    requires b_in { unsigned_abs b ≤ 2 * 10 ^ 10 }
    ensures first { result ≤ℤ a }
    ensures second { result ≤ℤ b }
    ensures bound { unsigned_abs result ≤ 2 * 10 ^ 10 }
{
    if a < b { a } else { b }
}

// The greater of two numbers.
fn upper(a: i64, b: i64) -> i64
    requires a_in { unsigned_abs a ≤ 2 * 10 ^ 10 }
    requires b_in { unsigned_abs b ≤ 2 * 10 ^ 10 }
    ensures first { a ≤ℤ result }
    ensures second { b ≤ℤ result }
    ensures bound { unsigned_abs result ≤ 2 * 10 ^ 10 }
{
    if a < b { b } else { a }
}
