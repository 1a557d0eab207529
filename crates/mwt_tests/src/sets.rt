// Sets of points whose hull and triangulation are tried against the definitions, by a plain program.

use crate::helpers::{points_of, shortest, swept};
use exact_predicates::{Point, Points, Tri};
use std::test::Fail;

/// The point with this number, if there is one.
pub fn at(points: &Points, number: u32) -> Option<&Point> {
    if number < points.len() {
        Some(points.at(number))
    } else {
        None
    }
}

// Whether no point lies to the right of the pair, or between its ends.
fn is_outermost(points: &Points, u: u32, v: u32) -> bool {
    let (Some(p), Some(q)) = (at(points, u), at(points, v)) else {
        return false;
    };
    points.as_slice().iter().all(|r| {
        let turn = in_order(p, q, r);
        turn > 0 || (turn == 0 && !is_inside_box(p, q, r))
    })
}

/// The orientation, where all is in range.
pub fn in_order(p: &Point, q: &Point, r: &Point) -> i128 {
    let width = i128::from(q.x).saturating_sub(i128::from(p.x));
    let height = i128::from(q.y).saturating_sub(i128::from(p.y));
    let right = i128::from(r.x).saturating_sub(i128::from(p.x));
    let up = i128::from(r.y).saturating_sub(i128::from(p.y));
    width
        .saturating_mul(up)
        .saturating_sub(height.saturating_mul(right))
}

/// Whether r is neither p nor q, and within the box that they span.
pub fn is_inside_box(p: &Point, q: &Point, r: &Point) -> bool {
    let across = p.x.min(q.x) <= r.x && r.x <= p.x.max(q.x);
    let upright = p.y.min(q.y) <= r.y && r.y <= p.y.max(q.y);
    let is_p = r.x == p.x && r.y == p.y;
    let is_q = r.x == q.x && r.y == q.y;
    across && upright && !is_p && !is_q
}

/// Whether the triangle turns to the left and holds no other point, in it or on its rim.
pub fn is_empty(points: &Points, tri: &Tri) -> bool {
    let (Some(a), Some(b), Some(c)) = (at(points, tri.a), at(points, tri.b), at(points, tri.c))
    else {
        return false;
    };
    let held = points
        .as_slice()
        .iter()
        .filter(|r| in_order(a, b, r) >= 0 && in_order(b, c, r) >= 0 && in_order(c, a, r) >= 0)
        .count();
    in_order(a, b, c) > 0 && held == 3
}

/// Whether the triangle has the directed side u to v.
pub fn has_side(tri: &Tri, u: u32, v: u32) -> bool {
    (tri.a == u && tri.b == v) || (tri.b == u && tri.c == v) || (tri.c == u && tri.a == v)
}

fn side_count(tris: &[Tri], u: u32, v: u32) -> usize {
    tris.iter().filter(|tri| has_side(tri, u, v)).count()
}

/// Whether v follows u round the hull.
pub fn is_pair(hull: &[u32], u: u32, v: u32) -> bool {
    let mut before = hull.last().copied();
    for number in hull {
        if before == Some(u) && *number == v {
            return true;
        }
        before = Some(*number);
    }
    false
}

// Whether the sides between u and v occur as they do in a triangulation.
fn is_balanced(hull: &[u32], tris: &[Tri], u: u32, v: u32) -> bool {
    let (along, back) = (side_count(tris, u, v), side_count(tris, v, u));
    if is_pair(hull, u, v) {
        along == 1 && back == 0
    } else {
        is_pair(hull, v, u) || along == back
    }
}

// The definition of the hull, but for its numbers being distinct: each starts one pair.
fn is_hull(points: &Points, hull: &[u32]) -> bool {
    let mut before = hull.last().copied().unwrap_or(0);
    for number in hull {
        if !is_outermost(points, before, *number) {
            return false;
        }
        before = *number;
    }
    hull.len() >= 3 && hull.first() == Some(&0)
}

fn is_triangulation(points: &Points, hull: &[u32], tris: &[Tri]) -> bool {
    let count = points.len();
    let sides = tris.len().saturating_add(hull.len()).saturating_add(2);
    for u in 0..count {
        for v in 0..count {
            if u != v && !is_balanced(hull, tris, u, v) {
                return false;
            }
        }
    }
    tris.iter().all(|tri| is_empty(points, tri))
        && (0..count).all(|x| tris.iter().any(|t| t.a == x || t.b == x || t.c == x))
        && sides == (count as usize).saturating_mul(2)
}

/// The squared distance, where all is in range.
pub fn squared(p: &Point, q: &Point) -> i128 {
    let width = i128::from(q.x).saturating_sub(i128::from(p.x));
    let height = i128::from(q.y).saturating_sub(i128::from(p.y));
    width
        .saturating_mul(width)
        .saturating_add(height.saturating_mul(height))
}

/// Whether the edge uv is locally minimal between the triangles uva and vub: the quadrilateral is not
/// strictly convex, or ab is not shorter.
pub fn is_minimal_between(u: &Point, v: &Point, a: &Point, b: &Point) -> bool {
    let one_side = in_order(u, v, a).signum() == in_order(u, v, b).signum();
    let other_side = in_order(a, b, u).signum() == in_order(a, b, v).signum();
    let flat = in_order(a, b, u) == 0 || in_order(a, b, v) == 0;
    one_side || other_side || flat || squared(u, v) <= squared(a, b)
}

// The corner across from the side u to v.
fn across(tri: &Tri, u: u32, v: u32) -> Option<u32> {
    match (
        tri.a == u && tri.b == v,
        tri.b == u && tri.c == v,
        tri.c == u && tri.a == v,
    ) {
        (true, _, _) => Some(tri.c),
        (_, true, _) => Some(tri.a),
        (_, _, true) => Some(tri.b),
        _ => None,
    }
}

// Whether some two triangles of the list are on the two sides of uv, which is locally minimal between
// them.
fn is_minimal_in(points: &Points, tris: &[Tri], u: u32, v: u32) -> bool {
    let (Some(p), Some(q)) = (at(points, u), at(points, v)) else {
        return false;
    };
    for left in tris {
        for right in tris {
            if let (Some(a), Some(b)) = (across(left, u, v), across(right, v, u)) {
                if let (Some(r), Some(s)) = (at(points, a), at(points, b)) {
                    if is_minimal_between(p, q, r, s) {
                        return true;
                    }
                }
            }
        }
    }
    false
}

/// Whether no edge can be made shorter by a flip.
pub fn is_flip_minimal(points: &Points, hull: &[u32], tris: &[Tri]) -> bool {
    tris.iter().all(|tri| {
        [(tri.a, tri.b), (tri.b, tri.c), (tri.c, tri.a)].iter().all(|(u, v)| is_pair(hull, *u, *v)
            || is_minimal_in(points, tris, *u, *v))
    })
}

/// Small sets of every shape: a line whose last point is off it to the left, and to the right; upright
/// lines; a fan; points inside; points in convex position; a grid; quadrilaterals with diagonals that
/// are equal, or of which the first that is tried is the longer; points of a regular shape and others.
pub const SETS: [&[(i64, i64)]; 13] = [
    &[(0, 0), (1, 1), (2, 2), (3, 3), (3, 4)],
    &[(0, 0), (1, 1), (2, 2), (3, 3), (4, 3)],
    &[(0, 0), (0, 1), (0, 2), (0, 3), (1, 0), (1, 1), (1, 2)],
    &[(0, 0), (0, 5), (0, 9), (2, 4), (2, 5), (2, 6)],
    &[(0, 0), (9, -4), (9, -2), (9, 0), (9, 2), (9, 4)],
    &[
        (0, 0),
        (10, 0),
        (0, 10),
        (10, 10),
        (3, 4),
        (6, 5),
        (5, 5),
        (5, 1),
    ],
    &[(-3, 9), (-2, 4), (-1, 1), (0, 0), (1, 1), (2, 4), (3, 9)],
    &[
        (0, 0),
        (1, 0),
        (2, 0),
        (0, 1),
        (1, 1),
        (2, 1),
        (0, 2),
        (1, 2),
        (2, 2),
    ],
    &[(0, 0), (1, 0), (1, 1), (0, 1)],
    &[(0, 0), (4, -5), (4, 5), (8, 0)],
    &[(0, 0), (2, -2), (7, -3), (10, 0), (5, 1)],
    &[(0, -1), (0, 1), (1, -4), (1, 4), (20, 0)],
    &[
        (0, 0),
        (6, 4),
        (6, 9),
        (6, 30),
        (12, 0),
        (3, 7),
        (9, 11),
        (5, 20),
    ],
];

#[test]
fn sets_of_every_shape(rt: HostRuntime) -> Result<(), Fail> {
    let alloc = rt.alloc();
    for places in SETS {
        let points = points_of(alloc, places)?;
        let start = swept(alloc, &points)?;
        let (hull, first) = (start.hull.as_slice(), start.tris.as_slice());
        assert!(rt; is_hull(&points, hull), "{places:?}");
        assert!(rt; is_triangulation(&points, hull, first), "{places:?}");
        let tris = shortest(alloc, &points, &start.hull, &start.tris)?;
        assert!(rt;
            is_triangulation(&points, hull, tris.as_slice()),
            "{places:?}"
        );
        assert!(rt;
            is_flip_minimal(&points, hull, tris.as_slice()),
            "{places:?}"
        );
    }
    Ok(())
}
