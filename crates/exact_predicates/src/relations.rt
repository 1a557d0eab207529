// How points lie to segments, triangles and diamonds.
ghost use Rattle.std.specs.Prelude.{◌↔◌, ◌≤ℤ◌, ◌<ℤ◌, ◌*ℤ◌, pos, IsTrue};
ghost use Rattle.exact_predicates.specs.Plane.{IsInRange, orient, IsBetween, IsInClosedTriangle, AreApart, Crosses, IsInLeftDiamond};
ghost use Rattle.exact_predicates.specs.Blocking.{Blocks};

use crate::point::{Point, double_area, inner_product};

/// Whether `r` lies on the segment from `p` to `q` and is neither end.
pub fn strictly_between(p: &Point, q: &Point, r: &Point) -> bool
    requires p_in { IsInRange p.now }
    requires q_in { IsInRange q.now }
    requires r_in { IsInRange r.now }
    ensures { IsTrue result ↔ IsBetween p.now q.now r.now }
{
    double_area(p, q, r) == 0 && inner_product(r, p, q) < 0
}

/// Whether `r` lies in the triangle `abc`, which turns to the left, or on its rim.
pub fn in_closed_triangle(a: &Point, b: &Point, c: &Point, r: &Point) -> bool
    requires a_in { IsInRange a.now }
    requires b_in { IsInRange b.now }
    requires c_in { IsInRange c.now }
    requires r_in { IsInRange r.now }
    requires turns_left { pos 0 <ℤ orient a.now b.now c.now }
    ensures { IsTrue result ↔ IsInClosedTriangle a.now b.now c.now r.now }
{
    double_area(a, b, r) >= 0 && double_area(b, c, r) >= 0 && double_area(c, a, r) >= 0
}

/// Whether the segments from `p` to `q` and from `r` to `s` cross: the ends of each lie strictly on
/// different sides of the other.
pub fn crosses(p: &Point, q: &Point, r: &Point, s: &Point) -> bool
    requires p_in { IsInRange p.now }
    requires q_in { IsInRange q.now }
    requires r_in { IsInRange r.now }
    requires s_in { IsInRange s.now }
    ensures { IsTrue result ↔ Crosses p.now q.now r.now s.now }
{
    are_apart(p, q, r, s) && are_apart(r, s, p, q)
}

// Whether r and s lie strictly on different sides of the line pq.
fn are_apart(p: &Point, q: &Point, r: &Point, s: &Point) -> bool
    requires p_in { IsInRange p.now }
    requires q_in { IsInRange q.now }
    requires r_in { IsInRange r.now }
    requires s_in { IsInRange s.now }
    ensures { IsTrue result ↔ AreApart p.now q.now r.now s.now }
{
    let of_r = double_area(p, q, r);
    let of_s = double_area(p, q, s);
    (of_r < 0 && of_s > 0) || (of_r > 0 && of_s < 0)
}

/// Whether the quadrilateral `u`, `b`, `v`, `a` is strictly convex, where `a` lies to the left of
/// `uv` and `b` to the right: whether its two diagonals cross.
pub fn strictly_convex(u: &Point, v: &Point, a: &Point, b: &Point) -> bool
    requires u_in { IsInRange u.now }
    requires v_in { IsInRange v.now }
    requires a_in { IsInRange a.now }
    requires b_in { IsInRange b.now }
    requires a_left { pos 0 <ℤ orient u.now v.now a.now }
    requires b_right { pos 0 <ℤ orient v.now u.now b.now }
    ensures { IsTrue result ↔ Crosses u.now v.now a.now b.now }
{
    crosses(u, v, a, b)
}

/// Whether `r` lies in the left diamond of `p` to `q`: the open isosceles triangle on the left of
/// `pq` whose base angles have the tangent 4/5.
///
/// The diamond test is that of R. L. S. Drysdale, S. McElfresh and J. S. Snoeyink (2001); the tangent
/// is this project's own.
pub fn in_left_diamond(p: &Point, q: &Point, r: &Point) -> bool
    requires p_in { IsInRange p.now }
    requires q_in { IsInRange q.now }
    requires r_in { IsInRange r.now }
    ensures { IsTrue result ↔ IsInLeftDiamond p.now q.now r.now }
{
    let turn = double_area(p, q, r);
    turn > 0
        && is_below_base_angle(turn, inner_product(p, q, r))
        && is_below_base_angle(turn, inner_product(q, p, r))
}

/// Whether `r` blocks the left side of `p` to `q`: whether it lies in the left diamond or strictly
/// between the two.
pub fn blocks(p: &Point, q: &Point, r: &Point) -> bool
    requires p_in { IsInRange p.now }
    requires q_in { IsInRange q.now }
    requires r_in { IsInRange r.now }
    ensures { IsTrue result ↔ Blocks p.now q.now r.now }
{
    let sine = double_area(p, q, r);
    sine >= 0
        && is_below_base_angle(sine, inner_product(p, q, r))
        && is_below_base_angle(sine, inner_product(q, p, r))
}

/// Whether an angle has a tangent below 4/5, by its sine, which is not negative, and its cosine, both to one
/// scale. Neither five sines nor four cosines need fit into 64 bits.
pub fn is_below_base_angle(sine: i64, cosine: i64) -> bool
    requires sine_in { pos 0 ≤ℤ sine }
    ensures { IsTrue result ↔ ((pos 5 *ℤ sine) <ℤ (pos 4 *ℤ cosine)) }
{
    sine < cosine && sine / 4 < cosine - sine
}
