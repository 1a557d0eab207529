// The enclosure of a triangulation's length.
ghost use Rattle.std.specs.Prelude.{◌≡◌, ℕ, ◌+◌, ◌*◌, ◌^◌, ◌<◌, ◌≤◌, pos, [], ◌∷◌, length, All, filter};
ghost use Rattle.mwt_base.specs.Limits.{most_length, most_tiles};
ghost use Rattle.exact_predicates.specs.Hull.{IsHull, ring_pairs};
ghost use Rattle.exact_predicates.specs.Triangulation.{IsTriangulation, sides, is_inner, edges};
ghost use Rattle.exact_predicates.specs.Length.{IsAtLeast, IsAtMost};
ghost use Rattle.length_enclosure.specs.Enclosure.{lo, hi, IsEnclosure, IsLonger, IsPeak};

use crate::ends::{Enclosure, with_edge};
use crate::rim::{is_rising_pair, peak};
use exact_predicates::{Hull, Points, Tri, Tris, next_on_hull};

/// The two ends between which the length of a triangulation lies, in millionths of the unit. Its
/// edges are the hull's pairs, and each other side of a triangle that goes from the lesser number to
/// the greater, as often as it is listed.
pub fn enclosure(points: &Points, hull: &Hull, tris: &Tris) -> Enclosure
    requires hull { IsHull points.now.points hull.now }
    requires few { length tris.now ≤ most_tiles }
    requires within { All (λ t. (t.b < length points.now.points) × (t.c < length points.now.points)) tris.now }
    ensures lo { result.lo ≡ lo points.now.points (edges hull.now tris.now) }
    ensures hi { result.hi ≡ hi points.now.points (edges hull.now tris.now) }
    ensures ordered { result.lo ≤ result.hi }
    ensures bound { result.hi ≤ 3 * 10 ^ 15 * (length hull.now + 3 * length tris.now) }
    ensures of_triangulation { IsTriangulation points.now.points hull.now tris.now → result.hi ≤ most_length }

    // The length lies between the two ends, at every scale.
    ensures at_least { IsAtLeast points.now.points (edges hull.now tris.now) (pos result.lo) }
    ensures at_most { IsAtMost points.now.points (edges hull.now tris.now) result.hi }
{
    let rim = hull.as_slice();
    let top = peak(rim);
    // The proof takes from `len` that the points are in order, so that the rim falls after its peak.
    prove!(rim[top] < points.len());
    let mut so_far = around(points, rim);
    for tri in tris.as_slice() {
        so_far = with_sides(so_far, points, rim, top, *tri);
    }
    so_far
}

// The hull's pairs alone.
fn around(points: &Points, hull: &[u32]) -> Enclosure
    requires few { length hull.now < 2 ^ 32 }
    requires within { All (λ u. u < length points.now.points) hull.now }
    ensures ends { IsEnclosure points.now.points (ring_pairs hull.now) result }
    ensures bound { result.hi ≤ 3 * 10 ^ 15 * length hull.now }
{
    let mut so_far = Enclosure { lo: 0, hi: 0 };
    for (k, u) in hull.iter().enumerate() {
        so_far = with_edge(so_far, points, *u, next_on_hull(hull, k));
    }
    so_far
}

// What is counted when the sides of `tri` are counted too that go up and are no pairs of the hull.
fn with_sides(so_far: Enclosure, points: &Points, hull: &[u32], top: usize, tri: Tri) -> Enclosure
    requires b_in { tri.b < length points.now.points }
    requires c_in { tri.c < length points.now.points }
    requires peak { IsPeak hull.now top }
    requires ordered { so_far.lo ≤ so_far.hi }
    requires room { so_far.hi ≤ 2 ^ 110 }
    ensures longer { IsLonger points.now.points (filter (is_inner hull.now) (sides tri)) so_far result }
    ensures bound { result.hi ≤ so_far.hi + 3 * 10 ^ 15 * length (filter (is_inner hull.now) (sides tri)) }
{
    let with_ab = with_side(so_far, points, hull, top, tri.a, tri.b);
    let with_bc = with_side(with_ab, points, hull, top, tri.b, tri.c);
    with_side(with_bc, points, hull, top, tri.c, tri.a)
}

// What is counted when the side from `u` to `v` is, if it goes up and is no pair of the hull.
fn with_side(
    so_far: Enclosure,
    points: &Points,
    hull: &[u32],
    top: usize,
    u: u32,
    v: u32,
) -> Enclosure
    requires u_in { u < length points.now.points }
    requires v_in { v < length points.now.points }
    requires peak { IsPeak hull.now top }
    requires ordered { so_far.lo ≤ so_far.hi }
    requires room { so_far.hi ≤ 2 ^ 120 }
    ensures longer { IsLonger points.now.points (filter (is_inner hull.now) ((u, v) ∷ [])) so_far result }
    ensures bound { result.hi ≤ so_far.hi + 3 * 10 ^ 15 * length (filter (is_inner hull.now) ((u, v) ∷ [])) }
{
    if u < v && !is_rising_pair(hull, top, u, v) {
        with_edge(so_far, points, u, v)
    } else {
        so_far
    }
}
