// Whether a point is in the angle at a place of a face.
ghost use Rattle.std.specs.Prelude.{◌≡◌, ◌↔◌, ◌<◌, length, All, IsTrue};
ghost use Rattle.exact_predicates.specs.Plane.{IsInRange};
ghost use Rattle.face_optimum.specs.Places.{IsBetweenRays, IsInAngle, next_point, point_before};

use exact_predicates::{Point, orient};

// Whether q is in the angle of the face on the left of z to v to x.
fn is_between_rays(v: &Point, x: &Point, z: &Point, q: &Point) -> bool
    requires v_in { IsInRange v.now }
    requires x_in { IsInRange x.now }
    requires z_in { IsInRange z.now }
    requires q_in { IsInRange q.now }
    ensures { IsTrue result ↔ IsBetweenRays v.now x.now z.now q.now }
{
    if orient(v, x, z) > 0 {
        orient(v, x, q) > 0 && orient(v, q, z) > 0
    } else {
        !(orient(v, z, q) >= 0 && orient(v, q, x) >= 0)
    }
}

/// The point of the place after this one, round the face.
pub(crate) fn next_point(ring: &[u32], place: usize) -> u32
    requires { place < length ring.now }
    ensures { result ≡ next_point ring.now place }
{
    if place + 1 < ring.len() {
        ring[place + 1]
    } else {
        ring[0]
    }
}

// The point of the place before this one, round the face.
fn point_before(ring: &[u32], place: usize) -> u32
    requires { place < length ring.now }
    ensures { result ≡ point_before ring.now place }
{
    if place > 0 {
        ring[place - 1]
    } else {
        ring[ring.len() - 1]
    }
}

/// Whether the point q is in the angle at a place of the face.
pub(crate) fn in_angle(points: &[Point], ring: &[u32], place: usize, q: u32) -> bool
    requires in_range { All IsInRange points.now }
    requires ring_in { All (λ p. p < length points.now) ring.now }
    requires place_in { place < length ring.now }
    requires q_in { q < length points.now }
    ensures { IsTrue result ↔ IsInAngle points.now ring.now place q }
{
    let v = &points[ring[place] as usize];
    let x = &points[next_point(ring, place) as usize];
    let z = &points[point_before(ring, place) as usize];
    is_between_rays(v, x, z, &points[q as usize])
}
