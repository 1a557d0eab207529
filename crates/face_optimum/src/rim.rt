// Whether one cycle is left out, and goes once round the hull the other way.
ghost use Rattle.std.specs.Prelude.{◌≡◌, ◌≢◌, ◌↔◌, ◌<◌, ◌≤◌, ℕ, length, All, AllPairs, IfSome, IsTrue, None, slice_index};
ghost use Rattle.exact_predicates.specs.Hull.{ring_pairs};
ghost use Rattle.face_optimum.specs.Decomposition.{IsHullLeftOut, IsRim};
ghost use Rattle.face_optimum.specs.Rims.{GoesBack, IsAlone, IsPlaceBefore};

use crate::angle::next_point;
use crate::bounded::is_outer;
use skeleton_faces::Faces;

// The number of the one cycle that is left out, where there is one and no other.
fn left_out(hull: &[u32], faces: &Faces) -> Option<u32>
    requires { 2 ≤ length hull.now }
    ensures { IsAlone hull.now faces.now result }
{
    let mut found = None;
    for i in 0..faces.len() {
        if is_outer(hull, faces.cycle(i)) {
            if found.is_some() {
                return None;
            }
            found = Some(i);
        }
    }
    found
}

// The place of a point on the hull.
fn place_on_hull(hull: &[u32], point: u32) -> Option<usize>
    ensures some { IfSome result (λ k. (k < length hull.now) × (slice_index hull.now k ≡ point)) }
    ensures none { result ≡ None → (k : ℕ) → k < length hull.now → slice_index hull.now k ≢ point }
{
    hull.iter().position(|p| *p == point)
}

// The place before this one, round the hull.
fn place_before(hull: &[u32], place: usize) -> usize
    requires { place < length hull.now }
    ensures { IsPlaceBefore hull.now place result }
{
    if place > 0 { place - 1 } else { hull.len() - 1 }
}

// Whether each side of the cycle is a pair of the hull the other way.
fn goes_back(hull: &[u32], cycle: &[u32]) -> bool
    requires distinct { AllPairs (λ u v. u ≢ v) hull.now }
    requires some { 0 < length cycle.now }
    ensures { IsTrue result ↔ GoesBack hull.now cycle.now }
{
    let Some(first) = place_on_hull(hull, cycle[0]) else {
        return false;
    };
    let mut at = first;
    for k in 0..cycle.len() {
        at = place_before(hull, at);
        if next_point(cycle, k) != hull[at] {
            return false;
        }
    }
    true
}

// Whether the cycle goes once round the hull the other way.
fn is_rim(hull: &[u32], cycle: &[u32]) -> bool
    requires distinct { AllPairs (λ u v. u ≢ v) hull.now }
    requires some { 0 < length cycle.now }
    requires once { AllPairs (λ s t. s ≢ t) (ring_pairs cycle.now) }
    ensures { IsTrue result ↔ IsRim hull.now cycle.now }
{
    cycle.len() == hull.len() && goes_back(hull, cycle)
}

/// Whether one cycle is left out, and its sides are exactly the reversed pairs of the hull, each once.
pub(crate) fn is_hull_left_out(hull: &[u32], faces: &Faces) -> bool
    requires two { 2 ≤ length hull.now }
    requires distinct { AllPairs (λ u v. u ≢ v) hull.now }
    requires some { All (λ c. 0 < length c) faces.now }
    requires once { All (λ c. AllPairs (λ s t. s ≢ t) (ring_pairs c)) faces.now }
    ensures { IsTrue result ↔ IsHullLeftOut hull.now faces.now }
{
    match left_out(hull, faces) {
        Some(i) => is_rim(hull, faces.cycle(i)),
        None => false,
    }
}
