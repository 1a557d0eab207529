// The bounded faces, and how many places they have.
ghost use Rattle.std.specs.Prelude.{◌≡◌, ◌↔◌, ◌+◌, ◌-◌, ◌*◌, ◌^◌, ◌<◌, ◌≤◌, false, true, length, All, IfOk, IsTrue, sum_by};
ghost use Rattle.exact_predicates.specs.Hull.{IsHull};
ghost use Rattle.face_optimum.specs.Decomposition.{bounded_faces, is_outer, IsSized};

use crate::angle::next_point;
use crate::rings::Rings;
use mwt_base::NoMemory;
use skeleton_faces::Faces;
use std::alloc::Global;

/// Whether the cycle holds the side from the hull's second point to its first.
pub(crate) fn is_outer(hull: &[u32], cycle: &[u32]) -> bool
    requires { 2 ≤ length hull.now }
    ensures { result ≡ is_outer hull.now cycle.now }
{
    for place in 0..cycle.len() {
        if cycle[place] == hull[1] && next_point(cycle, place) == hull[0] {
            return true;
        }
    }
    false
}

// Whether a face has from 3 to `most` places.
fn is_sized(most: u32, cycle: &[u32]) -> bool
    ensures { IsTrue result ↔ IsSized most cycle.now }
{
    cycle.len() >= 3 && cycle.len() <= most as usize
}

/// Whether each bounded face has from 3 to `most` places.
pub(crate) fn are_sized(hull: &[u32], faces: &Faces, most: u32) -> bool
    requires { 2 ≤ length hull.now }
    ensures { IsTrue result ↔ All (IsSized most) (bounded_faces hull.now faces.now) }
{
    for i in 0..faces.len() {
        let cycle = faces.cycle(i);
        if !is_outer(hull, cycle) && !is_sized(most, cycle) {
            return false;
        }
    }
    true
}

/// The bounded faces.
pub(crate) fn bounded(alloc: Global, hull: &[u32], faces: &Faces) -> Result<Rings, NoMemory>
    requires two { 2 ≤ length hull.now }
    requires few { All (λ c. length c ≤ 128) (bounded_faces hull.now faces.now) }
    ensures { IfOk result (λ rings. rings ≡ bounded_faces hull.now faces.now) }
{
    let mut rings = Vec::new(alloc);
    for i in 0..faces.len() {
        let cycle = faces.cycle(i);
        if !is_outer(hull, cycle) {
            rings.push(Vec::from_slice(alloc, cycle)?)?;
        }
    }
    Ok(Rings { rings })
}

// How many places a cycle has, less two, where it is bounded.
fn places_less_two_of(hull: &[u32], cycle: &[u32]) -> u64
    requires { 2 ≤ length hull.now }
    ensures bounded { is_outer hull.now cycle.now ≡ false → result ≡ length cycle.now - 2 }
    ensures outer { is_outer hull.now cycle.now ≡ true → result ≡ 0 }
{
    if is_outer(hull, cycle) {
        0
    } else {
        cycle.len().saturating_sub(2) as u64
    }
}

/// The numbers of places of the bounded faces, each less two, together.
pub(crate) fn places_less_two(hull: &[u32], faces: &Faces) -> u64
    requires two { 2 ≤ length hull.now }
    requires few { All (λ c. length c ≤ 128) (bounded_faces hull.now faces.now) }
    ensures value { result ≡ sum_by (λ c. length c - 2) (bounded_faces hull.now faces.now) }
    ensures bound { result < 2 ^ 40 }
{
    let mut sum = 0;
    for i in 0..faces.len() {
        sum += places_less_two_of(hull, faces.cycle(i));
    }
    sum
}
