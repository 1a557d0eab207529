// Points after a given one, in the order in which they are seen from it.
ghost use Rattle.std.specs.Prelude.{◌≡◌, ◌≢◌, ◌↔◌, ◌<◌, pos, ◌<ℤ◌, IsTrue, length, slice_index, All, AllPairs, IfOk, OnOk, IsPermutation};
ghost use Rattle.exact_predicates.specs.Plane.{orient};
ghost use Rattle.exact_predicates.specs.PointSet.{IsPointSet, point_at};
ghost use Rattle.point_grid.specs.Directions.{SeesPast, AreByDirection, AreSights, sight_cmp};

use crate::sight::Sight;
use exact_predicates::{Points, orient};
use mwt_base::NoMemory;
use std::alloc::Global;
use std::cmp::Ordering;

/// Later points as they are seen from a given one, in memory that serves one sort after the other.
#[derive(Drop)]
pub struct SightList {
    list: Vec<Sight>,
}

impl SightList {
    /// No sights yet.
    pub fn none(alloc: Global) -> SightList {
        SightList {
            list: Vec::new(alloc),
        }
    }
}

/// These numbers of points after the point `a`, in the order in which `a` sees them: from right to
/// left, and on one ray the nearer first. They all lie in one half-plane, so that this is an order. What the
/// sights were is lost.
pub fn by_direction(
    alloc: Global,
    points: &Points,
    a: u32,
    numbers: &[u32],
    sights: &mut SightList,
) -> Result<Vec<u32>, NoMemory>
    requires a_in { a < length points.now.points }
    requires later { All (λ b. (a < b) × (b < length points.now.points)) numbers.now }
    requires distinct { AllPairs (λ b c. b ≢ c) numbers.now }
    ensures same { IfOk result (λ order. IsPermutation numbers.now order.items) }
    ensures ordered { IfOk result (λ order. AreByDirection points.now.points a order.items) }
{
    let list = &mut sights.list;
    fill_sights(points, a, numbers, list)?;
    list.sort_unstable_by(compare);
    Ok(list.iter().map(|s| s.number).collect(alloc)?)
}

/// Whether none of the points of an order, in which `a` sees them, is between `a` and that at the
/// place `k`: the one before stands on another ray.
pub fn is_first_on_ray(points: &Points, a: u32, order: &[u32], k: usize) -> bool
    requires points { IsPointSet points.now.points }
    requires a_in { a < length points.now.points }
    requires order { AreByDirection points.now.points a order.now }
    requires k_in { k < length order.now }
    ensures { IsTrue result ↔ SeesPast points.now.points a order.now (slice_index order.now k) }
{
    if k == 0 {
        return true;
    }
    is_left(points, a, order[k - 1], order[k])
}

/// Whether the point `c` lies to the left of the line from `a` to `b`.
pub fn is_left(points: &Points, a: u32, b: u32, c: u32) -> bool
    requires a_in { a < length points.now.points }
    requires b_in { b < length points.now.points }
    requires c_in { c < length points.now.points }
    ensures { let at = point_at points.now.points in IsTrue result ↔ (pos 0 <ℤ orient (at a) (at b) (at c)) }
{
    orient(points.at(a), points.at(b), points.at(c)) > 0
}

// Puts these points after `a`, as they are seen from it, in place of what was there, in the order of the
// numbers.
fn fill_sights(
    points: &Points,
    a: u32,
    numbers: &[u32],
    sights: &mut Vec<Sight>,
) -> Result<(), NoMemory>
    requires a_in { a < length points.now.points }
    requires later { All (λ b. (a < b) × (b < length points.now.points)) numbers.now }
    ensures { OnOk result (AreSights points.now.points a numbers.now sights.new.items) }
{
    // The proof takes from `len` that these are the points of a problem.
    prove!(a < points.len());
    let from = points.at(a);
    sights.clear();
    for i in 0..numbers.len() {
        let b = numbers[i];
        sights.push(Sight::of(from, points.at(b), b))?;
    }
    Ok(())
}

// How two sights compare: by direction, from right to left, and then by number.
fn compare(s: &Sight, t: &Sight) -> Ordering
    ensures { result ≡ sight_cmp s.now t.now }
{
    (s.height * t.width)
        .cmp(&(s.width * t.height))
        .then(s.number.cmp(&t.number))
}
