// The first point on each ray.
ghost use Rattle.std.specs.Prelude.{◌-◌, ◌<◌, ◌↔◌, pos, ◌<ℤ◌, IsTrue, length, slice_index, OnOk};
ghost use Rattle.exact_predicates.specs.Plane.{orient};
ghost use Rattle.exact_predicates.specs.PointSet.{IsPointSet, point_at};
ghost use Rattle.point_grid.specs.Directions.{AreByDirection};
ghost use Rattle.empty_triangles.specs.Rays.{AreHeads};

use exact_predicates::Points;
use mwt_base::NoMemory;
use point_grid::is_left;

/// Puts the first point on each ray from `a`, of those in an order in which `a` sees them, in place of what
/// the heads were; from left to right.
pub(crate) fn fill_heads(
    points: &Points,
    a: u32,
    order: &[u32],
    heads: &mut Vec<u32>,
) -> Result<(), NoMemory>
    requires points { IsPointSet points.now.points }
    requires a_in { a < length points.now.points }
    requires order { AreByDirection points.now.points a order.now }
    ensures { OnOk result (AreHeads points.now.points a order.now heads.new.items) }
{
    heads.clear();
    for k in 0..order.len() {
        if begins_ray(points, a, order, k) {
            heads.push(order[k])?;
        }
    }
    heads.reverse();
    Ok(())
}

// Whether the point at the place `k` of the order lies on another ray than the one before.
fn begins_ray(points: &Points, a: u32, order: &[u32], k: usize) -> bool
    requires a_in { a < length points.now.points }
    requires order { AreByDirection points.now.points a order.now }
    requires k_in { k < length order.now }
    ensures { let at = point_at points.now.points in
        IsTrue result ↔ (0 < k → pos 0 <ℤ orient (at a) (at (slice_index order.now (k - 1))) (at (slice_index order.now k))) }
{
    k == 0 || is_left(points, a, order[k - 1], order[k])
}
