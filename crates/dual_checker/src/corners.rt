// Whether triangles are empty, and have each point as a corner.
ghost use Rattle.std.specs.Prelude.{◌≡◌, ◌↔◌, ◌<◌, ◌+◌, ◌^◌, ℕ, true, length, All, IsTrue, IfOk};
ghost use Rattle.exact_predicates.specs.Triangulation.{IsEmpty};
ghost use Rattle.dual_checker.specs.Corners.{IsCornerIn, AreCornerMarks};

use exact_predicates::{Points, Tri, orient};
use point_grid::Grid;
use std::alloc::{AllocError, Global};

/// Whether each triangle is empty.
pub fn are_empty(points: &Points, grid: &Grid, tris: &[Tri]) -> bool
    requires grid { grid.now ≡ points.now.points }
    requires within { All (λ t. (t.b < length points.now.points) × (t.c < length points.now.points)) tris.now }
    ensures { IsTrue result ↔ All (IsEmpty points.now.points) tris.now }
{
    for tri in tris {
        if !is_empty(points, grid, *tri) {
            return false;
        }
    }
    true
}

// Whether a triangle turns to the left, and no other point lies in it or on its rim.
fn is_empty(points: &Points, grid: &Grid, tri: Tri) -> bool
    requires grid { grid.now ≡ points.now.points }
    requires b_in { tri.b < length points.now.points }
    requires c_in { tri.c < length points.now.points }
    ensures { IsTrue result ↔ IsEmpty points.now.points tri }
{
    orient(points.at(tri.a), points.at(tri.b), points.at(tri.c)) > 0
        && grid.any_in_closed_triangle(points, tri).is_none()
}

/// Whether each of `count` points is a corner of one of the triangles.
pub fn are_corners(alloc: Global, count: u32, tris: &[Tri]) -> Result<bool, AllocError>
    requires { All (λ t. (t.b < count) × (t.c < count)) tris.now }
    ensures { IfOk result (λ all. IsTrue all ↔ ((x : ℕ) → x < count → IsCornerIn tris.now x)) }
{
    let marks = corner_marks(alloc, count, tris)?;
    for x in 0..count {
        if !marks[x as usize] {
            return Ok(false);
        }
    }
    Ok(true)
}

// Of each of `count` points, whether it is a corner of one of the triangles.
fn corner_marks(alloc: Global, count: u32, tris: &[Tri]) -> Result<Vec<bool>, AllocError>
    requires { All (λ t. (t.b < count) × (t.c < count)) tris.now }
    ensures { IfOk result (λ marks. AreCornerMarks count tris.now marks.items) }
{
    let mut marks = Vec::from_elem(alloc, false, count as usize)?;
    for tri in tris {
        marks[tri.a as usize] = true;
        marks[tri.b as usize] = true;
        marks[tri.c as usize] = true;
    }
    Ok(marks)
}
