// The empty triangles with one first corner, and with those of a group.
ghost use Rattle.std.specs.Prelude.{◌≡◌, ◌≢◌, ◌+◌, ◌<◌, length, All, IfOk, OnOk};
ghost use Rattle.empty_triangles.specs.Corners.{AreMarked, IsCorner};
ghost use Rattle.empty_triangles.specs.Enumeration.{AreStarts, AreTrianglesWith, IsFanAdded, IsReady, group_of};
ghost use Rattle.empty_triangles.specs.Rays.{AreLists};

use crate::blocks::GROUP;
use crate::corner::Corner;
use crate::fan::fill_thirds;
use exact_predicates::{Edge, Points, Tri};
use mwt_base::NoMemory;
use point_grid::Grid;
use std::alloc::{AllocError, Global};

/// The empty triangles over the edges whose first corners are of the group, in ascending order. What is made
/// for one first corner gives its memory to the next.
pub(crate) fn triangles_of_group(
    alloc: Global,
    points: &Points,
    grid: &Grid,
    edges: &[Edge],
    starts: &[usize],
    group: u32,
) -> Result<Vec<Tri>, NoMemory>
    requires { IsReady points.now.points grid.now edges.now starts.now group }
    ensures { IfOk result (λ tris. AreTrianglesWith points.now.points edges.now (λ t. group_of t ≡ group) tris.items) }
{
    let count = points.len();
    let from = GROUP * group;
    let to = count.min(from + GROUP);
    let mut corner = Corner::none(alloc);
    let mut places = Vec::new(alloc);
    let mut thirds = Vec::new(alloc);
    let mut row = Vec::new(alloc);
    let mut tris = Vec::new(alloc);
    for a in from..to {
        corner = corner.turned_to(alloc, points, grid, edges, starts, a)?;
        fill_triangles(
            points,
            edges,
            starts,
            &corner,
            &mut places,
            &mut thirds,
            &mut row,
        )?;
        tris.extend_from_slice(&row)?;
    }
    Ok(tris)
}

// Puts the empty triangles with the first corner in place of what was there, in ascending order.
fn fill_triangles(
    points: &Points,
    edges: &[Edge],
    starts: &[usize],
    corner: &Corner,
    places: &mut Vec<usize>,
    thirds: &mut Vec<u32>,
    tris: &mut Vec<Tri>,
) -> Result<(), NoMemory>
    requires starts { AreStarts edges.now starts.now }
    requires count { length starts.now ≡ length points.now.points + 1 }
    requires within { All (λ e. e.b < length points.now.points) edges.now }
    requires a_in { corner.now.a < length points.now.points }
    requires corner { IsCorner points.now.points edges.now corner.now.a corner.now.row.items corner.now.heads.items }
    requires marked { AreMarked corner.now.row.items corner.now.heads.items corner.now.marks.items }
    requires lists { AreLists points.now.points corner.now.heads.items (length corner.now.seen.items) corner.now.seen.items }
    ensures { OnOk result (AreTrianglesWith points.now.points edges.now (λ t. t.a ≡ corner.now.a) tris.new.items) }
{
    // The proof takes from `len` that these are the points of a problem.
    prove!(corner.a < points.len());
    tris.clear();
    for i in 0..corner.row.len() {
        let b = corner.row[i];
        fill_thirds(points, edges, starts, corner, b, places, thirds)?;
        push_fan(corner.a, b, thirds, tris)?;
    }
    Ok(())
}

// Adds the triangles with the corners `a` and `b` and these third corners.
fn push_fan(a: u32, b: u32, thirds: &[u32], tris: &mut Vec<Tri>) -> Result<(), AllocError>
    requires { All (λ c. (a < b) × (a < c) × (b ≢ c)) thirds.now }
    ensures { OnOk result (IsFanAdded a b thirds.now tris.old.items tris.new.items) }
{
    for i in 0..thirds.len() {
        let c = thirds[i];
        tris.push(Tri { a, b, c })?;
    }
    Ok(())
}
