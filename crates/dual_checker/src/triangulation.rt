// Whether triangles are a triangulation, and a flip-minimal one.
ghost use Rattle.std.specs.Prelude.{◌≡◌, ◌↔◌, All, IsTrue, IfOk};
ghost use Rattle.cert_text.specs.Within.{IsWithin};
ghost use Rattle.dual_checker.specs.GoodReport.{HasHull, HasTriangulation};
ghost use Rattle.dual_checker.specs.HalfEdges.{IsWithinPoints, AreFitting, IsCoveredOnce, IsBalancedAt};

use crate::corners::{are_corners, are_empty};
use crate::flips::is_minimal;
use crate::half_edges::{HalfEdges, Side};
use crate::rim::Rim;
use cert_text::{Method, Report};
use exact_predicates::Points;
use mwt_base::NoMemory;
use point_grid::Grid;
use std::alloc::Global;

/// Whether the triangles of a report are a triangulation, in which no flip makes an edge shorter where the
/// method is flips. For n triangles it takes time n log n and the queries of the grid.
pub fn has_triangulation(alloc: Global, points: &Points, report: &Report) -> Result<bool, NoMemory>
    requires points { points.now.points ≡ report.now.points }
    requires within { IsWithin report.now }
    requires hull { HasHull report.now }
    ensures { IfOk result (λ holds. IsTrue holds ↔ HasTriangulation report.now) }
{
    let hull = report.hull.as_slice();
    let tris = report.tris.as_slice();
    if tris.len() + hull.len() + 2 != 2 * points.len() as usize {
        return Ok(false);
    }
    let grid = Grid::new(alloc, points)?;
    if !are_empty(points, &grid, tris) {
        return Ok(false);
    }
    if !are_corners(alloc, points.len(), tris)? {
        return Ok(false);
    }
    let halves = HalfEdges::of(alloc, tris)?;
    let rim = Rim::of(alloc, hull)?;
    Ok(are_fitting(points, &halves, &rim, report.method))
}

// Whether half-edges fit one another and the pairs of the hull, and where the method is flips, no flip makes
// one of them shorter.
fn are_fitting(points: &Points, halves: &HalfEdges, rim: &Rim, method: Method) -> bool
    requires within { All (IsWithinPoints points.now.points) halves.now }
    ensures { IsTrue result ↔ AreFitting points.now.points halves.now rim.now method }
{
    if !is_covered(halves, rim) {
        return false;
    }
    if !is_balanced(halves, rim) {
        return false;
    }
    match method {
        Method::Flips => is_minimal(points, halves, rim),
        Method::Faces => true,
    }
}

// Whether each pair of the hull is a side once, and never the other way round.
fn is_covered(halves: &HalfEdges, rim: &Rim) -> bool
    ensures { IsTrue result ↔ All (IsCoveredOnce halves.now) rim.now }
{
    for side in rim.as_slice() {
        if !is_covered_once(halves, *side) {
            return false;
        }
    }
    true
}

fn is_covered_once(halves: &HalfEdges, side: Side) -> bool
    ensures { IsTrue result ↔ IsCoveredOnce halves.now side }
{
    halves.count(side) == 1 && halves.count(side.reversed()) == 0
}

// Whether each other side occurs as often one way as the other.
fn is_balanced(halves: &HalfEdges, rim: &Rim) -> bool
    ensures { IsTrue result ↔ All (λ h. IsBalancedAt halves.now rim.now h.side) halves.now }
{
    for half in halves.as_slice() {
        if !is_balanced_at(halves, rim, half.side) {
            return false;
        }
    }
    true
}

fn is_balanced_at(halves: &HalfEdges, rim: &Rim, side: Side) -> bool
    ensures { IsTrue result ↔ IsBalancedAt halves.now rim.now side }
{
    rim.has(side) || halves.count(side) == halves.count(side.reversed())
}
