// The candidate edges from one lesser end.
ghost use Rattle.std.specs.Prelude.{◌≡◌, ◌<◌, length, All, IfOk};
ghost use Rattle.exact_predicates.specs.Candidates.{EdgePrecedes};
ghost use Rattle.exact_predicates.specs.declared.edge.Edge.{Edge};
ghost use Rattle.point_grid.specs.Listing.{IsListing};
ghost use Rattle.point_grid.specs.Tree.{AreSpotsOf};
ghost use Rattle.diamond_edges.specs.Enumeration.{AreEdgesTo, IsOpenEdge};
ghost use Rattle.diamond_edges.specs.Rows.{IsRow};

use crate::seen::ends_seen;
use crate::walk::ends_linked;
use exact_predicates::{Diamond, Edge, Points};
use mwt_base::NoMemory;
use point_grid::BoxTree;
use std::alloc::{AllocError, Global};

/// The candidate edges whose lesser end is `a`, ascending.
pub(crate) fn row(
    alloc: Global,
    points: &Points,
    tree: &BoxTree,
    diamond: Diamond,
    a: u32,
) -> Result<Vec<Edge>, NoMemory>
    requires tree { AreSpotsOf points.now.points tree.now }
    requires a_in { a < length points.now.points }
    ensures { IfOk result (λ edges. IsListing EdgePrecedes (IsOpenEdge diamond points.now.points) (λ (e : Edge). e.a ≡ a) edges.items) }
{
    let ends = ends(alloc, points, tree, diamond, a)?;
    let edges = edges_to(alloc, a, &ends)?;
    Ok(edges)
}

// The greater ends of these edges.
fn ends(
    alloc: Global,
    points: &Points,
    tree: &BoxTree,
    diamond: Diamond,
    a: u32,
) -> Result<Vec<u32>, NoMemory>
    requires tree { AreSpotsOf points.now.points tree.now }
    requires a_in { a < length points.now.points }
    ensures { IfOk result (λ ends. IsRow diamond points.now.points a ends.items) }
{
    match diamond {
        Diamond::Off => ends_seen(alloc, points, a),
        Diamond::On => ends_linked(alloc, points, tree, a),
    }
}

// The edges from `a` to these greater ends.
fn edges_to(alloc: Global, a: u32, ends: &[u32]) -> Result<Vec<Edge>, AllocError>
    requires { All (λ b. a < b) ends.now }
    ensures { IfOk result (λ edges. AreEdgesTo a ends.now edges.items) }
{
    let mut edges = Vec::new(alloc);
    for i in 0..ends.len() {
        let b = ends[i];
        edges.push(Edge { a, b })?;
    }
    Ok(edges)
}
