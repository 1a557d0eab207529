// The hull and the first triangulation.
ghost use Rattle.std.specs.Prelude.{length, IfOk, IsSorted};
ghost use Rattle.exact_predicates.specs.Hull.{IsHull};
ghost use Rattle.exact_predicates.specs.PointSet.{point_at};
ghost use Rattle.exact_predicates.specs.Triangulation.{IsTriangulation, tri_cmp};
ghost use Rattle.hull_sweep.specs.Rule.{FollowsRule};

use crate::outline::outline;
use crate::swept::Swept;
use exact_predicates::{Hull, Points, Tris};
use mwt_base::NoMemory;
use std::alloc::Global;

/// What a solver starts from: the hull of the points, and a triangulation with this hull.
#[derive(Drop)]
pub struct Start {
    /// Counter-clockwise from point 0, with every point that lies on it.
    pub hull: Hull,
    /// The triangles, in ascending order.
    pub tris: Tris,
}

/// The hull of the points, counter-clockwise from point 0 and with every point that lies on it, and a
/// triangulation of the points, its triangles in ascending order. `NoMemory` is the only error.
///
/// Each point is joined, in the order of the points, to all pairs of the hull of the earlier points
/// that it sees; the first points that lie on one line are joined to the first point off it. The
/// method is the incremental sweep: points sorted once, and then a hull kept as a stack whose top is
/// popped, which goes back to R. L. Graham's scan (1972); the two chains over points sorted by `x` and
/// `y` are those of A. M. Andrew's hull algorithm (1979). A point is pushed once on each chain and
/// popped at most once, so that all steps but the sorting of the triangles are linear in the points.
pub fn sweep(alloc: Global, points: &Points) -> Result<Start, NoMemory>
    ensures hull { IfOk result (λ s. IsHull points.now.points s.hull) }
    ensures tris { IfOk result (λ s. IsTriangulation points.now.points s.hull s.tris) }
    ensures rule { IfOk result (λ s. FollowsRule (point_at points.now.points) (length points.now.points) s.tris) }
    ensures ascending { IfOk result (λ s. IsSorted tri_cmp s.tris) }
{
    let Swept {
        lower,
        upper,
        mut tris,
    } = Swept::of(alloc, points)?;
    tris.sort_unstable();
    let hull = outline(lower, &upper)?;
    Ok(Start {
        hull: Hull::of(hull),
        tris: Tris::of(tris),
    })
}
