// The triangulation of a report.
ghost use Rattle.std.specs.Prelude.{◌<◌, ◌≤◌, IfOk, IsSorted};
ghost use Rattle.mwt_base.specs.Limits.{most_workers};
ghost use Rattle.exact_predicates.specs.Flip.{IsFlipMinimal};
ghost use Rattle.exact_predicates.specs.Hull.{IsHull};
ghost use Rattle.exact_predicates.specs.Length.{IsNotLonger};
ghost use Rattle.exact_predicates.specs.PointSet.{IsPointSet};
ghost use Rattle.exact_predicates.specs.Triangulation.{IsTriangulation, edges, tri_cmp};
ghost use Rattle.flip_claims.specs.Descent.{IsDescendant};

use exact_predicates::{Hull, Points, Tris};
use flip_claims::shorten_claimed;
use flip_finish::Mesh;
use mwt_base::{Gate, NoMemory};
use std::alloc::Global;
use std::thread::Threads;

/// A triangulation in ascending order, made of another by rounds of claimed flips until none makes it
/// shorter. It does not depend on the number of workers.
pub fn shortened<R: Threads + Sync, G: Gate>(
    rt: &R,
    alloc: Global,
    points: &Points,
    hull: &Hull,
    tris: &Tris,
    workers: u32,
    gate: &G,
) -> Result<Tris, NoMemory>
    requires some { 0 < workers }
    requires few { workers ≤ most_workers }
    requires points { IsPointSet points.now.points }
    requires hull { IsHull points.now.points hull.now }
    requires tris { IsTriangulation points.now.points hull.now tris.now }
    ensures triangulation { IfOk result (λ ts. IsTriangulation points.now.points hull.now ts) }
    ensures minimal { IfOk result (λ ts. IsFlipMinimal points.now.points hull.now ts) }
    ensures ascending { IfOk result (λ ts. IsSorted tri_cmp ts) }
    ensures descendant { IfOk result (λ ts. IsDescendant points.now.points hull.now tris.now ts) }
    ensures not_longer { IfOk result (λ ts. IsNotLonger points.now.points (edges hull.now ts) (edges hull.now tris.now)) }
{
    let mut mesh = Mesh::from_tris(alloc, points, hull, tris)?;
    shorten_claimed(rt, alloc, points, &mut mesh, workers, gate)?;
    Ok(mesh.tris(alloc)?)
}
