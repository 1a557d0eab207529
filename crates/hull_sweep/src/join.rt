// One point joined to the pairs of one chain that are visible from it.
ghost use Rattle.std.specs.Prelude.{◌≡◌, ◌+◌, ◌<◌, ℕ, length, slice_index, IfOk};
ghost use Rattle.exact_predicates.specs.PointSet.{IsPointSet, point_at};
ghost use Rattle.hull_sweep.specs.Chain.{IsChain, IsHidden};
ghost use Rattle.hull_sweep.specs.Join.{GrowsByJoin};

use crate::chain::Chain;
use exact_predicates::{Points, Tri};
use mwt_base::NoMemory;

/// Adds the triangles of `q` with the chain's pairs that are visible from it, from the top of the
/// chain down. Answers how many places of the chain stay; the places above them leave the hull.
pub(crate) fn join(
    points: &Points,
    which: Chain,
    q: u32,
    chain: &[u32],
    tris: &mut Vec<Tri>,
) -> Result<usize, NoMemory>
    requires points { IsPointSet points.now.points }
    requires q_in { q < length points.now.points }
    requires chain { IsChain which (point_at points.now.points) q (length chain.now) (slice_index chain.now) }
    ensures joined { IfOk result (λ kept.
        GrowsByJoin which (point_at points.now.points) q chain.now kept tris.old.items tris.new.items) }
    ensures hidden { IfOk result (λ kept. (k : ℕ) → k + 2 ≡ kept →
        IsHidden which (point_at points.now.points) q (slice_index chain.now) k) }
{
    let mut kept = chain.len();
    while kept >= 2 && which.turn(points, chain[kept - 2], chain[kept - 1], q) < 0 {
        tris.push(which.triangle(chain[kept - 2], chain[kept - 1], q))?;
        kept -= 1;
    }
    Ok(kept)
}
