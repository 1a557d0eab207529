// The candidate edges.
ghost use Rattle.std.specs.Prelude.{◌≡◌, ◌<◌, ◌≤◌, ◌++◌, length, vec_len, IfOk, OnOk, IfErr};
ghost use Rattle.mwt_base.specs.Limits.{most_edges};
ghost use Rattle.exact_predicates.specs.Candidates.{IsCandidate, AreCandidates, AreMoreThan};
ghost use Rattle.exact_predicates.specs.Hull.{IsHull};

use crate::blocks::{MOST_EDGES, block_end, rows_between};
use crate::stop::EdgeStop;
use exact_predicates::{Diamond, Edge, Edges, Hull, Points};
use point_grid::Grid;
use std::alloc::Global;
use std::thread::Threads;

/// The candidate edges of the points: those with no point between their ends, and, with the diamond
/// test on, that pass it. They come in ascending order. `Dense` says that there are more than 400,000;
/// the edges beyond are not enumerated then.
///
/// Threads share the lesser ends. With the test off each takes time n log n for n points. With it on,
/// and points that are spread evenly, each takes about as long as it has edges, times log n; at worst
/// it takes n times what one edge takes.
///
/// The test is due to R. L. S. Drysdale, S. McElfresh and J. S. Snoeyink (2001).
pub fn candidates<R: Threads + Sync>(
    rt: &R,
    alloc: Global,
    points: &Points,
    grid: &Grid,
    hull: &Hull,
    diamond: Diamond,
) -> Result<Edges, EdgeStop>
    requires grid { grid.now ≡ points.now.points }
    requires hull { IsHull points.now.points hull.now }
    ensures listed { IfOk result (λ edges. AreCandidates points.now.points hull.now diamond edges) }
    ensures few { IfOk result (λ edges. length edges ≤ most_edges) }
    ensures dense { IfErr result (λ stop. stop ≡ EdgeStop.Dense →
        AreMoreThan (IsCandidate points.now.points hull.now diamond) most_edges) }
{
    let count = points.len();
    let mut edges = Vec::new(alloc);
    let mut a = 0;
    while a < count {
        let to = block_end(count, a, edges.len());
        let rows = rows_between(rt, alloc, points, grid.tree(), diamond, a, to)?;
        for i in 0..rows.len() {
            append(&mut edges, &rows[i])?;
        }
        a = to;
    }
    Ok(Edges::of(edges))
}

// The edges from one more lesser end, if there is room.
fn append(edges: &mut Vec<Edge>, row: &[Edge]) -> Result<(), EdgeStop>
    requires few { vec_len edges.old ≤ most_edges }
    ensures appended { OnOk result (edges.new.items ≡ edges.old.items ++ row.now) }
    ensures few { OnOk result (vec_len edges.new ≤ most_edges) }
    ensures dense { IfErr result (λ stop. stop ≡ EdgeStop.Dense → most_edges < length (edges.old.items ++ row.now)) }
{
    if row.len() > MOST_EDGES - edges.len() {
        return Err(EdgeStop::Dense);
    }
    edges.extend_from_slice(row)?;
    Ok(())
}
