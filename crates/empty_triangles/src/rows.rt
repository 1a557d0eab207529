// The empty triangles, by their first corners.
ghost use Rattle.std.specs.Prelude.{◌≡◌, ◌<◌, ◌≤◌, ◌++◌, length, vec_len, All, AllPairs, IfOk, OnOk, IfErr};
ghost use Rattle.mwt_base.specs.Limits.{most_triangles};
ghost use Rattle.exact_predicates.specs.Candidates.{EdgePrecedes, IsEmptyOver, AreTrianglesOver, AreMoreThan};

use crate::blocks::{MOST_TRIANGLES, block_end, groups_of, rows_between};
use crate::edges::starts;
use crate::stop::TriStop;
use exact_predicates::{Edges, Points, Tri, Tris};
use point_grid::Grid;
use std::alloc::Global;
use std::thread::Threads;

/// The empty triangles whose three sides are among the edges, in ascending order. `Dense` says that
/// there are more than 4,000,000; those beyond are not enumerated then.
///
/// Threads share the first corners. For each it takes the time of one query, of a sort of the points
/// round it and its neighbours, and, for each of its edges, of a test of each of these points: what one of
/// its neighbours sees past all between is found by one pass.
pub fn triangles<R: Threads + Sync>(
    rt: &R,
    alloc: Global,
    points: &Points,
    grid: &Grid,
    edges: &Edges,
) -> Result<Tris, TriStop>
    requires grid { grid.now ≡ points.now.points }
    requires ascending { AllPairs EdgePrecedes edges.now }
    requires within { All (λ e. e.b < length points.now.points) edges.now }
    ensures listed { IfOk result (λ tris. AreTrianglesOver points.now.points edges.now tris) }
    ensures few { IfOk result (λ tris. length tris ≤ most_triangles) }
    ensures dense { IfErr result (λ stop. stop ≡ TriStop.Dense →
        AreMoreThan (IsEmptyOver points.now.points edges.now) most_triangles) }
{
    let groups = groups_of(points.len());
    let starts = starts(alloc, edges.as_slice(), points.len())?;
    let mut tris = Vec::new(alloc);
    let mut group = 0;
    while group < groups {
        let to = block_end(&starts, groups, group);
        let rows = rows_between(
            rt,
            alloc,
            points,
            grid,
            edges.as_slice(),
            &starts,
            group,
            to,
        )?;
        for i in 0..rows.len() {
            append(&mut tris, &rows[i])?;
        }
        group = to;
    }
    Ok(Tris::of(tris))
}

// Those of one more group, if there is room.
fn append(tris: &mut Vec<Tri>, row: &[Tri]) -> Result<(), TriStop>
    requires few { vec_len tris.old ≤ most_triangles }
    ensures appended { OnOk result (tris.new.items ≡ tris.old.items ++ row.now) }
    ensures few { OnOk result (vec_len tris.new ≤ most_triangles) }
    ensures dense { IfErr result (λ stop. stop ≡ TriStop.Dense → most_triangles < length (tris.old.items ++ row.now)) }
{
    if row.len() > MOST_TRIANGLES - tris.len() {
        return Err(TriStop::Dense);
    }
    tris.extend_from_slice(row)?;
    Ok(())
}
