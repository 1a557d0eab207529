// Blocks of first corners, whose triangles are made in parallel.
ghost use Rattle.std.specs.Prelude.{◌≡◌, ◌<◌, ◌≤◌, ◌+◌, ◌*◌, ◌^◌, ℕ, length, All, IfOk};
ghost use Rattle.mwt_base.specs.Limits.{most_points};
ghost use Rattle.exact_predicates.specs.Candidates.{TriPrecedes, IsEmptyOver};
ghost use Rattle.point_grid.specs.Listing.{AreRows};
ghost use Rattle.empty_triangles.specs.Enumeration.{AreStarts, AreTrianglesWith, IsReady, group_of};

use crate::row::triangles_of_group;
use exact_predicates::{Edge, Points, Tri};
use mwt_base::NoMemory;
use point_grid::Grid;
use rayon::prelude::*;
use std::alloc::Global;
use std::thread::Threads;

pub(crate) const MOST_TRIANGLES: usize = 4_000_000;

// So many first corners make a group, which one thread goes through, and so many groups a block.
pub(crate) const GROUP: u32 = 8;

const BLOCK: u32 = 256;

/// How many groups so many first corners make.
pub(crate) fn groups_of(count: u32) -> u32
    requires { count ≤ most_points }
    ensures all { count ≤ 8 * result }
    ensures each { (group : ℕ) → group < result → 8 * group < count }
{
    (count + (GROUP - 1)) / GROUP
}

/// The end of the block of groups that begins with this one. It has fewer where these could have more
/// triangles than are allowed, but one at least: what is made of a block is held at one time, and may be
/// made in vain.
pub(crate) fn block_end(starts: &[usize], groups: u32, group: u32) -> u32
    requires some { 0 < length starts.now }
    requires few { groups ≤ most_points }
    requires group_in { group < groups }
    ensures more { group < result }
    ensures within { result ≤ groups }
{
    let end = groups.min(group + BLOCK);
    let mut sum = most_of(starts, group);
    for next in group + 1..end {
        sum = sum.saturating_add(most_of(starts, next));
        if sum > MOST_TRIANGLES {
            return next;
        }
    }
    end
}

// At least the number of triangles with a first corner of the group.
fn most_of(starts: &[usize], group: u32) -> usize
    requires { 0 < length starts.now }
{
    let corners = starts.len() - 1;
    let from = GROUP as usize * group as usize;
    let mut sum: usize = 0;
    for a in from..corners.min(from + GROUP as usize) {
        sum = sum.saturating_add(most_from(starts, a));
    }
    sum
}

// At least the number of triangles with the first corner `a`: each has two of its edges, and a third side of
// its own.
fn most_from(starts: &[usize], a: usize) -> usize
    requires { a + 1 < length starts.now }
{
    let all = starts[starts.len() - 1];
    let count = starts[a + 1].saturating_sub(starts[a]);
    (count.saturating_mul(count) / 2).min(all)
}

/// The triangles of each group from `group` to before `to`.
pub(crate) fn rows_between<R: Threads + Sync>(
    rt: &R,
    alloc: Global,
    points: &Points,
    grid: &Grid,
    edges: &[Edge],
    starts: &[usize],
    group: u32,
    to: u32,
) -> Result<Vec<Vec<Tri>>, NoMemory>
    requires grid { grid.now ≡ points.now.points }
    requires starts { AreStarts edges.now starts.now }
    requires count { length starts.now ≡ length points.now.points + 1 }
    requires within { All (λ e. e.b < length points.now.points) edges.now }
    requires group_to { group ≤ to }
    requires to_in { (g : ℕ) → g < to → 8 * g < length points.now.points }
    ensures { IfOk result (λ rows. AreRows TriPrecedes (IsEmptyOver points.now.points edges.now) group_of group to rows.items) }
{
    (group..to)
        .into_par_iter()
        .with_min_len(1)
        .map(
            |g: u32| -> Result<Vec<Tri>, NoMemory>
                requires { IsReady points.now.points grid.now edges.now starts.now g }
                ensures { IfOk result (λ tris. AreTrianglesWith points.entry.now.points edges.entry.now (λ t. group_of t ≡ g) tris.items) }
            { triangles_of_group(alloc, points, grid, edges, starts, g) },
        )
        .collect::<Result<Vec<Vec<Tri>>, NoMemory>>(rt, alloc)?
}
