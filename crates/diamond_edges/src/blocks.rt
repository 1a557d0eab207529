// Blocks of lesser ends, whose rows threads make.
ghost use Rattle.std.specs.Prelude.{◌≡◌, ◌<◌, ◌≤◌, length, IfOk};
ghost use Rattle.mwt_base.specs.Limits.{most_edges, most_points};
ghost use Rattle.exact_predicates.specs.Candidates.{EdgePrecedes};
ghost use Rattle.exact_predicates.specs.declared.edge.Edge.{Edge};
ghost use Rattle.point_grid.specs.Listing.{IsListing, AreRows};
ghost use Rattle.point_grid.specs.Tree.{AreSpotsOf};
ghost use Rattle.diamond_edges.specs.Enumeration.{IsOpenEdge, IsReady};

use crate::row::row;
use exact_predicates::{Diamond, Edge, Points};
use mwt_base::NoMemory;
use point_grid::BoxTree;
use rayon::prelude::*;
use std::alloc::Global;
use std::thread::Threads;

pub(crate) const MOST_EDGES: usize = 400_000;

// So many lesser ends make a block, and so many the first.
const BLOCK: usize = 2048;

const FIRST_BLOCK: usize = 64;

/// The end of the block of lesser ends that begins with `a`, where those before have `found` edges. The
/// block is smaller where as many edges from each as so far could pass the limit: all that a block
/// gives is held at once, and is of no use where there are too many.
pub(crate) fn block_end(count: u32, a: u32, found: usize) -> u32
    requires a_in { a < count }
    requires few { count ≤ most_points }
    requires room { found ≤ most_edges }
    ensures more { a < result }
    ensures within { result ≤ count }
{
    let size = if a == 0 {
        FIRST_BLOCK
    } else {
        let each = found / a as usize + 1;
        ((MOST_EDGES - found) / each).max(FIRST_BLOCK).min(BLOCK)
    };
    count.min(a + size as u32)
}

/// The rows of the lesser ends from `a` to before `to`, in order.
pub(crate) fn rows_between<R: Threads + Sync>(
    rt: &R,
    alloc: Global,
    points: &Points,
    tree: &BoxTree,
    diamond: Diamond,
    a: u32,
    to: u32,
) -> Result<Vec<Vec<Edge>>, NoMemory>
    requires tree { AreSpotsOf points.now.points tree.now }
    requires a_to { a ≤ to }
    requires to_in { to ≤ length points.now.points }
    ensures { IfOk result (λ rows. AreRows EdgePrecedes (IsOpenEdge diamond points.now.points) (λ (e : Edge). e.a) a to rows.items) }
{
    (a..to)
        .into_par_iter()
        .with_min_len(1)
        .map(
            |b: u32| -> Result<Vec<Edge>, NoMemory>
                requires { IsReady points.now.points tree.now b }
                ensures { IfOk result (λ edges. IsListing EdgePrecedes (IsOpenEdge diamond points.entry.now.points) (λ (e : Edge). e.a ≡ b) edges.items) }
            { row(alloc, points, tree, diamond, b) },
        )
        .collect::<Result<Vec<Vec<Edge>>, NoMemory>>(rt, alloc)?
}
