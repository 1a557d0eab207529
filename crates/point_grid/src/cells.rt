// The points in a square array of cells.
ghost use Rattle.std.specs.Prelude.{◌≡◌, ◌*◌, ◌^◌, ◌<◌, ◌≤◌, ◌≤ℤ◌, unsigned_abs, IfOk};
ghost use Rattle.mwt_base.specs.Limits.{most_points};
ghost use Rattle.point_grid.specs.Cells.{AreCells, AreEmptyLists, part_of, cell_of};
ghost use Rattle.point_grid.specs.Frames.{IsInFrame};

use crate::frame::Frame;
use crate::framing::frame_of_all;
use exact_predicates::{Point, Points};
use mwt_base::NoMemory;
use std::alloc::{AllocError, Global};

/// The numbers of the points, in a square array of cells over their frame, row by row.
#[derive(Drop)]
pub(crate) struct Cells {
    pub(crate) side: u32,
    pub(crate) frame: Frame,
    pub(crate) lists: Vec<Vec<u32>>,
}

impl Cells {
    /// The cells of these points: as few on each side as give one for each point.
    pub(crate) fn new(alloc: Global, points: &Points) -> Result<Cells, NoMemory>
        ensures { IfOk result (λ cells. AreCells points.now.points cells) }
    {
        let count = points.len();
        let side = (count - 1).isqrt() + 1;
        let frame = frame_of_all(points);
        let mut lists = no_lists(alloc, side * side)?;
        for r in 0..count {
            let c = cell_at(side, &frame, points.at(r)) as usize;
            lists[c].push(r)?;
        }
        Ok(Cells { side, frame, lists })
    }
}

// So many empty lists.
fn no_lists(alloc: Global, count: u32) -> Result<Vec<Vec<u32>>, AllocError>
    ensures { IfOk result (λ lists. AreEmptyLists count lists.items) }
{
    let mut lists = Vec::new(alloc);
    for _turn in 0..count {
        lists.push(Vec::new(alloc))?;
    }
    Ok(lists)
}

/// Which of these equal parts of the numbers from `low` to `high` has `x`.
pub(crate) fn part_at(parts: u32, low: i64, high: i64, x: i64) -> u32
    requires some { 0 < parts }
    requires few { parts ≤ most_points }
    requires low_in { unsigned_abs low ≤ 10 ^ 9 }
    requires high_in { unsigned_abs high ≤ 10 ^ 9 }
    requires above { low ≤ℤ x }
    requires below { x ≤ℤ high }
    ensures is { result ≡ part_of parts low high x }
    ensures within { result < parts }
{
    let whole = high.abs_diff(low) + 1;
    (x.abs_diff(low) * u64::from(parts) / whole) as u32
}

// The cell of a point in the frame.
fn cell_at(side: u32, frame: &Frame, p: &Point) -> u32
    requires some { 0 < side }
    requires few { side ≤ most_points }
    requires p_in { IsInFrame frame.now p.now }
    ensures is { result ≡ cell_of side frame.now p.now }
    ensures within { result < side * side }
{
    let row = part_at(side, frame.low, frame.high, p.y);
    let column = part_at(side, frame.left, frame.right, p.x);
    row * side + column
}
