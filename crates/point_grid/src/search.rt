// The search for the points of a region through the cells that meet a box round it.
ghost use Rattle.std.specs.Prelude.{◌≡◌, ◌<◌, ◌≤◌, ◌*◌, ◌^◌, ℤ, ◌≤ℤ◌, length, All, AllPairs, Contains, unsigned_abs};
ghost use Rattle.mwt_base.specs.Limits.{most_points};
ghost use Rattle.exact_predicates.specs.PointSet.{IsPointSet, point_at};
ghost use Rattle.point_grid.specs.Cells.{AreCells, part_of};
ghost use Rattle.point_grid.specs.First.{IsFirst, lesser_of};
ghost use Rattle.point_grid.specs.Regions.{IsProper, Lies, LiesInColumn};

use crate::cells::{Cells, part_at};
use crate::region::Region;
use exact_predicates::Point;

/// The least number of a point in the region, or none.
pub(crate) fn first_in(points: &[Point], cells: &Cells, region: &Region) -> Option<u32>
    requires points { IsPointSet points.now }
    requires cells { AreCells points.now cells.now }
    requires proper { IsProper region.now }
    ensures { IsFirst (length points.now) (λ r. Lies region.now r (point_at points.now r)) result }
{
    let bounds = region.bounds();
    let frame = cells.frame;
    let columns = parts_between(
        cells.side,
        frame.left,
        frame.right,
        bounds.left,
        bounds.right,
    );
    let rows = parts_between(cells.side, frame.low, frame.high, bounds.low, bounds.high);
    for column in columns.first..columns.end {
        let least = first_in_column(points, cells, region, column, &rows);
        if least.is_some() {
            return least;
        }
    }
    None
}

// The least number of a point in the region, in this column of cells and these rows, or none.
fn first_in_column(
    points: &[Point],
    cells: &Cells,
    region: &Region,
    column: u32,
    rows: &Span,
) -> Option<u32>
    requires points { IsPointSet points.now }
    requires cells { AreCells points.now cells.now }
    requires proper { IsProper region.now }
    requires column_in { column < cells.now.side }
    requires rows_in { rows.now.end ≤ cells.now.side }
    ensures { IsFirst (length points.now)
        (LiesInColumn points.now cells.now.side cells.now.frame region.now column rows.now.first rows.now.end) result }
{
    let mut least = None;
    for row in rows.first..rows.end {
        let numbers = &cells.lists[(row * cells.side + column) as usize];
        least = lesser(least, first_of(points, numbers, region));
    }
    least
}

// The first of these numbers whose point lies in the region, or none.
fn first_of(points: &[Point], numbers: &[u32], region: &Region) -> Option<u32>
    requires points { IsPointSet points.now }
    requires proper { IsProper region.now }
    requires ascending { AllPairs (λ q r. q < r) numbers.now }
    requires within { All (λ r. r < length points.now) numbers.now }
    ensures { IsFirst (length points.now) (λ r. Contains numbers.now r × Lies region.now r (point_at points.now r)) result }
{
    for k in 0..numbers.len() {
        let r = numbers[k];
        if region.has(r, &points[r as usize]) {
            return Some(r);
        }
    }
    None
}

// The lesser of two numbers, where there are any.
fn lesser(a: Option<u32>, b: Option<u32>) -> Option<u32>
    ensures { result ≡ lesser_of a b }
{
    match a {
        None => b,
        Some(i) => match b {
            None => a,
            Some(j) => Some(i.min(j)),
        },
    }
}

// Parts of an axis, from the first to before the end.
#[derive(Clone, Copy)]
pub(crate) struct Span {
    pub(crate) first: u32,
    pub(crate) end: u32,
}

// Which of the equal parts of the numbers from `low` to `high` meet those from `from` to `to`.
fn parts_between(parts: u32, low: i64, high: i64, from: i64, to: i64) -> Span
    requires some { 0 < parts }
    requires few { parts ≤ most_points }
    requires low_in { unsigned_abs low ≤ 10 ^ 9 }
    requires high_in { unsigned_abs high ≤ 10 ^ 9 }
    requires rising { low ≤ℤ high }
    requires from_in { unsigned_abs from ≤ 2 * 10 ^ 10 }
    requires to_in { unsigned_abs to ≤ 2 * 10 ^ 10 }
    ensures within { result.end ≤ parts }
    ensures first { (x : ℤ) → low ≤ℤ x → x ≤ℤ high → from ≤ℤ x → result.first ≤ part_of parts low high x }
    ensures end { (x : ℤ) → low ≤ℤ x → x ≤ℤ high → x ≤ℤ to → part_of parts low high x < result.end }
{
    Span {
        first: part_at(parts, low, high, brought(low, high, from)),
        end: part_at(parts, low, high, brought(low, high, to)) + 1,
    }
}

// The nearest to `x` of the numbers from `low` to `high`.
fn brought(low: i64, high: i64, x: i64) -> i64
    requires { low ≤ℤ high }
    ensures above { low ≤ℤ result }
    ensures below { result ≤ℤ high }
    ensures at_most { (y : ℤ) → low ≤ℤ y → x ≤ℤ y → result ≤ℤ y }
    ensures at_least { (y : ℤ) → y ≤ℤ high → y ≤ℤ x → y ≤ℤ result }
{
    if x < low {
        low
    } else if high < x {
        high
    } else {
        x
    }
}
