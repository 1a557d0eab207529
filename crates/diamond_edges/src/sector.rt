// Directions, 32 in all, counter-clockwise from that of x. They serve guesses, and no result depends on them.
ghost use Rattle.std.specs.Prelude.{◌<◌, ◌≤◌, ◌*◌, ◌^◌, unsigned_abs};
ghost use Rattle.exact_predicates.specs.Plane.{IsInRange};

use exact_predicates::Point;
use point_grid::Frame;

// The direction of a vector.
fn sector(x: i64, y: i64) -> usize
    requires x_in { unsigned_abs x ≤ 4 * 10 ^ 9 }
    requires y_in { unsigned_abs y ≤ 4 * 10 ^ 9 }
    ensures { result < 32 }
{
    let width = x.unsigned_abs();
    let height = y.unsigned_abs();
    let steep = eighth(width.min(height), width.max(height));
    let quarter = if width < height { 7 - steep } else { steep };
    let half = if x < 0 { 15 - quarter } else { quarter };
    if y < 0 { 31 - half } else { half }
}

// Which part of an eighth of all directions it is.
fn eighth(low: u64, high: u64) -> usize
    requires low_in { low ≤ 4 * 10 ^ 9 }
    requires high_in { high ≤ 4 * 10 ^ 9 }
    ensures { result < 4 }
{
    if 4 * low < high {
        0
    } else if 2 * low < high {
        1
    } else if 4 * low < 3 * high {
        2
    } else {
        3
    }
}

/// The direction in which `q` is seen from `p`.
pub(crate) fn direction(p: &Point, q: &Point) -> usize
    requires p_in { IsInRange p.now }
    requires q_in { IsInRange q.now }
    ensures { result < 32 }
{
    sector(q.x - p.x, q.y - p.y)
}

/// The direction in which a frame is seen from `p`.
pub(crate) fn direction_of_frame(p: &Point, frame: &Frame) -> usize
    requires p_in { IsInRange p.now }
    ensures { result < 32 }
{
    sector(
        frame.left + frame.right - 2 * p.x,
        frame.low + frame.high - 2 * p.y,
    )
}
