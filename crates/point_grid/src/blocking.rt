// Points that block a side of an edge.
ghost use Rattle.std.specs.Prelude.{◌≡◌, ◌*◌, ◌^◌, ◌≤◌, ◌-ℤ◌, MatchOption, IsTrue, unsigned_abs};
ghost use Rattle.exact_predicates.specs.Blocking.{Blocks};
ghost use Rattle.exact_predicates.specs.Plane.{IsInRange};
ghost use Rattle.point_grid.specs.Blockers.{HasNoBlocker, IsBlocker};
ghost use Rattle.point_grid.specs.Frames.{IsInFrame};

use crate::box_tree::BoxTree;
use crate::flat::{is_flat_over, may_be_flat};
use crate::frame::{Frame, Turn};
use crate::framing::seen_from;
use crate::spot::{Entry, Spot};
use exact_predicates::{Point, blocks};

// How far `q` is to the right of `p`.
fn width(p: &Point, q: &Point) -> i64
    requires p_in { IsInRange p.now }
    requires q_in { IsInRange q.now }
    ensures value { result ≡ q.now.x -ℤ p.now.x }
    ensures bound { unsigned_abs result ≤ 2 * 10 ^ 9 }
{
    q.x - p.x
}

// How far `q` is above `p`.
fn height(p: &Point, q: &Point) -> i64
    requires p_in { IsInRange p.now }
    requires q_in { IsInRange q.now }
    ensures value { result ≡ q.now.y -ℤ p.now.y }
    ensures bound { unsigned_abs result ≤ 2 * 10 ^ 9 }
{
    q.y - p.y
}

// Whether a point in the frame may block the left side of `p` to `q`.
fn may_block(p: &Point, q: &Point, frame: &Frame) -> bool
    requires p_in { IsInRange p.now }
    requires q_in { IsInRange q.now }
    ensures { (r : Point) → IsInFrame frame.now r → Blocks p.now q.now r → IsTrue result }
{
    let turn = Turn {
        u: height(q, p),
        v: width(p, q),
        x: width(p, q),
        y: height(p, q),
    };
    may_be_flat(&turn, &seen_from(frame, p))
}

/// Whether `w` surely blocks the left side of `p` to each point in the frame.
pub fn blocks_left_of_all(p: &Point, w: &Point, frame: &Frame) -> bool
    requires p_in { IsInRange p.now }
    requires w_in { IsInRange w.now }
    ensures { IsTrue result → (q : Point) → IsInFrame frame.now q → Blocks p.now q w.now }
{
    let turn = Turn {
        u: height(p, w),
        v: width(w, p),
        x: width(p, w),
        y: height(p, w),
    };
    is_flat_over(&turn, &seen_from(frame, p))
}

/// Whether `w` surely blocks the left side of each point in the frame to `p`.
pub fn blocks_right_of_all(p: &Point, w: &Point, frame: &Frame) -> bool
    requires p_in { IsInRange p.now }
    requires w_in { IsInRange w.now }
    ensures { IsTrue result → (q : Point) → IsInFrame frame.now q → Blocks q p.now w.now }
{
    let turn = Turn {
        u: height(w, p),
        v: width(p, w),
        x: width(p, w),
        y: height(p, w),
    };
    is_flat_over(&turn, &seen_from(frame, p))
}

impl BoxTree {
    /// A spot that blocks the left side of `p` to `q`, or none.
    pub fn blocker(&self, p: &Point, q: &Point) -> Option<Spot>
        requires p_in { IsInRange p.now }
        requires q_in { IsInRange q.now }
        ensures { MatchOption result (HasNoBlocker self.now p.now q.now) (IsBlocker self.now p.now q.now) }
    {
        let mut end = self.entries.len();
        while end > 0 {
            match self.entries[end - 1] {
                Entry::Leaf(spot) => {
                    if blocks(p, q, &spot.point) {
                        return Some(spot);
                    }
                    end -= 1;
                }
                Entry::Fork(frame, start) => {
                    end = if may_block(p, q, &frame) {
                        end - 1
                    } else {
                        start
                    };
                }
            }
        }
        None
    }
}
