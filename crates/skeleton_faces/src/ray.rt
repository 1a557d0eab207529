// A side of an edge as it is seen from its start.
ghost use Rattle.std.specs.Prelude.{◌≡◌, ◌*◌, ◌^◌, ◌≤◌, pos, ◌-ℤ◌, ◌≤ℤ◌, ◌<ℤ◌, unsigned_abs};
ghost use Rattle.exact_predicates.specs.Plane.{IsInRange, Precedes};

use exact_predicates::Point;

/// A side of an edge as it is seen from its start. The side `2 * e` goes along the edge e from its
/// lesser end to its greater, the side `2 * e + 1` backward.
#[derive(Clone, Copy)]
pub(crate) struct Ray {
    pub(crate) from: u32,
    pub(crate) backward: bool,
    // How far the edge's greater end is to the right of its lesser end, and how far up.
    pub(crate) width: i64,
    pub(crate) height: i64,
    pub(crate) side: usize,
    ghost narrow: { unsigned_abs width ≤ 2 * 10 ^ 9 },
    ghost low: { unsigned_abs height ≤ 2 * 10 ^ 9 },
    ghost rightwards: { pos 0 ≤ℤ width },
    ghost or_up: { width ≡ pos 0 → pos 0 <ℤ height },
}

impl Ray {
    /// The side with this number of the edge from `a` to `b`, which begins at the point `from`.
    pub(crate) fn of(a: &Point, b: &Point, from: u32, backward: bool, side: usize) -> Ray
        requires a_in { IsInRange a.now }
        requires b_in { IsInRange b.now }
        requires later { Precedes a.now b.now }
        ensures from { result.from ≡ from }
        ensures backward { result.backward ≡ backward }
        ensures width { result.width ≡ b.now.x -ℤ a.now.x }
        ensures height { result.height ≡ b.now.y -ℤ a.now.y }
        ensures side { result.side ≡ side }
    {
        Ray {
            from,
            backward,
            width: b.x - a.x,
            height: b.y - a.y,
            side,
        }
    }
}
