// The two ends between which a sum of lengths lies.
ghost use Rattle.std.specs.Prelude.{◌+◌, ◌*◌, ◌^◌, ◌<◌, ◌≤◌, [], ◌∷◌, length};
ghost use Rattle.length_enclosure.specs.Enclosure.{IsLonger};

use crate::root::{is_square, weight};
use exact_predicates::{Points, d2};

/// The two ends between which the length of a list of edges lies, in millionths of the unit.
#[derive(Clone, Copy, PartialEq, Eq, Debug)]
pub struct Enclosure {
    /// The sum of the edges' lengths, each rounded down to a whole millionth.
    pub lo: u128,
    /// The same, with a millionth more for each edge that is no whole number of units long.
    pub hi: u128,
}

// What is counted when the edge from `u` to `v` is counted too.
pub fn with_edge(so_far: Enclosure, points: &Points, u: u32, v: u32) -> Enclosure
    requires u_in { u < length points.now.points }
    requires v_in { v < length points.now.points }
    requires ordered { so_far.lo ≤ so_far.hi }
    requires room { so_far.hi ≤ 2 ^ 120 }
    ensures longer { IsLonger points.now.points ((u, v) ∷ []) so_far result }
    ensures bound { result.hi ≤ so_far.hi + 3 * 10 ^ 15 }
{
    let d2 = d2(points.at(u), points.at(v));
    let down = u128::from(weight(d2));
    let up = if is_square(d2) { down } else { down + 1 };
    Enclosure {
        lo: so_far.lo + down,
        hi: so_far.hi + up,
    }
}
