// A later point as it is seen from a given one.
ghost use Rattle.std.specs.Prelude.{◌≡◌, ◌*◌, ◌^◌, ◌≤◌, pos, ◌-ℤ◌, ◌≤ℤ◌, ◌<ℤ◌, unsigned_abs};
ghost use Rattle.exact_predicates.specs.Plane.{IsInRange, Precedes};

use exact_predicates::Point;

/// A later point as it is seen from a given one: how far it is to the right and how far up.
#[derive(Clone, Copy)]
pub(crate) struct Sight {
    pub(crate) width: i64,
    pub(crate) height: i64,
    pub(crate) number: u32,
    ghost narrow: { unsigned_abs width ≤ 2 * 10 ^ 9 },
    ghost low: { unsigned_abs height ≤ 2 * 10 ^ 9 },
    ghost rightwards: { pos 0 ≤ℤ width },
    ghost or_up: { width ≡ pos 0 → pos 0 <ℤ height },
}

impl Sight {
    /// The point `to` with this number, as it is seen from `from`.
    pub(crate) fn of(from: &Point, to: &Point, number: u32) -> Sight
        requires from_in { IsInRange from.now }
        requires to_in { IsInRange to.now }
        requires later { Precedes from.now to.now }
        ensures number { result.number ≡ number }
        ensures width { result.width ≡ to.now.x -ℤ from.now.x }
        ensures height { result.height ≡ to.now.y -ℤ from.now.y }
    {
        Sight {
            width: to.x - from.x,
            height: to.y - from.y,
            number,
        }
    }
}
