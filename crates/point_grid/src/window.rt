// A part of the plane between two points of the order and two heights.
ghost use Rattle.std.specs.Prelude.{◌↔◌, ◌<◌, ◌≤◌, ◌≤ℤ◌, IsTrue};
ghost use Rattle.point_grid.specs.Gathered.{HasSpot};

use crate::spot::Spot;
use exact_predicates::Point;

/// The points with the numbers from `from` to before `to`, which rise in `x`, as far as their `y` is
/// from `low` to `high`.
#[derive(Clone, Copy)]
pub struct Window {
    pub from: u32,
    pub to: u32,
    pub low: i64,
    pub high: i64,
}

impl Window {
    /// Whether the spot lies in the window.
    pub(crate) fn has(&self, s: &Spot) -> bool
        ensures { IsTrue result ↔ HasSpot self.now s.now }
    {
        self.has_number(s.number) && self.reaches(&s.point)
    }

    // Whether the number is one of those of the window.
    fn has_number(&self, number: u32) -> bool
        ensures { IsTrue result ↔ ((self.now.from ≤ number) × (number < self.now.to)) }
    {
        self.from <= number && number < self.to
    }

    // Whether the height of a point is within those of the window.
    fn reaches(&self, p: &Point) -> bool
        ensures { IsTrue result ↔ ((self.now.low ≤ℤ p.now.y) × (p.now.y ≤ℤ self.now.high)) }
    {
        self.low <= p.y && p.y <= self.high
    }
}
