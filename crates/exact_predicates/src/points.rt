// The points of a problem.
ghost use Rattle.std.specs.Prelude.{◌≡◌, ◌<◌, ◌-◌, ℕ, length, IfOk, IfErr};
ghost use Rattle.exact_predicates.specs.Merging.{IsMadeFrom, points_code};

use crate::lists::PointList;
use crate::point::Point;
use crate::staying::{are_in_range, first_at_each_place, has_distinct_ids, is_flat, sort_by_place};
use std::alloc::{AllocError, Global};
use std::marker::Model;
use thiserror::Error;

const FEWEST_POINTS: usize = 3;

const MOST_POINTS: usize = 10_000;

/// From 3 to 10,000 points in range, with distinct ids and distinct coordinates, not all on one
/// line. They are numbered from 0 in the order of `x` and then `y`.
#[derive(Drop)]
pub struct Points {
    items: Vec<Point>,
    merged: u32,
}

impl Model for Points {
    ghost use Rattle.exact_predicates.specs.PointSet.{PointSet, IsPointSet};

    ghost Value = { PointSet };

    ghost view = { λ p. record { points = p.items.items; merged = p.merged } };

    ghost invariant = { λ p. IsPointSet p.items.items };
}

/// Why a list of points is refused: the first of these rules that it breaks, by its number. Or want
/// of memory.
#[derive(Clone, Copy, Debug, PartialEq, Eq, Error)]
pub enum PointsStop {
    #[error("the points break rule {0}")]
    Refused(u32),
    #[error("out of memory")]
    NoMemory,
}

impl PointsStop {
    /// A coordinate is above 10^9 in size.
    pub const OUT_OF_RANGE: PointsStop = PointsStop::Refused(4);
    /// Two points have one id.
    pub const REPEATED_ID: PointsStop = PointsStop::Refused(5);
    /// More than 10,000 points have coordinates of their own.
    pub const TOO_MANY: PointsStop = PointsStop::Refused(2);
    /// Fewer than 3 points have coordinates of their own.
    pub const TOO_FEW: PointsStop = PointsStop::Refused(1);
    /// All points lie on one line.
    pub const FLAT: PointsStop = PointsStop::Refused(3);
}

impl From<AllocError> for PointsStop {
    ghost use Rattle.exact_predicates.specs.declared.points.PointsStop.TheVariants.{NoMemory};

    ghost from_gives = { λ _ stop. stop ≡ NoMemory };

    fn from(_: AllocError) -> Self {
        PointsStop::NoMemory
    }
}

// The points of a list that stay, in order.
fn in_order(alloc: Global, points: &[Point]) -> Result<Vec<Point>, PointsStop>
    ensures made { IfOk result (λ kept. IsMadeFrom points.now
        (record { points = kept.items; merged = length points.now - length kept.items })) }
    ensures refused { IfErr result (λ stop. (code : ℕ) → stop ≡ PointsStop.Refused code →
        points_code points.now ≡ Some code) }
{
    if !are_in_range(points) {
        return Err(PointsStop::OUT_OF_RANGE);
    }
    if !has_distinct_ids(alloc, points)? {
        return Err(PointsStop::REPEATED_ID);
    }
    let mut kept = first_at_each_place(alloc, points, MOST_POINTS)?;
    if kept.len() > MOST_POINTS {
        return Err(PointsStop::TOO_MANY);
    }
    if kept.len() < FEWEST_POINTS {
        return Err(PointsStop::TOO_FEW);
    }
    sort_by_place(&mut kept)?;
    if is_flat(&kept) {
        return Err(PointsStop::FLAT);
    }
    Ok(kept)
}

impl Points {
    /// The points of a list. Of equal coordinates the first in the list stays. For n points it takes
    /// time n log n.
    pub fn new(alloc: Global, list: PointList) -> Result<Points, PointsStop>
        ensures made { IfOk result (λ points. IsMadeFrom list points) }
        ensures refused { IfErr result (λ stop. (code : ℕ) → stop ≡ PointsStop.Refused code →
            points_code list ≡ Some code) }
    {
        let items = in_order(alloc, list.as_slice())?;
        let merged = list.len() - items.len() as u32;
        Ok(Points { items, merged })
    }

    ghost use Rattle.exact_predicates.specs.Plane.{IsInRange};
    ghost use Rattle.exact_predicates.specs.PointSet.{IsPointSet, point_at};

    /// How many points there are.
    pub fn len(&self) -> u32
        ensures value { result ≡ length self.now.points }
        ensures valid { IsPointSet self.now.points }
    {
        self.items.len() as u32
    }

    /// The point with this number.
    pub fn at(&self, i: u32) -> &Point
        requires { i < length self.now.points }
        ensures value { result.now ≡ point_at self.now.points i }
        ensures in_range { IsInRange result.now }
    {
        &self.items[i as usize]
    }

    /// The points in their order.
    pub fn as_slice(&self) -> &[Point]
        ensures is { result.now ≡ self.now.points }
        ensures valid { IsPointSet self.now.points }
    {
        &self.items
    }

    /// How many points of the list were dropped since an earlier one has their coordinates.
    pub fn merged(&self) -> u32
        ensures { result ≡ self.now.merged }
    {
        self.merged
    }
}
