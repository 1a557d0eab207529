// Which points of a list stay, and the tests of a list that look at more than one point.
ghost use Rattle.std.specs.Prelude.{◌≡◌, ◌+◌, ◌≤◌, length, take, false, All, AllPairs, IfOk, OnOk, IsPermutation};
ghost use Rattle.std.specs.List.{list_all};
ghost use Rattle.exact_predicates.specs.Plane.{IsInRange, Precedes};
ghost use Rattle.exact_predicates.specs.Merging.{is_in_range, is_same_place, firsts, has_distinct_ids, is_flat};

use crate::point::{Point, in_range, orient};
use std::alloc::{AllocError, Global};
use std::collections::BTreeSet;

// The coordinates of a point. Places are ordered by `x` and then by `y`.
#[derive(Clone, Copy, PartialEq, Eq, PartialOrd, Ord)]
pub struct Coordinates {
    x: i64,
    y: i64,
}

impl Coordinates {
    pub fn of(p: &Point) -> Coordinates
        ensures { result ≡ record { x = p.now.x; y = p.now.y } }
    {
        Coordinates { x: p.x, y: p.y }
    }
}

// Whether no point is out of range.
pub fn are_in_range(points: &[Point]) -> bool
    ensures { result ≡ list_all is_in_range points.now }
{
    points.iter().all(in_range)
}

// Whether no two points have one id.
pub fn has_distinct_ids(alloc: Global, points: &[Point]) -> Result<bool, AllocError>
    ensures { IfOk result (λ distinct. distinct ≡ has_distinct_ids points.now) }
{
    let mut ids = BTreeSet::new(alloc);
    for p in points {
        if !ids.insert(p.id)? {
            return Ok(false);
        }
    }
    Ok(true)
}

// The points but those that have the coordinates of an earlier one, as far as there are at most
// `most` of these. One more tells that there are too many, and takes no more memory.
pub fn first_at_each_place(
    alloc: Global,
    points: &[Point],
    most: usize,
) -> Result<Vec<Point>, AllocError>
    ensures { IfOk result (λ kept. kept.items ≡ take (most + 1) (firsts points.now)) }
{
    let mut taken = BTreeSet::new(alloc);
    let mut kept = Vec::new(alloc);
    for p in points {
        if kept.len() > most {
            break;
        }
        if taken.insert(Coordinates::of(p))? {
            kept.push(*p)?;
        }
    }
    Ok(kept)
}

// Sorts points with distinct coordinates by `x` and then by `y`.
pub fn sort_by_place(points: &mut Vec<Point>) -> Result<(), AllocError>
    requires { AllPairs (λ p q. is_same_place p q ≡ false) points.old.items }
    ensures permutation { IsPermutation points.old.items points.new.items }
    ensures ascending { OnOk result (AllPairs Precedes points.new.items) }
{
    points.sort_by_key(Coordinates::of)?;
    Ok(())
}

// Whether all points lie on one line: on that of the first two, which have distinct coordinates.
pub fn is_flat(points: &[Point]) -> bool
    requires some { 2 ≤ length points.now }
    requires in_range { All IsInRange points.now }
    requires ascending { AllPairs Precedes points.now }
    ensures { result ≡ is_flat points.now }
{
    let first = &points[0];
    let second = &points[1];
    points.iter().all(|p| orient(first, second, p) == 0)
}
