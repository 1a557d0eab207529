// Which points a point sees.
ghost use Rattle.std.specs.Prelude.{◌<◌, length, IfOk};
ghost use Rattle.exact_predicates.specs.declared.diamond.Diamond.TheVariants.{Off};
ghost use Rattle.diamond_edges.specs.Enumeration.{MarksSeen, AreNumbersBetween};
ghost use Rattle.diamond_edges.specs.Rows.{IsRow};

use exact_predicates::Points;
use mwt_base::NoMemory;
use point_grid::{SightList, by_direction, is_first_on_ray};
use std::alloc::Global;

/// The points after `a` that it sees, ascending. For n points it takes time n log n: those that `a`
/// sees are the first on each ray.
pub(crate) fn ends_seen(alloc: Global, points: &Points, a: u32) -> Result<Vec<u32>, NoMemory>
    requires { a < length points.now.points }
    ensures { IfOk result (λ ends. IsRow Off points.now.points a ends.items) }
{
    let count = points.len();
    let seen = seen_from(alloc, points, a)?;
    let mut ends = Vec::new(alloc);
    for b in a + 1..count {
        if seen[b as usize] {
            ends.push(b)?;
        }
    }
    Ok(ends)
}

// A mark for each point, which says for those after `a` whether no point is between.
fn seen_from(alloc: Global, points: &Points, a: u32) -> Result<Vec<bool>, NoMemory>
    requires { a < length points.now.points }
    ensures { IfOk result (λ marks. MarksSeen points.now.points a marks.items) }
{
    let count = points.len();
    let later = numbers_after(alloc, a, count)?;
    let mut sights = SightList::none(alloc);
    let order = by_direction(alloc, points, a, &later, &mut sights)?;
    let mut marks = vec![in alloc; false; count as usize]?;
    for k in 0..order.len() {
        marks[order[k] as usize] = is_first_on_ray(points, a, &order, k);
    }
    Ok(marks)
}

// The numbers after `a` and below `count`.
fn numbers_after(alloc: Global, a: u32, count: u32) -> Result<Vec<u32>, NoMemory>
    requires { a < count }
    ensures { IfOk result (λ numbers. AreNumbersBetween a count numbers.items) }
{
    let mut numbers = Vec::new(alloc);
    for b in a + 1..count {
        numbers.push(b)?;
    }
    Ok(numbers)
}
