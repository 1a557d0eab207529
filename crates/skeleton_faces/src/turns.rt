// The side after each side.
ghost use Rattle.std.specs.Prelude.{◌≡◌, ◌≢◌, ◌^◌, ◌*◌, ◌≤◌, ◌<◌, ℕ, length, All, AllPairs, IfOk, slice_index};
ghost use Rattle.skeleton_faces.specs.Sides.{side_start};
ghost use Rattle.skeleton_faces.specs.Turning.{AreLinked, IsBefore, StartsRise};

use crate::sides::{other_side, start};
use exact_predicates::Edge;
use std::alloc::{AllocError, Global};

// The place of the last side with the start of that at `place`.
fn last_round(edges: &[Edge], order: &[usize], place: usize) -> usize
    requires each { All (λ s. s < 2 * length edges.now) order.now }
    requires rise { StartsRise edges.now order.now }
    requires place_in { place < length order.now }
    ensures in_range { result < length order.now }
    ensures one_start { side_start edges.now (slice_index order.now result) ≡ side_start edges.now (slice_index order.now place) }
    ensures last { (k : ℕ) → result < k → k < length order.now → side_start edges.now (slice_index order.now k) ≢ side_start edges.now (slice_index order.now place) }
{
    let from = start(edges, order[place]);
    let mut last = place;
    while last + 1 < order.len() && start(edges, order[last + 1]) == from {
        last += 1;
    }
    last
}

// The place of the side before that at `place`, going round their start to the left.
fn before(edges: &[Edge], order: &[usize], place: usize) -> usize
    requires each { All (λ s. s < 2 * length edges.now) order.now }
    requires rise { StartsRise edges.now order.now }
    requires place_in { place < length order.now }
    ensures { IsBefore edges.now order.now place result }
{
    if place > 0 && start(edges, order[place - 1]) == start(edges, order[place]) {
        place - 1
    } else {
        last_round(edges, order, place)
    }
}

/// Of each side, the one after it: turning clockwise at its end, the first one that leaves.
pub(crate) fn nexts(
    alloc: Global,
    edges: &[Edge],
    order: &[usize],
) -> Result<Vec<usize>, AllocError>
    requires few { length edges.now < 2 ^ 32 }
    requires count { length order.now ≡ 2 * length edges.now }
    requires each { All (λ s. s < 2 * length edges.now) order.now }
    requires distinct { AllPairs (λ s t. s ≢ t) order.now }
    requires rise { StartsRise edges.now order.now }
    ensures { IfOk result (λ nexts. AreLinked edges.now order.now nexts.items) }
{
    let mut nexts = Vec::from_elem(alloc, 0, order.len())?;
    for place in 0..order.len() {
        nexts[other_side(order[place])] = order[before(edges, order, place)];
    }
    Ok(nexts)
}
