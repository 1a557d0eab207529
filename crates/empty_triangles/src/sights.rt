// Which of the first points on rays see each other past those between.
ghost use Rattle.std.specs.Prelude.{◌≡◌, ◌≢◌, ◌↔◌, ◌<◌, ◌≤◌, ℕ, IsTrue, All, length, slice_index, IfOk, OnOk};
ghost use Rattle.exact_predicates.specs.PointSet.{IsPointSet};
ghost use Rattle.empty_triangles.specs.Rays.{AreTurning, IsAhead, IsSeen, AreSeen, AreLists, IsNext};

use exact_predicates::Points;
use mwt_base::NoMemory;
use point_grid::is_left;
use std::alloc::Global;

/// For each of the first places of `heads`, which go round `a` to the right, the earlier places that it
/// sees past all between, falling. There are lists for all places, or for so many that these hold `most`
/// places. The time is that of a bisection for each of them.
pub(crate) fn seen_places(
    alloc: Global,
    points: &Points,
    a: u32,
    heads: &[u32],
    most: usize,
) -> Result<Vec<Vec<usize>>, NoMemory>
    requires points { IsPointSet points.now.points }
    requires a_in { a < length points.now.points }
    requires heads { AreTurning points.now.points a heads.now }
    ensures { IfOk result (λ seen. AreLists points.now.points heads.now (length seen.items) seen.items) }
{
    let mut seen = Vec::new(alloc);
    let mut room = most;
    for j in 0..heads.len() {
        if room == 0 {
            return Ok(seen);
        }
        let places = seen_from(alloc, points, a, heads, &seen, j)?;
        room = room.saturating_sub(places.len());
        seen.push(places)?;
    }
    Ok(seen)
}

// Those that the place `j` sees. What comes next after `k` is seen from `k` too.
fn seen_from(
    alloc: Global,
    points: &Points,
    a: u32,
    heads: &[u32],
    seen: &[Vec<usize>],
    j: usize,
) -> Result<Vec<usize>, NoMemory>
    requires points { IsPointSet points.now.points }
    requires a_in { a < length points.now.points }
    requires heads { AreTurning points.now.points a heads.now }
    requires seen { AreLists points.now.points heads.now j seen.now }
    requires j_in { j < length heads.now }
    ensures { IfOk result (λ places. AreSeen points.now.points heads.now j places.items) }
{
    let mut places = Vec::new(alloc);
    if j == 0 {
        return Ok(places);
    }
    let mut k = j - 1;
    loop {
        places.push(k)?;
        match next_seen(points, a, heads, &seen[k], j, k) {
            Some(i) => k = i,
            None => return Ok(places),
        }
    }
}

// The greatest place before `k` that `j` sees, where `j` sees `k`: one of those that `k` sees.
fn next_seen(
    points: &Points,
    a: u32,
    heads: &[u32],
    places: &[usize],
    j: usize,
    k: usize,
) -> Option<usize>
    requires points { IsPointSet points.now.points }
    requires a_in { a < length points.now.points }
    requires heads { AreTurning points.now.points a heads.now }
    requires places { AreSeen points.now.points heads.now k places.now }
    requires j_in { j < length heads.now }
    requires k_seen { IsSeen points.now.points heads.now k j }
    ensures { IsNext points.now.points heads.now j k result }
{
    let at = first_ahead(points, heads, places, j, k);
    if at < places.len() {
        Some(places[at])
    } else {
        None
    }
}

// The first of the places that is ahead of `k`, seen from `j`, or their end; those ahead come last.
fn first_ahead(points: &Points, heads: &[u32], places: &[usize], j: usize, k: usize) -> usize
    requires heads_in { All (λ b. b < length points.now.points) heads.now }
    requires j_in { j < length heads.now }
    requires k_in { k < length heads.now }
    requires places_in { All (λ i. i < length heads.now) places.now }
    requires rising { (s t : ℕ) → s < t → t < length places.now → IsAhead points.now.points heads.now j k (slice_index places.now s) →
        IsAhead points.now.points heads.now j k (slice_index places.now t) }
    ensures within { result ≤ length places.now }
    ensures before { (s : ℕ) → s < result → ¬ IsAhead points.now.points heads.now j k (slice_index places.now s) }
    ensures after { (s : ℕ) → result ≤ s → s < length places.now → IsAhead points.now.points heads.now j k (slice_index places.now s) }
{
    let mut from = 0;
    let mut to = places.len();
    while from < to {
        let middle = from + (to - from) / 2;
        if is_left(points, heads[j], heads[k], heads[places[middle]]) {
            to = middle;
        } else {
            from = middle + 1;
        }
    }
    from
}

/// Puts the places that the place `j` sees past all between, falling, in place of what was there, by one
/// pass over those before it.
pub(crate) fn fill_seen(
    points: &Points,
    a: u32,
    heads: &[u32],
    j: usize,
    places: &mut Vec<usize>,
) -> Result<(), NoMemory>
    requires points { IsPointSet points.now.points }
    requires a_in { a < length points.now.points }
    requires heads { AreTurning points.now.points a heads.now }
    requires j_in { j < length heads.now }
    ensures { OnOk result (AreSeen points.now.points heads.now j places.new.items) }
{
    places.clear();
    let mut last = j;
    for i in (0..j).rev() {
        if is_seen_after(points, heads, j, last, i) {
            places.push(i)?;
            last = i;
        }
    }
    Ok(())
}

// Whether the place `i` is ahead of the last one that `j` sees, or there is none yet, where `last` is `j`.
fn is_seen_after(points: &Points, heads: &[u32], j: usize, last: usize, i: usize) -> bool
    requires heads_in { All (λ b. b < length points.now.points) heads.now }
    requires j_in { j < length heads.now }
    requires last_in { last < length heads.now }
    requires i_in { i < length heads.now }
    ensures { IsTrue result ↔ (last ≢ j → IsAhead points.now.points heads.now j last i) }
{
    last == j || is_left(points, heads[j], heads[last], heads[i])
}
