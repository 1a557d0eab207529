// The candidate edges from one point, by a walk through the tree.
ghost use Rattle.std.specs.Prelude.{ℕ, ◌*◌, ◌^◌, ◌<◌, ◌≤◌, length, OnOk, IfOk, IsTrue, unsigned_abs};
ghost use Rattle.exact_predicates.specs.declared.diamond.Diamond.TheVariants.{On};
ghost use Rattle.exact_predicates.specs.Plane.{IsInRange};
ghost use Rattle.exact_predicates.specs.PointSet.{point_at};
ghost use Rattle.point_grid.specs.Frames.{IsInFrame};
ghost use Rattle.point_grid.specs.Tree.{AreSpotsOf};
ghost use Rattle.diamond_edges.specs.Rows.{AreGuesses, IsRow, IsNext, Adds};

use crate::link::is_linked;
use crate::slots::{SLOTS, gap, is_dead, note};
use exact_predicates::{Point, Points};
use mwt_base::NoMemory;
use point_grid::{BoxTree, Entry, Frame};
use std::alloc::Global;

/// The greater ends of the edges from the point `a` with a free side, ascending. What does not lie
/// near `a` is passed over in whole frames, so that for points that are spread evenly it takes about
/// as long as there are such edges, times log n.
pub(crate) fn ends_linked(
    alloc: Global,
    points: &Points,
    tree: &BoxTree,
    a: u32,
) -> Result<Vec<u32>, NoMemory>
    requires tree { AreSpotsOf points.now.points tree.now }
    requires a_in { a < length points.now.points }
    ensures { IfOk result (λ row. IsRow On points.now.points a row.items) }
{
    let mut slots = vec![in alloc; a; SLOTS]?;
    let mut row = Vec::new(alloc);
    walk(
        points,
        tree,
        a,
        0,
        tree.len(),
        slots.as_mut_slice(),
        &mut row,
    )?;
    row.sort_unstable();
    row.dedup();
    Ok(row)
}

// Adds the greater ends of such edges to spots from the entry `low` on and before `high`. The nearer
// part comes first, since near points block far edges.
fn walk(
    points: &Points,
    tree: &BoxTree,
    a: u32,
    low: usize,
    high: usize,
    slots: &mut [u32],
    row: &mut Vec<u32>,
) -> Result<(), NoMemory>
    requires tree { AreSpotsOf points.now.points tree.now }
    requires a_in { a < length points.now.points }
    requires high_in { high ≤ length tree.now }
    requires slots { AreGuesses points.now.points slots.old }
    ensures slots { AreGuesses points.now.points slots.new }
    ensures added { OnOk result (Adds points.now.points a tree.now low high row.old.items row.new.items) }
{
    if high <= low {
        return Ok(());
    }
    let Entry::Fork(frame, start) = tree.entry(high - 1) else {
        return judge(points, tree, a, low, high, slots, row);
    };
    if low < start {
        if is_nearer(points.at(a), tree, high - 1, start - 1) {
            walk(points, tree, a, start, high, slots, row)?;
            walk(points, tree, a, low, start, slots, row)?;
            return Ok(());
        }
        walk(points, tree, a, low, start, slots, row)?;
        walk(points, tree, a, start, high, slots, row)?;
        return Ok(());
    }
    if is_passed_over(points, a, slots, &frame) {
        return Ok(());
    }
    walk(points, tree, a, low, high - 1, slots, row)?;
    Ok(())
}

// Whether there is surely no such edge to a point in the frame: each is before `a`, or blocked.
fn is_passed_over(points: &Points, a: u32, slots: &[u32], frame: &Frame) -> bool
    requires a_in { a < length points.now.points }
    requires slots { AreGuesses points.now.points slots.now }
    ensures { IsTrue result → (b : ℕ) → IsInFrame frame.now (point_at points.now.points b) → ¬ IsNext On points.now.points a b }
{
    let _count = points.len();
    let p = points.at(a);
    frame.right < p.x || is_dead(points, slots, a, frame)
}

// Adds the greater ends of such edges to spots of these entries, one by one.
fn judge(
    points: &Points,
    tree: &BoxTree,
    a: u32,
    low: usize,
    high: usize,
    slots: &mut [u32],
    row: &mut Vec<u32>,
) -> Result<(), NoMemory>
    requires tree { AreSpotsOf points.now.points tree.now }
    requires a_in { a < length points.now.points }
    requires high_in { high ≤ length tree.now }
    requires slots { AreGuesses points.now.points slots.old }
    ensures slots { AreGuesses points.now.points slots.new }
    ensures added { OnOk result (Adds points.now.points a tree.now low high row.old.items row.new.items) }
{
    for k in low..high {
        if let Entry::Leaf(spot) = tree.entry(k) {
            note(points, a, spot.number, slots);
        }
    }
    for k in low..high {
        if let Entry::Leaf(spot) = tree.entry(k) {
            if a < spot.number && is_linked(points, tree, slots, a, spot.number) {
                row.push(spot.number)?;
            }
        }
    }
    Ok(())
}

// Whether one entry is nearer to `p` than another, or about as near: a guess.
fn is_nearer(p: &Point, tree: &BoxTree, k: usize, l: usize) -> bool
    requires p_in { IsInRange p.now }
    requires k_in { k < length tree.now }
    requires l_in { l < length tree.now }
{
    distance(p, &tree.entry(k)) <= distance(p, &tree.entry(l))
}

// About how far an entry is.
fn distance(p: &Point, entry: &Entry) -> i64
    requires p_in { IsInRange p.now }
    ensures { unsigned_abs result ≤ 8 * 10 ^ 9 }
{
    match entry {
        Entry::Leaf(spot) => gap(p.x, spot.point.x, spot.point.x)
            + gap(p.y, spot.point.y, spot.point.y),
        Entry::Fork(frame, _) => gap(p.x, frame.left, frame.right)
            + gap(p.y, frame.low, frame.high),
    }
}
