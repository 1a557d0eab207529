// Points in a tree of frames.
ghost use Rattle.std.specs.Prelude.{◌≡◌, ◌+◌, ◌<◌, length, vec_len, IfOk, OnOk, Contains, slice_index_or};
ghost use Rattle.point_grid.specs.Numbered.{AreNumbered};
ghost use Rattle.point_grid.specs.Tree.{AreFramed, AreSpotsOf, Grows, IsHeadOrAmong};

use crate::frame::Frame;
use crate::framing::frame_around;
use crate::spot::{Entry, Spot};
use exact_predicates::{Point, Points};
use mwt_base::NoMemory;
use std::alloc::Global;
use std::marker::Model;

// Fewer spots than these are not parted.
const FEW: usize = 8;

/// Points in a tree of frames, in the order of places near one another. Each frame comes after
/// the entries that it has.
#[derive(Drop)]
pub struct BoxTree {
    pub(crate) entries: Vec<Entry>,
}

impl Model for BoxTree {
    ghost use Rattle.std.specs.Prelude.{List};
    ghost use Rattle.point_grid.specs.declared.spot.Entry.{Entry};
    ghost use Rattle.point_grid.specs.Tree.{AreFramed};

    ghost Value = { List Entry };

    ghost view = { λ t. t.entries.items };

    ghost invariant = { λ t. AreFramed t.entries.items };
}

impl BoxTree {
    /// A tree of these points. For n points it takes time n log n.
    pub fn new(alloc: Global, points: &Points) -> Result<BoxTree, NoMemory>
        ensures { IfOk result (λ tree. AreSpotsOf points.now.points tree) }
    {
        let mut spots = spots_of(alloc, points)?;
        let mut entries = Vec::new(alloc);
        let head = spots[0];
        grow(&mut entries, &head, &mut spots[1..])?;
        Ok(BoxTree { entries })
    }

    /// How many entries there are.
    pub fn len(&self) -> usize
        ensures value { result ≡ length self.now }
        ensures framed { AreFramed self.now }
    {
        self.entries.len()
    }

    /// The entry at a place.
    pub fn entry(&self, k: usize) -> Entry
        requires { k < length self.now }
        ensures value { result ≡ slice_index_or self.now k result }
        ensures framed { AreFramed self.now }
    {
        self.entries[k]
    }
}

// The points with their numbers.
fn spots_of(alloc: Global, points: &Points) -> Result<Vec<Spot>, NoMemory>
    ensures numbered { IfOk result (λ spots. AreNumbered points.now.points spots.items) }
    ensures some { IfOk result (λ spots. 0 < vec_len spots) }
{
    let count = points.len();
    let mut spots = Vec::new(alloc);
    for number in 0..count {
        let point = *points.at(number);
        spots.push(Spot { number, point })?;
    }
    Ok(spots)
}

// Adds a tree of the spot `head` and the others. Their order is free: they are parted where they are
// near one another, across the wider side of their frame.
fn grow(entries: &mut Vec<Entry>, head: &Spot, others: &mut [Spot]) -> Result<(), NoMemory>
    requires framed { AreFramed entries.old.items }
    ensures { OnOk result (Grows entries.old.items entries.new.items (IsHeadOrAmong head.now others.old)) }
{
    let start = entries.len();
    let frame = frame_around(head, others);
    if others.len() < FEW {
        entries.push(Entry::Leaf(*head))?;
        push_leaves(entries, others)?;
    } else {
        let middle = others.len() / 2;
        let is_wide = is_wide(&frame);
        let (near, pivot, far) = others.select_nth_unstable_by_key(
            middle,
            |s| across(&s.point, is_wide),
        );
        if across(&head.point, is_wide) < across(&pivot.point, is_wide) {
            grow(entries, head, near)?;
            grow(entries, pivot, far)?;
        } else {
            grow(entries, pivot, near)?;
            grow(entries, head, far)?;
        }
    }
    entries.push(Entry::Fork(frame, start))?;
    Ok(())
}

// Adds the spots as they come.
fn push_leaves(entries: &mut Vec<Entry>, spots: &[Spot]) -> Result<(), NoMemory>
    requires framed { AreFramed entries.old.items }
    ensures { OnOk result (Grows entries.old.items entries.new.items (Contains spots.now)) }
{
    for s in spots {
        entries.push(Entry::Leaf(*s))?;
    }
    Ok(())
}

// Whether the frame is at least as wide as high.
fn is_wide(frame: &Frame) -> bool {
    frame.high - frame.low <= frame.right - frame.left
}

// The coordinate by which a wide frame is parted, or another.
fn across(p: &Point, is_wide: bool) -> i64 {
    if is_wide { p.x } else { p.y }
}
