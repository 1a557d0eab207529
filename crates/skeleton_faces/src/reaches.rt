// How far live triangles reach round their corners.
ghost use Rattle.std.specs.Prelude.{◌≡◌, ◌↔◌, ◌⊎◌, ℕ, ◌<◌, ◌+◌, ◌-◌, true, false, length, replicate, IfOk, IsTrue, max, slice_index, slice_index_or, slice_set};
ghost use Rattle.lmt_network.specs.Network.{IsNetwork};
ghost use Rattle.skeleton_faces.specs.Reaches.{ArePlaces, AreReaches, IsLiveTri};

use exact_predicates::{Points, Tri};
use lmt_network::{Flags, Network};
use std::alloc::{AllocError, Global};

// Which edges of an order live triangles have in their angles, of the edges from a corner to greater
// points. Such edges go round their corner in the order, so that a triangle has those between two
// places in its angle, or those before or after one place.
#[derive(Drop)]
pub(crate) struct Reaches {
    // Of each place, the farthest one such that a triangle has the places between in its angle.
    pub(crate) spans: Vec<usize>,
    // Of each corner, the farthest place such that a triangle has those before it in its angle.
    pub(crate) heads: Vec<usize>,
    // Of each corner, how many places are left at the first one such that a triangle has those after
    // it in its angle.
    pub(crate) tails: Vec<usize>,
}

// Whether the three sides of the triangle are live.
pub(crate) fn is_live(net: &Network, flags: &Flags, t: u32) -> bool
    requires one_each { length flags.now ≡ length net.now.edges }
    requires t_in { t < length net.now.tris }
    requires network { IsNetwork net.now }
    ensures { IsTrue result ↔ IsLiveTri net.now flags.now t }
{
    let [ab, bc, ca] = net.sides(t);
    flags.live(ab) && flags.live(bc) && flags.live(ca)
}

// Raises the entry of the key to the value.
fn raise(table: &mut [usize], key: usize, value: usize)
    requires { key < length table.old }
    ensures { table.new ≡ slice_set table.old key (max (slice_index table.old key) value) }
{
    table[key] = table[key].max(value);
}

impl Reaches {
    // Those of no triangle.
    fn none(alloc: Global, places: usize, points: usize) -> Result<Reaches, AllocError>
        ensures spans { IfOk result (λ reaches. reaches.spans.items ≡ replicate places 0) }
        ensures heads { IfOk result (λ reaches. reaches.heads.items ≡ replicate points 0) }
        ensures tails { IfOk result (λ reaches. reaches.tails.items ≡ replicate points 0) }
    {
        Ok(Reaches {
            spans: Vec::from_elem(alloc, 0, places)?,
            heads: Vec::from_elem(alloc, 0, points)?,
            tails: Vec::from_elem(alloc, 0, points)?,
        })
    }

    // Takes one more triangle.
    fn take(&mut self, net: &Network, flags: &Flags, places: &[usize], t: u32)
        requires one_each { length flags.now ≡ length net.now.edges }
        requires network { IsNetwork net.now }
        requires t_in { t < length net.now.tris }
        requires place_each { length places.now ≡ length net.now.edges }
        requires places_in { (e : ℕ) → slice_index_or flags.now e false ≡ true → slice_index places.now e < length self.old.spans.items }
        requires so_far { AreReaches net.now flags.now places.now (length self.old.spans.items) t self.old }
        ensures { AreReaches net.now flags.now places.now (length self.old.spans.items) (t + 1) self.new }
    {
        if !is_live(net, flags, t) {
            return;
        }
        let Tri { b, c, .. } = net.tri(t);
        let [ab, bc, ca] = net.sides(t);
        raise(&mut self.spans, places[ab as usize], places[ca as usize]);
        let place = places[bc as usize];
        if b < c {
            let left_over = self.spans.len() - place;
            raise(&mut self.tails, b as usize, left_over);
        } else {
            raise(&mut self.heads, c as usize, place);
        }
    }

    /// Whether a triangle has the edge at the place in its angle at the point `from`, where `far` is
    /// the farthest place that a triangle reaches from an earlier one.
    pub(crate) fn cover(&self, from: u32, place: usize, far: usize) -> bool
        requires heads_in { from < length self.now.heads.items }
        requires tails_in { from < length self.now.tails.items }
        requires place_in { place < length self.now.spans.items }
        ensures { IsTrue result ↔ ((place < far) ⊎ ((place < slice_index self.now.heads.items from)
            ⊎ (length self.now.spans.items - place < slice_index self.now.tails.items from))) }
    {
        place < far
            || place < self.heads[from as usize]
            || self.spans.len() - place < self.tails[from as usize]
    }

    /// What the live triangles have in their angles.
    pub(crate) fn of(
        alloc: Global,
        points: &Points,
        net: &Network,
        flags: &Flags,
        order: &[usize],
        places: &[usize],
    ) -> Result<Reaches, AllocError>
        requires same_points { net.now.points ≡ points.now.points }
        requires one_each { length flags.now ≡ length net.now.edges }
        requires network { IsNetwork net.now }
        requires places { ArePlaces flags.now order.now places.now }
        ensures { IfOk result (AreReaches net.now flags.now places.now (length order.now) (length net.now.tris)) }
    {
        let mut reaches = Reaches::none(alloc, order.len(), points.len() as usize)?;
        for t in 0..net.tris() {
            reaches.take(net, flags, places, t);
        }
        Ok(reaches)
    }
}
