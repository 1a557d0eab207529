// The best triangle to cut the part of a face with.
ghost use Rattle.std.specs.Prelude.{◌≡◌, ◌⊎◌, ◌*◌, ◌^◌, ◌<◌, ◌≤◌, ℕ, All, IfSome, IsTrue, MatchOption, Some, length, ◌↔◌};
ghost use Rattle.exact_predicates.specs.Triangulation.{HasCorners};
ghost use Rattle.lmt_network.specs.Network.{tri_at};
ghost use Rattle.lmt_network.specs.Numbers.{HasSide, IsNumberOf};
ghost use Rattle.face_optimum.specs.Cuts.{IsBestCut, IsCheaper, IsCutBy, most_cost};
ghost use Rattle.face_optimum.specs.Seats.{HasLiveTriOn, IsLiveTri};
ghost use Rattle.face_optimum.specs.Sites.{IsSite};

use crate::legs::legs;
use crate::live::is_live;
use crate::site::Site;

// A triangle that cuts the part of a face: what its two sides in the part cost, and the place between.
#[derive(Clone, Copy)]
pub(crate) struct Cut {
    pub(crate) tri: u32,
    pub(crate) sum: u64,
    pub(crate) middle: u32,
}

impl<'a> Site<'a> {
    // The cut by the triangle t on its side e.
    fn cut_by(&self, costs: &[u64], e: u32, t: u32) -> Cut
        requires site { IsSite self.now }
        requires one_each { length costs.now ≡ length self.now.net.now.edges }
        requires small { All (λ cost. cost ≤ most_cost) costs.now }
        requires live { IsLiveTri self.now.net.now self.now.flags.now t }
        ensures { IsCutBy self.now.net.now self.now.tri_seats.now costs.now e t result }
    {
        let (x, y) = legs(self.net, t, e);
        Cut {
            tri: t,
            sum: costs[x as usize] + costs[y as usize],
            middle: self.tri_seats[t as usize].middle,
        }
    }

    // The best cut on the side from u to v of the edge e; None exactly where no live triangle has
    // this side.
    pub(crate) fn best_cut(&self, costs: &[u64], e: u32, u: u32, v: u32) -> Option<Cut>
        requires site { IsSite self.now }
        requires number { IsNumberOf self.now.net.now u v e }
        requires one_each { length costs.now ≡ length self.now.net.now.edges }
        requires small { All (λ cost. cost ≤ most_cost) costs.now }
        ensures { MatchOption result
            ((t : ℕ) → IsLiveTri self.now.net.now self.now.flags.now t → ¬ HasSide (tri_at self.now.net.now t) u v)
            (IsBestCut self.now.net.now self.now.flags.now self.now.tri_seats.now costs.now u v) }
    {
        let mut best = None;
        for t in self.row(e, u, v) {
            if is_live(self.net, self.flags, *t) {
                best = Some(cheaper(best, self.cut_by(costs, e, *t)));
            }
        }
        best
    }

    // The same where some live triangle has this side.
    pub(crate) fn cut_on(&self, costs: &[u64], e: u32, u: u32, v: u32) -> Cut
        requires site { IsSite self.now }
        requires number { IsNumberOf self.now.net.now u v e }
        requires one_each { length costs.now ≡ length self.now.net.now.edges }
        requires small { All (λ cost. cost ≤ most_cost) costs.now }
        requires there { HasLiveTriOn self.now.net.now self.now.flags.now u v }
        ensures best { IsBestCut self.now.net.now self.now.flags.now self.now.tri_seats.now costs.now u v result }
        ensures small { result.sum ≤ 2 * most_cost }
        ensures tri_in { result.tri < length self.now.net.now.tris }
    {
        match self.best_cut(costs, e, u, v) {
            Some(cut) => cut,
            None => unreachable!(),
        }
    }
}

// The cheaper of two cuts: of those that cost as much the one with the lesser place.
fn cheaper(best: Option<Cut>, cut: Cut) -> Cut
    ensures { IsCheaper best cut result }
{
    match best {
        Some(old) if old.sum < cut.sum || (old.sum == cut.sum && old.middle <= cut.middle) => old,
        _ => cut,
    }
}
