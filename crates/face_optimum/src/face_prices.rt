// The prices and anchors that costs give.
ghost use Rattle.std.specs.Prelude.{◌≡◌, ◌↔◌, ◌+◌, ◌*◌, ◌/◌, ◌^◌, ◌<◌, ◌≤◌, cond, nat_lt, length, slice_index, All, Contains, IfOk, pos, ◌+ℤ◌, ◌-ℤ◌};
ghost use Rattle.exact_predicates.specs.declared.edge.Edge.{Edge};
ghost use Rattle.lmt_network.specs.Flags.{live_numbers};
ghost use Rattle.lmt_network.specs.Live.{IsHullEdge};
ghost use Rattle.lmt_network.specs.Numbers.{AreLive};
ghost use Rattle.price_ascent.specs.Belonging.{AreEntriesOf};
ghost use Rattle.price_ascent.specs.Entries.{anchored_edges, live_of, table_of};
ghost use Rattle.face_optimum.specs.Cuts.{most_cost, weight_of};
ghost use Rattle.face_optimum.specs.Priced.{ArePutUpto, IsAmountsOf};
ghost use Rattle.face_optimum.specs.Sites.{IsSite};

use crate::site::Site;
use mwt_base::NoMemory;
use price_ascent::Prices;
use std::alloc::Global;

// The price or the anchor of an edge, and the anchors of its two sides.
#[derive(Clone, Copy)]
pub(crate) struct Amounts {
    pub(crate) value: i64,
    pub(crate) left: i64,
    pub(crate) right: i64,
}

impl<'a> Site<'a> {
    // The amounts of a live edge.
    fn amounts(&self, costs: &[u64], root_costs: &[u64], e: u32) -> Amounts
        requires site { IsSite self.now }
        requires e_in { e < length self.now.net.now.edges }
        requires one_each { length costs.now ≡ length self.now.net.now.edges }
        requires two_each { length root_costs.now ≡ 2 * length self.now.net.now.edges }
        requires small_costs { All (λ cost. cost ≤ most_cost) costs.now }
        requires small_root_costs { All (λ root_cost. root_cost ≤ most_cost) root_costs.now }
        ensures amounts { IsAmountsOf self.now costs.now root_costs.now e result }
        ensures light { weight_of self.now.net.now e < 3 * 10 ^ 15 }
    {
        let weight = self.net.weight(e);
        let half = (weight / 2) as i64;
        let weight = weight as i64;
        let cost = costs[e as usize] as i64;
        let root_cost = root_costs[2 * e as usize] as i64;
        let other = root_costs[2 * e as usize + 1] as i64;
        if self.off[e as usize] {
            let (from, to) = self.base(e);
            if to < from {
                without_anchors(weight - cost)
            } else {
                without_anchors(cost)
            }
        } else if self.net.is_hull(e) {
            without_anchors(weight + (root_cost + other))
        } else {
            Amounts {
                value: half,
                left: weight - half + root_cost,
                right: half + other,
            }
        }
    }

    // Gives the edge its amounts, if it is live.
    fn price(&self, costs: &[u64], root_costs: &[u64], e: u32, prices: &mut Prices)
        requires site { IsSite self.now }
        requires e_in { e < length self.now.net.now.edges }
        requires one_each { length costs.now ≡ length self.now.net.now.edges }
        requires two_each { length root_costs.now ≡ 2 * length self.now.net.now.edges }
        requires small_costs { All (λ cost. cost ≤ most_cost) costs.now }
        requires small_root_costs { All (λ root_cost. root_cost ≤ most_cost) root_costs.now }
        requires put { ArePutUpto self.now costs.now root_costs.now e prices.old }
        ensures { ArePutUpto self.now costs.now root_costs.now (e + 1) prices.new }
    {
        if self.flags.live(e) {
            let amounts = self.amounts(costs, root_costs, e);
            prices.put(self.net, e, amounts.value, amounts.left, amounts.right);
        }
    }

    // The prices and anchors of all live edges.
    pub(crate) fn prices(
        &self,
        alloc: Global,
        costs: &[u64],
        root_costs: &[u64],
    ) -> Result<Prices, NoMemory>
        requires site { IsSite self.now }
        requires live { AreLive self.now.net.now (live_numbers self.now.flags.now) }
        requires one_each { length costs.now ≡ length self.now.net.now.edges }
        requires two_each { length root_costs.now ≡ 2 * length self.now.net.now.edges }
        requires small_costs { All (λ cost. cost ≤ most_cost) costs.now }
        requires small_root_costs { All (λ root_cost. root_cost ≤ most_cost) root_costs.now }
        ensures { IfOk result (λ prices. ArePutUpto self.now costs.now root_costs.now (length self.now.net.now.edges) prices) }
    {
        let mut prices = Prices::start(alloc, self.net, self.flags, self.skeleton)?;
        for e in 0..self.net.edges() {
            self.price(costs, root_costs, e, &mut prices);
        }
        Ok(prices)
    }
}

// The amounts of an edge whose sides have no anchors of their own.
fn without_anchors(value: i64) -> Amounts
    ensures { result ≡ record { value = value; left = pos 0; right = pos 0 } }
{
    Amounts {
        value,
        left: 0,
        right: 0,
    }
}
