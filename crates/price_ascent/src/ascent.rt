// Start, sweeps and tightening, one after the other.
ghost use Rattle.std.specs.Prelude.{◌≡◌, ◌↔◌, All, Contains, IfOk, length};
ghost use Rattle.exact_predicates.specs.declared.edge.Edge.{Edge};
ghost use Rattle.lmt_network.specs.Flags.{live_edges, live_numbers};
ghost use Rattle.lmt_network.specs.Live.{IsHullEdge};
ghost use Rattle.lmt_network.specs.Numbers.{AreLive};
ghost use Rattle.lmt_network.specs.Prices.{IsFeasible, IsTight};
ghost use Rattle.price_ascent.specs.Ascent.{AreSweeps, IsAscent};
ghost use Rattle.price_ascent.specs.Belonging.{BelongTo};
ghost use Rattle.price_ascent.specs.Entries.{anchored_edges, live_of, prices_of, table_of};

use crate::prices::Prices;
use exact_predicates::Edges;
use lmt_network::{Flags, Network};
use mwt_base::NoMemory;
use std::alloc::Global;

impl Prices {
    /// The prices after the start, so many sweeps, and tightening. `NoMemory` is the only error.
    pub fn ascent(
        alloc: Global,
        net: &Network,
        flags: &Flags,
        skeleton: &Edges,
        sweeps: u32,
    ) -> Result<Prices, NoMemory>
        requires one_each { length flags.now ≡ length net.now.edges }
        requires live { AreLive net.now (live_numbers flags.now) }
        requires skeleton { All (Contains (live_edges net.now flags.now)) skeleton.now }
        ensures ascent { IfOk result (λ prices.
            IsAscent net.now flags.now (anchored_edges net.now prices) sweeps (table_of prices)) }
        ensures tight { IfOk result (λ prices.
            IsTight net.now.points net.now.hull (anchored_edges net.now prices) (prices_of net.now prices)) }
        ensures belong { IfOk result (λ prices. BelongTo net.now prices) }
        ensures feasible { IfOk result (λ prices. IsFeasible net.now.points net.now.hull (prices_of net.now prices)) }
        ensures live { IfOk result (λ prices. live_of prices ≡ flags.now) }
        ensures anchored { IfOk result (λ prices. (e : Edge)
            → Contains (anchored_edges net.now prices) e ↔ (Contains skeleton.now e × (¬ IsHullEdge net.now.hull e))) }
    {
        let mut prices = Prices::start(alloc, net, flags, skeleton)?;
        prices.sweep_all(net, flags, sweeps);
        prices.tighten(net, flags);
        Ok(prices)
    }

    // So many sweeps. After one that changes nothing the others would change nothing either, and are
    // left out.
    fn sweep_all(&mut self, net: &Network, flags: &Flags, sweeps: u32)
        requires belong { BelongTo net.now self.old }
        requires live { flags.now ≡ live_of self.old }
        ensures sweeps { AreSweeps net.now flags.now sweeps (table_of self.old) (table_of self.new) }
        ensures belong { BelongTo net.now self.new }
        ensures live { live_of self.new ≡ live_of self.old }
        ensures anchored { anchored_edges net.now self.new ≡ anchored_edges net.now self.old }
    {
        for _done in 0..sweeps {
            if !self.lower_all(net, flags) {
                return;
            }
        }
    }
}
