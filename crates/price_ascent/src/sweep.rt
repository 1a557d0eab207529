// A sweep of prices, edge by edge.
ghost use Rattle.std.specs.Prelude.{◌≡◌, ◌<◌, ℕ, ◌≤ℤ◌, false, length, true};
ghost use Rattle.lmt_network.specs.Numbers.{IsHullNumber};
ghost use Rattle.lmt_network.specs.Prices.{IsFeasible};
ghost use Rattle.price_ascent.specs.Ascent.{IsSweep, value_at};
ghost use Rattle.price_ascent.specs.Belonging.{AreEntriesOf, AreZeroWhereBare, BelongTo, IsPrice};
ghost use Rattle.price_ascent.specs.Entries.{anchored_edges, entry, live_of, prices_of, table_of};
ghost use Rattle.price_ascent.specs.Steps.{AreShares, IsLowered, IsSlack, lowered};
ghost use Rattle.price_ascent.specs.Swept.{AreSwept};

use crate::entry::PriceEntry;
use crate::prices::Prices;
use lmt_network::{Flags, Network};

// No sweep makes a price less than this.
const LOWEST: i64 = -400_000_000_000_000_000;

impl Prices {
    /// One sweep of feasible prices: lowers the price of each live edge that is no hull edge, in
    /// ascending order, by the least slack on its right side. Raises no price, and keeps all anchors.
    /// Prices that an ascent gave stay such. Takes no memory.
    pub fn sweep(&mut self, net: &Network, flags: &Flags)
        requires entries { AreEntriesOf net.now self.old }
        requires feasible { IsFeasible net.now.points net.now.hull (prices_of net.now self.old) }
        requires live { flags.now ≡ live_of self.old }
        ensures sweep { IsSweep net.now (live_of self.old) (table_of self.old) (table_of self.new) }
        ensures entries { AreEntriesOf net.now self.new }
        ensures feasible { IsFeasible net.now.points net.now.hull (prices_of net.now self.new) }
        ensures bare { AreZeroWhereBare net.now self.old → AreZeroWhereBare net.now self.new }
        ensures belong { BelongTo net.now self.old → BelongTo net.now self.new }
        ensures falls { (e : ℕ) → value_at (table_of self.new) e ≤ℤ value_at (table_of self.old) e }
        ensures anchors { (e : ℕ) → IsHullNumber net.now e → value_at (table_of self.new) e ≡ value_at (table_of self.old) e }
        ensures lefts { (table_of self.new).lefts ≡ (table_of self.old).lefts }
        ensures rights { (table_of self.new).rights ≡ (table_of self.old).rights }
        ensures live { live_of self.new ≡ live_of self.old }
        ensures anchored { anchored_edges net.now self.new ≡ anchored_edges net.now self.old }
    {
        self.lower_all(net, flags);
    }

    // Lowers the price of each live inner edge, in ascending order. Answers whether a price fell.
    pub(crate) fn lower_all(&mut self, net: &Network, flags: &Flags) -> bool
        requires entries { AreEntriesOf net.now self.old }
        requires feasible { IsFeasible net.now.points net.now.hull (prices_of net.now self.old) }
        requires live { flags.now ≡ live_of self.old }
        ensures swept { AreSwept net.now self.old self.new (length net.now.edges) }
        ensures at_rest { result ≡ false → self.new ≡ self.old }
    {
        let mut fell = false;
        for e in 0..net.edges() {
            if flags.live(e) && !net.is_hull(e) && self.lower(net, e) {
                fell = true;
            }
        }
        fell
    }

    // Lowers the price of the inner edge by the least slack on its right side. Answers whether it fell.
    fn lower(&mut self, net: &Network, e: u32) -> bool
        requires entries { AreEntriesOf net.now self.old }
        requires feasible { IsFeasible net.now.points net.now.hull (prices_of net.now self.old) }
        requires e_in { e < length net.now.edges }
        requires live { (entry self.old e).live ≡ true }
        requires inner { ¬ IsHullNumber net.now e }
        ensures entries { AreEntriesOf net.now self.new }
        ensures feasible { IsFeasible net.now.points net.now.hull (prices_of net.now self.new) }
        ensures lowered { IsLowered net.now self.old self.new e }
        ensures at_rest { result ≡ false → self.new ≡ self.old }
    {
        let edge = net.edge(e);
        let least = self.least_slack(net, net.right(e), edge.b, edge.a);
        let kept = self.at(e);
        let fallen = lowered(kept, least);
        let fell = fallen.value < kept.value;
        self.keep(e, fallen);
        fell
    }
}

// The entry with its price lowered by m, but not below the lowest.
fn lowered(kept: PriceEntry, m: i64) -> PriceEntry
    requires price { IsPrice kept.value }
    requires shares { AreShares kept }
    requires m { IsSlack m }
    ensures { result ≡ lowered kept m }
{
    let value = (kept.value - m).max(LOWEST);
    let fall = kept.value - value;
    PriceEntry {
        value,
        up: kept.up + fall,
        down: kept.down - fall,
        ..kept
    }
}
