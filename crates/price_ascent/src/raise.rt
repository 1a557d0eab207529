// Anchors raised by the least slack of their sides.
ghost use Rattle.std.specs.Prelude.{◌≡◌, ◌↔◌, ◌<◌, ℕ, Contains, length, true};
ghost use Rattle.exact_predicates.specs.Hull.{IsHullPair};
ghost use Rattle.lmt_network.specs.Network.{edge_at, tri_at};
ghost use Rattle.lmt_network.specs.Numbers.{HasSide, IsHullNumber, IsNumberOf};
ghost use Rattle.lmt_network.specs.Prices.{IsFeasible};
ghost use Rattle.price_ascent.specs.Belonging.{AreEntriesOf, IsHullAnchor, IsSideAnchor};
ghost use Rattle.price_ascent.specs.Entries.{entry, prices_of};
ghost use Rattle.price_ascent.specs.Steps.{AreShares, IsRaisedEntry, IsSlack, hull_raised, left_raised, right_raised};

use crate::entry::PriceEntry;
use crate::number::number;
use crate::prices::Prices;
use lmt_network::Network;

impl Prices {
    // Raises the anchor of the hull's pair u to v.
    pub(crate) fn raise_hull(&mut self, net: &Network, u: u32, v: u32)
        requires entries { AreEntriesOf net.now self.old }
        requires feasible { IsFeasible net.now.points net.now.hull (prices_of net.now self.old) }
        requires pair { IsHullPair net.now.hull u v }
        ensures { (e : ℕ) × IsNumberOf net.now u v e × IsRaisedEntry net.now self.old self.new e u v hull_raised }
    {
        let e = number(net, u, v);
        let least = self.least_slack(net, side_row(net, e, u, v), u, v);
        let kept = self.at(e);
        self.keep(e, hull_raised(kept, least));
    }

    // Raises the anchor of the edge's side from its lesser end to its greater.
    pub(crate) fn raise_left(&mut self, net: &Network, e: u32)
        requires entries { AreEntriesOf net.now self.old }
        requires feasible { IsFeasible net.now.points net.now.hull (prices_of net.now self.old) }
        requires e_in { e < length net.now.edges }
        requires anchored { (entry self.old e).anchored ≡ true }
        ensures { IsRaisedEntry net.now self.old self.new e (edge_at net.now e).a (edge_at net.now e).b left_raised }
    {
        let edge = net.edge(e);
        let least = self.least_slack(net, net.left(e), edge.a, edge.b);
        let kept = self.at(e);
        self.keep(e, left_raised(kept, least));
    }

    // Raises the anchor of the edge's side from its greater end to its lesser.
    pub(crate) fn raise_right(&mut self, net: &Network, e: u32)
        requires entries { AreEntriesOf net.now self.old }
        requires feasible { IsFeasible net.now.points net.now.hull (prices_of net.now self.old) }
        requires e_in { e < length net.now.edges }
        requires anchored { (entry self.old e).anchored ≡ true }
        ensures { IsRaisedEntry net.now self.old self.new e (edge_at net.now e).b (edge_at net.now e).a right_raised }
    {
        let edge = net.edge(e);
        let least = self.least_slack(net, net.right(e), edge.b, edge.a);
        let kept = self.at(e);
        self.keep(e, right_raised(kept, least));
    }
}

// The triangles with the side from u to v of the edge e.
fn side_row<'a>(net: &'a Network, e: u32, u: u32, v: u32) -> &'a [u32]
    requires { IsNumberOf net.now u v e }
    ensures { (t : ℕ) → Contains result.now t ↔ ((t < length net.now.tris) × HasSide (tri_at net.now t) u v) }
{
    if u < v { net.left(e) } else { net.right(e) }
}

fn hull_raised(kept: PriceEntry, m: i64) -> PriceEntry
    requires anchor { IsHullAnchor kept.value }
    requires shares { AreShares kept }
    requires m { IsSlack m }
    ensures { result ≡ hull_raised kept m }
{
    PriceEntry {
        value: kept.value + m,
        up: kept.up - m,
        down: kept.down - m,
        ..kept
    }
}

fn left_raised(kept: PriceEntry, m: i64) -> PriceEntry
    requires anchor { IsSideAnchor kept.left }
    requires shares { AreShares kept }
    requires m { IsSlack m }
    ensures { result ≡ left_raised kept m }
{
    PriceEntry {
        left: kept.left + m,
        up: kept.up - m,
        ..kept
    }
}

fn right_raised(kept: PriceEntry, m: i64) -> PriceEntry
    requires anchor { IsSideAnchor kept.right }
    requires shares { AreShares kept }
    requires m { IsSlack m }
    ensures { result ≡ right_raised kept m }
{
    PriceEntry {
        right: kept.right + m,
        down: kept.down - m,
        ..kept
    }
}
