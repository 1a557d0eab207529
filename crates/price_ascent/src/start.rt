// The prices at the start.
ghost use Rattle.std.specs.Prelude.{◌≡◌, ◌↔◌, ◌*◌, ◌^◌, ◌<◌, ℕ, All, Contains, IfOk, length, pos, slice_index_or, slice_set, true, false};
ghost use Rattle.exact_predicates.specs.declared.edge.Edge.{Edge};
ghost use Rattle.lmt_network.specs.Flags.{live_edges, live_numbers};
ghost use Rattle.length_enclosure.specs.Enclosure.{weight};
ghost use Rattle.lmt_network.specs.Live.{IsHullEdge};
ghost use Rattle.lmt_network.specs.Network.{IsNetwork, edge_at};
ghost use Rattle.lmt_network.specs.Numbers.{AreLive, IsHullNumber};
ghost use Rattle.lmt_network.specs.Prices.{IsFeasible};
ghost use Rattle.price_ascent.specs.Ascent.{IsStart};
ghost use Rattle.price_ascent.specs.Belonging.{BelongTo};
ghost use Rattle.price_ascent.specs.Entries.{anchored_edges, entry, live_of, prices_of, table_of};
ghost use Rattle.price_ascent.specs.Steps.{anchored, start_entry};

use crate::entry::PriceEntry;
use crate::number::number;
use crate::prices::Prices;
use exact_predicates::Edges;
use lmt_network::{Flags, Network};
use mwt_base::NoMemory;
use std::alloc::{AllocError, Global};

impl Prices {
    /// The prices to start from: half of each weight, rounded down. All anchors are 0. The edges of
    /// the skeleton, or any live edges in their place, have anchors on both sides; those of the hull
    /// have one anyway. `NoMemory` is the only error, and comes where room for the prices is missing.
    pub fn start(
        alloc: Global,
        net: &Network,
        flags: &Flags,
        skeleton: &Edges,
    ) -> Result<Prices, NoMemory>
        requires one_each { length flags.now ≡ length net.now.edges }
        requires live { AreLive net.now (live_numbers flags.now) }
        requires skeleton { All (Contains (live_edges net.now flags.now)) skeleton.now }
        ensures start { IfOk result (λ prices. IsStart net.now flags.now (table_of prices)) }
        ensures belong { IfOk result (λ prices. BelongTo net.now prices) }
        ensures feasible { IfOk result (λ prices. IsFeasible net.now.points net.now.hull (prices_of net.now prices)) }
        ensures live { IfOk result (λ prices. live_of prices ≡ flags.now) }
        ensures anchored { IfOk result (λ prices. (e : Edge)
            → Contains (anchored_edges net.now prices) e ↔ (Contains skeleton.now e × (¬ IsHullEdge net.now.hull e))) }
    {
        let mut prices = Prices::of(first_entries(alloc, net, flags)?);
        prices.anchor_all(net, skeleton);
        Ok(prices)
    }

    // Gives the edges of the skeleton that are not on the hull anchors on both sides.
    fn anchor_all(&mut self, net: &Network, skeleton: &Edges)
        requires belong { BelongTo net.now self.old }
        requires skeleton { All (Contains (live_edges net.now (live_of self.old))) skeleton.now }
        requires none_yet { (e : ℕ) → (entry self.old e).anchored ≡ false }
        ensures belong { BelongTo net.now self.new }
        ensures live { live_of self.new ≡ live_of self.old }
        ensures same { table_of self.new ≡ table_of self.old }
        ensures anchored { (e : Edge)
            → Contains (anchored_edges net.now self.new) e ↔ (Contains skeleton.now e × (¬ IsHullEdge net.now.hull e)) }
    {
        for edge in skeleton.as_slice() {
            let e = number(net, edge.a, edge.b);
            if !net.is_hull(e) {
                self.anchor(net, e);
            }
        }
    }

    // Gives the edge anchors on both sides.
    fn anchor(&mut self, net: &Network, e: u32)
        requires belong { BelongTo net.now self.old }
        requires e_in { e < length net.now.edges }
        requires live { (entry self.old e).live ≡ true }
        requires inner { ¬ IsHullNumber net.now e }
        ensures belong { BelongTo net.now self.new }
        ensures anchored { self.new ≡ slice_set self.old e (anchored (entry self.old e)) }
    {
        let kept = self.at(e);
        self.keep(e, anchored(kept));
    }
}

// The entry with anchors for its sides.
fn anchored(kept: PriceEntry) -> PriceEntry
    ensures { result ≡ anchored kept }
{
    PriceEntry {
        anchored: true,
        ..kept
    }
}

// What is kept of each edge at the start.
fn first_entries(alloc: Global, net: &Network, flags: &Flags) -> Result<Vec<PriceEntry>, AllocError>
    requires { length flags.now ≡ length net.now.edges }
    ensures one_each { IfOk result (λ entries. length entries.items ≡ length net.now.edges) }
    ensures each { IfOk result (λ entries.
        (e : ℕ) → e < length net.now.edges → entry entries.items e ≡ start_entry net.now flags.now e) }
    ensures light { IfOk result (λ entries.
        (e : ℕ) → e < length net.now.edges → slice_index_or flags.now e false ≡ true
        → weight net.now.points ((edge_at net.now e).a, (edge_at net.now e).b) < 3 * 10 ^ 15) }
    ensures network { IsNetwork net.now }
{
    let mut entries = Vec::with_capacity(alloc, net.edges() as usize)?;
    for e in 0..net.edges() {
        entries.push(first_entry(net, flags, e))?;
    }
    Ok(entries)
}

// What is kept of the edge at the start.
fn first_entry(net: &Network, flags: &Flags, e: u32) -> PriceEntry
    requires one_each { length flags.now ≡ length net.now.edges }
    requires e_in { e < length net.now.edges }
    ensures value { result ≡ start_entry net.now flags.now e }
    ensures light { slice_index_or flags.now e false ≡ true
        → weight net.now.points ((edge_at net.now e).a, (edge_at net.now e).b) < 3 * 10 ^ 15 }
{
    if !flags.live(e) {
        return edge_entry(false, 0, 0, 0);
    }
    let weight = net.weight(e);
    if net.is_hull(e) {
        edge_entry(true, 0, weight, weight)
    } else {
        edge_entry(true, weight / 2, weight - weight / 2, weight / 2)
    }
}

// What is kept of an edge without anchors.
fn edge_entry(live: bool, value: u64, up: u64, down: u64) -> PriceEntry
    requires value { value < 2 ^ 63 }
    requires up { up < 2 ^ 63 }
    requires down { down < 2 ^ 63 }
    ensures { result ≡ record { value = pos value; left = pos 0; right = pos 0; up = pos up; down = pos down; live = live; anchored = false } }
{
    PriceEntry {
        value: value as i64,
        left: 0,
        right: 0,
        up: up as i64,
        down: down as i64,
        live,
        anchored: false,
    }
}
