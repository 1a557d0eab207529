// Prices and anchors of the live edges of a network.
ghost use Rattle.std.specs.Prelude.{◌≡◌, ◌<◌, ◌^◌, ℕ, Contains, length, slice_set};
ghost use Rattle.lmt_network.specs.Flags.{live_numbers};
ghost use Rattle.lmt_network.specs.Network.{tri_at};
ghost use Rattle.lmt_network.specs.Numbers.{IsSideOf};
ghost use Rattle.lmt_network.specs.Prices.{slack};
ghost use Rattle.price_ascent.specs.Ascent.{left_at, right_at, value_at};
ghost use Rattle.price_ascent.specs.Belonging.{AreEntriesOf};
ghost use Rattle.price_ascent.specs.Entries.{entry, live_of, prices_of, table_of};

use crate::entry::PriceEntry;
use lmt_network::Network;
use std::marker::Model;

/// The prices and anchors of the live edges of a network, in millionths. Only `start` takes memory.
#[derive(Drop)]
pub struct Prices {
    entries: Vec<PriceEntry>,
}

impl Model for Prices {
    ghost use Rattle.std.specs.Prelude.{List, ◌<◌, ◌^◌, length};
    ghost use Rattle.price_ascent.specs.declared.entry.PriceEntry.{PriceEntry};

    ghost Value = { List PriceEntry };

    ghost view = { λ p. p.entries.items };

    ghost invariant = { λ p. length p.entries.items < 2 ^ 32 };
}

impl Prices {
    /// The anchor of a hull edge, the price of another live edge, and 0 of a killed edge; in millionths.
    pub fn value(&self, e: u32) -> i64
        requires { e < length self.now }
        ensures { result ≡ value_at (table_of self.now) e }
    {
        self.at(e).value
    }

    /// The anchor of the edge's side from its lesser end to its greater, in millionths: 0 where that has
    /// none of its own, as on the hull.
    pub fn left(&self, e: u32) -> i64
        requires { e < length self.now }
        ensures { result ≡ left_at (table_of self.now) e }
    {
        self.at(e).left
    }

    /// The anchor of the edge's side from its greater end to its lesser, in millionths: 0 where that has
    /// none of its own, as on the hull.
    pub fn right(&self, e: u32) -> i64
        requires { e < length self.now }
        ensures { result ≡ right_at (table_of self.now) e }
    {
        self.at(e).right
    }

    /// Whether the two sides of the edge have anchors of their own.
    pub fn is_anchored(&self, e: u32) -> bool
        requires { e < length self.now }
        ensures { result ≡ (entry self.now e).anchored }
    {
        self.at(e).anchored
    }

    /// The slack of a live triangle, in millionths: what its three sides give together.
    pub fn slack(&self, net: &Network, t: u32) -> i128
        requires entries { AreEntriesOf net.now self.now }
        requires t_in { t < length net.now.tris }
        requires live { (f : ℕ) → IsSideOf net.now t f → Contains (live_numbers (live_of self.now)) f }
        ensures { result ≡ slack net.now.points net.now.hull (prices_of net.now self.now) (tri_at net.now t) }
    {
        i128::from(self.slack_of(net, t))
    }

    // The prices of which this is kept.
    pub(crate) fn of(entries: Vec<PriceEntry>) -> Prices
        requires { length entries.items < 2 ^ 32 }
        ensures { result ≡ entries.items }
    {
        Prices { entries }
    }

    // What is kept of the edge.
    pub(crate) fn at(&self, e: u32) -> PriceEntry
        requires { e < length self.now }
        ensures { result ≡ entry self.now e }
    {
        self.entries[e as usize]
    }

    // Keeps this of the edge.
    pub(crate) fn keep(&mut self, e: u32, kept: PriceEntry)
        requires { e < length self.old }
        ensures { self.new ≡ slice_set self.old e kept }
    {
        self.entries[e as usize] = kept;
    }
}
