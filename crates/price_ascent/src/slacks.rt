// Slacks of live triangles.
ghost use Rattle.std.specs.Prelude.{◌≡◌, ◌⊎◌, ◌↔◌, ◌<◌, ℕ, ℤ, Some, Option, ◌≤ℤ◌, Contains, IsTrue, length, true};
ghost use Rattle.lmt_network.specs.Network.{edge_at, tri_at};
ghost use Rattle.lmt_network.specs.Numbers.{HasSide, IsNumberOf};
ghost use Rattle.price_ascent.specs.Ascent.{IsLeastSlack};
ghost use Rattle.price_ascent.specs.Belonging.{AreEntriesOf};
ghost use Rattle.price_ascent.specs.Entries.{entry, prices_of};
ghost use Rattle.price_ascent.specs.Steps.{AreSidesLive, slack_at};

use crate::prices::Prices;
use lmt_network::Network;

impl Prices {
    // Whether the three sides of the triangle are live.
    pub(crate) fn is_live_triangle(&self, net: &Network, t: u32) -> bool
        requires entries { AreEntriesOf net.now self.now }
        requires t_in { t < length net.now.tris }
        ensures { IsTrue result ↔ AreSidesLive net.now self.now t }
    {
        let [ab, bc, ca] = net.sides(t);
        self.at(ab).live && self.at(bc).live && self.at(ca).live
    }

    // The slack of the live triangle.
    pub(crate) fn slack_of(&self, net: &Network, t: u32) -> i64
        requires entries { AreEntriesOf net.now self.now }
        requires t_in { t < length net.now.tris }
        requires live { AreSidesLive net.now self.now t }
        ensures { result ≡ slack_at net.now self.now t }
    {
        let tri = net.tri(t);
        let [ab, bc, ca] = net.sides(t);
        let bc = self.at(bc);
        // The least corner is `a`, so that the first side goes up and the last one down.
        let second = if tri.b < tri.c { bc.up } else { bc.down };
        self.at(ab).up + second + self.at(ca).down
    }

    // The least slack of the live triangles in the row of the side from u to v, and 0 where there is none.
    pub(crate) fn least_slack(&self, net: &Network, row: &[u32], u: u32, v: u32) -> i64
        requires entries { AreEntriesOf net.now self.now }
        requires row { (t : ℕ) → Contains row.now t ↔ ((t < length net.now.tris) × HasSide (tri_at net.now t) u v) }
        ensures { IsLeastSlack net.now.points net.now.hull (prices_of net.now self.now) u v result }
    {
        let mut least = None;
        for t in row {
            if self.is_live_triangle(net, *t) {
                least = Some(lesser(least, self.slack_of(net, *t)));
            }
        }
        least.unwrap_or(0)
    }
}

// The lesser of the two, or the one that there is.
fn lesser(least: Option<i64>, slack: i64) -> i64
    ensures up_to { result ≤ℤ slack }
    ensures up_to_least { (m : ℤ) → least ≡ Some m → result ≤ℤ m }
    ensures one { (result ≡ slack) ⊎ (least ≡ Some result) }
{
    match least {
        Some(m) if m < slack => m,
        _ => slack,
    }
}
