// Prices and anchors that a caller chooses.
ghost use Rattle.std.specs.Prelude.{◌≡◌, ◌≢◌, ◌⊎◌, ℕ, Contains, false, pos, slice_index_or, true};
ghost use Rattle.lmt_network.specs.Network.{edge_at};
ghost use Rattle.lmt_network.specs.PriceTables.{entry_at};
ghost use Rattle.price_ascent.specs.Belonging.{AreEntriesOf, IsHullAnchor, IsSideAnchor, IsWithinRanges};
ghost use Rattle.price_ascent.specs.Entries.{anchored_edges, live_of, table_of, with_amounts};
ghost use Rattle.price_ascent.specs.Steps.{AreShares, repriced};

use crate::entry::PriceEntry;
use crate::prices::Prices;
use lmt_network::Network;

impl Prices {
    /// Sets the value of a live edge and the anchors of its two sides, in millionths, and keeps all
    /// else. It says nothing of slacks, which may become negative. Takes no memory.
    pub fn put(&mut self, net: &Network, e: u32, value: i64, left: i64, right: i64)
        requires entries { AreEntriesOf net.now self.old }
        requires live { slice_index_or (live_of self.old) e false ≡ true }
        requires ranges { IsWithinRanges net.now.hull (with_amounts net.now e value left right) }
        requires elsewhere { Contains (anchored_edges net.now self.old) (edge_at net.now e)
            ⊎ ((left ≡ pos 0) × (right ≡ pos 0)) }
        ensures entries { AreEntriesOf net.now self.new }
        ensures edge { entry_at net.now (table_of self.new) e ≡ with_amounts net.now e value left right }
        ensures others { (f : ℕ) → f ≢ e → entry_at net.now (table_of self.new) f ≡ entry_at net.now (table_of self.old) f }
        ensures live { live_of self.new ≡ live_of self.old }
        ensures anchored { anchored_edges net.now self.new ≡ anchored_edges net.now self.old }
    {
        let kept = self.at(e);
        self.keep(e, repriced(kept, net.is_hull(e), value, left, right));
    }
}

// The entry with these amounts, of an edge of the hull or not, and the shares that they leave.
fn repriced(kept: PriceEntry, on_hull: bool, value: i64, left: i64, right: i64) -> PriceEntry
    requires shares { AreShares kept }
    requires kept_value { IsHullAnchor kept.value }
    requires kept_left { IsSideAnchor kept.left }
    requires value { IsHullAnchor value }
    requires left { IsSideAnchor left }
    requires right { IsSideAnchor right }
    ensures { result ≡ repriced kept on_hull value left right }
{
    // The weight of the edge is what its left side has given away.
    let weight = kept.up + kept.value + kept.left;
    let up = weight - value - left;
    let down = if on_hull {
        weight - value
    } else {
        value - right
    };
    PriceEntry {
        value,
        left,
        right,
        up,
        down,
        ..kept
    }
}
