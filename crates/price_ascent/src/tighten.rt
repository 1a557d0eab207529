// The anchors of all sides that have one.
ghost use Rattle.std.specs.Prelude.{◌≡◌, ℕ, ◌≤ℤ◌, [], flat_map};
ghost use Rattle.exact_predicates.specs.Hull.{ring_pairs};
ghost use Rattle.lmt_network.specs.Numbers.{IsHullNumber};
ghost use Rattle.lmt_network.specs.Prices.{IsFeasible, IsTight};
ghost use Rattle.price_ascent.specs.Ascent.{IsTighten, both_sides, left_at, right_at, value_at};
ghost use Rattle.price_ascent.specs.Belonging.{AreEntriesOf, AreZeroWhereBare, BelongTo};
ghost use Rattle.price_ascent.specs.Entries.{anchored_edges, live_of, prices_of, table_of};
ghost use Rattle.price_ascent.specs.Raised.{AreRaised};

use crate::prices::Prices;
use lmt_network::{Flags, Network};

impl Prices {
    /// Raises the anchor of each side that has one as far as it goes, first those of the hull in its
    /// order and then those of inner edges. The prices are feasible, and sides without a live triangle
    /// have the anchor 0. Keeps all prices, and lowers no anchor. Prices that an ascent gave stay such;
    /// an anchor of others may pass the greatest of a report. Takes no memory.
    pub fn tighten(&mut self, net: &Network, _flags: &Flags)
        requires entries { AreEntriesOf net.now self.old }
        requires feasible { IsFeasible net.now.points net.now.hull (prices_of net.now self.old) }
        requires bare { AreZeroWhereBare net.now self.old }
        requires live { _flags.now ≡ live_of self.old }
        ensures tighten { IsTighten net.now (live_of self.old) (anchored_edges net.now self.old) (table_of self.old) (table_of self.new) }
        ensures tight { IsTight net.now.points net.now.hull (anchored_edges net.now self.new) (prices_of net.now self.new) }
        ensures entries { AreEntriesOf net.now self.new }
        ensures bare { AreZeroWhereBare net.now self.new }
        ensures belong { BelongTo net.now self.old → BelongTo net.now self.new }
        ensures feasible { IsFeasible net.now.points net.now.hull (prices_of net.now self.new) }
        ensures prices { (e : ℕ) → ¬ IsHullNumber net.now e → value_at (table_of self.new) e ≡ value_at (table_of self.old) e }
        ensures anchors { (e : ℕ) → IsHullNumber net.now e → value_at (table_of self.old) e ≤ℤ value_at (table_of self.new) e }
        ensures lefts { (e : ℕ) → left_at (table_of self.old) e ≤ℤ left_at (table_of self.new) e }
        ensures rights { (e : ℕ) → right_at (table_of self.old) e ≤ℤ right_at (table_of self.new) e }
        ensures live { live_of self.new ≡ live_of self.old }
        ensures anchored { anchored_edges net.now self.new ≡ anchored_edges net.now self.old }
    {
        self.tighten_hull(net);
        self.tighten_inner(net);
    }

    // Raises the anchors of the hull, pair by pair from point 0.
    fn tighten_hull(&mut self, net: &Network)
        requires entries { AreEntriesOf net.now self.old }
        requires feasible { IsFeasible net.now.points net.now.hull (prices_of net.now self.old) }
        ensures { AreRaised net.now self.old self.new (ring_pairs net.now.hull) [] }
    {
        let hull = net.hull();
        for i in 0..hull.len() {
            let next = if i + 1 < hull.len() {
                hull[i + 1]
            } else {
                hull[0]
            };
            self.raise_hull(net, hull[i], next);
        }
    }

    // Raises the anchors of inner edges, edge by edge, of each first the left one.
    fn tighten_inner(&mut self, net: &Network)
        requires entries { AreEntriesOf net.now self.old }
        requires feasible { IsFeasible net.now.points net.now.hull (prices_of net.now self.old) }
        ensures { AreRaised net.now self.old self.new (flat_map both_sides (anchored_edges net.now self.old)) [] }
    {
        for e in 0..net.edges() {
            if self.at(e).anchored {
                self.raise_left(net, e);
                self.raise_right(net, e);
            }
        }
    }
}
