// The bound that the anchors add up to.
ghost use Rattle.std.specs.Prelude.{◌≡◌, ◌*◌, ◌<◌, neg_ℤ, pos, ◌≤ℤ◌, All, List, length};
ghost use Rattle.mwt_base.specs.Limits.{most_anchor, most_edges};
ghost use Rattle.exact_predicates.specs.declared.diamond.Diamond.{Diamond};
ghost use Rattle.exact_predicates.specs.declared.tri.Tri.{Tri};
ghost use Rattle.exact_predicates.specs.Triangulation.{IsTriangulation, edges};
ghost use Rattle.length_enclosure.specs.Enclosure.{lo};
ghost use Rattle.lmt_network.specs.Edges.{HasEdgesIn, IsEdgeOf};
ghost use Rattle.lmt_network.specs.Flags.{live_edges};
ghost use Rattle.lmt_network.specs.Live.{IsLive};
ghost use Rattle.lmt_network.specs.PriceTables.{entry_at};
ghost use Rattle.lmt_network.specs.Prices.{ArePrices, IsFeasible, anchors_of, bound};
ghost use Rattle.lmt_network.specs.Skeleton.{IsSkeletonEdge};
ghost use Rattle.price_ascent.specs.Belonging.{AreEntriesOf, BelongTo, HasNarrowRanges, most_raised};
ghost use Rattle.price_ascent.specs.Entries.{anchored_edges, live_of, prices_of, table_of};

use crate::prices::Prices;
use lmt_network::Network;

impl Prices {
    /// The bound, in millionths: the sum of all anchors. Where the prices are feasible, no triangulation
    /// with live edges that has all anchored edges is shorter, also where each edge is rounded down; and
    /// where the anchored edges are skeleton edges, each triangulation with live edges has them. Amounts
    /// that an ascent gives are within the limits of a report, and their bound is not negative. Takes no
    /// memory.
    pub fn bound(&self, net: &Network) -> i128
        requires entries { AreEntriesOf net.now self.now }
        ensures value { result ≡ bound net.now.hull (prices_of net.now self.now) }
        ensures below { (tris : List Tri)
            → IsFeasible net.now.points net.now.hull (prices_of net.now self.now)
            → IsTriangulation net.now.points net.now.hull tris
            → HasEdgesIn net.now.hull tris (live_edges net.now (live_of self.now))
            → All (IsEdgeOf net.now.hull tris) (anchored_edges net.now self.now)
            → result ≤ℤ pos (lo net.now.points (edges net.now.hull tris)) }
        ensures below_all { (diamond : Diamond) (tris : List Tri)
            → IsFeasible net.now.points net.now.hull (prices_of net.now self.now)
            → IsLive net.now.points net.now.hull diamond (live_edges net.now (live_of self.now))
            → All (IsSkeletonEdge net.now.points (live_edges net.now (live_of self.now))) (anchored_edges net.now self.now)
            → IsTriangulation net.now.points net.now.hull tris
            → HasEdgesIn net.now.hull tris (live_edges net.now (live_of self.now))
            → result ≤ℤ pos (lo net.now.points (edges net.now.hull tris)) }
        ensures are_prices { ArePrices (anchored_edges net.now self.now) (prices_of net.now self.now) }
        ensures not_negative { BelongTo net.now self.now → pos 0 ≤ℤ result }
        ensures high { BelongTo net.now self.now → result ≤ℤ pos (2 * most_anchor * most_edges) }
        ensures within { BelongTo net.now self.now → All (HasNarrowRanges net.now.hull) (prices_of net.now self.now) }
    {
        let mut sum = 0;
        for e in 0..net.edges() {
            sum += self.anchors(net, e);
        }
        sum
    }

    // The anchors of the edge together.
    fn anchors(&self, net: &Network, e: u32) -> i128
        requires entries { AreEntriesOf net.now self.now }
        requires e_in { e < length net.now.edges }
        ensures value { result ≡ anchors_of net.now.hull (entry_at net.now (table_of self.now) e) }
        ensures low { neg_ℤ (pos most_anchor) ≤ℤ result }
        ensures high { result ≤ℤ pos (2 * most_raised) }
        ensures of_ascent { BelongTo net.now self.now → (pos 0 ≤ℤ result) × (result ≤ℤ pos (2 * most_anchor)) }
    {
        let kept = self.at(e);
        if net.is_hull(e) {
            i128::from(kept.value)
        } else {
            i128::from(kept.left) + i128::from(kept.right)
        }
    }
}
