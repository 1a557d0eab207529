// Whether ranks explain an elimination.
ghost use Rattle.std.specs.Prelude.{◌≡◌, ◌↔◌, ℕ, ◌<◌, true, false, List, length, slice_index, IsTrue, Contains};
ghost use Rattle.exact_predicates.specs.declared.diamond.Diamond.{Diamond};
ghost use Rattle.exact_predicates.specs.declared.edge.Edge.{Edge};
ghost use Rattle.exact_predicates.specs.Candidates.{AreCandidates};
ghost use Rattle.lmt_network.specs.Derivation.{IsDerived, IsDerivation};
ghost use Rattle.lmt_network.specs.Live.{IsClosed};
ghost use Rattle.lmt_network.specs.Network.{edge_at};
ghost use Rattle.lmt_network.specs.Numbers.{IsMinimalPair, IsOnLeft, IsOnRight};
ghost use Rattle.dual_checker.specs.Derived.{HasLowerSide, IsDerivedAt, HasGoodRank};

use lmt_network::{Network, Ranks};

// Whether the rank is above 0 and below m.
fn is_lower(rank: u64, m: u64) -> bool
    ensures { IsTrue result ↔ ((0 < rank) × (rank < m)) }
{
    0 < rank && rank < m
}

// Whether a side of the triangle has a rank above 0 and below m.
fn has_lower_side(net: &Network, ranks: &Ranks, t: u32, m: u64) -> bool
    requires t_in { t < length net.now.tris }
    requires one_each { length ranks.now ≡ length net.now.edges }
    ensures { IsTrue result ↔ HasLowerSide net.now ranks.now m t }
{
    let sides = net.sides(t);
    for k in 0..sides.len() {
        if is_lower(ranks.get(sides[k]), m) {
            return true;
        }
    }
    false
}

// Whether e is locally minimal between l and r, and no side of r has a rank above 0 and below m.
fn is_open(net: &Network, ranks: &Ranks, e: u32, l: u32, r: u32, m: u64) -> bool
    requires e_in { e < length net.now.edges }
    requires one_each { length ranks.now ≡ length net.now.edges }
    requires on_left { IsOnLeft net.now e l }
    requires on_right { IsOnRight net.now e r }
    ensures yes { result ≡ true → IsMinimalPair net.now e l r × (¬ HasLowerSide net.now ranks.now m r) }
    ensures no { result ≡ false → IsMinimalPair net.now e l r → HasLowerSide net.now ranks.now m r }
{
    if has_lower_side(net, ranks, r, m) {
        return false;
    }
    net.minimal_pair(e, l, r)
}

// Whether each locally minimal pair of e with l on its left has a side with a rank above 0 and below that
// of e.
fn is_derived_at(net: &Network, ranks: &Ranks, e: u32, l: u32) -> bool
    requires e_in { e < length net.now.edges }
    requires one_each { length ranks.now ≡ length net.now.edges }
    requires on_left { IsOnLeft net.now e l }
    ensures { IsTrue result ↔ IsDerivedAt net.now ranks.now e l }
{
    let rank = ranks.get(e);
    if has_lower_side(net, ranks, l, rank) {
        return true;
    }
    for r in net.right(e) {
        if is_open(net, ranks, e, l, *r, rank) {
            return false;
        }
    }
    true
}

// Whether each locally minimal pair of the edge has another side with a rank above 0 and below its own.
fn is_derived(net: &Network, ranks: &Ranks, e: u32) -> bool
    requires e_in { e < length net.now.edges }
    requires one_each { length ranks.now ≡ length net.now.edges }
    ensures { IsTrue result ↔ IsDerived net.now ranks.now e }
{
    for l in net.left(e) {
        if !is_derived_at(net, ranks, e, *l) {
            return false;
        }
    }
    true
}

// Whether the edge has the rank 0, or is no hull edge and is derived.
fn has_good_rank(net: &Network, ranks: &Ranks, e: u32) -> bool
    requires e_in { e < length net.now.edges }
    requires one_each { length ranks.now ≡ length net.now.edges }
    ensures { IsTrue result ↔ HasGoodRank net.now ranks.now e }
{
    if ranks.get(e) == 0 {
        return true;
    }
    if net.is_hull(e) {
        return false;
    }
    is_derived(net, ranks, e)
}

/// Whether the ranks are a derivation: each hull edge has 0, and each locally minimal pair of an edge with
/// a rank above 0 has another side with a rank above 0 and below that of the edge. It looks at each pair of
/// each edge at most once, and takes no memory. Where it is true no closed list holds an edge with a rank
/// above 0.
pub fn derivation(net: &Network, ranks: &Ranks) -> bool
    requires one_each { length ranks.now ≡ length net.now.edges }
    ensures value { IsTrue result ↔ IsDerivation net.now ranks.now }
    ensures in_none { result ≡ true → (diamond : Diamond) (e : ℕ) (fs : List Edge)
        → AreCandidates net.now.points net.now.hull diamond net.now.edges
        → e < length net.now.edges → 0 < slice_index ranks.now e
        → IsClosed net.now.points net.now.hull diamond fs → ¬ Contains fs (edge_at net.now e) }
{
    for e in 0..net.edges() {
        if !has_good_rank(net, ranks, e) {
            return false;
        }
    }
    true
}
