// Whether an edge has a support among the edges with the rank 0.
ghost use Rattle.std.specs.Prelude.{◌≡◌, ℕ, ◌<◌, true, false, length, slice_index};
ghost use Rattle.lmt_network.specs.Numbers.{IsMinimalPair, IsOnLeft, IsOnRight, IsSupported};
ghost use Rattle.ticket_marks.specs.Finish.{unranked, HasRankedSide, HasUnrankedSides, IsBrokenAt};

use lmt_network::{Network, Ranks};

// Whether each side of the triangle has the rank 0.
fn has_unranked_sides(net: &Network, ranks: &Ranks, t: u32) -> bool
    requires t_in { t < length net.now.tris }
    requires one_each { length ranks.now ≡ length net.now.edges }
    ensures yes { result ≡ true → HasUnrankedSides net.now ranks.now t }
    ensures no { result ≡ false → HasRankedSide net.now ranks.now t }
{
    let sides = net.sides(t);
    for k in 0..sides.len() {
        if ranks.get(sides[k]) != 0 {
            return false;
        }
    }
    true
}

// Whether e is locally minimal between l and r, and each side of r has the rank 0.
fn pairs_with(net: &Network, ranks: &Ranks, e: u32, l: u32, r: u32) -> bool
    requires e_in { e < length net.now.edges }
    requires one_each { length ranks.now ≡ length net.now.edges }
    requires on_left { IsOnLeft net.now e l }
    requires on_right { IsOnRight net.now e r }
    ensures yes { result ≡ true → IsMinimalPair net.now e l r × HasUnrankedSides net.now ranks.now r }
    ensures no { result ≡ false → IsMinimalPair net.now e l r → HasRankedSide net.now ranks.now r }
{
    if !has_unranked_sides(net, ranks, r) {
        return false;
    }
    net.minimal_pair(e, l, r)
}

// Whether e, which has the rank 0, has a support with l on its left.
fn has_partner(net: &Network, ranks: &Ranks, e: u32, l: u32) -> bool
    requires e_in { e < length net.now.edges }
    requires one_each { length ranks.now ≡ length net.now.edges }
    requires live { slice_index ranks.now e ≡ 0 }
    requires on_left { IsOnLeft net.now e l }
    ensures yes { result ≡ true → IsSupported net.now (unranked ranks.now) e }
    ensures no { result ≡ false → IsBrokenAt net.now ranks.now e l }
{
    if !has_unranked_sides(net, ranks, l) {
        return false;
    }
    for r in net.right(e) {
        if pairs_with(net, ranks, e, l, *r) {
            return true;
        }
    }
    false
}

// Whether the edge, which has the rank 0, has a support among the edges with the rank 0.
pub fn is_supported(net: &Network, ranks: &Ranks, e: u32) -> bool
    requires e_in { e < length net.now.edges }
    requires one_each { length ranks.now ≡ length net.now.edges }
    requires live { slice_index ranks.now e ≡ 0 }
    ensures yes { result ≡ true → IsSupported net.now (unranked ranks.now) e }
    ensures no { result ≡ false → (l : ℕ) → IsBrokenAt net.now ranks.now e l }
{
    for l in net.left(e) {
        if has_partner(net, ranks, e, *l) {
            return true;
        }
    }
    false
}
