// Plain elimination. An edge is due where it is still to be tried: at first, and again once a triangle
// on one of its sides has lost another side.
ghost use Rattle.std.specs.Prelude.{◌≡◌, ◌<◌, ◌-◌, if◌then◌else◌, ℕ, List, length, true, false, All, Contains, count_by, IsTrue, ◌↔◌, slice_index_or, slice_set};
ghost use Rattle.std.specs.Bool.{OnTrue, OnFalse};
ghost use Rattle.exact_predicates.specs.declared.diamond.Diamond.{Diamond};
ghost use Rattle.exact_predicates.specs.Candidates.{AreCandidates};
ghost use Rattle.lmt_network.specs.Due.{AreSupportedUnlessDue, AreSidesDue, StayDue};
ghost use Rattle.lmt_network.specs.Flags.{live_numbers, live_edges};
ghost use Rattle.lmt_network.specs.Live.{IsLive};
ghost use Rattle.lmt_network.specs.Network.{IsNetwork};
ghost use Rattle.lmt_network.specs.Numbers.{AreClosed, AreLive, IsOnLeft, IsSideOf, IsSupported, IsSupportedWith};

use crate::flags::Flags;
use crate::network::Network;

/// Leaves the live edges: drops each edge without a support among the edges that are still live,
/// until none is dropped any more. An edge is tried again only where a triangle on it has lost a
/// side. Every closed list of edges must be live at the start. Takes no memory. After Dickerson and
/// Montague, "A (usually?) connected subgraph of the minimum weight triangulation" (1996).
pub fn plain_settle(net: &Network, flags: &mut Flags)
    requires one_each { length flags.old ≡ length net.now.edges }
    requires none_lost { (es : List ℕ) → AreClosed net.now es → All (Contains (live_numbers flags.old)) es }
    ensures one_each { length flags.new ≡ length net.now.edges }
    ensures live { AreLive net.now (live_numbers flags.new) }
    ensures live_edges { (diamond : Diamond)
        → AreCandidates net.now.points net.now.hull diamond net.now.edges
        → IsLive net.now.points net.now.hull diamond (live_edges net.now flags.new) }
{
    flags.due.fill(true);
    settle(net, &mut flags.live, &mut flags.due);
}

// The same, by the flags of the live edges and of those that are due.
fn settle(net: &Network, live: &mut [bool], due: &mut [bool])
    requires one_each { length live.old ≡ length net.now.edges }
    requires due_each { length due.old ≡ length net.now.edges }
    requires none_lost { (es : List ℕ) → AreClosed net.now es → All (Contains (live_numbers live.old)) es }
    requires supported { AreSupportedUnlessDue net.now live.old due.old }
    ensures none_lost { (es : List ℕ) → AreClosed net.now es → All (Contains (live_numbers live.new)) es }
    ensures valid { IsNetwork net.now }
    ensures closed { AreClosed net.now (live_numbers live.new) }
{
    // Edges that fall one after the other against the way of one pass fall at once in the next.
    let mut downwards = false;
    while drop_unsupported(net, live, due, downwards) {
        downwards = !downwards;
    }
}

// Goes once through the edges, up or down, and drops each due one without a support. Answers whether
// one was dropped.
fn drop_unsupported(net: &Network, live: &mut [bool], due: &mut [bool], downwards: bool) -> bool
    requires one_each { length live.old ≡ length net.now.edges }
    requires due_each { length due.old ≡ length net.now.edges }
    requires none_lost { (es : List ℕ) → AreClosed net.now es → All (Contains (live_numbers live.old)) es }
    requires supported { AreSupportedUnlessDue net.now live.old due.old }
    ensures none_lost { (es : List ℕ) → AreClosed net.now es → All (Contains (live_numbers live.new)) es }
    ensures supported { AreSupportedUnlessDue net.now live.new due.new }
    ensures valid { IsNetwork net.now }
    ensures fewer { OnTrue result (count_by (λ live. live) live.new < count_by (λ live. live) live.old) }
    ensures closed { OnFalse result (AreClosed net.now (live_numbers live.new)) }
{
    let mut dropped = false;
    for k in 0..net.edges() {
        let e = in_turn(net.edges(), k, downwards);
        if due[e as usize] && drop_if_unsupported(net, live, due, e) {
            dropped = true;
        }
    }
    dropped
}

// The k-th of `count` numbers, upwards or downwards.
fn in_turn(count: u32, k: u32, downwards: bool) -> u32
    requires { k < count }
    ensures { result ≡ (if downwards then count - 1 - k else k) }
{
    if downwards { count - 1 - k } else { k }
}

// Tries an edge, so that it is not due: drops it where it is live, no edge of the hull and without a
// support. Answers whether it was dropped.
fn drop_if_unsupported(net: &Network, live: &mut [bool], due: &mut [bool], e: u32) -> bool
    requires e_in { e < length net.now.edges }
    requires one_each { length live.old ≡ length net.now.edges }
    requires due_each { length due.old ≡ length net.now.edges }
    requires none_lost { (es : List ℕ) → AreClosed net.now es → All (Contains (live_numbers live.old)) es }
    requires supported { AreSupportedUnlessDue net.now live.old due.old }
    ensures none_lost { (es : List ℕ) → AreClosed net.now es → All (Contains (live_numbers live.new)) es }
    ensures supported { AreSupportedUnlessDue net.now live.new due.new }
    ensures fewer { OnTrue result (count_by (λ live. live) live.new < count_by (λ live. live) live.old) }
    ensures same { OnFalse result (live.new ≡ live.old) }
    ensures tried { OnFalse result (due.new ≡ slice_set due.old e false) }
{
    due[e as usize] = false;
    if !live[e as usize] || net.is_hull(e) || is_supported(net, live, e) {
        return false;
    }
    make_due(net, live, due, net.left(e));
    make_due(net, live, due, net.right(e));
    live[e as usize] = false;
    true
}

// Makes the sides of each of these triangles due whose three sides are live.
fn make_due(net: &Network, live: &[bool], due: &mut [bool], tris: &[u32])
    requires tris_in { All (λ t. t < length net.now.tris) tris.now }
    requires one_each { length live.now ≡ length net.now.edges }
    requires due_each { length due.old ≡ length net.now.edges }
    ensures stay { StayDue due.old due.new }
    ensures each { (t : ℕ) → Contains tris.now t → AreSidesDue net.now live.now t due.new }
{
    for t in tris {
        if sides_are_live(net, live, *t) {
            make_sides_due(net, due, *t);
        }
    }
}

// Makes the three sides of the triangle due.
fn make_sides_due(net: &Network, due: &mut [bool], t: u32)
    requires t_in { t < length net.now.tris }
    requires due_each { length due.old ≡ length net.now.edges }
    ensures stay { StayDue due.old due.new }
    ensures sides { (f : ℕ) → IsSideOf net.now t f → slice_index_or due.new f false ≡ true }
{
    for f in net.sides(t) {
        due[f as usize] = true;
    }
}

// Whether the live edge e has a support among the live edges.
fn is_supported(net: &Network, live: &[bool], e: u32) -> bool
    requires e_in { e < length net.now.edges }
    requires one_each { length live.now ≡ length net.now.edges }
    requires live { slice_index_or live.now e false ≡ true }
    ensures { IsTrue result ↔ IsSupported net.now (live_numbers live.now) e }
{
    for l in net.left(e) {
        if sides_are_live(net, live, *l) && is_supported_with(net, live, e, *l) {
            return true;
        }
    }
    false
}

// Whether the live edge e has a support among the live edges whose left triangle is l.
fn is_supported_with(net: &Network, live: &[bool], e: u32, l: u32) -> bool
    requires e_in { e < length net.now.edges }
    requires one_each { length live.now ≡ length net.now.edges }
    requires on_left { IsOnLeft net.now e l }
    ensures { IsTrue result ↔ IsSupportedWith net.now (live_numbers live.now) e l }
{
    for r in net.right(e) {
        if sides_are_live(net, live, *r) && net.minimal_pair(e, l, *r) {
            return true;
        }
    }
    false
}

// Whether the three sides of the triangle are live.
fn sides_are_live(net: &Network, live: &[bool], t: u32) -> bool
    requires t_in { t < length net.now.tris }
    requires one_each { length live.now ≡ length net.now.edges }
    ensures { IsTrue result ↔ ((f : ℕ) → IsSideOf net.now t f → Contains (live_numbers live.now) f) }
{
    let [ab, bc, ca] = net.sides(t);
    live[ab as usize] && live[bc as usize] && live[ca as usize]
}
