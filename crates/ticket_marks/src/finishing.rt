// Plain elimination that goes on with the ranks of an elimination.
ghost use Rattle.std.specs.Prelude.{◌≡◌, ◌⊎◌, ℕ, ◌+◌, ◌-◌, ◌^◌, ◌<◌, ◌≤◌, if◌then◌else◌, length, slice_index};
ghost use Rattle.lmt_network.specs.Derivation.{IsDerivation};
ghost use Rattle.lmt_network.specs.Numbers.{IsHullNumber, IsSupported, AreClosed, AreLive};
ghost use Rattle.ticket_marks.specs.Finish.{unranked, left_over, most_ranks, AreRanksUpTo, RanksStand};
ghost use Rattle.ticket_marks.specs.Words.{most_tickets};

use crate::support::is_supported;
use lmt_network::{Network, Ranks};

// A number that no rank is above, as low as can be.
fn greatest(ranks: &Ranks) -> u64
    ensures above { (e : ℕ) → slice_index ranks.now e ≤ result }
    ensures least { (m : ℕ) → ((e : ℕ) → slice_index ranks.now e ≤ m) → result ≤ m }
{
    let mut most = 0;
    for e in 0..ranks.len() {
        most = ranks.get(e).max(most);
    }
    most
}

// Gives the edge the rank one above the last, where it has the rank 0, is no hull edge and has no support
// among the edges with the rank 0. Answers the last rank after that.
fn rank_one(net: &Network, ranks: &mut Ranks, last: u64, e: u32) -> u64
    requires e_in { e < length net.now.edges }
    requires few { length net.now.edges < 2 ^ 32 }
    requires ranks { AreRanksUpTo net.now ranks.old last }
    ensures ranks { AreRanksUpTo net.now ranks.new result }
    ensures stand { RanksStand ranks.old ranks.new }
    ensures grows { last ≤ result }
    ensures fewer { last < result → left_over ranks.new < left_over ranks.old }
    ensures same { result ≡ last → ranks.new ≡ ranks.old }
    ensures judged { result ≡ last → slice_index ranks.old e ≡ 0
        → IsHullNumber net.now e ⊎ IsSupported net.now (unranked ranks.old) e }
{
    if ranks.get(e) != 0 || net.is_hull(e) || is_supported(net, ranks, e) {
        return last;
    }
    ranks.set(e, last + 1);
    last + 1
}

// The k-th of `count` numbers, upwards or downwards.
fn in_turn(count: u32, k: u32, downwards: bool) -> u32
    requires { k < count }
    ensures { result ≡ (if downwards then count - 1 - k else k) }
{
    if downwards { count - 1 - k } else { k }
}

// Goes once through the edges, up or down. Answers the last rank after that.
fn rank_unsupported(net: &Network, ranks: &mut Ranks, last: u64, downwards: bool) -> u64
    requires ranks { AreRanksUpTo net.now ranks.old last }
    ensures ranks { AreRanksUpTo net.now ranks.new result }
    ensures stand { RanksStand ranks.old ranks.new }
    ensures grows { last ≤ result }
    ensures fewer { last < result → left_over ranks.new < left_over ranks.old }
    ensures closed { result ≡ last → AreClosed net.now (unranked ranks.new) }
{
    let mut now = last;
    for k in 0..net.edges() {
        now = rank_one(net, ranks, now, in_turn(net.edges(), k, downwards));
    }
    now
}

/// Goes on with plain elimination: each edge without a support gets a rank, one above all ranks so far, until
/// each edge with the rank 0 is a hull edge or has a support among those with the rank 0. These edges are
/// then the live list. Ranks above 0 stand. Takes no memory. After Dickerson and Montague, "A (usually?)
/// connected subgraph of the minimum one_if triangulation" (1996).
pub fn finish(net: &Network, ranks: &mut Ranks)
    requires one_each { length ranks.old ≡ length net.now.edges }
    requires derivation { IsDerivation net.now ranks.old }
    requires most { (e : ℕ) → slice_index ranks.old e ≤ most_tickets net.now }
    ensures one_each { length ranks.new ≡ length net.now.edges }
    ensures derivation { IsDerivation net.now ranks.new }
    ensures stand { RanksStand ranks.old ranks.new }
    ensures live { AreLive net.now (unranked ranks.new) }
    ensures most { (e : ℕ) → slice_index ranks.new e ≤ most_ranks net.now }
{
    let mut last = greatest(ranks);
    // Edges that fall one after the other against the way of one pass fall at once in the next.
    let mut downwards = false;
    'passes: loop {
        let next = rank_unsupported(net, ranks, last, downwards);
        if next == last {
            return;
        }
        last = next;
        downwards = !downwards;
    }
}
