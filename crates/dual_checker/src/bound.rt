// The bound of a report.
ghost use Rattle.std.specs.Prelude.{◌≡◌, ◌↔◌, ◌<◌, ◌^◌, ◌≤◌, unsigned_abs, IsTrue, IfOk, IsPermutation, length, map, All};
ghost use Rattle.exact_predicates.specs.Hull.{ring_pairs, IsHullPair};
ghost use Rattle.lmt_network.specs.Network.{edge_at};
ghost use Rattle.lmt_network.specs.Prices.{IsTightSide};
ghost use Rattle.dual_checker.specs.GoodReport.{HasHull, HasLive, HasSkeleton, HasMarks, HasBound, prices_of};
ghost use Rattle.dual_checker.specs.HalfEdges.{side_of};
ghost use Rattle.dual_checker.specs.LiveLines.{IsLedger, IsRowOf, IsTightLine, line_anchors, sum_of_anchors};

use crate::half_edges::Side;
use crate::ledger::Ledger;
use crate::rim::Rim;
use cert_text::{LineKind, PriceLine, PriceLines};
use std::alloc::{AllocError, Global};

impl<'a> Ledger<'a> {
    /// Whether the bound is the sum of the anchors, and no anchor can be raised alone.
    pub fn has_bound(&self, alloc: Global) -> Result<bool, AllocError>
        requires ledger { IsLedger self.now.report.now self.now.net.now self.now.flags.now self.now.numbers.now self.now.shares.items }
        requires hull { HasHull self.now.report.now }
        requires live { HasLive self.now.report.now }
        requires skeleton { HasSkeleton self.now.report.now }
        requires marks { HasMarks self.now.report.now }
        ensures { IfOk result (λ holds. IsTrue holds ↔ HasBound self.now.report.now) }
    {
        if self.report.bound != sum_of_anchors(&self.report.live) {
            return Ok(false);
        }
        let rim = Rim::of(alloc, self.report.hull.as_slice())?;
        Ok(self.is_tight(&rim))
    }

    // Whether each side with an anchor is tight.
    fn is_tight(&self, rim: &Rim) -> bool
        requires ledger { IsLedger self.now.report.now self.now.net.now self.now.flags.now self.now.numbers.now self.now.shares.items }
        requires rim { IsPermutation (map side_of (ring_pairs self.now.report.now.hull)) rim.now }
        ensures { IsTrue result ↔ All (IsTightLine self.now.report.now) self.now.report.now.live }
    {
        for (k, line) in self.report.live.as_slice().iter().enumerate() {
            if !self.is_tight_line(rim, self.numbers[k], *line) {
                return false;
            }
        }
        true
    }

    // Whether the sides with an anchor of the edge with this number, of which this is the line, are tight.
    fn is_tight_line(&self, rim: &Rim, e: u32, line: PriceLine) -> bool
        requires ledger { IsLedger self.now.report.now self.now.net.now self.now.flags.now self.now.numbers.now self.now.shares.items }
        requires rim { IsPermutation (map side_of (ring_pairs self.now.report.now.hull)) rim.now }
        requires e_in { e < length self.now.net.now.edges }
        requires line { line.edge ≡ edge_at self.now.net.now e }
        ensures { IsTrue result ↔ IsTightLine self.now.report.now line }
    {
        match line.kind {
            LineKind::Hull => {
                let up = Side {
                    from: line.edge.a,
                    to: line.edge.b,
                };
                self.is_tight_pair(rim, up, self.net.left(e), line.value)
                    && self.is_tight_pair(rim, up.reversed(), self.net.right(e), line.value)
            }
            LineKind::Skeleton => {
                self.is_tight_side(self.net.left(e), line.left)
                    && self.is_tight_side(self.net.right(e), line.right)
            }
            LineKind::Inner => true,
        }
    }

    // Whether a side is tight if it is a pair of the hull, where these are the triangles on it.
    fn is_tight_pair(&self, rim: &Rim, side: Side, row: &[u32], anchor: i64) -> bool
        requires ledger { IsLedger self.now.report.now self.now.net.now self.now.flags.now self.now.numbers.now self.now.shares.items }
        requires rim { IsPermutation (map side_of (ring_pairs self.now.report.now.hull)) rim.now }
        requires row { IsRowOf self.now.net.now row.now side.from side.to }
        ensures { IsTrue result ↔ (IsHullPair self.now.report.now.hull side.from side.to
            → IsTightSide self.now.report.now.points self.now.report.now.hull (prices_of self.now.report.now) side.from side.to anchor) }
    {
        !rim.has(side) || self.is_tight_side(row, anchor)
    }
}

// The sum of all anchors.
fn sum_of_anchors(lines: &PriceLines) -> i128
    ensures { result ≡ sum_of_anchors lines.now }
{
    let mut sum = 0;
    for line in lines.as_slice() {
        sum += anchors_of(*line);
    }
    sum
}

// The anchors of the edge of a line together.
fn anchors_of(line: PriceLine) -> i128
    ensures is { result ≡ line_anchors line.kind line }
    ensures small { unsigned_abs result ≤ 2 ^ 65 }
{
    match line.kind {
        LineKind::Hull => i128::from(line.value),
        _ => i128::from(line.left) + i128::from(line.right),
    }
}
