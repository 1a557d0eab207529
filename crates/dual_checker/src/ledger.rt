// The prices of a report by the numbers of a network: shares, slacks and tight sides.
ghost use Rattle.std.specs.Prelude.{◌≡◌, ◌↔◌, ◌<◌, ℕ, IsTrue, IfOk, length, All, Contains};
ghost use Rattle.lmt_network.specs.Flags.{live_numbers};
ghost use Rattle.lmt_network.specs.Network.{tri_at};
ghost use Rattle.lmt_network.specs.Numbers.{IsSideOf};
ghost use Rattle.lmt_network.specs.Prices.{slack, IsTightSide};
ghost use Rattle.dual_checker.specs.GoodReport.{prices_of, HasSlack};
ghost use Rattle.dual_checker.specs.LiveLines.{AreShares, HasNumbers, IsLedger, IsRowOf};

use crate::shares::{Shares, line_shares};
use cert_text::Report;
use lmt_network::{Flags, Network};
use std::alloc::{AllocError, Global};

/// A report whose live lines are those of the live edges of a network, with what their sides give.
#[derive(Drop)]
pub struct Ledger<'a> {
    pub report: &'a Report,
    pub net: &'a Network,
    pub flags: &'a Flags,
    // The numbers of the live edges, one for each live line.
    pub numbers: &'a [u32],
    // Of each live edge, by its number; 0 for the others.
    pub shares: Vec<Shares>,
}

// The shares of each live edge of a network, by its number.
fn all_shares(
    alloc: Global,
    net: &Network,
    flags: &Flags,
    numbers: &[u32],
    report: &Report,
) -> Result<Vec<Shares>, AllocError>
    requires { HasNumbers report.now net.now flags.now numbers.now }
    ensures { IfOk result (λ shares. AreShares report.now net.now flags.now shares.items) }
{
    let mut shares = Vec::from_elem(alloc, Shares { up: 0, down: 0 }, net.edges() as usize)?;
    for (k, line) in report.live.as_slice().iter().enumerate() {
        let e = numbers[k];
        shares[e as usize] = line_shares(net.weight(e), net.is_hull(e), *line);
    }
    Ok(shares)
}

impl<'a> Ledger<'a> {
    /// The ledger of a report.
    pub fn of(
        alloc: Global,
        net: &'a Network,
        flags: &'a Flags,
        numbers: &'a [u32],
        report: &'a Report,
    ) -> Result<Ledger<'a>, AllocError>
        requires { HasNumbers report.now net.now flags.now numbers.now }
        ensures same { IfOk result (λ l. (l.report.now ≡ report.now) × (l.net.now ≡ net.now) × (l.flags.now ≡ flags.now) × (l.numbers.now ≡ numbers.now)) }
        ensures ledger { IfOk result (λ l. IsLedger l.report.now l.net.now l.flags.now l.numbers.now l.shares.items) }
    {
        let shares = all_shares(alloc, net, flags, numbers, report)?;
        Ok(Ledger {
            report,
            net,
            flags,
            numbers,
            shares,
        })
    }

    /// Whether the three sides of a triangle are live.
    pub fn is_live(&self, t: u32) -> bool
        requires t_in { t < length self.now.net.now.tris }
        requires one_each { length self.now.flags.now ≡ length self.now.net.now.edges }
        ensures { IsTrue result ↔ ((f : ℕ) → IsSideOf self.now.net.now t f → Contains (live_numbers self.now.flags.now) f) }
    {
        let [ab, bc, ca] = self.net.sides(t);
        if !self.flags.live(ab) {
            return false;
        }
        if !self.flags.live(bc) {
            return false;
        }
        self.flags.live(ca)
    }

    /// The slack of a live triangle.
    pub fn slack(&self, t: u32) -> i128
        requires ledger { IsLedger self.now.report.now self.now.net.now self.now.flags.now self.now.numbers.now self.now.shares.items }
        requires t_in { t < length self.now.net.now.tris }
        requires live { (f : ℕ) → IsSideOf self.now.net.now t f → Contains (live_numbers self.now.flags.now) f }
        ensures { result ≡ slack self.now.report.now.points self.now.report.now.hull (prices_of self.now.report.now) (tri_at self.now.net.now t) }
    {
        let tri = self.net.tri(t);
        let [ab, bc, ca] = self.net.sides(t);
        let second = self.shares[bc as usize];
        // The least corner is `a`, so that the first side goes up and the last one down.
        let middle = if tri.b < tri.c {
            second.up
        } else {
            second.down
        };
        self.shares[ab as usize].up + middle + self.shares[ca as usize].down
    }

    /// Whether no live triangle has a negative slack.
    pub fn has_slack(&self) -> bool
        requires { IsLedger self.now.report.now self.now.net.now self.now.flags.now self.now.numbers.now self.now.shares.items }
        ensures { IsTrue result ↔ HasSlack self.now.report.now }
    {
        for t in 0..self.net.tris() {
            if self.is_live(t) && self.slack(t) < 0 {
                return false;
            }
        }
        true
    }

    /// Whether a side with this anchor is tight, where these are the triangles on it: a live one of them has
    /// no slack, or none is live and the anchor is 0.
    pub fn is_tight_side(&self, row: &[u32], anchor: i64) -> bool
        requires ledger { IsLedger self.now.report.now self.now.net.now self.now.flags.now self.now.numbers.now self.now.shares.items }
        requires row { All (λ t. t < length self.now.net.now.tris) row.now }
        ensures { (u v : ℕ) → IsRowOf self.now.net.now row.now u v
            → (IsTrue result ↔ IsTightSide self.now.report.now.points self.now.report.now.hull (prices_of self.now.report.now) u v anchor) }
    {
        let mut bare = true;
        for t in row {
            if self.is_live(*t) {
                if self.slack(*t) == 0 {
                    return true;
                }
                bare = false;
            }
        }
        bare && anchor == 0
    }
}
