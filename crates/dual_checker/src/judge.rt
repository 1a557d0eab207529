// The checker.
ghost use Rattle.std.specs.Prelude.{◌≡◌, ◌⊎◌, ℕ, IfOk, OnOk, IsErrOf};
ghost use Rattle.exact_predicates.specs.PointSet.{IsPointSet};
ghost use Rattle.cert_text.specs.Within.{IsWithin};
ghost use Rattle.dual_checker.specs.Elimination.{HasTooManyEdges, HasTooManyTriangles, IsElimination, IsWithinLimits};
ghost use Rattle.dual_checker.specs.GoodReport.{HasPoints, HasHull, HasLive, HasSkeleton, HasLength, edge_parts, price_parts};
ghost use Rattle.dual_checker.specs.LiveLines.{HasNumbers, IsLedger};
ghost use Rattle.dual_checker.specs.Parts.{IsFirstToFail};
ghost use Rattle.dual_checker.specs.Verdicts.{IsVerdict, verdict_of};

use crate::elimination::{Elimination, network_of};
use crate::ledger::Ledger;
use crate::length::{has_faces, has_gap, has_length};
use crate::lists::{has_candidates, has_live, has_skeleton};
use crate::points::points_of;
use crate::stop::CheckStop;
use crate::triangulation::has_triangulation;
use crate::verdict::Verdict;
use cert_text::Report;
use exact_predicates::Points;
use hull_sweep::sweep;
use mwt_base::NoMemory;
use std::alloc::{AllocError, Global};
use std::thread::Threads;

/// Decides whether a report is right about its points, part by part, from the points and the diamond word
/// alone. The parts are, in this order: points, hull, candidates, live, skeleton, triangulation, length,
/// prices, slack, bound, gap and faces. After the first come `DenseEdges`, which says that the points have more
/// than 400,000 candidate edges, and `DenseTriangles`, which says that they have no more, but more than
/// 4,000,000 empty triangles between these.
pub fn check<R: Threads + Sync>(
    rt: &R,
    alloc: Global,
    report: &Report,
) -> Result<Verdict, CheckStop>
    requires { IsWithin report.now }
    ensures verdict { IfOk result (IsVerdict report.now) }
    ensures dense_edges { IsErrOf result CheckStop.DenseEdges
        → HasPoints report.now × HasTooManyEdges report.now.points report.now.diamond }
    ensures dense_triangles { IsErrOf result CheckStop.DenseTriangles
        → HasPoints report.now × HasTooManyTriangles report.now.points report.now.diamond }
    // It says one of these two where the points have so many, unless memory runs out.
    ensures within { OnOk result (HasPoints report.now → IsWithinLimits report.now.points report.now.diamond) }
{
    let Some(points) = points_of(alloc, report)? else {
        return Ok(Verdict::Broken(1));
    };
    let start = sweep(alloc, &points)?;
    let net = network_of(rt, alloc, &points, &start.hull, report.diamond)?;
    if start.hull.as_slice() != report.hull.as_slice() {
        return Ok(Verdict::Broken(2));
    }
    let elimination = Elimination::of_network(alloc, net)?;
    let broken = broken_part(alloc, &points, &elimination, report)?;
    Ok(verdict_of(broken))
}

// What a report is found to be, by the first part that fails.
fn verdict_of(broken: Option<u32>) -> Verdict
    ensures { result ≡ verdict_of broken }
{
    match broken {
        None => Verdict::Valid,
        Some(part) => Verdict::Broken(part),
    }
}

// The first part after the hull that fails.
fn broken_part(
    alloc: Global,
    points: &Points,
    elimination: &Elimination,
    report: &Report,
) -> Result<Option<u32>, NoMemory>
    requires within { IsWithin report.now }
    requires points { points.now.points ≡ report.now.points }
    requires hull { HasHull report.now }
    requires eliminated { IsElimination report.now.points report.now.hull report.now.diamond
        elimination.now.net elimination.now.flags }
    ensures { IfOk result (IsFirstToFail 3 (edge_parts report.now)) }
{
    let numbers = elimination.live_numbers(alloc)?;
    if !has_candidates(&elimination.net, report) {
        return Ok(Some(3));
    }
    if !has_live(elimination, &numbers, report) {
        return Ok(Some(4));
    }
    if !has_skeleton(alloc, points, elimination, report)? {
        return Ok(Some(5));
    }
    if !has_triangulation(alloc, points, report)? {
        return Ok(Some(6));
    }
    if !has_length(points, report) {
        return Ok(Some(7));
    }
    broken_price_part(alloc, elimination, &numbers, report)
}

// The first part from the prices on that fails.
fn broken_price_part(
    alloc: Global,
    elimination: &Elimination,
    numbers: &[u32],
    report: &Report,
) -> Result<Option<u32>, NoMemory>
    requires hull { HasHull report.now }
    requires numbers { HasNumbers report.now elimination.now.net elimination.now.flags numbers.now }
    requires live { HasLive report.now }
    requires skeleton { HasSkeleton report.now }
    requires length { HasLength report.now }
    ensures { IfOk result (IsFirstToFail 8 (price_parts report.now)) }
{
    let ledger = Ledger::of(alloc, &elimination.net, &elimination.flags, numbers, report)?;
    let broken = broken_part_of(alloc, &ledger)?;
    Ok(broken)
}

// The same, by the ledger of the report.
fn broken_part_of(alloc: Global, ledger: &Ledger) -> Result<Option<u32>, AllocError>
    requires ledger { IsLedger ledger.now.report.now ledger.now.net.now ledger.now.flags.now ledger.now.numbers.now ledger.now.shares.items }
    requires hull { HasHull ledger.now.report.now }
    requires live { HasLive ledger.now.report.now }
    requires skeleton { HasSkeleton ledger.now.report.now }
    requires length { HasLength ledger.now.report.now }
    ensures { IfOk result (IsFirstToFail 8 (price_parts ledger.now.report.now)) }
{
    if !ledger.has_marks() {
        return Ok(Some(8));
    }
    if !ledger.has_slack() {
        return Ok(Some(9));
    }
    if !ledger.has_bound(alloc)? {
        return Ok(Some(10));
    }
    if !has_gap(ledger.report) {
        return Ok(Some(11));
    }
    if !has_faces(ledger.report) {
        return Ok(Some(12));
    }
    Ok(None)
}
