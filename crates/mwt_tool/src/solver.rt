// The work of the mode `solve`.
ghost use Rattle.std.specs.Prelude.{◌≡◌, ◌*◌, ◌^◌, ◌<◌, ◌≤◌, pos, ◌≤ℤ◌, All, IfOk, OnOk, IsErrOf, length};
ghost use Rattle.mwt_base.specs.Limits.{most_anchor, most_edges, most_length, most_unit, most_workers};
ghost use Rattle.mwt_tool.specs.Found.{report_of};
ghost use Rattle.dual_checker.specs.Elimination.{HasTooManyEdges, HasTooManyTriangles, IsWithinLimits};
ghost use Rattle.exact_predicates.specs.declared.diamond.Diamond.{Diamond};
ghost use Rattle.exact_predicates.specs.PointSet.{IsPointSet};
ghost use Rattle.mwt_tool.specs.ReportOf.{IsReportOf};
ghost use Rattle.lmt_network.specs.Flags.{live_edges, live_numbers};
ghost use Rattle.lmt_network.specs.Numbers.{AreLive};
ghost use Rattle.lmt_network.specs.Live.{IsLive};
ghost use Rattle.exact_predicates.specs.Candidates.{AreCandidates};

use crate::priced::Priced;
use crate::solution::Solution;
use cert_text::{Method, Report};
use dual_checker::{CheckStop, network_of};
use exact_predicates::{Diamond, Hull, Point, PointList, Points, Tris};
use hull_sweep::{Start, sweep};
use length_enclosure::{Enclosure, enclosure};
use lmt_network::{Flags, Network};
use mwt_base::{Gate, NoMemory};
use skeleton_faces::skeleton;
use std::alloc::Global;
use std::thread::Threads;
use steal_workers::{Dealing, Settled, settle_all};
use tsplib_points::File;

/// What `solve` is asked for: how many workers discard edges and claim triangles, from 1 to 64; whether edges are left out by
/// the diamond test; and how many sweeps of prices are made where the skeleton does not decompose.
#[derive(Clone, Copy, Debug, PartialEq, Eq)]
pub struct Settings {
    pub workers: u32,
    pub diamond: Diamond,
    pub sweeps: u32,
}

/// The report of what a file holds: a good one. Where the skeleton of its live edges decomposes into faces
/// of at most 128 corners, its method is faces: the triangulation is the best on each face, and the bound
/// is the lower end of its length. Else its method is flips: the triangulation is found by rounds of claimed
/// flips from the sweep's, and the prices are those of the ascent. `DenseEdges` and `DenseTriangles` come exactly where
/// the points have too many candidate edges, or empty triangles between them. No part of the report
/// depends on the number of workers; `gate` is called by them.
pub fn solve<R: Threads + Sync, G: Gate>(
    rt: &R,
    alloc: Global,
    file: &File,
    settings: &Settings,
    gate: &G,
) -> Result<Report, CheckStop>
    requires unit { file.now.unit ≤ most_unit }
    requires some { 0 < settings.now.workers }
    requires few { settings.now.workers ≤ most_workers }
    ensures report { IfOk result (λ report. IsReportOf file.now settings.now report) }
    ensures within { OnOk result (IsWithinLimits file.now.points.points settings.now.diamond) }
    ensures dense_edges { IsErrOf result CheckStop.DenseEdges →
        HasTooManyEdges file.now.points.points settings.now.diamond }
    ensures dense_triangles { IsErrOf result CheckStop.DenseTriangles →
        HasTooManyTriangles file.now.points.points settings.now.diamond }
{
    let points = list_of(alloc, &file.points)?;
    let Start { hull, tris: first } = sweep(alloc, &file.points)?;
    let net = network_of(rt, alloc, &file.points, &hull, settings.diamond)?;
    let flags = live_flags(rt, alloc, &net, settings.workers, gate)?;
    let skeleton = skeleton(alloc, &file.points, &net, &flags)?;
    let solution = Solution::of(
        rt,
        alloc,
        &file.points,
        &hull,
        &net,
        &flags,
        &skeleton,
        &first,
        settings,
        gate,
    )?;
    let part = Priced::of(alloc, &net, &flags, skeleton, &solution.prices)?;
    let ends = enclosure(&file.points, &hull, &solution.tris);
    let found = Found {
        points,
        hull,
        candidates: net.edges(),
        part,
        method: solution.method,
        tris: solution.tris,
        ends,
    };
    Ok(found.report(file, settings))
}

// What a report is made of.
#[derive(Drop)]
pub struct Found {
    points: PointList,
    hull: Hull,
    candidates: u32,
    part: Priced,
    method: Method,
    tris: Tris,
    ends: Enclosure,
}

impl Found {
    // The report of this file.
    fn report(self, file: &File, settings: &Settings) -> Report
        requires not_negative { pos 0 ≤ℤ self.part.bound }
        requires high { self.part.bound ≤ℤ pos (2 * most_anchor * most_edges) }
        requires short { self.ends.hi ≤ most_length }
        ensures report { result ≡ report_of file.now settings.now self }
        ensures merged { file.now.merged < 2 ^ 32 }
    {
        let Found {
            points,
            hull,
            candidates,
            part,
            method,
            tris,
            ends,
        } = self;
        let Priced {
            live,
            skeleton,
            bound,
        } = part;
        let Enclosure { lo, hi } = ends;
        Report {
            version: 2,
            diamond: settings.diamond,
            unit: file.unit,
            merged: fitting(file.merged),
            points,
            hull,
            candidates,
            live,
            skeleton,
            tris,
            method,
            lo,
            hi,
            bound,
            gap: hi as i128 - bound,
        }
    }
}

// The points as a list.
fn list_of(alloc: Global, points: &Points) -> Result<PointList, NoMemory>
    ensures items { IfOk result (λ list. list ≡ points.now.points) }
    ensures ids { IfOk result (λ list. All (λ p. p.id < 2 ^ 32) list) }
    ensures valid { IsPointSet points.now.points }
{
    let mut list = Vec::new(alloc);
    for point in points.as_slice() {
        list.push(same(point))?;
    }
    Ok(PointList::of(list))
}

// The point itself, whose id fits its type.
fn same(point: &Point) -> Point
    ensures is { result ≡ point.now }
    ensures id { result.id < 2 ^ 32 }
{
    Point {
        id: fitting(point.id),
        x: point.x,
        y: point.y,
    }
}

// The number itself, which fits its type.
fn fitting(n: u32) -> u32
    ensures is { result ≡ n }
    ensures fits { result < 2 ^ 32 }
{
    n
}

// Which edges are live.
fn live_flags<R: Threads + Sync, G: Gate>(
    rt: &R,
    alloc: Global,
    net: &Network,
    workers: u32,
    gate: &G,
) -> Result<Flags, NoMemory>
    requires some { 0 < workers }
    requires few { workers ≤ most_workers }
    ensures one_each { IfOk result (λ flags. length flags ≡ length net.now.edges) }
    ensures live { IfOk result (λ flags. AreLive net.now (live_numbers flags)) }
    ensures live_edges { IfOk result (λ flags. (diamond : Diamond)
        → AreCandidates net.now.points net.now.hull diamond net.now.edges
        → IsLive net.now.points net.now.hull diamond (live_edges net.now flags)) }
{
    let Settled { flags, .. } = settle_all(rt, alloc, net, workers, Dealing::Stripes, gate)?;
    Ok(flags)
}
