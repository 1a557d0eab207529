// The work of the mode `explain`.
ghost use Rattle.std.specs.Prelude.{◌<◌, ◌≤◌, IfOk, OnOk, IsErrOf};
ghost use Rattle.mwt_base.specs.Limits.{most_workers};
ghost use Rattle.dual_checker.specs.Elimination.{HasTooManyEdges, HasTooManyTriangles, IsWithinLimits};
ghost use Rattle.mwt_tool.specs.Explained.{IsExplained};

use crate::kills::kill_text;
use crate::solver::Settings;
use dual_checker::{CheckStop, network_of};
use exact_predicates::Points;
use hull_sweep::{Start, sweep};
use mwt_base::Gate;
use std::alloc::Global;
use std::thread::Threads;
use ticket_marks::rank_all;

/// The text of the killed edges of these points, each with a rank. Each locally minimal pair of a killed edge
/// has another side that is killed with a lower rank, so one pass can check that none of them is live. The
/// answers `DenseEdges` and `DenseTriangles` come as from `solve`. Several workers may give other ranks from
/// run to run, and always kill the same edges; `gate` is called by them.
pub fn explain<R: Threads + Sync, G: Gate>(
    rt: &R,
    alloc: Global,
    points: &Points,
    settings: &Settings,
    gate: &G,
) -> Result<Vec<u8>, CheckStop>
    requires some { 0 < settings.now.workers }
    requires few { settings.now.workers ≤ most_workers }
    ensures explained { IfOk result (λ text. IsExplained points.now.points settings.now.diamond text.items) }
    ensures within { OnOk result (IsWithinLimits points.now.points settings.now.diamond) }
    ensures dense_edges { IsErrOf result CheckStop.DenseEdges →
        HasTooManyEdges points.now.points settings.now.diamond }
    ensures dense_triangles { IsErrOf result CheckStop.DenseTriangles →
        HasTooManyTriangles points.now.points settings.now.diamond }
{
    let Start { hull, .. } = sweep(alloc, points)?;
    let net = network_of(rt, alloc, points, &hull, settings.diamond)?;
    let ranks = rank_all(rt, alloc, &net, settings.workers, gate)?;
    let text = kill_text(alloc, &net, &ranks)?;
    Ok(text)
}
