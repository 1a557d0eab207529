// The candidate edges, the live edges and the skeleton of a report.
ghost use Rattle.std.specs.Prelude.{◌≡◌, ◌↔◌, ◌<◌, ◌≤◌, IsTrue, IfOk, length, All};
ghost use Rattle.lmt_network.specs.Flags.{live_numbers};
ghost use Rattle.lmt_network.specs.Network.{IsNetwork, edge_at};
ghost use Rattle.dual_checker.specs.Elimination.{IsElimination, IsNetworkOf};
ghost use Rattle.dual_checker.specs.GoodReport.{HasCandidates, HasLive, HasSkeleton};
ghost use Rattle.dual_checker.specs.LiveLines.{AreEdgesOf};

use crate::elimination::Elimination;
use cert_text::{PriceLine, Report};
use exact_predicates::Points;
use lmt_network::Network;
use mwt_base::NoMemory;
use skeleton_faces::skeleton;
use std::alloc::Global;

/// Whether a report has the number of the candidate edges.
pub fn has_candidates(net: &Network, report: &Report) -> bool
    requires { IsNetworkOf report.now.points report.now.hull report.now.diamond net.now }
    ensures decides { IsTrue result ↔ HasCandidates report.now }
    ensures valid { IsNetwork net.now }
{
    report.candidates == net.edges()
}

/// Whether the edges of a report's live lines are those with the numbers of the live edges.
pub fn has_live(elimination: &Elimination, numbers: &[u32], report: &Report) -> bool
    requires eliminated { IsElimination report.now.points report.now.hull report.now.diamond
        elimination.now.net elimination.now.flags }
    requires numbers { numbers.now ≡ live_numbers elimination.now.flags }
    ensures { IsTrue result ↔ HasLive report.now }
{
    let lines = report.live.as_slice();
    numbers.len() == lines.len() && are_edges(&elimination.net, numbers, lines)
}

// Whether lines are about the edges with these numbers, one by one.
fn are_edges(net: &Network, numbers: &[u32], lines: &[PriceLine]) -> bool
    requires one_each { length numbers.now ≡ length lines.now }
    requires in_range { All (λ e. e < length net.now.edges) numbers.now }
    ensures { IsTrue result ↔ AreEdgesOf net.now numbers.now lines.now }
{
    for (k, line) in lines.iter().enumerate() {
        if net.edge(numbers[k]) != line.edge {
            return false;
        }
    }
    true
}

/// Whether a report has the skeleton of its live edges.
pub fn has_skeleton(
    alloc: Global,
    points: &Points,
    elimination: &Elimination,
    report: &Report,
) -> Result<bool, NoMemory>
    requires points { points.now.points ≡ report.now.points }
    requires eliminated { IsElimination report.now.points report.now.hull report.now.diamond
        elimination.now.net elimination.now.flags }
    requires live { HasLive report.now }
    ensures { IfOk result (λ holds. IsTrue holds ↔ HasSkeleton report.now) }
{
    let skeleton = skeleton(alloc, points, &elimination.net, &elimination.flags)?;
    Ok(skeleton.as_slice() == report.skeleton.as_slice())
}
