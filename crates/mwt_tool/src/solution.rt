// The triangulation of a report, and the prices that bound all others.
ghost use Rattle.std.specs.Prelude.{◌≡◌, ◌<◌, ◌≤◌, IfOk, length};
ghost use Rattle.mwt_base.specs.Limits.{most_workers};
ghost use Rattle.exact_predicates.specs.Hull.{IsHull};
ghost use Rattle.exact_predicates.specs.PointSet.{IsPointSet};
ghost use Rattle.exact_predicates.specs.Triangulation.{IsTriangulation};
ghost use Rattle.lmt_network.specs.Flags.{live_edges};
ghost use Rattle.lmt_network.specs.Skeleton.{AreSkeleton};
ghost use Rattle.mwt_tool.specs.Solution.{HasLiveFlags};

use crate::shortening::shortened;
use crate::solver::Settings;
use cert_text::Method;
use exact_predicates::{Edges, Hull, Points, Tris};
use face_optimum::{FaceEnd, solve_faces};
use lmt_network::{Flags, Network};
use mwt_base::{Gate, NoMemory};
use price_ascent::Prices;
use skeleton_faces::faces;
use std::alloc::Global;
use std::thread::Threads;

// The most corners of a face that is solved by itself.
const MOST_PLACES: u32 = 128;

/// A triangulation, the method that found it, and prices of the live edges.
#[derive(Drop)]
pub struct Solution {
    pub method: Method,
    pub tris: Tris,
    pub prices: Prices,
}

impl Solution {
    ghost use Rattle.mwt_tool.specs.Solution.{IsSolution};

    /// By faces where the skeleton decomposes, and else by rounds of claimed flips from the sweep's
    /// triangulation, with the prices after so many sweeps.
    pub fn of<R: Threads + Sync, G: Gate>(
        rt: &R,
        alloc: Global,
        points: &Points,
        hull: &Hull,
        net: &Network,
        flags: &Flags,
        skeleton: &Edges,
        first: &Tris,
        settings: &Settings,
        gate: &G,
    ) -> Result<Solution, NoMemory>
        requires some { 0 < settings.now.workers }
        requires few { settings.now.workers ≤ most_workers }
        requires lawful { IsPointSet points.now.points }
        requires points { net.now.points ≡ points.now.points }
        requires hull { net.now.hull ≡ hull.now }
        requires hull_is { IsHull points.now.points hull.now }
        requires live { HasLiveFlags net.now flags.now }
        requires skeleton { AreSkeleton net.now.points (live_edges net.now flags.now) skeleton.now }
        requires first { IsTriangulation points.now.points hull.now first.now }
        ensures { IfOk result (λ s. IsSolution net.now flags.now skeleton.now first.now settings.now.sweeps s) }
    {
        let faces = faces(alloc, points, skeleton)?;
        let end = solve_faces(
            alloc,
            points,
            hull,
            net,
            flags,
            skeleton,
            &faces,
            MOST_PLACES,
        )?;
        match end {
            FaceEnd::Whole(tris, prices) => Ok(Solution {
                method: Method::Faces,
                tris,
                prices,
            }),
            FaceEnd::Not => {
                let prices = Prices::ascent(alloc, net, flags, skeleton, settings.sweeps)?;
                let tris = shortened(rt, alloc, points, hull, first, settings.workers, gate)?;
                Ok(Solution {
                    method: Method::Flips,
                    tris,
                    prices,
                })
            }
        }
    }
}
