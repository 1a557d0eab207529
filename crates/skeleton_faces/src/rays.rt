// The sides of edges in the order in which their starts see their ends.
ghost use Rattle.std.specs.Prelude.{◌≡◌, ◌*◌, ◌^◌, ◌<◌, length, All, IfOk};
ghost use Rattle.exact_predicates.specs.PointSet.{IsPointSet};
ghost use Rattle.skeleton_faces.specs.Faces.{AreClear};
ghost use Rattle.lmt_network.specs.Network.{IsNetwork};
ghost use Rattle.skeleton_faces.specs.Rays.{AreRays, IsSideUp, ray_cmp};
ghost use Rattle.skeleton_faces.specs.Turning.{AreFannedOut, AreTurning};

use crate::ray::Ray;
use exact_predicates::{Edge, Point, Points};
use lmt_network::{Flags, Network};
use std::alloc::{AllocError, Global};
use std::cmp::Ordering;

// How two rays compare: by start, and going round it to the left, from straight down to straight up
// and on to straight down.
fn compare(s: &Ray, t: &Ray) -> Ordering
    ensures { result ≡ ray_cmp s.now t.now }
{
    s.from
        .cmp(&t.from)
        .then(s.backward.cmp(&t.backward))
        .then((s.height * t.width).cmp(&(s.width * t.height)))
}

// The sides of the edges as their starts see them, in their order.
fn rays(alloc: Global, points: &[Point], edges: &[Edge]) -> Result<Vec<Ray>, AllocError>
    requires points { IsPointSet points.now }
    requires ends_in { All (λ e. e.b < length points.now) edges.now }
    requires few { length edges.now < 2 ^ 32 }
    ensures rays { IfOk result (λ rays. AreRays points.now edges.now (λ s. s < 2 * length edges.now) rays.items) }
    ensures count { IfOk result (λ rays. length rays.items ≡ 2 * length edges.now) }
{
    let mut rays = Vec::new(alloc);
    for (number, edge) in edges.iter().enumerate() {
        let a = &points[edge.a as usize];
        let b = &points[edge.b as usize];
        rays.push(Ray::of(a, b, edge.a, false, 2 * number))?;
        rays.push(Ray::of(a, b, edge.b, true, 2 * number + 1))?;
    }
    rays.sort_unstable_by(compare);
    Ok(rays)
}

/// The sides of the edges by number, start by start, and round each start to the left.
pub(crate) fn sides_round(
    alloc: Global,
    points: &[Point],
    edges: &[Edge],
) -> Result<Vec<usize>, AllocError>
    requires points { IsPointSet points.now }
    requires clear { AreClear points.now edges.now }
    requires few { length edges.now < 2 ^ 32 }
    ensures turning { IfOk result (λ order. AreTurning points.now edges.now (λ s. s < 2 * length edges.now) order.items) }
    ensures count { IfOk result (λ order. length order.items ≡ 2 * length edges.now) }
{
    let rays = rays(alloc, points, edges)?;
    Ok(rays.iter().map(|ray| ray.side).collect(alloc)?)
}

// The sides of the live edges from their lesser ends, in their order.
fn live_rays(
    alloc: Global,
    points: &Points,
    net: &Network,
    flags: &Flags,
) -> Result<Vec<Ray>, AllocError>
    requires same_points { net.now.points ≡ points.now.points }
    requires one_each { length flags.now ≡ length net.now.edges }
    ensures network { IsNetwork net.now }
    ensures rays { IfOk result (λ rays. AreRays net.now.points net.now.edges (IsSideUp flags.now) rays.items) }
{
    let mut rays = Vec::new(alloc);
    for e in 0..net.edges() {
        if flags.live(e) {
            let edge = net.edge(e);
            let a = points.at(edge.a);
            let b = points.at(edge.b);
            rays.push(Ray::of(a, b, edge.a, false, 2 * e as usize))?;
        }
    }
    rays.sort_unstable_by(compare);
    Ok(rays)
}

/// The live edges by number, by their lesser ends, and round each lesser end to the left.
pub(crate) fn edges_round(
    alloc: Global,
    points: &Points,
    net: &Network,
    flags: &Flags,
) -> Result<Vec<usize>, AllocError>
    requires same_points { net.now.points ≡ points.now.points }
    requires one_each { length flags.now ≡ length net.now.edges }
    ensures network { IsNetwork net.now }
    ensures fanned_out { IfOk result (λ order. AreFannedOut net.now.points net.now.edges flags.now order.items) }
{
    let rays = live_rays(alloc, points, net, flags)?;
    Ok(rays.iter().map(|ray| ray.side / 2).collect(alloc)?)
}
