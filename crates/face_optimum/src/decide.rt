// Whether the skeleton decomposes, and where its edges and triangles sit.
ghost use Rattle.std.specs.Prelude.{◌≡◌, ◌↔◌, ◌+◌, ◌-◌, ◌*◌, ◌<◌, ◌≤◌, ◌^◌, None, length, sum_by, All, Contains, IfOk, IfSome, IsTrue};
ghost use Rattle.exact_predicates.specs.Hull.{IsHull};
ghost use Rattle.lmt_network.specs.Flags.{live_edges};
ghost use Rattle.lmt_network.specs.Network.{IsNetwork};
ghost use Rattle.lmt_network.specs.Skeleton.{AreSkeleton};
ghost use Rattle.skeleton_faces.specs.Faces.{AreFaces};
ghost use Rattle.face_optimum.specs.Decomposition.{AreFilled, Decomposes, IsCut, bounded_faces};
ghost use Rattle.face_optimum.specs.Known.{AreKnown};
ghost use Rattle.face_optimum.specs.Seats.{AreOff};
ghost use Rattle.face_optimum.specs.SeatTables.{AreSidesIn, HavePointsIn, HaveSidesOnce};

use crate::between::{have_pairs_tris, have_roots_tris};
use crate::bounded::{are_sized, bounded, places_less_two};
use crate::edge_seats::edge_seats;
use crate::off::off_skeleton;
use crate::rim::is_hull_left_out;
use crate::rings::Rings;
use crate::table::Seats;
use crate::tri_seats::tri_seats;
use exact_predicates::{Edges, Hull, Points};
use lmt_network::{Flags, Network};
use mwt_base::NoMemory;
use skeleton_faces::{Faces, connected};
use std::alloc::Global;

// Whether the skeleton cuts the inside of the hull into faces of at most `most` places.
fn is_cut(
    alloc: Global,
    points: &Points,
    hull: &Hull,
    skeleton: &Edges,
    faces: &Faces,
    most: u32,
) -> Result<bool, NoMemory>
    requires hull_is { IsHull points.now.points hull.now }
    requires ends_in { All (λ e. e.b < length points.now.points) skeleton.now }
    requires faces_are { AreFaces points.now.points skeleton.now faces.now }
    requires most_in { most ≤ 128 }
    ensures { IfOk result (λ cut. IsTrue cut ↔ IsCut points.now.points hull.now skeleton.now faces.now most) }
{
    let ring = hull.as_slice();
    if !connected(alloc, points, skeleton)? {
        return Ok(false);
    }
    if !is_hull_left_out(ring, faces) {
        return Ok(false);
    }
    if !are_sized(ring, faces, most) {
        return Ok(false);
    }
    let places = places_less_two(ring, faces);
    Ok(places + u64::from(hull.len()) + 2 == 2 * u64::from(points.len()))
}

// What sits where on these faces; None where it does not fill them.
fn seats_on(
    alloc: Global,
    points: &Points,
    net: &Network,
    flags: &Flags,
    skeleton: &Edges,
    rings: Rings,
    off: Vec<bool>,
) -> Result<Option<Seats>, NoMemory>
    requires network { IsNetwork net.now }
    requires same_points { net.now.points ≡ points.now.points }
    requires one_each { length flags.now ≡ length net.now.edges }
    requires skeleton_in { All (Contains (live_edges net.now flags.now)) skeleton.now }
    requires off_is { AreOff net.now flags.now skeleton.now off.items }
    requires points_in { HavePointsIn points.now.points rings }
    requires once { HaveSidesOnce rings }
    requires some { All (λ c. 3 ≤ length c) rings }
    requires on { AreSidesIn skeleton.now rings }
    ensures some { IfOk result (λ found. IfSome found (λ seats.
        AreKnown net.now flags.now skeleton.now rings seats × AreFilled points.now.points (live_edges net.now flags.now) skeleton.now rings)) }
    ensures none { IfOk result (λ found. found ≡ None → ¬ AreFilled points.now.points (live_edges net.now flags.now) skeleton.now rings) }
{
    let Some(edges) = edge_seats(alloc, points, net, &off, &rings)? else {
        return Ok(None);
    };
    let Some(tris) = tri_seats(alloc, net, flags, &off, &edges, &rings)? else {
        return Ok(None);
    };
    if !have_pairs_tris(net, flags, &off, &rings, &edges, &tris) {
        return Ok(None);
    }
    if !have_roots_tris(net, flags, &off, &rings, &tris) {
        return Ok(None);
    }
    Ok(Some(Seats {
        rings,
        off,
        edges,
        tris,
    }))
}

/// What sits where on the bounded faces of the skeleton; None exactly where the skeleton does not
/// decompose. `NoMemory` is the only error.
pub(crate) fn seats(
    alloc: Global,
    points: &Points,
    hull: &Hull,
    net: &Network,
    flags: &Flags,
    skeleton: &Edges,
    faces: &Faces,
    most: u32,
) -> Result<Option<Seats>, NoMemory>
    requires same_points { net.now.points ≡ points.now.points }
    requires hull_is { IsHull points.now.points hull.now }
    requires one_each { length flags.now ≡ length net.now.edges }
    requires skeleton_is { AreSkeleton points.now.points (live_edges net.now flags.now) skeleton.now }
    requires faces_are { AreFaces points.now.points skeleton.now faces.now }
    requires most_in { most ≤ 128 }
    ensures some { IfOk result (λ found. IfSome found (λ seats.
        AreKnown net.now flags.now skeleton.now (bounded_faces hull.now faces.now) seats × Decomposes points.now.points hull.now (live_edges net.now flags.now) skeleton.now faces.now most)) }
    ensures none { IfOk result (λ found. found ≡ None → ¬ Decomposes points.now.points hull.now (live_edges net.now flags.now) skeleton.now faces.now most) }
{
    let off = off_skeleton(alloc, net, flags, skeleton)?;
    if !is_cut(alloc, points, hull, skeleton, faces, most)? {
        return Ok(None);
    }
    let rings = bounded(alloc, hull.as_slice(), faces)?;
    seats_on(alloc, points, net, flags, skeleton, rings, off)
}
