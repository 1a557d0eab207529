// The best triangulation with live edges, where the skeleton decomposes.
ghost use Rattle.std.specs.Prelude.{◌≡◌, ◌≤◌, length, IfOk};
ghost use Rattle.lmt_network.specs.Flags.{live_edges, live_numbers};
ghost use Rattle.lmt_network.specs.Numbers.{AreLive};
ghost use Rattle.lmt_network.specs.Skeleton.{AreSkeleton};
ghost use Rattle.skeleton_faces.specs.Faces.{AreFaces};
ghost use Rattle.face_optimum.specs.FaceEnds.{IsFaceEnd};

use crate::decide::seats;
use crate::site::Site;
use exact_predicates::{Edges, Hull, Points, Tris};
use lmt_network::{Flags, Network};
use mwt_base::NoMemory;
use price_ascent::Prices;
use skeleton_faces::Faces;
use std::alloc::Global;

/// What `solve_faces` answers.
#[derive(Drop)]
pub enum FaceEnd {
    /// The triangles of the best triangulation with live edges, ascending, and prices that prove that
    /// no other one is shorter in whole millionths.
    Whole(Tris, Prices),
    /// The skeleton does not decompose into faces of at most so many places.
    Not,
}

/// The best triangulation with live edges, where their skeleton decomposes into faces of at most `most`
/// places, found face by face by interval programming; `Not` exactly where it does not decompose so.
/// Weights are lengths in millionths of the unit, rounded down. On each face the least sum is chosen, and of
/// equal ones that with the least middle place. An edge that cuts a part off its face has a price that
/// gives the cost of this part to its side away from the part; the edges of the skeleton and of the hull
/// have the anchors. The time grows with the live edges and live triangles, and with the pairs of places of
/// each face. `NoMemory` is the only error.
pub fn solve_faces(
    alloc: Global,
    points: &Points,
    hull: &Hull,
    net: &Network,
    flags: &Flags,
    skeleton: &Edges,
    faces: &Faces,
    most: u32,
) -> Result<FaceEnd, NoMemory>
    requires same_points { net.now.points ≡ points.now.points }
    requires same_hull { net.now.hull ≡ hull.now }
    requires one_each { length flags.now ≡ length net.now.edges }
    requires live { AreLive net.now (live_numbers flags.now) }
    requires skeleton_is { AreSkeleton net.now.points (live_edges net.now flags.now) skeleton.now }
    requires faces_are { AreFaces net.now.points skeleton.now faces.now }
    requires most_in { most ≤ 128 }
    ensures { IfOk result (IsFaceEnd net.now flags.now skeleton.now faces.now most) }
{
    let _edges = net.edges();
    let Some(seats) = seats(alloc, points, hull, net, flags, skeleton, faces, most)? else {
        return Ok(FaceEnd::Not);
    };
    let site = Site {
        net,
        flags,
        skeleton,
        rings: &seats.rings,
        off: &seats.off,
        edge_seats: &seats.edges,
        tri_seats: &seats.tris,
    };
    let (tris, prices) = site.optimum(alloc)?;
    Ok(FaceEnd::Whole(tris, prices))
}
