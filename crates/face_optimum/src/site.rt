// Live edges with a skeleton that decomposes, and what sits where.
ghost use Rattle.std.specs.Prelude.{◌≡◌, ◌↔◌, ◌<◌, ℕ, Contains, length};
ghost use Rattle.lmt_network.specs.Network.{tri_at};
ghost use Rattle.lmt_network.specs.Numbers.{HasSide, IsNumberOf};
ghost use Rattle.face_optimum.specs.Seats.{IsOff, first_point, last_point};
ghost use Rattle.face_optimum.specs.Sites.{IsSite, faces_of};

use crate::rings::Rings;
use crate::seat::{EdgeSeat, TriSeat};
use exact_predicates::Edges;
use lmt_network::{Flags, Network};

/// Live edges with their skeleton and its faces, and where each edge outside the skeleton and each live
/// triangle sits.
#[derive(Clone, Copy)]
pub(crate) struct Site<'a> {
    pub(crate) net: &'a Network,
    pub(crate) flags: &'a Flags,
    pub(crate) skeleton: &'a Edges,
    // The bounded faces.
    pub(crate) rings: &'a Rings,
    // Of each edge, whether it is a live edge outside the skeleton.
    pub(crate) off: &'a [bool],
    pub(crate) edge_seats: &'a [Option<EdgeSeat>],
    pub(crate) tri_seats: &'a [TriSeat],
}

impl<'a> Site<'a> {
    // The triangles with the side from u to v of the edge e.
    pub(crate) fn row(&self, e: u32, u: u32, v: u32) -> &'a [u32]
        requires { IsNumberOf self.now.net.now u v e }
        ensures { (t : ℕ) → Contains result.now t ↔ ((t < length self.now.net.now.tris) × HasSide (tri_at self.now.net.now t) u v) }
    {
        if u < v {
            self.net.left(e)
        } else {
            self.net.right(e)
        }
    }

    // The points of the greater and of the lesser place at which the edge sits.
    pub(crate) fn base(&self, e: u32) -> (u32, u32)
        requires site { IsSite self.now }
        requires off { IsOff self.now.net.now self.now.flags.now self.now.skeleton.now e }
        ensures from { result.0 ≡ last_point (faces_of self.now) self.now.edge_seats.now e }
        ensures to { result.1 ≡ first_point (faces_of self.now) self.now.edge_seats.now e }
        ensures number { IsNumberOf self.now.net.now result.0 result.1 e }
    {
        let Some(seat) = self.edge_seats[e as usize] else {
            unreachable!()
        };
        let face = self.rings.ring(seat.face);
        (face[seat.last as usize], face[seat.first as usize])
    }
}
