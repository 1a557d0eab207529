// Where triangles sit: their sides lead from place to place of a face.
ghost use Rattle.std.specs.Prelude.{◌≡◌, ◌≢◌, ◌*◌, ◌<◌, ◌≤◌, Some, length, AllPairs, IfSome, slice_index, ◌+◌, ◌%◌};
ghost use Rattle.exact_predicates.specs.Candidates.{EdgePrecedes};
ghost use Rattle.lmt_network.specs.Network.{tri_at};
ghost use Rattle.lmt_network.specs.Numbers.{IsNumberOf};
ghost use Rattle.face_optimum.specs.declared.seat.Link.{Link};
ghost use Rattle.face_optimum.specs.declared.seat.TriSeat.{TriSeat};
ghost use Rattle.face_optimum.specs.Places.{face_at};
ghost use Rattle.face_optimum.specs.SeatTables.{AreEdgeSeats, AreRound, AreSidesOn, AreSidesSeated, IsLink, IsTriLinked, AreAllSides};

use crate::rings::Rings;
use crate::seat::{EdgeSeat, Link, SideSeat, TriSeat};
use crate::side_seats::side_number;
use lmt_network::Network;

// From the place of u to the other one.
fn from_place_of(rings: &Rings, seat: EdgeSeat, u: u32) -> Link
    requires face_in { seat.face < length rings.now }
    requires first_in { seat.first < length (face_at rings.now seat.face) }
    ensures first { slice_index (face_at rings.now seat.face) seat.first ≡ u → result ≡ record { face = seat.face; from = seat.first; to = seat.last } }
    ensures last { slice_index (face_at rings.now seat.face) seat.first ≢ u → result ≡ record { face = seat.face; from = seat.last; to = seat.first } }
{
    let EdgeSeat { face, first, last } = seat;
    if rings.ring(face)[first as usize] == u {
        Link {
            face,
            from: first,
            to: last,
        }
    } else {
        Link {
            face,
            from: last,
            to: first,
        }
    }
}

// The place after this one, round a face.
fn next_place(places: u32, place: u32) -> u32
    requires few { places ≤ 128 }
    requires place_in { place < places }
    ensures { result ≡ (place + 1) % places }
{
    if place + 1 < places { place + 1 } else { 0 }
}

// From the place to the next one, round the face.
fn to_next_place(rings: &Rings, seat: SideSeat) -> Link
    requires face_in { seat.face < length rings.now }
    requires place_in { seat.place < length (face_at rings.now seat.face) }
    ensures { result ≡ record { face = seat.face; from = seat.place; to = (seat.place + 1) % length (face_at rings.now seat.face) } }
{
    let SideSeat { face, place } = seat;
    let places = rings.ring(face).len() as u32;
    Link {
        face,
        from: place,
        to: next_place(places, place),
    }
}

// The link along the side from u to v of the edge e.
fn link(
    net: &Network,
    off: &[bool],
    edges: &[Option<EdgeSeat>],
    sides: &[Option<SideSeat>],
    rings: &Rings,
    e: u32,
    u: u32,
    v: u32,
) -> Option<Link>
    requires number { IsNumberOf net.now u v e }
    requires apart { u ≢ v }
    requires one_each { length off.now ≡ length net.now.edges }
    requires ascending { AllPairs EdgePrecedes net.now.edges }
    requires on { AreSidesOn net.now rings.now off.now }
    requires edges_are { AreEdgeSeats net.now rings.now off.now edges.now }
    requires sides_are { AreAllSides net.now rings.now sides.now }
    ensures is { IfSome result (IsLink net.now rings.now off.now u v) }
    ensures only { (x : Link) → IsLink net.now rings.now off.now u v x → result ≡ Some x }
{
    if off[e as usize] {
        match edges[e as usize] {
            Some(seat) => Some(from_place_of(rings, seat, u)),
            None => None,
        }
    } else {
        match sides[side_number(net, e, u, v)] {
            Some(seat) => Some(to_next_place(rings, seat)),
            None => None,
        }
    }
}

// The three places that links go round.
fn round(x: Link, y: Link, z: Link) -> Option<TriSeat>
    ensures is { IfSome result (λ s. AreRound s x y z) }
    ensures only { (s : TriSeat) → AreRound s x y z → result ≡ Some s }
{
    let face = x.face;
    if y.face != face || z.face != face || x.to != y.from || y.to != z.from || z.to != x.from {
        return None;
    }
    let (a, b, c) = (x.from, y.from, z.from);
    if a < b && b < c {
        Some(TriSeat {
            face,
            first: a,
            middle: b,
            last: c,
        })
    } else if b < c && c < a {
        Some(TriSeat {
            face,
            first: b,
            middle: c,
            last: a,
        })
    } else if c < a && a < b {
        Some(TriSeat {
            face,
            first: c,
            middle: a,
            last: b,
        })
    } else {
        None
    }
}

/// The seat of a triangle.
pub(crate) fn tri_seat(
    net: &Network,
    off: &[bool],
    edges: &[Option<EdgeSeat>],
    sides: &[Option<SideSeat>],
    rings: &Rings,
    t: u32,
) -> Option<TriSeat>
    requires t_in { t < length net.now.tris }
    requires one_each { length off.now ≡ length net.now.edges }
    requires ascending { AllPairs EdgePrecedes net.now.edges }
    requires on { AreSidesOn net.now rings.now off.now }
    requires edges_are { AreEdgeSeats net.now rings.now off.now edges.now }
    requires sides_are { AreAllSides net.now rings.now sides.now }
    ensures is { IfSome result (IsTriLinked net.now rings.now off.now (tri_at net.now t)) }
    ensures only { (s : TriSeat) → IsTriLinked net.now rings.now off.now (tri_at net.now t) s → result ≡ Some s }
{
    let tri = net.tri(t);
    let [ab, bc, ca] = net.sides(t);
    let x = link(net, off, edges, sides, rings, ab, tri.a, tri.b)?;
    let y = link(net, off, edges, sides, rings, bc, tri.b, tri.c)?;
    let z = link(net, off, edges, sides, rings, ca, tri.c, tri.a)?;
    round(x, y, z)
}
