// Whether a live triangle sits at two places and between them.
ghost use Rattle.std.specs.Prelude.{◌≡◌, ◌↔◌, ◌-◌, ◌<◌, ℕ, All, Contains, length, IsTrue, slice_index};
ghost use Rattle.exact_predicates.specs.Candidates.{HasEdge};
ghost use Rattle.lmt_network.specs.Network.{IsNetwork};
ghost use Rattle.face_optimum.specs.Places.{face_at};
ghost use Rattle.face_optimum.specs.SeatTables.{AreTriSeats, HasPairTri, HasSeatBetween, IsLiveBetween, AreEdgeSeats, AreSidesIn};

use crate::live::is_live;
use crate::number::number;
use crate::rings::Rings;
use crate::seat::{EdgeSeat, TriSeat};
use lmt_network::{Flags, Network};

// Whether the triangle's first and last place are those of the seat.
fn is_between(tri: TriSeat, seat: EdgeSeat) -> bool
    ensures { IsTrue result ↔ ((tri.face ≡ seat.face) × (tri.first ≡ seat.first) × (tri.last ≡ seat.last)) }
{
    tri.face == seat.face && tri.first == seat.first && tri.last == seat.last
}

// Whether the triangle is live and sits so.
fn is_live_between(net: &Network, flags: &Flags, tris: &[TriSeat], t: u32, seat: EdgeSeat) -> bool
    requires t_in { t < length net.now.tris }
    requires network { IsNetwork net.now }
    requires one_each { length flags.now ≡ length net.now.edges }
    requires tris_each { length tris.now ≡ length net.now.tris }
    ensures { IsTrue result ↔ IsLiveBetween net.now flags.now tris.now seat t }
{
    is_live(net, flags, t) && is_between(tris[t as usize], seat)
}

// Whether one of these triangles is live and sits so.
fn has_between(net: &Network, flags: &Flags, tris: &[TriSeat], row: &[u32], seat: EdgeSeat) -> bool
    requires network { IsNetwork net.now }
    requires one_each { length flags.now ≡ length net.now.edges }
    requires tris_each { length tris.now ≡ length net.now.tris }
    requires row_in { All (λ t. t < length net.now.tris) row.now }
    ensures { IsTrue result ↔ ((t : ℕ) × Contains row.now t × IsLiveBetween net.now flags.now tris.now seat t) }
{
    for t in row {
        if is_live_between(net, flags, tris, *t, seat) {
            return true;
        }
    }
    false
}

// Whether a live triangle sits at the two places and between them. It has the side from the last place to the first.
fn has_tri_between(
    net: &Network,
    flags: &Flags,
    off: &[bool],
    rings: &Rings,
    tris: &[TriSeat],
    seat: EdgeSeat,
) -> bool
    requires network { IsNetwork net.now }
    requires one_each { length flags.now ≡ length net.now.edges }
    requires tris_are { AreTriSeats net.now flags.now rings.now off.now (length net.now.tris) tris.now }
    requires face_in { seat.face < length rings.now }
    requires first_in { seat.first < length (face_at rings.now seat.face) }
    requires last_in { seat.last < length (face_at rings.now seat.face) }
    requires joined { HasEdge net.now.edges (slice_index (face_at rings.now seat.face) seat.last) (slice_index (face_at rings.now seat.face) seat.first) }
    ensures { IsTrue result ↔ HasSeatBetween net.now flags.now tris.now seat }
{
    let ring = rings.ring(seat.face);
    let from = ring[seat.last as usize];
    let to = ring[seat.first as usize];
    let e = number(net, from, to);
    if from < to {
        has_between(net, flags, tris, net.left(e), seat)
    } else {
        has_between(net, flags, tris, net.right(e), seat)
    }
}

// Whether a live triangle sits at the places of the edge and between them, if the edge is a live one outside the skeleton.
fn has_pair_tri(
    net: &Network,
    flags: &Flags,
    off: &[bool],
    rings: &Rings,
    edges: &[Option<EdgeSeat>],
    tris: &[TriSeat],
    e: u32,
) -> bool
    requires e_in { e < length off.now }
    requires network { IsNetwork net.now }
    requires one_each { length flags.now ≡ length net.now.edges }
    requires off_each { length off.now ≡ length net.now.edges }
    requires edges_are { AreEdgeSeats net.now rings.now off.now edges.now }
    requires tris_are { AreTriSeats net.now flags.now rings.now off.now (length net.now.tris) tris.now }
    ensures { IsTrue result ↔ HasPairTri net.now flags.now off.now edges.now tris.now e }
{
    if !off[e as usize] {
        return true;
    }
    match edges[e as usize] {
        Some(seat) => has_tri_between(net, flags, off, rings, tris, seat),
        None => true,
    }
}

/// Whether a live triangle sits at the places of each live edge outside the skeleton and between them.
pub(crate) fn have_pairs_tris(
    net: &Network,
    flags: &Flags,
    off: &[bool],
    rings: &Rings,
    edges: &[Option<EdgeSeat>],
    tris: &[TriSeat],
) -> bool
    requires network { IsNetwork net.now }
    requires one_each { length flags.now ≡ length net.now.edges }
    requires off_each { length off.now ≡ length net.now.edges }
    requires edges_are { AreEdgeSeats net.now rings.now off.now edges.now }
    requires tris_are { AreTriSeats net.now flags.now rings.now off.now (length net.now.tris) tris.now }
    ensures { IsTrue result ↔ ((e : ℕ) → e < length net.now.edges → HasPairTri net.now flags.now off.now edges.now tris.now e) }
{
    for e in 0..net.edges() {
        if !has_pair_tri(net, flags, off, rings, edges, tris, e) {
            return false;
        }
    }
    true
}

/// Whether a live triangle sits at the first and the last place of each face and between them.
pub(crate) fn have_roots_tris(
    net: &Network,
    flags: &Flags,
    off: &[bool],
    rings: &Rings,
    tris: &[TriSeat],
) -> bool
    requires network { IsNetwork net.now }
    requires one_each { length flags.now ≡ length net.now.edges }
    requires tris_are { AreTriSeats net.now flags.now rings.now off.now (length net.now.tris) tris.now }
    requires some { All (λ ring. 0 < length ring) rings.now }
    requires edges { AreSidesIn net.now.edges rings.now }
    ensures { IsTrue result ↔ ((f : ℕ) → f < length rings.now → HasSeatBetween net.now flags.now tris.now (record { face = f; first = 0; last = length (face_at rings.now f) - 1 })) }
{
    for face in 0..rings.len() {
        let last = rings.ring(face).len() as u32 - 1;
        let seat = EdgeSeat {
            face,
            first: 0,
            last,
        };
        if !has_tri_between(net, flags, off, rings, tris, seat) {
            return false;
        }
    }
    true
}
