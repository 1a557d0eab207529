// Where the live triangles sit.
ghost use Rattle.std.specs.Prelude.{◌≡◌, ◌<◌, ℕ, None, Some, length, AllPairs, IfOk, IfSome};
ghost use Rattle.exact_predicates.specs.Candidates.{EdgePrecedes};
ghost use Rattle.face_optimum.specs.declared.seat.TriSeat.{TriSeat};
ghost use Rattle.face_optimum.specs.Seats.{IsLiveTri};
ghost use Rattle.face_optimum.specs.SeatTables.{AreAllSides, AreEdgeSeats, AreSidesIn, AreSidesOn, AreTriSeats, IsTriLinked, HasTriNowhere, HaveSidesOnce};
ghost use Rattle.lmt_network.specs.Network.{IsNetwork, tri_at};

use crate::links::tri_seat;
use crate::live::is_live;
use crate::rings::Rings;
use crate::seat::{EdgeSeat, SideSeat, TriSeat};
use crate::side_seats::side_seats;
use lmt_network::{Flags, Network};
use mwt_base::NoMemory;
use std::alloc::Global;

// The seat of a triangle that is live; anything for another one.
fn live_seat(
    net: &Network,
    flags: &Flags,
    off: &[bool],
    edges: &[Option<EdgeSeat>],
    sides: &[Option<SideSeat>],
    rings: &Rings,
    t: u32,
) -> Option<TriSeat>
    requires network { IsNetwork net.now }
    requires t_in { t < length net.now.tris }
    requires live_each { length flags.now ≡ length net.now.edges }
    requires one_each { length off.now ≡ length net.now.edges }
    requires ascending { AllPairs EdgePrecedes net.now.edges }
    requires on { AreSidesOn net.now rings.now off.now }
    requires edges_are { AreEdgeSeats net.now rings.now off.now edges.now }
    requires sides_are { AreAllSides net.now rings.now sides.now }
    ensures is { IsLiveTri net.now flags.now t → IfSome result (IsTriLinked net.now rings.now off.now (tri_at net.now t)) }
    ensures only { IsLiveTri net.now flags.now t → (s : TriSeat) → IsTriLinked net.now rings.now off.now (tri_at net.now t) s → result ≡ Some s }
    ensures live { result ≡ None → IsLiveTri net.now flags.now t }
{
    if !is_live(net, flags, t) {
        return Some(TriSeat {
            face: 0,
            first: 0,
            middle: 0,
            last: 0,
        });
    }
    tri_seat(net, off, edges, sides, rings, t)
}

// The seats of the live triangles, by those of edges and sides; None where one has none.
fn list_seats(
    alloc: Global,
    net: &Network,
    flags: &Flags,
    off: &[bool],
    edges: &[Option<EdgeSeat>],
    sides: &[Option<SideSeat>],
    rings: &Rings,
) -> Result<Option<Vec<TriSeat>>, NoMemory>
    requires network { IsNetwork net.now }
    requires live_each { length flags.now ≡ length net.now.edges }
    requires one_each { length off.now ≡ length net.now.edges }
    requires ascending { AllPairs EdgePrecedes net.now.edges }
    requires on { AreSidesOn net.now rings.now off.now }
    requires edges_are { AreEdgeSeats net.now rings.now off.now edges.now }
    requires sides_are { AreAllSides net.now rings.now sides.now }
    ensures some { IfOk result (λ found. IfSome found (λ seats. AreTriSeats net.now flags.now rings.now off.now (length net.now.tris) seats.items)) }
    ensures none { IfOk result (λ found. found ≡ None → HasTriNowhere net.now flags.now rings.now off.now) }
{
    let mut seats = Vec::with_capacity(alloc, net.tris() as usize)?;
    for t in 0..net.tris() {
        match live_seat(net, flags, off, edges, sides, rings, t) {
            Some(seat) => seats.push(seat)?,
            None => return Ok(None),
        }
    }
    Ok(Some(seats))
}

/// The seats of the live triangles; None where one has none.
pub(crate) fn tri_seats(
    alloc: Global,
    net: &Network,
    flags: &Flags,
    off: &[bool],
    edges: &[Option<EdgeSeat>],
    rings: &Rings,
) -> Result<Option<Vec<TriSeat>>, NoMemory>
    requires network { IsNetwork net.now }
    requires live_each { length flags.now ≡ length net.now.edges }
    requires one_each { length off.now ≡ length net.now.edges }
    requires ascending { AllPairs EdgePrecedes net.now.edges }
    requires once { HaveSidesOnce rings.now }
    requires in_edges { AreSidesIn net.now.edges rings.now }
    requires on { AreSidesOn net.now rings.now off.now }
    requires edges_are { AreEdgeSeats net.now rings.now off.now edges.now }
    ensures some { IfOk result (λ found. IfSome found (λ seats. AreTriSeats net.now flags.now rings.now off.now (length net.now.tris) seats.items)) }
    ensures none { IfOk result (λ found. found ≡ None → HasTriNowhere net.now flags.now rings.now off.now) }
{
    let sides = side_seats(alloc, net, rings)?;
    list_seats(alloc, net, flags, off, edges, &sides, rings)
}
