// Where the sides of the faces stand.
ghost use Rattle.std.specs.Prelude.{◌≡◌, ◌*◌, ◌<◌, length, AllPairs, IfOk, None, replicate};
ghost use Rattle.exact_predicates.specs.Candidates.{EdgePrecedes};
ghost use Rattle.face_optimum.specs.Places.{face_at};
ghost use Rattle.face_optimum.specs.SeatTables.{AreAllSides, AreSidesIn, AreSidesSeated, AreSideSeats, HaveSidesOnce, side_key};
ghost use Rattle.lmt_network.specs.Numbers.{IsNumberOf};
ghost use Rattle.skeleton_faces.specs.Sides.{side_start, side_end};

use crate::angle::next_point;
use crate::number::number;
use crate::rings::Rings;
use crate::seat::SideSeat;
use lmt_network::Network;
use std::alloc::{AllocError, Global};

/// The number of the side from u to v of the edge e: twice that of the edge where it goes up, and one more
/// where it goes down.
pub(crate) fn side_number(net: &Network, e: u32, u: u32, v: u32) -> usize
    requires number { IsNumberOf net.now u v e }
    ensures key { result ≡ side_key e u v }
    ensures within { result < 2 * length net.now.edges }
    ensures start { side_start net.now.edges result ≡ u }
    ensures end_ { side_end net.now.edges result ≡ v }
{
    if net.edge(e).a == u {
        2 * e as usize
    } else {
        2 * e as usize + 1
    }
}

// Keeps where a side of a face stands.
fn seat_side(net: &Network, rings: &Rings, seat: SideSeat, seats: &mut [Option<SideSeat>])
    requires ascending { AllPairs EdgePrecedes net.now.edges }
    requires once { HaveSidesOnce rings.now }
    requires edges { AreSidesIn net.now.edges rings.now }
    requires face_in { seat.face < length rings.now }
    requires place_in { seat.place < length (face_at rings.now seat.face) }
    requires seats_are { AreSideSeats net.now rings.now seats.old }
    ensures { AreSidesSeated net.now rings.now (λ s. s ≡ seat) seats.old seats.new }
{
    let ring = rings.ring(seat.face);
    let u = ring[seat.place as usize];
    let v = next_point(ring, seat.place as usize);
    let e = number(net, u, v);
    seats[side_number(net, e, u, v)] = Some(seat);
}

// Keeps where the sides of a face stand.
fn seat_sides_of(net: &Network, rings: &Rings, face: u32, seats: &mut [Option<SideSeat>])
    requires ascending { AllPairs EdgePrecedes net.now.edges }
    requires once { HaveSidesOnce rings.now }
    requires edges { AreSidesIn net.now.edges rings.now }
    requires face_in { face < length rings.now }
    requires seats_are { AreSideSeats net.now rings.now seats.old }
    ensures { AreSidesSeated net.now rings.now (λ s. s.face ≡ face) seats.old seats.new }
{
    let places = rings.ring(face).len() as u32;
    for place in 0..places {
        seat_side(net, rings, SideSeat { face, place }, seats);
    }
}

// Keeps where the sides of the faces stand.
fn seat_sides(net: &Network, rings: &Rings, seats: &mut [Option<SideSeat>])
    requires ascending { AllPairs EdgePrecedes net.now.edges }
    requires once { HaveSidesOnce rings.now }
    requires edges { AreSidesIn net.now.edges rings.now }
    requires seats_are { AreSideSeats net.now rings.now seats.old }
    ensures { AreSidesSeated net.now rings.now (λ s. s.face < length rings.now) seats.old seats.new }
{
    for face in 0..rings.len() {
        seat_sides_of(net, rings, face, seats);
    }
}

// No places so far.
fn no_places(alloc: Global, count: usize) -> Result<Vec<Option<SideSeat>>, AllocError>
    ensures { IfOk result (λ seats. seats.items ≡ replicate count None) }
{
    let mut seats = Vec::with_capacity(alloc, count)?;
    for _turn in 0..count {
        seats.push(None)?;
    }
    Ok(seats)
}

/// The places of the sides of the faces.
pub(crate) fn side_seats(
    alloc: Global,
    net: &Network,
    rings: &Rings,
) -> Result<Vec<Option<SideSeat>>, AllocError>
    requires ascending { AllPairs EdgePrecedes net.now.edges }
    requires once { HaveSidesOnce rings.now }
    requires edges { AreSidesIn net.now.edges rings.now }
    ensures { IfOk result (λ seats. AreAllSides net.now rings.now seats.items) }
{
    let mut seats = no_places(alloc, 2 * net.edges() as usize)?;
    seat_sides(net, rings, &mut seats);
    Ok(seats)
}
