// Where the live edges outside the skeleton sit: each face is gone through by pairs of places. A pair whose points see
// each other there is looked up in the network.
ghost use Rattle.std.specs.Prelude.{◌≡◌, ◌≢◌, ◌↔◌, ◌<◌, ℕ, true, false, Some, length, All, AllPairs, IfOk, IfSome, IsTrue, IsSome, None, replicate, slice_index, slice_index_or, slice_set};
ghost use Rattle.std.specs.Bool.{OnTrue, OnFalse};
ghost use Rattle.exact_predicates.specs.Candidates.{EdgePrecedes};
ghost use Rattle.exact_predicates.specs.Plane.{IsInRange};
ghost use Rattle.face_optimum.specs.declared.seat.EdgeSeat.{EdgeSeat};
ghost use Rattle.face_optimum.specs.Places.{IsInAngle, face_at};
ghost use Rattle.face_optimum.specs.SeatTables.{AreEdgeSeats, AreSeated, AreSeats, HasTwoSeats, LacksOneSeat, HavePointsIn, IsOffNumber, seat_at};

use crate::angle::in_angle;
use crate::rings::Rings;
use crate::seat::EdgeSeat;
use exact_predicates::{Point, Points};
use lmt_network::Network;
use mwt_base::NoMemory;
use std::alloc::{AllocError, Global};

// Whether the points of two places of a face are each in the angle at the other's place.
fn see_each_other(points: &[Point], ring: &[u32], first: usize, last: usize) -> bool
    requires in_range { All IsInRange points.now }
    requires ring_in { All (λ p. p < length points.now) ring.now }
    requires first_in { first < length ring.now }
    requires last_in { last < length ring.now }
    ensures { IsTrue result ↔ (IsInAngle points.now ring.now first (slice_index ring.now last) × IsInAngle points.now ring.now last (slice_index ring.now first)) }
{
    in_angle(points, ring, first, ring[last]) && in_angle(points, ring, last, ring[first])
}

// Whether two seats are the same.
fn are_same(one: EdgeSeat, other: EdgeSeat) -> bool
    ensures { IsTrue result ↔ (one ≡ other) }
{
    one.face == other.face && one.first == other.first && one.last == other.last
}

// Keeps a seat of the edge e. Answers whether no other is known.
fn keep_seat(seats: &mut [Option<EdgeSeat>], e: u32, seat: EdgeSeat) -> bool
    requires { e < length seats.old }
    ensures new { OnTrue result (seats.new ≡ slice_set seats.old e (Some seat)) }
    ensures kept { OnTrue result ((known : EdgeSeat) → seat_at seats.old e ≡ Some known → known ≡ seat) }
    ensures other { OnFalse result ((known : EdgeSeat) × (seat_at seats.old e ≡ Some known) × (known ≢ seat)) }
{
    match seats[e as usize] {
        Some(known) => are_same(known, seat),
        None => {
            seats[e as usize] = Some(seat);
            true
        }
    }
}

// Seats the edge that sits at a pair of places, if one does. Answers whether it has no other seat.
fn seat_pair(
    points: &Points,
    net: &Network,
    off: &[bool],
    rings: &Rings,
    seat: EdgeSeat,
    seats: &mut [Option<EdgeSeat>],
) -> bool
    requires same_points { net.now.points ≡ points.now.points }
    requires one_each { length off.now ≡ length net.now.edges }
    requires ascending { AllPairs EdgePrecedes net.now.edges }
    requires points_in { HavePointsIn points.now.points rings.now }
    requires face_in { seat.face < length rings.now }
    requires below { seat.first < seat.last }
    requires last_in { seat.last < length (face_at rings.now seat.face) }
    requires seats_are { AreSeats net.now rings.now seats.old }
    ensures seated { OnTrue result (AreSeated net.now rings.now off.now (λ s. s ≡ seat) seats.old seats.new) }
    ensures two { OnFalse result (HasTwoSeats net.now rings.now off.now) }
{
    let ring = rings.ring(seat.face);
    let (first, last) = (seat.first as usize, seat.last as usize);
    if !see_each_other(points.as_slice(), ring, first, last) {
        return true;
    }
    let Some(e) = net.edge_number(ring[first], ring[last]) else {
        return true;
    };
    if !off[e as usize] {
        return true;
    }
    keep_seat(seats, e, seat)
}

// Seats the edges that sit at a place of a face and at a later one. Answers whether none has another seat.
fn seat_from(
    points: &Points,
    net: &Network,
    off: &[bool],
    rings: &Rings,
    face: u32,
    first: u32,
    seats: &mut [Option<EdgeSeat>],
) -> bool
    requires same_points { net.now.points ≡ points.now.points }
    requires one_each { length off.now ≡ length net.now.edges }
    requires ascending { AllPairs EdgePrecedes net.now.edges }
    requires points_in { HavePointsIn points.now.points rings.now }
    requires face_in { face < length rings.now }
    requires first_in { first < length (face_at rings.now face) }
    requires seats_are { AreSeats net.now rings.now seats.old }
    ensures seated { OnTrue result (AreSeated net.now rings.now off.now (λ s. (s.face ≡ face) × (s.first ≡ first)) seats.old seats.new) }
    ensures two { OnFalse result (HasTwoSeats net.now rings.now off.now) }
{
    let places = rings.ring(face).len() as u32;
    for last in first + 1..places {
        let seat = EdgeSeat { face, first, last };
        if !seat_pair(points, net, off, rings, seat, seats) {
            return false;
        }
    }
    true
}

// Seats the edges that sit at places of a face. Answers whether none has another seat.
fn seat_in_face(
    points: &Points,
    net: &Network,
    off: &[bool],
    rings: &Rings,
    face: u32,
    seats: &mut [Option<EdgeSeat>],
) -> bool
    requires same_points { net.now.points ≡ points.now.points }
    requires one_each { length off.now ≡ length net.now.edges }
    requires ascending { AllPairs EdgePrecedes net.now.edges }
    requires points_in { HavePointsIn points.now.points rings.now }
    requires face_in { face < length rings.now }
    requires seats_are { AreSeats net.now rings.now seats.old }
    ensures seated { OnTrue result (AreSeated net.now rings.now off.now (λ s. s.face ≡ face) seats.old seats.new) }
    ensures two { OnFalse result (HasTwoSeats net.now rings.now off.now) }
{
    let places = rings.ring(face).len() as u32;
    for first in 0..places {
        if !seat_from(points, net, off, rings, face, first, seats) {
            return false;
        }
    }
    true
}

// Seats the edges that sit at places of the faces. Answers whether none has two seats.
fn seat_edges(
    points: &Points,
    net: &Network,
    off: &[bool],
    rings: &Rings,
    seats: &mut [Option<EdgeSeat>],
) -> bool
    requires same_points { net.now.points ≡ points.now.points }
    requires one_each { length off.now ≡ length net.now.edges }
    requires ascending { AllPairs EdgePrecedes net.now.edges }
    requires points_in { HavePointsIn points.now.points rings.now }
    requires seats_are { AreSeats net.now rings.now seats.old }
    ensures seated { OnTrue result (AreSeated net.now rings.now off.now (λ s. s.face < length rings.now) seats.old seats.new) }
    ensures two { OnFalse result (HasTwoSeats net.now rings.now off.now) }
{
    for face in 0..rings.len() {
        if !seat_in_face(points, net, off, rings, face, seats) {
            return false;
        }
    }
    true
}

// Whether each live edge outside the skeleton has a seat.
fn are_all_seated(off: &[bool], seats: &[Option<EdgeSeat>]) -> bool
    requires { length seats.now ≡ length off.now }
    ensures yes_all { IsTrue result → (e : ℕ) → e < length off.now → slice_index_or off.now e false ≡ true → IsSome (seat_at seats.now e) }
    ensures not_all { OnFalse result ((e : ℕ) × (e < length off.now) × (slice_index_or off.now e false ≡ true) × (seat_at seats.now e ≡ None)) }
{
    for e in 0..off.len() {
        if off[e] && seats[e].is_none() {
            return false;
        }
    }
    true
}

// No seats so far.
fn no_seats(alloc: Global, count: usize) -> Result<Vec<Option<EdgeSeat>>, AllocError>
    ensures { IfOk result (λ seats. seats.items ≡ replicate count None) }
{
    let mut seats = Vec::with_capacity(alloc, count)?;
    for _turn in 0..count {
        seats.push(None)?;
    }
    Ok(seats)
}

/// The seats of the live edges outside the skeleton; None where one has two seats or none.
pub(crate) fn edge_seats(
    alloc: Global,
    points: &Points,
    net: &Network,
    off: &[bool],
    rings: &Rings,
) -> Result<Option<Vec<Option<EdgeSeat>>>, NoMemory>
    requires same_points { net.now.points ≡ points.now.points }
    requires one_each { length off.now ≡ length net.now.edges }
    requires ascending { AllPairs EdgePrecedes net.now.edges }
    requires points_in { HavePointsIn points.now.points rings.now }
    ensures some { IfOk result (λ found. IfSome found (λ seats. AreEdgeSeats net.now rings.now off.now seats.items)) }
    ensures none { IfOk result (λ found. found ≡ None → LacksOneSeat net.now rings.now off.now) }
{
    let mut seats = no_seats(alloc, net.edges() as usize)?;
    if !seat_edges(points, net, off, rings, &mut seats) {
        return Ok(None);
    }
    if !are_all_seated(off, &seats) {
        return Ok(None);
    }
    Ok(Some(seats))
}
