// Claimed flips: two seats in either order, rounds at any number of workers, and that two workers run at the
// same time. The triangles that rounds leave were worked out by another program from the rule of winners.
ghost use Rattle.std.specs.Prelude.{◌≡◌, ◌<◌, ◌≤◌, All, IfOk};
ghost use Rattle.mwt_base.specs.Limits.{most_workers};
ghost use Rattle.flip_claims.specs.Handles.{Belongs};
ghost use Rattle.flip_finish.specs.Mesh.{IsWithin};

use crate::helpers::{TWENTY, points_of, swept};
use exact_predicates::Points;
use flip_claims::{Claim, ClaimSeat, Claims, round, shorten_claimed};
use flip_finish::Mesh;
use mwt_base::{Gate, MeetGate, OpenGate};
use std::alloc::Global;
use std::test::Fail;
use std::thread::Threads;

// The slots 1 and 2, of the edges from 0 to 2 and from 0 to 3, shorten and share the triangle 0 3 2.
const FAN: [(i64, i64); 5] = [(-20, -20), (-5, 3), (-1, 1), (1, -1), (3, -5)];

// One slot shortens.
const KITE: [(i64, i64); 4] = [(0, 0), (4, -5), (4, 5), (8, 0)];

// The corners of a triangle.
type Corners = (u32, u32, u32);

// The mesh of the first triangulation.
fn swept_mesh(alloc: Global, points: &Points) -> Result<Mesh, Fail>
    ensures { IfOk result (λ mesh. All (IsWithin points.now.points) mesh.tris) }
{
    let start = swept(alloc, points)?;
    match Mesh::from_tris(alloc, points, &start.hull, &start.tris) {
        Ok(mesh) => Ok(mesh),
        Err(_) => Err(Fail::from("no memory")),
    }
}

// Claims for a slot that shortens.
fn claimed(
    claims: &Claims,
    points: &Points,
    mesh: &Mesh,
    seat: &mut ClaimSeat,
    slot: u32,
) -> Result<Claim, Fail>
    requires belongs { Belongs claims.now seat.old × (mesh.now ≡ claims.now.mesh) }
    requires within { All (IsWithin points.now.points) mesh.now.tris }
    ensures { Belongs claims.now seat.new }
{
    if slot >= mesh.slots() || !mesh.shortens(points, slot) {
        return Err(Fail::from("the slot does not shorten"));
    }
    Ok(claims.claim(points, mesh, seat, slot))
}

// The answers of two seats that claim for these two slots, one after the other, and the words after that.
fn claimed_by_two(
    alloc: Global,
    first: u32,
    second: u32,
) -> Result<(Claim, Claim, Vec<u64>), Fail> {
    let points = points_of(alloc, &FAN)?;
    let mesh = swept_mesh(alloc, &points)?;
    let Ok((claims, mut seat)) = Claims::open(alloc, &mesh, 2) else {
        return Err(Fail::from("no memory"));
    };
    let mut other = claims.split(&mut seat);
    let one = claimed(&claims, &points, &mesh, &mut seat, first)?;
    let two = claimed(&claims, &points, &mesh, &mut other, second)?;
    claims.join(&mut seat, other);
    let words = claims.close(seat);
    let mut all = Vec::new(alloc);
    for t in 0..mesh.count() {
        all.push(words.get(t))?;
    }
    Ok((one, two, all))
}

#[test]
fn a_smaller_slot_wins_in_either_order(rt: HostRuntime) -> Result<(), Fail> {
    let alloc = rt.alloc();
    let (one, two, words) = claimed_by_two(alloc, 1, 2)?;
    assert_eq!(rt; one, Claim::Held);
    assert_eq!(rt; two, Claim::Lost(1));
    assert_eq!(rt; words.as_slice(), [1, 1, 2].as_slice());
    let (one, two, words) = claimed_by_two(alloc, 2, 1)?;
    assert_eq!(rt; one, Claim::Held);
    assert_eq!(rt; two, Claim::Held);
    assert_eq!(rt; words.as_slice(), [1, 1, 2].as_slice());
    Ok(())
}

// How many edges a round flips.
fn flipped<R: Threads + Sync, G: Gate>(
    rt: &R,
    alloc: Global,
    points: &Points,
    mesh: &mut Mesh,
    workers: u32,
    gate: &G,
) -> Result<u32, Fail>
    requires some { 0 < workers }
    requires few { workers ≤ most_workers }
    requires within { All (IsWithin points.now.points) mesh.old.tris }
    ensures { All (IsWithin points.now.points) mesh.new.tris }
{
    round(rt, alloc, points, mesh, workers, gate).map_err(|_| Fail::from("no memory"))
}

// How many edges each of three rounds flips, and the triangles after that.
fn three_rounds<R: Threads + Sync, G: Gate>(
    rt: &R,
    alloc: Global,
    places: &[(i64, i64)],
    workers: u32,
    gate: &G,
) -> Result<([u32; 3], Vec<Corners>), Fail>
    requires some { 0 < workers }
    requires few { workers ≤ most_workers }
{
    let points = points_of(alloc, places)?;
    let mut mesh = swept_mesh(alloc, &points)?;
    let first = flipped(rt, alloc, &points, &mut mesh, workers, gate)?;
    let second = flipped(rt, alloc, &points, &mut mesh, workers, gate)?;
    let third = flipped(rt, alloc, &points, &mut mesh, workers, gate)?;
    Ok(([first, second, third], tris_of(alloc, &mesh)?))
}

// The triangles, ascending.
fn tris_of(alloc: Global, mesh: &Mesh) -> Result<Vec<Corners>, Fail> {
    let Ok(tris) = mesh.tris(alloc) else {
        return Err(Fail::from("no memory"));
    };
    let mut corners = Vec::new(alloc);
    for tri in tris.as_slice() {
        corners.push((tri.a, tri.b, tri.c))?;
    }
    Ok(corners)
}

#[test]
fn rounds_flip_the_winners(rt: HostRuntime) -> Result<(), Fail> {
    let alloc = rt.alloc();
    let fans = [
        three_rounds(&rt, alloc, &FAN, 1, &OpenGate)?,
        three_rounds(&rt, alloc, &FAN, 2, &OpenGate)?,
        three_rounds(&rt, alloc, &FAN, 64, &OpenGate)?,
    ];
    for (counts, tris) in &fans {
        assert_eq!(rt; *counts, [1, 1, 0]);
        assert_eq!(rt;
            tris.as_slice(),
            [(0, 4, 1), (1, 3, 2), (1, 4, 3)].as_slice()
        );
    }
    let (counts, tris) = three_rounds(&rt, alloc, &KITE, 2, &OpenGate)?;
    assert_eq!(rt; counts, [1, 0, 0]);
    assert_eq!(rt; tris.as_slice(), [(0, 1, 3), (0, 3, 2)].as_slice());
    Ok(())
}

#[test]
fn two_claimers_meet(rt: HostRuntime) -> Result<(), Fail> {
    let alloc = rt.alloc();
    let gate = MeetGate::new();
    let (counts, _) = three_rounds(&rt, alloc, &FAN, 2, &gate)?;
    assert_eq!(rt; counts, [1, 1, 0]);
    assert_eq!(rt; gate.misses(), 0);
    Ok(())
}

// The triangles that rounds leave.
fn shortened_by<R: Threads + Sync>(
    rt: &R,
    alloc: Global,
    places: &[(i64, i64)],
    workers: u32,
) -> Result<Vec<Corners>, Fail>
    requires some { 0 < workers }
    requires few { workers ≤ most_workers }
{
    let points = points_of(alloc, places)?;
    let mut mesh = swept_mesh(alloc, &points)?;
    if shorten_claimed(rt, alloc, &points, &mut mesh, workers, &OpenGate).is_err() {
        return Err(Fail::from("no memory"));
    }
    tris_of(alloc, &mesh)
}

#[test]
fn rounds_leave_one_triangulation(rt: HostRuntime) -> Result<(), Fail> {
    let alloc = rt.alloc();
    let wanted = [
        (0, 1, 2),
        (0, 3, 1),
        (0, 4, 3),
        (1, 3, 5),
        (1, 5, 2),
        (2, 5, 10),
        (2, 10, 14),
        (3, 4, 6),
        (3, 6, 9),
        (3, 9, 12),
        (3, 12, 5),
        (4, 11, 6),
        (4, 13, 11),
        (5, 7, 8),
        (5, 8, 10),
        (5, 12, 7),
        (6, 11, 9),
        (7, 12, 8),
        (8, 12, 15),
        (8, 15, 10),
        (9, 11, 13),
        (9, 13, 16),
        (9, 16, 17),
        (9, 17, 12),
        (10, 15, 14),
        (12, 17, 15),
        (13, 19, 16),
        (14, 15, 19),
        (15, 17, 19),
        (16, 18, 17),
        (16, 19, 18),
        (17, 18, 19),
    ];
    let teams = [
        shortened_by(&rt, alloc, &TWENTY, 1)?,
        shortened_by(&rt, alloc, &TWENTY, 2)?,
        shortened_by(&rt, alloc, &TWENTY, 8)?,
        shortened_by(&rt, alloc, &TWENTY, 64)?,
    ];
    for tris in &teams {
        assert_eq!(rt; tris.as_slice(), wanted.as_slice());
    }
    let tris = shortened_by(&rt, alloc, &KITE, 2)?;
    assert_eq!(rt; tris.as_slice(), [(0, 1, 3), (0, 3, 2)].as_slice());
    Ok(())
}
