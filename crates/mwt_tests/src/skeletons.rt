// Skeletons, their faces, and whether they join all points, against a slow program straight from the
// definitions.

use crate::helpers::{Ends, eliminated, live_ends, points_of, swept};
use crate::sets::{SETS, at, in_order};
use exact_predicates::{Edges, Point, Points};
use skeleton_faces::{Faces, connected, faces, skeleton};
use std::alloc::Global;
use std::test::Fail;
use std::thread::Threads;

/// Where points are.
pub type Places = &'static [(i64, i64)];

// Thirteen points round three: no edge that leaves these three is without one that crosses it.
const ISLAND: Places = &[
    (100, 0),
    (89, 46),
    (57, 82),
    (12, 99),
    (-35, 94),
    (-75, 66),
    (-97, 24),
    (-97, -24),
    (-75, -66),
    (-35, -94),
    (12, -99),
    (57, -82),
    (89, -46),
    (0, 0),
    (2, 1),
    (1, 3),
];

// Twelve points round three on one line: one of these three has one neighbour.
const HANGING: Places = &[
    (100, 0),
    (87, 50),
    (50, 87),
    (0, 100),
    (-50, 87),
    (-87, 50),
    (-100, 0),
    (-87, -50),
    (-50, -87),
    (0, -100),
    (50, -87),
    (87, -50),
    (0, 0),
    (0, 6),
    (0, 13),
];

/// What is made of a set of points.
#[derive(Drop)]
pub struct Found {
    pub live: Vec<Ends>,
    pub skeleton: Edges,
    pub faces: Faces,
    pub joined: bool,
}

/// The ends of each edge.
pub fn ends_of(alloc: Global, edges: &Edges) -> Result<Vec<Ends>, Fail> {
    let mut all = Vec::new(alloc);
    for edge in edges.as_slice() {
        all.push((edge.a, edge.b))?;
    }
    Ok(all)
}

/// The skeleton of the live edges, with its faces.
pub fn found_in(rt: &(impl Threads + Sync), alloc: Global, points: &Points) -> Result<Found, Fail> {
    let hull = swept(alloc, points)?.hull;
    let elimination = eliminated(rt, alloc, points, &hull)?;
    let live = live_ends(alloc, &elimination)?;
    let Ok(skeleton) = skeleton(alloc, points, &elimination.net, &elimination.flags) else {
        return Err(Fail::from("no memory"));
    };
    let (Ok(faces), Ok(joined)) = (
        faces(alloc, points, &skeleton),
        connected(alloc, points, &skeleton),
    ) else {
        return Err(Fail::from("no memory"));
    };
    Ok(Found {
        live,
        skeleton,
        faces,
        joined,
    })
}

// Whether two turns are to different sides.
fn are_apart(turn: i128, other: i128) -> bool {
    (turn < 0 && other > 0) || (turn > 0 && other < 0)
}

fn do_cross(points: &Points, (a, b): Ends, (c, d): Ends) -> bool {
    let (Some(p), Some(q), Some(r), Some(s)) = (
        at(points, a),
        at(points, b),
        at(points, c),
        at(points, d),
    ) else {
        return false;
    };
    are_apart(in_order(p, q, r), in_order(p, q, s))
        && are_apart(in_order(r, s, p), in_order(r, s, q))
}

fn uncrossed(alloc: Global, points: &Points, live: &[Ends]) -> Result<Vec<Ends>, Fail> {
    let mut all = Vec::new(alloc);
    for edge in live {
        if !live.iter().any(|other| do_cross(points, *edge, *other)) {
            all.push(*edge)?;
        }
    }
    Ok(all)
}

// The points that a walk along the edges joins to point 0.
fn joined_to_first(alloc: Global, points: &Points, edges: &[Ends]) -> Result<Vec<u32>, Fail> {
    let mut reached = Vec::new(alloc);
    reached.push(0)?;
    for _ in 0..points.len() {
        for (a, b) in edges {
            if reached.contains(a) && !reached.contains(b) {
                reached.push(*b)?;
            }
            if reached.contains(b) && !reached.contains(a) {
                reached.push(*a)?;
            }
        }
    }
    Ok(reached)
}

// The sides of the edges, by start and then by end.
fn sides_of(alloc: Global, edges: &[Ends]) -> Result<Vec<Ends>, Fail> {
    let mut sides = Vec::new(alloc);
    for (a, b) in edges {
        sides.push((*a, *b))?;
        sides.push((*b, *a))?;
    }
    sides.sort()?;
    Ok(sides)
}

// Of the angle from p to q clockwise round o, whether it is below a half turn, one, or above.
fn half_turns(o: &Point, p: &Point, q: &Point) -> u8 {
    match in_order(o, p, q).signum() {
        -1 => 0,
        0 => 1,
        _ => 2,
    }
}

// Whether the point x is met before y where one turns clockwise at v from the direction of u.
fn is_met_before(points: &Points, v: u32, u: u32, x: u32, y: u32) -> bool {
    let (Some(o), Some(p), Some(q), Some(r)) = (
        at(points, v),
        at(points, u),
        at(points, x),
        at(points, y),
    ) else {
        return false;
    };
    let (first, second) = (half_turns(o, p, q), half_turns(o, p, r));
    first < second || (first == second && in_order(o, q, r) < 0)
}

// The end of the side after u to v.
fn next_end(points: &Points, sides: &[Ends], (u, v): Ends) -> u32 {
    let mut next = u;
    for (from, to) in sides {
        let is_other = *from == v && *to != u;
        if is_other && (next == u || is_met_before(points, v, u, *to, next)) {
            next = *to;
        }
    }
    next
}

// The starts of the sides of the face that begins with this one. None where a lesser side is in it.
fn face_from(
    alloc: Global,
    points: &Points,
    sides: &[Ends],
    first: Ends,
) -> Result<Option<Vec<u32>>, Fail> {
    let mut starts = Vec::new(alloc);
    let mut side = first;
    for _ in sides {
        if side < first {
            return Ok(None);
        }
        starts.push(side.0)?;
        side = (side.1, next_end(points, sides, side));
        if side == first {
            return Ok(Some(starts));
        }
    }
    Err(Fail::from("no cycle"))
}

#[test]
fn skeletons_by_definition(rt: HostRuntime) -> Result<(), Fail> {
    let alloc = rt.alloc();
    for places in SETS.iter().chain(&[ISLAND, HANGING]) {
        let points = points_of(alloc, places)?;
        let found = found_in(&rt, alloc, &points)?;
        let edges = uncrossed(alloc, &points, &found.live)?;
        assert_eq!(rt; ends_of(alloc, &found.skeleton)?, edges, "{places:?}");
        let reached = joined_to_first(alloc, &points, &edges)?;
        let joined = reached.len() == points.len() as usize;
        assert_eq!(rt; found.joined, joined, "{places:?}");
        let sides = sides_of(alloc, &edges)?;
        let mut number = 0u32;
        for side in &sides {
            if let Some(face) = face_from(alloc, &points, &sides, *side)? {
                assert!(rt; number < found.faces.len(), "{places:?}");
                assert_eq!(rt; found.faces.cycle(number), face.as_slice(), "{places:?}");
                number = number.saturating_add(1);
            }
        }
        assert_eq!(rt; found.faces.len(), number, "{places:?}");
    }
    Ok(())
}
