// Single calls of the libraries below.

use crate::helpers::{list_of, points_of, shortest, swept};
use exact_predicates::{Edge, Point, PointList, Points, PointsStop, d2, orient};
use length_enclosure::{enclosure, is_square, root_floor, weight, write_units};
use std::alloc::Global;
use std::process::Abort;
use std::test::Fail;

#[test]
fn points_of_lists(rt: HostRuntime) -> Result<(), Fail> {
    let alloc = rt.alloc();
    let far = 1_000_000_000;
    let refused: [(&[(i64, i64)], u32); 5] = [
        (&[(0, 0), (far + 1, 0), (0, 4)], 4),
        (&[], 1),
        (&[(0, 0), (1, 1), (0, 0)], 1),
        (&[(0, 0), (1, 1), (2, 2), (3, 3)], 3),
        (&[(5, 7), (5, -7), (5, 0), (5, 7)], 3),
    ];
    for (places, code) in refused {
        let answer = Points::new(alloc, list_of(alloc, places)?);
        assert_eq!(rt; answer.err(), Some(PointsStop::Refused(code)));
    }
    // Of equal coordinates the first stays; the order is by x and then by y.
    let points = points_of(
        alloc,
        &[(3, 0), (0, 4), (3, 0), (0, 0), (0, 4), (-far, far)],
    )?;
    assert_eq!(rt; points.merged(), 2);
    assert_eq!(rt; points.len(), 4);
    let ids = [6, 4, 2, 1];
    for (point, id) in points.as_slice().iter().zip(ids) {
        assert_eq!(rt; point.id, id);
    }
    Ok(())
}

// Two points with one id, and lists of 10,000 and 10,001 points with coordinates of their own.
#[test]
fn limits_of_points(rt: HostRuntime) -> Result<(), Fail> {
    let alloc = rt.alloc();
    let twice = [(0, 0), (1, 0), (0, 1)].map(|(x, y)| Point { id: 8, x, y });
    let list = Vec::from_slice(alloc, twice.as_slice())?;
    assert_eq!(rt; list.len(), 3);
    let answer = Points::new(alloc, PointList::of(list));
    assert_eq!(rt; answer.err(), Some(PointsStop::REPEATED_ID));
    let mut places = Vec::new(alloc);
    for i in 0..10_000i64 {
        places.push((i % 100, i / 100))?;
    }
    assert_eq!(rt; points_of(alloc, &places)?.len(), 10_000);
    places.push((0, 100))?;
    let answer = Points::new(alloc, list_of(alloc, &places)?);
    assert_eq!(rt; answer.err(), Some(PointsStop::TOO_MANY));
    Ok(())
}

#[test]
fn amounts(rt: HostRuntime) -> Result<(), Fail> {
    let alloc = rt.alloc();
    let rows = [
        (0, "0.000000"),
        (-7_335_086, "-7.335086"),
        (999_999, "0.999999"),
        (-1, "-0.000001"),
        (12_000_000, "12.000000"),
        (100_000_000_000_000_000_000, "100000000000000.000000"),
    ];
    for (n, text) in rows {
        let mut out = Vec::from_slice(alloc, b">")?;
        write_units(&mut out, n).map_err(|_| Fail::from("no memory"))?;
        let spelled = String::from_utf8_lossy(alloc, &out)?;
        let wanted = format!(in alloc; ">{text}")?;
        assert_eq!(rt; spelled.as_str(), wanted.as_str());
    }
    Ok(())
}

#[test]
fn roots_and_tests(rt: HostRuntime) -> Result<(), Fail> {
    let alloc = rt.alloc();
    for (n, root) in [(0, 0), (1, 1), (3, 1), (4, 2), (99, 9), (100, 10)] {
        assert_eq!(rt; root_floor(n), root);
    }
    for (squared, length) in [
        (8, 2_828_427),
        (26, 5_099_019),
        (18, 4_242_640),
        (20, 4_472_135),
    ] {
        assert_eq!(rt; weight(squared), length);
    }
    for (n, answer) in [(0, true), (1, true), (2, false), (24, false), (25, true)] {
        assert_eq!(rt; is_square(n), answer);
    }
    assert_eq!(rt; (Edge::of(7, 3).a, Edge::of(7, 3).b), (3, 7));
    let points = points_of(alloc, &[(0, 0), (3, 0), (0, 4)])?;
    assert_eq!(rt; points.len(), 3);
    let (p, q, r) = (points.at(0), points.at(1), points.at(2));
    assert_eq!(rt; orient(p, q, r), -12);
    assert_eq!(rt; orient(p, r, q), 12);
    assert_eq!(rt; d2(q, r), 25);
    Ok(())
}

// Made points: the steps of a generator of numbers modulo 2^31 - 1.
fn made_points(alloc: Global, count: u32) -> Result<Points, Fail> {
    let mut places = Vec::new(alloc);
    let mut state = 7i64;
    for _ in 0..count {
        state = state.saturating_mul(48_271) % 2_147_483_647;
        let x = state % 1_000_000;
        state = state.saturating_mul(48_271) % 2_147_483_647;
        places.push((x, state % 1_000_000))?;
    }
    points_of(alloc, &places)
}

// The triangulation of many points stays one by its numbers, and gets shorter.
#[test]
fn shortening_of_made_points(rt: HostRuntime) -> Result<(), Fail> {
    for count in [10, 300, 10_000] {
        shortens_made_points(&rt, rt.alloc(), count)?;
    }
    Ok(())
}

fn shortens_made_points(rt: &impl Abort, alloc: Global, count: u32) -> Result<(), Fail> {
    let points = made_points(alloc, count)?;
    let start = swept(alloc, &points)?;
    let tris = shortest(alloc, &points, &start.hull, &start.tris)?;
    assert_eq!(rt; tris.len(), start.tris.len());
    let before = enclosure(&points, &start.hull, &start.tris);
    let after = enclosure(&points, &start.hull, &tris);
    assert!(rt; after.hi < before.lo, "{count}");
    let again = shortest(alloc, &points, &start.hull, &tris)?;
    assert!(rt; again.as_slice() == tris.as_slice());
    Ok(())
}
