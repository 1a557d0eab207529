// Candidate edges and empty triangles of sets that are hard to enumerate, beside plain programs that
// follow the definitions, and their numbers, which another program counted.

use crate::by_definition::compared;
use crate::helpers::points_of;
use exact_predicates::Diamond;
use std::alloc::{AllocError, Global};
use std::test::Fail;
use std::thread::Threads;

// The same with the test off, and then on.
fn both(
    rt: &(impl Threads + Sync),
    alloc: Global,
    places: &[(i64, i64)],
) -> Result<[(usize, usize); 2], Fail> {
    let points = points_of(alloc, places)?;
    let off = compared(rt, alloc, &points, Diamond::Off)?;
    Ok([off, compared(rt, alloc, &points, Diamond::On)?])
}

// A lattice of so many columns and rows, with these steps.
fn lattice(
    alloc: Global,
    size: (i64, i64),
    steps: (i64, i64),
) -> Result<Vec<(i64, i64)>, AllocError> {
    let mut places = Vec::new(alloc);
    for column in 0..size.0 {
        for row in 0..size.1 {
            places.push((column.saturating_mul(steps.0), row.saturating_mul(steps.1)))?;
        }
    }
    Ok(places)
}

#[test]
fn all_on_a_line_but_two(rt: HostRuntime) -> Result<(), Fail> {
    let alloc = rt.alloc();
    let rows = [
        ((1, 0), [(3, 5), (7, -4)], [(30, 20), (29, 18)]),
        ((0, 1), [(5, 3), (-4, 7)], [(30, 20), (29, 18)]),
        ((2, 3), [(4, 9), (15, 20)], [(29, 18), (29, 18)]),
    ];
    for (steps, two, expected) in rows {
        let mut places = Vec::new(alloc);
        for i in 0..10i64 {
            places.push((i.saturating_mul(steps.0), i.saturating_mul(steps.1)))?;
        }
        places.extend_from_slice(&two)?;
        assert!(rt; both(&rt, alloc, &places)? == expected, "{steps:?}");
    }
    Ok(())
}

#[test]
fn lattices(rt: HostRuntime) -> Result<(), Fail> {
    let alloc = rt.alloc();
    let rows = [
        ((4, 4), (1, 1), [(86, 124), (42, 36)]),
        ((6, 3), (7, 2), [(105, 156), (57, 60)]),
        ((2, 7), (1, 1), [(61, 84), (31, 24)]),
    ];
    for (size, steps, expected) in rows {
        let places = lattice(alloc, size, steps)?;
        assert!(rt; both(&rt, alloc, &places)? == expected, "{size:?}");
    }
    Ok(())
}

const CIRCLE: [(i64, i64); 12] = [
    (5, 0),
    (4, 3),
    (3, 4),
    (0, 5),
    (-3, 4),
    (-4, 3),
    (-5, 0),
    (-4, -3),
    (-3, -4),
    (0, -5),
    (3, -4),
    (4, -3),
];

#[test]
fn circles_and_a_parabola(rt: HostRuntime) -> Result<(), Fail> {
    let alloc = rt.alloc();
    assert!(rt; both(&rt, alloc, &CIRCLE)? == [(66, 220), (66, 220)]);
    let mut places = Vec::from_slice(alloc, &CIRCLE)?;
    places.push((0, 0))?;
    assert!(rt; both(&rt, alloc, &places)? == [(72, 180), (60, 108)]);
    places.clear();
    for i in 0..12i64 {
        places.push((i, i.saturating_mul(i)))?;
    }
    assert!(rt; both(&rt, alloc, &places)? == [(66, 220), (66, 220)]);
    Ok(())
}

const FAR: i64 = 1_000_000_000;

// Two far clusters; columns of equal x; far corners round a few points in the middle.
const OTHERS: [(&[(i64, i64)], [(usize, usize); 2]); 3] = [
    (
        &[
            (-FAR, -FAR),
            (2 - FAR, 1 - FAR),
            (1 - FAR, 3 - FAR),
            (4 - FAR, 4 - FAR),
            (3 - FAR, -FAR),
            (FAR, FAR),
            (FAR - 1, FAR - 3),
            (FAR - 2, FAR - 1),
            (FAR - 4, FAR - 2),
            (FAR - 3, FAR),
        ],
        [(43, 68), (31, 36)],
    ),
    (
        &[
            (0, 0),
            (0, 3),
            (0, 7),
            (0, 12),
            (5, 1),
            (5, 2),
            (5, 11),
            (9, -4),
            (9, 5),
            (9, 6),
            (9, 20),
        ],
        [(48, 75), (40, 58)],
    ),
    (
        &[
            (-FAR, -FAR),
            (FAR, -FAR),
            (FAR, FAR),
            (-FAR, FAR),
            (0, 0),
            (1, 0),
            (0, 1),
            (-3, 2),
            (2, -5),
            (4, 4),
        ],
        [(41, 54), (36, 42)],
    ),
];

#[test]
fn clusters_columns_and_corners(rt: HostRuntime) -> Result<(), Fail> {
    let alloc = rt.alloc();
    for (places, expected) in OTHERS {
        assert!(rt; both(&rt, alloc, places)? == expected, "{places:?}");
    }
    Ok(())
}
