// What is best where the skeleton decomposes into faces, as another program finds it from the definitions.
ghost use Rattle.std.specs.Prelude.{◌≤◌};

use crate::helpers::{FIVE, eliminated, points_of, swept};
use crate::prices::{Line, lines_of};
use face_optimum::{FaceEnd, solve_faces};
use mwt_base::OpenGate;
use skeleton_faces::{faces, skeleton};
use std::alloc::Global;
use std::test::Fail;
use std::thread::Threads;
use steal_workers::{Dealing, settle_all};

// A ring of twelve points round two, of which one has a single skeleton edge. So the face of the ring goes by
// the edge twice, and has thirteen places; the other three have three.
const HANGING: [(i64, i64); 14] = [
    (1000, 0),
    (866, 500),
    (500, 866),
    (0, 1000),
    (-500, 866),
    (-866, 500),
    (-1000, 0),
    (-866, -500),
    (-500, -866),
    (0, -1000),
    (500, -866),
    (866, -500),
    (0, 0),
    (-80, 59),
];

// The corners of the triangles, the live edges with what they say, and the bound.
#[derive(Drop)]
struct Best {
    tris: Vec<(u32, u32, u32)>,
    lines: Vec<Line>,
    bound: i128,
}

// What is best of these points with the diamond test off. None where the skeleton does not decompose into faces
// of at most so many places.
fn best_on_faces(
    rt: &(impl Threads + Sync),
    alloc: Global,
    places: &[(i64, i64)],
    most: u32,
) -> Result<Option<Best>, Fail>
    requires { most ≤ 128 }
{
    let points = points_of(alloc, places)?;
    let hull = swept(alloc, &points)?.hull;
    let net = eliminated(rt, alloc, &points, &hull)?.net;
    let Ok(settled) = settle_all(rt, alloc, &net, 2, Dealing::Stripes, &OpenGate) else {
        return Err(Fail::from("no memory"));
    };
    let flags = settled.flags;
    let Ok(skeleton) = skeleton(alloc, &points, &net, &flags) else {
        return Err(Fail::from("no memory"));
    };
    let Ok(faces) = faces(alloc, &points, &skeleton) else {
        return Err(Fail::from("no memory"));
    };
    match solve_faces(alloc, &points, &hull, &net, &flags, &skeleton, &faces, most) {
        Ok(FaceEnd::Whole(found, prices)) => {
            let mut tris = Vec::new(alloc);
            for t in found.as_slice() {
                tris.push((t.a, t.b, t.c))?;
            }
            Ok(Some(Best {
                tris,
                lines: lines_of(alloc, &net, &flags, &prices)?,
                bound: prices.bound(&net),
            }))
        }
        Ok(FaceEnd::Not) => Ok(None),
        Err(_) => Err(Fail::from("no memory")),
    }
}

// The square of side 1 has one face, and its two diagonals are equal: the one from the lesser middle place is
// taken.
#[test]
fn best_of_a_square(rt: HostRuntime) -> Result<(), Fail> {
    let places = [(0, 0), (1, 0), (1, 1), (0, 1)];
    assert!(rt; best_on_faces(&rt, rt.alloc(), &places, 3)?.is_none());
    let Some(best) = best_on_faces(&rt, rt.alloc(), &places, 4)? else {
        return Err(Fail::from("does not decompose"));
    };
    assert_eq!(rt; best.tris.as_slice(), [(0, 2, 1), (1, 2, 3)].as_slice());
    assert_eq!(rt;
        best.lines.as_slice(),
        [
            (0, 1, 2_414_213, 0, 0),
            (0, 2, 1_000_000, 0, 0),
            (0, 3, 0, 0, 0),
            (1, 2, 1_414_213, 0, 0),
            (1, 3, 1_000_000, 0, 0),
            (2, 3, 1_000_000, 0, 0),
        ]
        .as_slice()
    );
    assert_eq!(rt; best.bound, 5_414_213);
    Ok(())
}

// Each face is a triangle.
#[test]
fn best_of_five_points(rt: HostRuntime) -> Result<(), Fail> {
    let Some(best) = best_on_faces(&rt, rt.alloc(), &FIVE, 3)? else {
        return Err(Fail::from("does not decompose"));
    };
    assert_eq!(rt;
        best.tris.as_slice(),
        [(0, 1, 2), (1, 3, 2), (2, 3, 4)].as_slice()
    );
    assert_eq!(rt;
        best.lines.as_slice(),
        [
            (0, 1, 2_828_427, 0, 0),
            (0, 2, 5_099_019, 0, 0),
            (1, 2, 2_121_320, 2_121_320, 2_121_320),
            (1, 3, 5_099_019, 0, 0),
            (2, 3, 2_236_067, 2_236_068, 2_236_067),
            (2, 4, 5_099_019, 0, 0),
            (3, 4, 4_242_640, 0, 0),
        ]
        .as_slice()
    );
    assert_eq!(rt; best.bound, 31_082_899);
    Ok(())
}

#[test]
fn best_with_a_hanging_edge(rt: HostRuntime) -> Result<(), Fail> {
    assert!(rt; best_on_faces(&rt, rt.alloc(), &HANGING, 12)?.is_none());
    let Some(best) = best_on_faces(&rt, rt.alloc(), &HANGING, 13)? else {
        return Err(Fail::from("does not decompose"));
    };
    let tris = [
        (0, 1, 5),
        (0, 5, 2),
        (1, 3, 7),
        (1, 7, 5),
        (2, 5, 4),
        (3, 6, 7),
        (4, 5, 8),
        (5, 7, 10),
        (5, 10, 8),
        (6, 9, 7),
        (7, 9, 11),
        (7, 11, 13),
        (7, 12, 10),
        (7, 13, 12),
    ];
    assert_eq!(rt; best.tris.as_slice(), tris.as_slice());
    assert_eq!(rt; best.bound, 19_946_451_877);
    Ok(())
}
