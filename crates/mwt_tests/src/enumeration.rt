// Tests on a few points, grid queries, candidate edges and empty triangles.

use crate::by_definition::compared;
use crate::helpers::points_of;
use exact_predicates::{
    Diamond, Points, Tri, crosses, in_closed_triangle, in_left_diamond, orient, strictly_between,
    strictly_convex,
};
use point_grid::Grid;
use std::test::Fail;

// The test of this name, of the points with these numbers. None where its conditions do not hold.
fn relation(points: &Points, name: &str, numbers: [u32; 4]) -> Option<bool> {
    let [p, q, r, s] = numbers;
    let count = points.len();
    if p >= count || q >= count || r >= count || s >= count {
        return None;
    }
    let (p, q, r, s) = (points.at(p), points.at(q), points.at(r), points.at(s));
    match name {
        "between" => Some(strictly_between(p, q, r)),
        "triangle" if orient(p, q, r) > 0 => Some(in_closed_triangle(p, q, r, s)),
        "crosses" => Some(crosses(p, q, r, s)),
        "convex" if orient(p, q, r) > 0 && orient(q, p, s) > 0 => Some(strictly_convex(p, q, r, s)),
        "diamond" => Some(in_left_diamond(p, q, r)),
        _ => None,
    }
}

#[test]
fn relations_of_points(rt: HostRuntime) -> Result<(), Fail> {
    let far = 1_000_000_000;
    let points = points_of(
        rt.alloc(),
        &[
            (-far, -far),
            (0, 0),
            (4, -4),
            (4, 0),
            (4, 3),
            (4, 4),
            (8, 0),
            (far, far),
        ],
    )?;
    let rows: [(&str, [u32; 4], bool); 21] = [
        ("between", [1, 6, 3, 0], true),
        ("between", [6, 1, 3, 0], true),
        ("between", [1, 6, 1, 0], false),
        ("between", [1, 6, 6, 0], false),
        ("between", [1, 3, 6, 0], false),
        ("between", [0, 7, 5, 0], true),
        ("between", [0, 7, 4, 0], false),
        ("triangle", [1, 6, 5, 4], true),
        ("triangle", [1, 6, 5, 3], true),
        ("triangle", [1, 6, 5, 2], false),
        ("crosses", [1, 6, 2, 5], true),
        ("crosses", [2, 5, 1, 6], true),
        ("crosses", [1, 6, 3, 5], false),
        ("crosses", [1, 3, 2, 5], false),
        ("crosses", [0, 7, 1, 6], false),
        ("convex", [1, 6, 5, 2], true),
        ("convex", [1, 3, 5, 2], false),
        ("diamond", [1, 6, 4, 0], true),
        ("diamond", [1, 6, 5, 0], false),
        ("diamond", [1, 6, 3, 0], false),
        ("diamond", [6, 1, 4, 0], false),
    ];
    for (name, numbers, expected) in rows {
        assert_eq!(rt; relation(&points, name, numbers), Some(expected));
    }
    Ok(())
}

#[test]
fn grid_queries(rt: HostRuntime) -> Result<(), Fail> {
    let alloc = rt.alloc();
    let points = points_of(alloc, &[(0, 0), (4, 0), (4, 4), (0, 4), (2, 2)])?;
    let grid = Grid::new(alloc, &points).map_err(|_| Fail::from("no memory"))?;
    assert_eq!(rt; points.len(), 5);
    assert_eq!(rt; grid.any_between(&points, 0, 4), Some(2));
    assert_eq!(rt; grid.any_between(&points, 0, 3), None);
    assert!(rt; orient(points.at(0), points.at(3), points.at(4)) > 0);
    let t = Tri { a: 0, b: 3, c: 4 };
    assert_eq!(rt; grid.any_in_closed_triangle(&points, t), Some(2));
    Ok(())
}

#[test]
fn grid_queries_of_diamonds(rt: HostRuntime) -> Result<(), Fail> {
    let alloc = rt.alloc();
    let points = points_of(alloc, &[(0, 0), (5, 1), (10, 0), (5, -1)])?;
    let grid = Grid::new(alloc, &points).map_err(|_| Fail::from("no memory"))?;
    assert_eq!(rt; points.len(), 4);
    assert_eq!(rt; grid.any_in_diamond(&points, 0, 3), Some(2));
    assert_eq!(rt; grid.any_in_diamond(&points, 3, 0), Some(1));
    assert_eq!(rt; grid.any_in_diamond(&points, 0, 1), None);
    Ok(())
}

#[test]
fn enumerations_of_sets(rt: HostRuntime) -> Result<(), Fail> {
    let alloc = rt.alloc();
    let rows: [(&[(i64, i64)], (usize, usize)); 6] = [
        (&[(0, 0), (3, 0), (0, 4)], (3, 1)),
        (&[(0, 0), (1, 0), (1, 1), (0, 1)], (6, 4)),
        (&[(0, 0), (5, 1), (10, 0), (5, -1)], (6, 4)),
        (&[(0, 0), (4, 0), (4, 4), (0, 4), (2, 2)], (8, 4)),
        (&[(0, 0), (2, -2), (7, -3), (10, 0), (5, 1)], (10, 10)),
        (&[(0, 0), (2, 0), (4, 0), (2, 3)], (5, 2)),
    ];
    for (places, expected) in rows {
        let points = points_of(alloc, places)?;
        assert_eq!(rt; compared(&rt, alloc, &points, Diamond::Off)?, expected);
    }
    Ok(())
}

// Twelve sets of up to fourteen places of a small lattice, where many points lie on one line.
#[test]
fn enumerations_of_lattice_sets(rt: HostRuntime) -> Result<(), Fail> {
    let alloc = rt.alloc();
    let mut state = 1u64;
    for _ in 0..12 {
        let mut places = vec![in alloc; (0, 0), (1, 0), (0, 1)]?;
        for _ in 0..11 {
            state = state
                .wrapping_mul(6_364_136_223_846_793_005)
                .wrapping_add(1);
            places.push(((state >> 40) as i64 % 6, (state >> 50) as i64 % 6))?;
        }
        let points = points_of(alloc, &places)?;
        compared(&rt, alloc, &points, Diamond::Off)?;
    }
    Ok(())
}
