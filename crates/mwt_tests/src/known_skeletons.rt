// Skeletons of known sets, with their faces.

use crate::helpers::{Ends, points_of};
use crate::skeletons::{Places, ends_of, found_in};
use std::test::Fail;

// A set, its skeleton and its faces.
type Row = (Places, &'static [Ends], &'static [&'static [u32]]);

const ROWS: [Row; 6] = [
    (
        &[(0, 0), (1, 0), (1, 1), (0, 1)],
        &[(0, 1), (0, 2), (1, 3), (2, 3)],
        &[&[0, 1, 3, 2], &[0, 2, 3, 1]],
    ),
    (
        &[(0, 0), (5, 1), (10, 0), (5, -1)],
        &[(0, 1), (0, 2), (1, 2), (1, 3), (2, 3)],
        &[&[0, 1, 2], &[0, 2, 3, 1], &[1, 3, 2]],
    ),
    (
        &[(0, 0), (4, 0), (4, 4), (0, 4), (2, 2)],
        &[
            (0, 1),
            (0, 2),
            (0, 3),
            (1, 2),
            (1, 4),
            (2, 3),
            (2, 4),
            (3, 4),
        ],
        &[
            &[0, 1, 4, 3],
            &[0, 2, 1],
            &[0, 3, 2],
            &[1, 2, 4],
            &[2, 3, 4],
        ],
    ),
    (
        &[(0, 0), (2, -2), (7, -3), (10, 0), (5, 1)],
        &[(0, 1), (0, 2), (1, 2), (1, 3), (2, 3), (2, 4), (3, 4)],
        &[&[0, 1, 2], &[0, 2, 4, 3, 1], &[1, 3, 2], &[2, 3, 4]],
    ),
    (
        &[(0, 0), (2, 0), (4, 0), (2, 3)],
        &[(0, 1), (0, 2), (1, 2), (1, 3), (2, 3)],
        &[&[0, 1, 2], &[0, 2, 3, 1], &[1, 3, 2]],
    ),
    (
        &[(0, 0), (4, -5), (4, 5), (8, 0)],
        &[(0, 1), (0, 2), (0, 3), (1, 3), (2, 3)],
        &[&[0, 1, 3], &[0, 2, 3, 1], &[0, 3, 2]],
    ),
];

#[test]
fn skeletons_of_known_sets(rt: HostRuntime) -> Result<(), Fail> {
    let alloc = rt.alloc();
    for (places, edges, cycles) in ROWS {
        let points = points_of(alloc, places)?;
        let found = found_in(&rt, alloc, &points)?;
        assert_eq!(rt; ends_of(alloc, &found.skeleton)?.as_slice(), edges);
        assert!(rt; found.joined);
        assert_eq!(rt; found.faces.len() as usize, cycles.len());
        let mut number = 0u32;
        for cycle in cycles {
            assert!(rt; number < found.faces.len());
            assert_eq!(rt; found.faces.cycle(number), *cycle);
            number = number.saturating_add(1);
        }
    }
    Ok(())
}
