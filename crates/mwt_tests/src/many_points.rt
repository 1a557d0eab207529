// Candidate edges and empty triangles of more points than one block of first corners has. The sums are
// those of another program, which follows the definitions pair by pair.

use crate::by_definition::Found;
use crate::helpers::points_of;
use exact_predicates::Diamond;
use std::test::Fail;

// The next coordinate of a made set.
fn next(state: &mut u64) -> i64 {
    *state = state
        .wrapping_mul(6_364_136_223_846_793_005)
        .wrapping_add(1);
    (*state >> 40) as i64 % 1_000_000
}

// A product of three numbers, each a few more.
fn weighed(a: u32, b: u32, c: u32) -> u64 {
    u64::from(a)
        .saturating_mul(u64::from(b))
        .saturating_mul(u64::from(c))
}

#[test]
fn three_blocks_of_first_corners(rt: HostRuntime) -> Result<(), Fail> {
    let alloc = rt.alloc();
    let mut state = 1u64;
    let mut places = Vec::new(alloc);
    for _ in 0..4_200 {
        let x = next(&mut state);
        places.push((x, next(&mut state)))?;
    }
    let points = points_of(alloc, &places)?;
    let found = Found::of(&rt, alloc, &points, Diamond::On)?;
    let mut sum = 0u64;
    for edge in found.edges.as_slice() {
        sum = sum.wrapping_add(weighed(edge.a.saturating_add(1), edge.b.saturating_add(1), 1));
    }
    assert_eq!(rt;
        (points.len(), found.edges.len(), sum),
        (4_200, 48_135, 280_132_370_893)
    );
    sum = 0;
    for t in found.tris.as_slice() {
        sum = sum.wrapping_add(weighed(
            t.a.saturating_add(1),
            t.b.saturating_add(2),
            t.c.saturating_add(3),
        ));
    }
    assert_eq!(rt; (found.tris.len(), sum), (125_183, 2_256_296_373_956_500));
    Ok(())
}
