// Point files that are too long to spell out. Shorter ones are among the cases of `mwt_cases`.

use crate::helpers::bytes_of;
use std::alloc::Global;
use std::process::Abort;
use std::test::Fail;
use tsplib_points::{FileStop, Refusal, read_points};

// What a file holds: the unit, how many nodes were merged, and the id, x and y of each point.
type Held<'a> = (u32, u32, &'a [(u32, i64, i64)]);

// The header of three nodes, of which the first has the line 6.
const HEAD: &str =
    "NAME : r\nTYPE : TSP\nDIMENSION : 3\nEDGE_WEIGHT_TYPE : EUC_2D\nNODE_COORD_SECTION\n";

const TRIANGLE: Held = (0, 0, &[(1, 0, 0), (3, 0, 4), (2, 3, 0)]);

fn joined(alloc: Global, head: &[u8], tail: &[u8]) -> Result<Vec<u8>, Fail> {
    let mut text = Vec::from_slice(alloc, head)?;
    text.extend_from_slice(tail)?;
    Ok(text)
}

fn holds(rt: &impl Abort, alloc: Global, text: Vec<u8>, held: Held) -> Result<(), Fail> {
    let file = read_points(alloc, &bytes_of(text)?).map_err(|_| Fail::from("refused"))?;
    let (unit, merged, points) = held;
    assert_eq!(rt; file.unit, unit);
    assert_eq!(rt; file.merged, merged);
    assert_eq!(rt; file.points.merged(), merged);
    assert_eq!(rt; file.points.as_slice().len(), points.len());
    for (point, (id, x, y)) in file.points.as_slice().iter().zip(points) {
        assert_eq!(rt; (point.id, point.x, point.y), (*id, *x, *y));
    }
    Ok(())
}

fn is_refused(
    rt: &impl Abort,
    alloc: Global,
    text: Vec<u8>,
    code: u32,
    line: u32,
) -> Result<(), Fail> {
    let answer = read_points(alloc, &bytes_of(text)?);
    assert_eq!(rt;
        answer.err(),
        Some(FileStop::Refused(Refusal { code, line }))
    );
    Ok(())
}

// A file of this many nodes with the numbers from 1 on, at places of their own on a square grid.
fn grid_file(alloc: Global, nodes: u32) -> Result<Vec<u8>, Fail> {
    let mut text = format!(in alloc; "DIMENSION : {nodes}\nNODE_COORD_SECTION\n")?;
    for k in 0..nodes {
        let (number, x, y) = (k.saturating_add(1), k % 128, k / 128);
        write!(text, "{number} {x}.0 {y}\n")?;
    }
    Ok(text.into_bytes())
}

#[test]
fn most_points(rt: HostRuntime) -> Result<(), Fail> {
    let alloc = rt.alloc();
    let file = read_points(alloc, &bytes_of(grid_file(alloc, 10_000)?)?);
    let held = file.map_err(|_| Fail::from("refused"))?.points.len();
    assert_eq!(rt; held, 10_000);
    is_refused(&rt, alloc, grid_file(alloc, 10_001)?, 21, 0)
}

// Long numbers: a million digits in a coordinate, and in an exponent.
#[test]
fn long_numbers(rt: HostRuntime) -> Result<(), Fail> {
    let alloc = rt.alloc();
    let zeros = vec![in alloc; b'0'; 1_000_000]?;
    let nines = vec![in alloc; b'9'; 1_000_000]?;
    let mut text = joined(alloc, HEAD.as_bytes(), b"1 0 0.")?;
    text.extend_from_slice(&zeros)?;
    text.extend_from_slice(b"e")?;
    text.extend_from_slice(&nines)?;
    text.extend_from_slice(b"\n2 3.")?;
    text.extend_from_slice(&zeros)?;
    text.extend_from_slice(b" 0\n3 0 4\n")?;
    holds(&rt, alloc, text, TRIANGLE)?;
    let mut text = joined(alloc, HEAD.as_bytes(), b"1 0 0\n2 ")?;
    text.extend_from_slice(&nines)?;
    text.extend_from_slice(b" 0\n3 0 4\n")?;
    is_refused(&rt, alloc, text, 18, 7)?;
    let mut text = joined(alloc, HEAD.as_bytes(), b"1 0 0\n2 3 0\n3 0 0.")?;
    text.extend_from_slice(&zeros)?;
    text.extend_from_slice(b"4\n")?;
    is_refused(&rt, alloc, text, 17, 8)
}
