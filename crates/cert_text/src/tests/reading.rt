// Texts that are read and written again.

use super::texts::{FIVE, FIVE_BY_FACES, FIVE_OF_VERSION_1, SPOKES, TRIANGLE};
use super::{bytes_of, failed};
use crate::{LineKind, Method, read_report, write_report};
use exact_predicates::Diamond;
use std::test::Fail;

#[test]
fn texts_are_read_and_written_again(rt: HostRuntime) -> Result<(), Fail> {
    let alloc = rt.alloc();
    for text in [TRIANGLE, FIVE_OF_VERSION_1, FIVE, FIVE_BY_FACES, SPOKES] {
        let report = read_report(alloc, &bytes_of(alloc, text)?).map_err(failed)?;
        let again = write_report(alloc, &report).map_err(|_| Fail::from("no memory"))?;
        assert_eq!(rt; again.as_slice(), text.as_bytes());
    }
    Ok(())
}

#[test]
fn what_a_report_says(rt: HostRuntime) -> Result<(), Fail> {
    let alloc = rt.alloc();
    let report = read_report(alloc, &bytes_of(alloc, FIVE)?).map_err(failed)?;
    assert_eq!(rt; report.version, 2);
    assert_eq!(rt; report.diamond, Diamond::Off);
    assert_eq!(rt; report.hull.as_slice(), [0, 1, 3, 4, 2].as_slice());
    assert_eq!(rt; report.candidates, 10);
    assert_eq!(rt; report.tris.len(), 3);
    assert_eq!(rt; report.method, Method::Flips);
    assert_eq!(rt; report.lo, 31_082_899);
    assert_eq!(rt; report.gap, 7);
    assert_eq!(rt; report.live.len(), 7);
    let line = report.live.get(2);
    assert_eq!(rt; line.kind, LineKind::Skeleton);
    assert_eq!(rt; line.edge.b, 2);
    assert_eq!(rt; line.value, -7_335_086);
    assert_eq!(rt; line.left, 0);
    Ok(())
}

#[test]
fn what_a_report_by_faces_says(rt: HostRuntime) -> Result<(), Fail> {
    let alloc = rt.alloc();
    let report = read_report(alloc, &bytes_of(alloc, FIVE_BY_FACES)?).map_err(failed)?;
    assert_eq!(rt; report.method, Method::Faces);
    assert_eq!(rt; report.live.len(), 7);
    let line = report.live.get(4);
    assert_eq!(rt; line.kind, LineKind::Skeleton);
    assert_eq!(rt; line.value, 2_236_067);
    assert_eq!(rt; line.left, 2_236_068);
    assert_eq!(rt; line.right, 2_236_067);
    assert_eq!(rt; report.bound, 31_082_899);
    Ok(())
}
