// Texts that are refused.

use super::bytes_of;
use super::texts::{FIVE, FIVE_OF_VERSION_1};
use crate::{Refusal2, ReportStop, read_report};
use std::alloc::Global;
use std::test::Fail;

// A text with another line at this place.
fn with_line(alloc: Global, text: &str, place: u32, line: &str) -> Result<String, Fail> {
    let mut changed = String::new(alloc);
    let mut number = 0u32;
    for old in text.lines() {
        number = number.saturating_add(1);
        changed.push_str(if number == place { line } else { old })?;
        changed.push_str("\n")?;
    }
    Ok(changed)
}

// The code and the line for which a text is refused, or 0 where it is not.
fn refusal_of(alloc: Global, text: &str) -> Result<(u32, u32), Fail> {
    match read_report(alloc, &bytes_of(alloc, text)?) {
        Ok(_) => Ok((0, 0)),
        Err(ReportStop::Refused(Refusal2 { code, line })) => Ok((code, line)),
        Err(ReportStop::NoMemory) => Err(Fail::from("no memory")),
    }
}

#[test]
fn lines_that_fail(rt: HostRuntime) -> Result<(), Fail> {
    let alloc = rt.alloc();
    let table = [
        (1, "mwt 3", 30),
        (1, "mwt 0", 30),
        (2, "diamond  off", 31),
        (3, "unit 7", 33),
        (3, "unit 00", 31),
        (4, "merged 4294967296", 33),
        (5, "points 2", 33),
        (5, "points 99999999999999999999999999999999999999999", 33),
        (6, "1 0 00", 31),
        (7, "2 2 -0", 31),
        (8, "5 2 -2", 32),
        (8, "5 1000000001 0", 33),
        (8, "5 1000000001 x", 31),
        (8, "5 5 1 ", 31),
        (11, "hull 6", 33),
        (12, "5", 33),
        (17, "candidates 400001", 33),
        (20, "0 1 h 0.000000", 32),
        (20, "1 0 h 0.000000", 33),
        (21, "1 2 s -7.335086 -0.000001 0.000000", 33),
        (21, "1 2 s 07.335086 0.000000 0.000000", 31),
        (21, "1 2 s -0.000000 0.000000 0.000000", 31),
        (21, "1 2 i 400000000000.000001", 33),
        (21, "1 2 i 0.00000", 31),
        (36, "0 1 1", 33),
        (37, "1 2 4", 32),
        (38, "method sweep", 31),
        (38, "method faces ", 31),
        (39, "length -0.000001 1.000000", 33),
        (40, "bound 1000000000000000000.000001", 33),
        (41, "gap", 31),
        (42, "end ", 31),
    ];
    for (place, line, code) in table {
        let text = with_line(alloc, FIVE, place, line)?;
        assert_eq!(rt; refusal_of(alloc, text.as_str())?, (code, place), "{line}");
    }
    Ok(())
}

#[test]
fn ends_that_fail(rt: HostRuntime) -> Result<(), Fail> {
    let alloc = rt.alloc();
    assert_eq!(rt; refusal_of(alloc, "")?, (34, 1));
    assert_eq!(rt; refusal_of(alloc, "mwt 2")?, (34, 1));
    assert_eq!(rt; refusal_of(alloc, "mwt 2\n")?, (34, 2));
    let text = format!(in alloc; "{FIVE}\n")?;
    assert_eq!(rt; refusal_of(alloc, text.as_str())?, (35, 43));
    Ok(())
}

#[test]
fn lines_that_do_not_fail(rt: HostRuntime) -> Result<(), Fail> {
    let alloc = rt.alloc();
    let table = [
        (21, "1 2 i 400000000000.000000"),
        (21, "1 2 s -7.335086 0.000000 1000000000000.000000"),
        (36, "0 1 2"),
        (38, "method faces"),
        (40, "bound -1000000000000000000.000000"),
    ];
    for (place, line) in table {
        let text = with_line(alloc, FIVE, place, line)?;
        assert_eq!(rt; refusal_of(alloc, text.as_str())?, (0, 0), "{line}");
    }
    Ok(())
}

#[test]
fn version_1_has_no_skeleton_lines_no_faces_and_smaller_bounds(
    rt: HostRuntime,
) -> Result<(), Fail> {
    let alloc = rt.alloc();
    let table = [
        (21, "1 2 s -7.335086 0.000000 0.000000", 31),
        (38, "method faces", 31),
        (40, "bound 20000000000000000.000001", 33),
    ];
    for (place, line, code) in table {
        let text = with_line(alloc, FIVE_OF_VERSION_1, place, line)?;
        assert_eq!(rt; refusal_of(alloc, text.as_str())?, (code, place), "{line}");
    }
    Ok(())
}
