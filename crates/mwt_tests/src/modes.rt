// The modes together: what one writes, another reads, and which of them read at all. Whole texts of each
// mode are among the cases of `mwt_cases`.

use crate::helpers::{FIVE, Run, bytes_of, mem_sink, plain_file, words_of};
use mwt_base::{MeetGate, MemSource, OpenGate, Status, SureSink, SureSource, read_whole};
use mwt_tool::run;
use std::alloc::Global;
use std::test::Fail;

// Of the file with 200 points and the seed 7, by another program.
const SUMMARY_OF_200: &str =
    "points 200\ncandidates 2037\nlive 704\nskeleton 493\ntriangles 380\nlength 50237151.511824 50237151.512403\nbound 50237151.511824\ngap 0.000579\n";

// Words that ask for no mode, and modes that do not read, leave the source as it was.
#[test]
fn source_left_alone(rt: HostRuntime) -> Result<(), Fail> {
    let alloc = rt.alloc();
    let rows: [(&[&str], Status); 4] = [
        (&["explains"], Status::Refused),
        (&["check", "--seed", "0"], Status::Refused),
        (&["make"], Status::Done),
        (&["trial", "--points", "3"], Status::Done),
    ];
    for (words, wanted) in rows {
        let words = words_of(alloc, words)?;
        let input = Vec::from_slice(alloc, b"7 bytes")?;
        let mut source = SureSource::new(bytes_of(input)?, 3);
        let mut sink = SureSink::new(alloc, 64).map_err(|_| Fail::from("no memory"))?;
        let status = run(&rt, alloc, &words, &mut source, &mut sink, &OpenGate);
        assert_eq!(rt; status, wanted);
        let rest = read_whole(alloc, &mut source, 64).map_err(|_| Fail::from("not read"))?;
        assert_eq!(rt; rest.as_slice(), b"7 bytes".as_slice());
    }
    Ok(())
}

// A source that would fail does no harm to a mode that does not read, and a sink that fails does.
#[test]
fn make_over_faults(rt: HostRuntime) -> Result<(), Fail> {
    let alloc = rt.alloc();
    let words = words_of(alloc, &["make", "--points", "3", "--seed", "7"])?;
    let mut source = MemSource::new(bytes_of(Vec::new(alloc))?, 16, vec![in alloc; 1u64]?);
    let mut sink = mem_sink(alloc, Vec::new(alloc))?;
    let status = run(&rt, alloc, &words, &mut source, &mut sink, &OpenGate);
    assert_eq!(rt; status, Status::Done);
    let mut sink = mem_sink(alloc, vec![in alloc; 2u64]?)?;
    let status = run(&rt, alloc, &words, &mut source, &mut sink, &OpenGate);
    assert_eq!(rt; status, Status::WriteFault);
    assert_eq!(rt; sink.bytes(), b"NAME : mwt-7-3\nT".as_slice());
    Ok(())
}

// The two workers that the words ask for run at the same time.
#[test]
fn two_workers_meet_in_run(rt: HostRuntime) -> Result<(), Fail> {
    let alloc = rt.alloc();
    for mode in ["solve", "explain"] {
        let words = words_of(alloc, &[mode, "--diamond", "off", "--workers", "2"])?;
        let file = plain_file(alloc, &FIVE)?;
        let mut source = SureSource::new(bytes_of(file)?, 64);
        let mut sink = SureSink::new(alloc, 4096).map_err(|_| Fail::from("no memory"))?;
        let gate = MeetGate::new();
        let status = run(&rt, alloc, &words, &mut source, &mut sink, &gate);
        assert_eq!(rt; status, Status::Done, "{mode}");
        assert_eq!(rt; gate.misses(), 0, "{mode}");
    }
    Ok(())
}

// The number of workers does not show.
#[test]
fn trial_by_one_and_by_eight(rt: HostRuntime) -> Result<(), Fail> {
    let alloc = rt.alloc();
    let words = ["trial", "--points", "200", "--seed", "7", "--workers", "1"];
    let one = Run::over(&rt, alloc, &words, Vec::new(alloc))?;
    assert_eq!(rt; one.status, Status::Done);
    assert_eq!(rt; one.text.as_str(), SUMMARY_OF_200);
    let words = ["trial", "--points", "200", "--seed", "7", "--workers", "8"];
    let eight = Run::over(&rt, alloc, &words, Vec::new(alloc))?;
    assert_eq!(rt; eight.status, Status::Done);
    assert_eq!(rt; eight.text.as_str(), one.text.as_str());
    Ok(())
}

// A made file, spelled in another way, is solved, and what is written is valid.
#[test]
fn made_solved_and_checked(rt: HostRuntime) -> Result<(), Fail> {
    let alloc = rt.alloc();
    let words = ["make", "--seed", "7", "--points", "52"];
    let made = Run::over(&rt, alloc, &words, Vec::new(alloc))?;
    assert_eq!(rt; made.status, Status::Done);
    let file = respelled(alloc, made.text.as_str())?;
    let solved = Run::over(&rt, alloc, &["solve"], file)?;
    assert_eq!(rt; solved.status, Status::Done);
    assert!(rt;
        solved
            .text
            .as_str()
            .starts_with("mwt 2\ndiamond on\nunit 0\nmerged 0\npoints 52\n")
    );
    let checked = Run::over(&rt, alloc, &["check"], solved.text.into_bytes())?;
    assert_eq!(rt; checked.status, Status::Done);
    assert_eq!(rt; checked.text.as_str(), "valid\n");
    Ok(())
}

// Each coordinate with a zero after a point, a comment more, and a dimension without a blank before
// its colon.
fn respelled(alloc: Global, text: &str) -> Result<Vec<u8>, Fail> {
    let mut file = String::new(alloc);
    for line in text.lines() {
        if line.starts_with("DIMENSION") {
            file.push_str("COMMENT : spelled in another way\nDIMENSION: 52\n")?;
        } else if line.contains(' ') && !line.contains(':') {
            let zeros = line.replace(alloc, " ", ".0 ")?;
            let nodes = zeros.replacen(alloc, ".0 ", " ", 1)?;
            file.push_str(nodes.as_str())?;
            file.push_str(".0\n")?;
        } else {
            file.push_str(line)?;
            file.push_str("\n")?;
        }
    }
    Ok(file.into_bytes())
}
