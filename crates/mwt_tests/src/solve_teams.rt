// The mode `solve` with teams of workers, by its own call and by the top call: the report is the same at any
// number of them, two run at the same time, and each passes the gate once at its start and at its end.
ghost use Rattle.std.specs.Prelude.{◌<◌, ◌≤◌};
ghost use Rattle.mwt_base.specs.Limits.{most_workers};

use crate::helpers::{FIVE, TWENTY, bytes_of, plain_file, points_of, words_of};
use crate::workers::CountGate;
use cert_text::write_report;
use exact_predicates::Diamond;
use mwt_base::{Gate, MeetGate, OpenGate, Status, SureSink, SureSource};
use mwt_tool::{Settings, run_in_memory, solve};
use std::alloc::Global;
use std::process::Abort;
use std::sync::atomic::Ordering;
use std::test::Fail;
use std::thread::Threads;
use tsplib_points::File;

// Two rings round one centre. The skeleton does not decompose, since none of its edges joins the two.
const RINGS: [(i64, i64); 18] = [
    (1000, 0),
    (885, 465),
    (568, 823),
    (121, 993),
    (-355, 935),
    (-749, 663),
    (-971, 239),
    (-971, -239),
    (-749, -663),
    (-355, -935),
    (121, -993),
    (568, -823),
    (885, -465),
    (49, 35),
    (-19, 57),
    (-60, 0),
    (-19, -57),
    (49, -35),
];

// A ring of fourteen, and a point in it that one edge of the skeleton joins to the ring. It does not
// decompose either.
const WHEEL: [(i64, i64); 15] = [
    (1000, 0),
    (901, 434),
    (623, 782),
    (223, 975),
    (-223, 975),
    (-623, 782),
    (-901, 434),
    (-1000, 0),
    (-901, -434),
    (-623, -782),
    (-223, -975),
    (223, -975),
    (623, -782),
    (901, -434),
    (133, 0),
];

const REPORT_OF_FIVE: &str = "mwt 2
diamond off
unit 0
merged 0
points 5
1 0 0
2 2 -2
5 5 1
3 7 -3
4 10 0
hull 5
0
1
3
4
2
candidates 10
live 7
0 1 h 2.828427
0 2 h 5.099019
1 2 s 2.121320 2.121320 2.121320
1 3 h 5.099019
2 3 s 2.236067 2.236068 2.236067
2 4 h 5.099019
3 4 h 4.242640
skeleton 7
0 1
0 2
1 2
1 3
2 3
2 4
3 4
triangles 3
0 1 2
1 3 2
2 3 4
method faces
length 31.082899 31.082906
bound 31.082899
gap 0.000007
end
";

// The report of these points by so many workers, with the diamond test off.
fn report_by<R: Threads + Sync, G: Gate>(
    rt: &R,
    alloc: Global,
    places: &[(i64, i64)],
    workers: u32,
    gate: &G,
) -> Result<String, Fail>
    requires some { 0 < workers }
    requires few { workers ≤ most_workers }
{
    let file = File {
        points: points_of(alloc, places)?,
        unit: 0,
        merged: 0,
    };
    let settings = Settings {
        workers,
        diamond: Diamond::Off,
        sweeps: 16,
    };
    let Ok(report) = solve(rt, alloc, &file, &settings, gate) else {
        return Err(Fail::from("stopped"));
    };
    let Ok(text) = write_report(alloc, &report) else {
        return Err(Fail::from("no memory"));
    };
    Ok(String::from_utf8_lossy(alloc, text.as_slice())?)
}

#[test]
fn reports_by_teams(rt: HostRuntime) -> Result<(), Fail> {
    let alloc = rt.alloc();
    let alone = report_by(&rt, alloc, &FIVE, 1, &OpenGate)?;
    assert_eq!(rt; alone.as_str(), REPORT_OF_FIVE);
    let twenty = report_by(&rt, alloc, &TWENTY, 1, &OpenGate)?;
    for workers in [2, 64] {
        let report = report_by(&rt, alloc, &FIVE, workers, &OpenGate)?;
        assert_eq!(rt; report.as_str(), REPORT_OF_FIVE);
        let report = report_by(&rt, alloc, &TWENTY, workers, &OpenGate)?;
        assert_eq!(rt; report.as_str(), twenty.as_str());
    }
    Ok(())
}

#[test]
fn reports_by_flips_of_teams(rt: HostRuntime) -> Result<(), Fail> {
    flips_by_teams(&rt, rt.alloc(), &RINGS)?;
    flips_by_teams(&rt, rt.alloc(), &WHEEL)
}

// The method is flips, and the report of one worker is that of two, of eight and of sixty-four.
fn flips_by_teams<R: Threads + Sync + Abort>(
    rt: &R,
    alloc: Global,
    places: &[(i64, i64)],
) -> Result<(), Fail> {
    let alone = report_by(rt, alloc, places, 1, &OpenGate)?;
    assert!(rt; alone.as_str().lines().any(|line| line == "method flips"));
    let two = report_by(rt, alloc, places, 2, &OpenGate)?;
    assert_eq!(rt; two.as_str(), alone.as_str());
    let eight = report_by(rt, alloc, places, 8, &OpenGate)?;
    assert_eq!(rt; eight.as_str(), alone.as_str());
    let many = report_by(rt, alloc, places, 64, &OpenGate)?;
    assert_eq!(rt; many.as_str(), alone.as_str());
    Ok(())
}

#[test]
fn two_workers_meet_in_solve(rt: HostRuntime) -> Result<(), Fail> {
    let gate = MeetGate::new();
    let report = report_by(&rt, rt.alloc(), &FIVE, 2, &gate)?;
    assert_eq!(rt; gate.misses(), 0);
    assert_eq!(rt; report.as_str(), REPORT_OF_FIVE);
    Ok(())
}

#[test]
fn each_worker_begins_and_ends_once_in_solve(rt: HostRuntime) -> Result<(), Fail> {
    let gate = CountGate::new();
    report_by(&rt, rt.alloc(), &FIVE, 4, &gate)?;
    assert_eq!(rt; gate.begun.load(Ordering::SeqCst), 0x0101_0101);
    assert_eq!(rt; gate.ended.load(Ordering::SeqCst), 0x0101_0101);
    Ok(())
}

// What the top call writes for the five points, by as many workers as the word says.
fn run_by<R: Threads + Sync, G: Gate>(
    rt: &R,
    alloc: Global,
    workers: &str,
    gate: &G,
) -> Result<(Status, String), Fail> {
    let words = words_of(alloc, &["solve", "--diamond", "off", "--workers", workers])?;
    let mut source = SureSource::new(bytes_of(plain_file(alloc, &FIVE)?)?, 1 << 20);
    let mut sink = SureSink::new(alloc, 4096).map_err(|_| Fail::from("no memory"))?;
    let status = run_in_memory(rt, alloc, &words, &mut source, &mut sink, gate);
    let text = String::from_utf8_lossy(alloc, sink.bytes())?;
    Ok((status, text))
}

#[test]
fn each_worker_begins_and_ends_once_in_run(rt: HostRuntime) -> Result<(), Fail> {
    let gate = CountGate::new();
    let (status, text) = run_by(&rt, rt.alloc(), "4", &gate)?;
    assert_eq!(rt; gate.begun.load(Ordering::SeqCst), 0x0101_0101);
    assert_eq!(rt; gate.ended.load(Ordering::SeqCst), 0x0101_0101);
    assert_eq!(rt; status, Status::Done);
    assert_eq!(rt; text.as_str(), REPORT_OF_FIVE);
    Ok(())
}
