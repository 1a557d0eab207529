// Whole reads and writes, and the top call in each mode, over sources and sinks of which each call fails
// in turn.

use crate::helpers::{Run, bytes_of, mem_sink, plain_file, words_of};
use mwt_base::{Failed, MemSink, MemSource, OpenGate, ReadStop, Status, read_whole, write_whole};
use mwt_tool::run;
use std::alloc::Global;
use std::process::Abort;
use std::test::Fail;
use std::thread::Threads;

// A source that gives 16 bytes a call, and fails at the calls with these numbers.
fn mem_source(alloc: Global, input: &[u8], fail: Vec<u64>) -> Result<MemSource, Fail> {
    let bytes = bytes_of(Vec::from_slice(alloc, input)?)?;
    Ok(MemSource::new(bytes, 16, fail))
}

// A point file of 101 bytes.
fn file(alloc: Global) -> Result<Vec<u8>, Fail> {
    plain_file(alloc, &[(0, 0), (3, 0), (0, 4)])
}

// The status of the top call, and what it wrote.
fn answer(
    rt: &(impl Threads + Sync),
    alloc: Global,
    words: &[&str],
    mut source: MemSource,
    mut sink: MemSink,
) -> Result<(Status, Vec<u8>), Fail> {
    let words = words_of(alloc, words)?;
    let status = run(rt, alloc, &words, &mut source, &mut sink, &OpenGate);
    Ok((status, Vec::from_slice(alloc, sink.bytes())?))
}

// The read after the last piece finds the end, and none comes after it.
#[test]
fn each_read_of_a_mode_fails_in_turn(rt: HostRuntime) -> Result<(), Fail> {
    let alloc = rt.alloc();
    let file = file(alloc)?;
    let report = Run::over(&rt, alloc, &["solve"], file.clone()?)?.text;
    let rows = [
        ("solve", file.as_slice()),
        ("check", report.as_bytes()),
        ("explain", file.as_slice()),
    ];
    for (mode, input) in rows {
        let reads = (input.chunks(16).count() as u64).saturating_add(1);
        for before in 0..reads {
            let failing = vec![in alloc; before.saturating_add(1)]?;
            let source = mem_source(alloc, input, failing)?;
            let sink = mem_sink(alloc, Vec::new(alloc))?;
            let (status, written) = answer(&rt, alloc, &[mode], source, sink)?;
            assert_eq!(rt; status, Status::ReadFault, "{mode}, after {before}");
            assert_eq!(rt; written.len(), 0, "{mode}, after {before}");
        }
        let source = mem_source(alloc, input, vec![in alloc; reads.saturating_add(1)]?)?;
        let sink = mem_sink(alloc, Vec::new(alloc))?;
        let (status, _) = answer(&rt, alloc, &[mode], source, sink)?;
        assert_eq!(rt; status, Status::Done, "{mode}");
    }
    Ok(())
}

// What the sink holds is what the writes before the failing one gave it.
fn writes_fail_in_turn(
    rt: &(impl Threads + Sync + Abort),
    alloc: Global,
    words: &[&str],
    input: &[u8],
) -> Result<(), Fail> {
    let source = mem_source(alloc, input, Vec::new(alloc))?;
    let (status, whole) = answer(rt, alloc, words, source, mem_sink(alloc, Vec::new(alloc))?)?;
    assert_eq!(rt; status, Status::Done, "{words:?}");
    assert!(rt; whole.len() > 0);
    for (before, _) in whole.chunks(16).enumerate() {
        let failing = vec![in alloc; (before as u64).saturating_add(1)]?;
        let source = mem_source(alloc, input, Vec::new(alloc))?;
        let (status, written) = answer(rt, alloc, words, source, mem_sink(alloc, failing)?)?;
        assert_eq!(rt; status, Status::WriteFault, "{words:?}, after {before}");
        assert_eq!(rt; written.len(), before.saturating_mul(16));
        assert!(rt; whole.starts_with(&written), "{words:?}, after {before}");
    }
    Ok(())
}

#[test]
fn each_write_of_a_mode_fails_in_turn(rt: HostRuntime) -> Result<(), Fail> {
    let alloc = rt.alloc();
    let file = file(alloc)?;
    let report = Run::over(&rt, alloc, &["solve"], file.clone()?)?.text;
    writes_fail_in_turn(&rt, alloc, &["solve"], &file)?;
    writes_fail_in_turn(&rt, alloc, &["explain"], &file)?;
    writes_fail_in_turn(&rt, alloc, &["check"], report.as_bytes())?;
    writes_fail_in_turn(&rt, alloc, &["make", "--points", "3"], b"")?;
    writes_fail_in_turn(&rt, alloc, &["trial", "--points", "3"], b"")
}

// A read that fails takes nothing: a later call reads on from there.
#[test]
fn each_read_of_a_whole_fails_in_turn(rt: HostRuntime) -> Result<(), Fail> {
    let alloc = rt.alloc();
    let file = file(alloc)?;
    assert_eq!(rt; file.len(), 101);
    for before in 0..8usize {
        let failing = vec![in alloc; (before as u64).saturating_add(1)]?;
        let mut source = mem_source(alloc, &file, failing)?;
        let stop = read_whole(alloc, &mut source, 101).err();
        assert_eq!(rt; stop, Some(ReadStop::ReadFault), "after {before}");
        let rest = read_whole(alloc, &mut source, 101).map_err(|_| Fail::from("not read"))?;
        let taken = before.saturating_mul(16).min(101);
        assert_eq!(rt; rest.as_slice().len(), 101usize.saturating_sub(taken));
        assert!(rt; file.ends_with(rest.as_slice()), "after {before}");
    }
    Ok(())
}

// A write that fails takes nothing: a later call writes after what is there.
#[test]
fn each_write_of_a_whole_fails_in_turn(rt: HostRuntime) -> Result<(), Fail> {
    let alloc = rt.alloc();
    let file = file(alloc)?;
    for (before, _) in file.chunks(16).enumerate() {
        let failing = vec![in alloc; (before as u64).saturating_add(1)]?;
        let mut sink = mem_sink(alloc, failing)?;
        assert_eq!(rt;
            write_whole(&mut sink, &file),
            Err(Failed),
            "after {before}"
        );
        let kept = before.saturating_mul(16);
        assert_eq!(rt; sink.bytes().len(), kept);
        assert!(rt; file.starts_with(sink.bytes()), "after {before}");
        assert_eq!(rt; write_whole(&mut sink, &file), Ok(()), "after {before}");
        assert_eq!(rt; sink.bytes().len(), file.len().saturating_add(kept));
        assert!(rt; sink.bytes().ends_with(&file), "after {before}");
    }
    Ok(())
}

// A sink with too little room takes what fits, and then fails.
#[test]
fn sink_without_room(rt: HostRuntime) -> Result<(), Fail> {
    let alloc = rt.alloc();
    let mut sink = MemSink::new(alloc, 4, 6, Vec::new(alloc)).map_err(|_| Fail::from("no memory"))?;
    assert_eq!(rt;
        write_whole(&mut sink, b"all of it".as_slice()),
        Err(Failed)
    );
    assert_eq!(rt; sink.bytes(), b"all of".as_slice());
    Ok(())
}
