// Pictures over sources and sinks of which each call fails in turn. Whole pictures are cases of
// `mwt_cases`.

use crate::draw;
use mwt_base::{Bytes, MemSink, MemSource, Status};
use std::alloc::Global;
use std::test::Fail;

const REPORT: &str = "mwt 1
diamond on
unit 0
merged 0
points 3
1 0 0
3 0 4
2 3 0
hull 3
0
2
1
candidates 3
live 3
0 1 h 0.000000
0 2 h 12.000000
1 2 h 0.000000
skeleton 3
0 1
0 2
1 2
triangles 1
0 2 1
method flips
length 12.000000 12.000000
bound 12.000000
gap 0.000000
end
";

const PICTURE: &str =
    "<svg xmlns='http://www.w3.org/2000/svg' version='1.1' width='680' height='880' viewBox='0 0 850000 1100000' fill='none' stroke-linecap='round' stroke-linejoin='round'>
<rect id='paper' width='100%' height='100%' fill='#fff'/>
<g id='live' stroke='#ccc' stroke-width='1'><path vector-effect='non-scaling-stroke' d='
'/></g>
<g id='triangulation' stroke='#37c' stroke-width='1'><path vector-effect='non-scaling-stroke' d='
M50000 1050000L800000 1050000
M800000 1050000L50000 50000
M50000 50000L50000 1050000
'/></g>
<g id='skeleton' stroke='#222' stroke-width='2'><path vector-effect='non-scaling-stroke' d='
M50000 1050000L50000 50000
M50000 1050000L800000 1050000
M50000 50000L800000 1050000
'/></g>
<g id='hull' stroke='#c22' stroke-width='2'><path vector-effect='non-scaling-stroke' d='
M
50000 1050000
800000 1050000
50000 50000
z
'/></g>
<g id='points' stroke='#000' stroke-width='5'><path vector-effect='non-scaling-stroke' d='
M50000 1050000h0
M50000 50000h0
M800000 1050000h0
'/></g>
</svg>
";

// The status of a call, and what it wrote. Reads and writes of 64 bytes fail at these calls.
fn drawn(
    alloc: Global,
    words: usize,
    input: &str,
    failing_reads: &[u64],
    failing_writes: &[u64],
) -> Result<(Status, Vec<u8>), Fail> {
    let input = Vec::from_slice(alloc, input.as_bytes())?;
    if input.len() >= 1 << 32 {
        return Err(Fail::from("too many bytes"));
    }
    let reads = Vec::from_slice(alloc, failing_reads)?;
    let writes = Vec::from_slice(alloc, failing_writes)?;
    let mut source = MemSource::new(Bytes::of(input), 64, reads);
    let mut sink = MemSink::new(alloc, 64, 1 << 16, writes)?;
    let status = draw(alloc, words, &mut source, &mut sink);
    Ok((status, Vec::from_slice(alloc, sink.bytes())?))
}

#[test]
fn a_report_is_drawn(rt: HostRuntime) -> Result<(), Fail> {
    let (status, text) = drawn(rt.alloc(), 0, REPORT, &[], &[])?;
    assert_eq!(rt; status, Status::Done);
    assert_eq!(rt; text.as_slice(), PICTURE.as_bytes());
    Ok(())
}

// The read after the last piece finds the end, and none comes after it.
#[test]
fn each_read_fails_in_turn(rt: HostRuntime) -> Result<(), Fail> {
    let alloc = rt.alloc();
    let reads = (REPORT.as_bytes().chunks(64).count() as u64).saturating_add(1);
    for call in 1..=reads {
        let (status, text) = drawn(alloc, 0, REPORT, &[call], &[])?;
        assert_eq!(rt; status, Status::ReadFault, "{call}");
        assert_eq!(rt; text.len(), 0, "{call}");
    }
    let (status, _) = drawn(alloc, 0, REPORT, &[reads.saturating_add(1)], &[])?;
    assert_eq!(rt; status, Status::Done);
    Ok(())
}

// What the sink holds is what the writes before the failing one gave it.
#[test]
fn each_write_fails_in_turn(rt: HostRuntime) -> Result<(), Fail> {
    let alloc = rt.alloc();
    for (before, _) in PICTURE.as_bytes().chunks(64).enumerate() {
        let call = (before as u64).saturating_add(1);
        let (status, text) = drawn(alloc, 0, REPORT, &[], &[call])?;
        assert_eq!(rt; status, Status::WriteFault, "{call}");
        assert_eq!(rt; text.len(), before.saturating_mul(64), "{call}");
        assert!(rt; PICTURE.as_bytes().starts_with(&text), "{call}");
    }
    Ok(())
}

#[test]
fn words_are_refused_before_reading(rt: HostRuntime) -> Result<(), Fail> {
    let (status, text) = drawn(rt.alloc(), 1, REPORT, &[1], &[])?;
    assert_eq!(rt; status, Status::Refused);
    assert_eq!(rt; text.as_slice(), b"refused 40 Usage\n".as_slice());
    Ok(())
}
