// Reads a whole report.
ghost use Rattle.std.specs.Prelude.{◌≡◌, ◌<◌, ◌≤◌, ◌^◌, length, IfOk, Ok};
ghost use Rattle.mwt_base.specs.Limits.{most_amount};
ghost use Rattle.cert_text.specs.declared.report.Report.{Report as report_type};
ghost use Rattle.cert_text.specs.Lines.{most_bound};
ghost use Rattle.cert_text.specs.Places.{place};
ghost use Rattle.cert_text.specs.Reading.{Gives};
ghost use Rattle.cert_text.specs.Texts.{report_text};
ghost use Rattle.cert_text.specs.Whole.{head_at, tail_at, points_at, edges_at, report_from, report_of};
ghost use Rattle.cert_text.specs.Within.{IsWithin};

use crate::limits::{Limits, MOST_EDGES, MOST_POINTS, MOST_TILES, MOST_UNIT};
use crate::parts::{EdgePart, Head, PointPart, Tail};
use crate::reader::Reader;
use crate::refusal::{Reason, ReportStop};
use crate::report::Report;
use mwt_base::Bytes;
use std::alloc::Global;

// Reads the lines before the lists.
#[tactic(auto, unfolding(crate::specs::Whole::head_at))]
fn head(bytes: &[u8]) -> Result<(Head, Reader<'_>), ReportStop>
    requires { length bytes.now < 2 ^ 32 }
    ensures { Gives (λ x. (x.0, place x.1)) result (head_at bytes.now) }
{
    let (version, mut reader) = Reader::of(bytes)?;
    let diamond = reader.diamond()?;
    let unit = reader.count(b"unit", 0, MOST_UNIT + 1)?;
    let merged = reader.count(b"merged", 0, 1 << 32)?;
    let head = Head {
        version,
        diamond,
        unit,
        merged,
    };
    Ok((head, reader))
}

// The most millionths of a bound and of a gap.
fn most_bound(version: u32) -> u128
    ensures is { result ≡ most_bound version }
    ensures few { result ≤ most_amount }
{
    if version == 1 {
        20_000_000_000_000_000_000_000
    } else {
        1_000_000_000_000_000_000_000_000
    }
}

// Reads the lines after the lists.
#[tactic(auto, unfolding(crate::specs::Whole::tail_at))]
fn tail(reader: &mut Reader, version: u32) -> Result<Tail, ReportStop>
    ensures { Gives (λ tail. (tail, place reader.new)) result (tail_at version (place reader.old)) }
{
    let method = reader.method(version)?;
    let (lo, hi) = reader.length()?;
    let most = most_bound(version);
    let bound = reader.amount(b"bound", most)?;
    let gap = reader.amount(b"gap", most)?;
    reader.end()?;
    Ok(Tail {
        method,
        lo,
        hi,
        bound,
        gap,
    })
}

// Reads the points, the hull and the number of candidate edges.
#[tactic(auto, unfolding(crate::specs::Whole::points_at))]
fn points(alloc: Global, reader: &mut Reader, version: u32) -> Result<PointPart, ReportStop>
    ensures { Gives (λ part. (part, place reader.new)) result (points_at version (place reader.old)) }
{
    let none = Limits { version, points: 0 };
    let points = reader.block(alloc, none, b"points", 3, MOST_POINTS + 1)?;
    let count = points.len();
    let limits = Limits {
        version,
        points: count,
    };
    let hull = reader.block(alloc, limits, b"hull", 3, u64::from(count) + 1)?;
    let candidates = reader.count(b"candidates", 0, MOST_EDGES + 1)?;
    Ok(PointPart {
        points,
        hull,
        candidates,
    })
}

// Reads the live edges, the skeleton and the triangles.
#[tactic(auto, unfolding(crate::specs::Whole::edges_at))]
fn edges(alloc: Global, reader: &mut Reader, limits: Limits) -> Result<EdgePart, ReportStop>
    ensures { Gives (λ part. (part, place reader.new)) result (edges_at limits (place reader.old)) }
{
    let live = reader.block(alloc, limits, b"live", 0, MOST_EDGES + 1)?;
    let skeleton = reader.block(alloc, limits, b"skeleton", 0, MOST_EDGES + 1)?;
    let tris = reader.block(alloc, limits, b"triangles", 0, MOST_TILES + 1)?;
    Ok(EdgePart {
        live,
        skeleton,
        tris,
    })
}

// A report by its parts.
fn report_from(head: Head, points: PointPart, edges: EdgePart, tail: Tail) -> Report
    ensures { result ≡ report_from head points edges tail }
{
    Report {
        version: head.version,
        diamond: head.diamond,
        unit: head.unit,
        merged: head.merged,
        points: points.points,
        hull: points.hull,
        candidates: points.candidates,
        live: edges.live,
        skeleton: edges.skeleton,
        tris: edges.tris,
        method: tail.method,
        lo: tail.lo,
        hi: tail.hi,
        bound: tail.bound,
        gap: tail.gap,
    }
}

#[tactic(auto, unfolding(crate::specs::Whole::report_at, crate::specs::Whole::report_of))]
fn report(alloc: Global, bytes: &[u8]) -> Result<Report, ReportStop>
    requires { length bytes.now < 2 ^ 32 }
    ensures { Gives (λ r. r) result (report_of bytes.now) }
{
    let (head, mut reader) = head(bytes)?;
    let points = points(alloc, &mut reader, head.version)?;
    let limits = Limits {
        version: head.version,
        points: points.points.len(),
    };
    let edges = edges(alloc, &mut reader, limits)?;
    let tail = tail(&mut reader, head.version)?;
    if !reader.rest.is_empty() {
        return Err(ReportStop::Refused(Reason::AfterEnd.at(reader.number)));
    }
    Ok(report_from(head, points, edges, tail))
}

/// The report that the bytes are the text of, or the refusal of the first line that fails. Memory grows only
/// as lines come.
pub fn read_report(alloc: Global, bytes: &Bytes) -> Result<Report, ReportStop>
    // What is read is a report, and the bytes are its text.
    ensures read { IfOk result (λ r. IsWithin r × (bytes.now ≡ report_text r)) }
    // The text of a report is read, unless memory runs out.
    ensures only { (r : report_type) → IsWithin r → bytes.now ≡ report_text r → Gives (λ r. r) result (Ok r) }
    // Which report or which refusal it is.
    ensures exact { Gives (λ r. r) result (report_of bytes.now) }
{
    report(alloc, bytes.as_slice())
}
