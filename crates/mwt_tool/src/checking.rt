// The mode `check`: what there is to say of a report.
ghost use Rattle.std.specs.Prelude.{codes, ◌≡◌, IfOk};
ghost use Rattle.mwt_base.specs.Line.{line};
ghost use Rattle.cert_text.specs.Within.{IsWithin};
ghost use Rattle.mwt_tool.specs.Checks.{Checks, Decides, broken_line, part_name};
ghost use Rattle.mwt_tool.specs.Said.{IsAnswer};
ghost use Rattle.mwt_tool.specs.Texts.{bytes_of};

use crate::answer::{Answer, Text, refusal_answer};
use crate::refusal::Refusal;
use cert_text::{Report, ReportStop, read_report};
use dual_checker::{CheckStop, Verdict, check};
use mwt_base::{Bytes, NoMemory, Status};
use std::alloc::Global;
use std::thread::Threads;

/// The answer of the mode `check`.
pub fn check_answer<R: Threads + Sync>(
    rt: &R,
    alloc: Global,
    input: &Bytes,
) -> Result<Answer, NoMemory>
    ensures checks { IfOk result (λ a. Checks input.now a.status (bytes_of a.text)) }
    ensures ends { IfOk result (λ a. IsAnswer a.status) }
{
    match read_report(alloc, input) {
        Ok(report) => Ok(verdict_answer(rt, alloc, &report)?),
        Err(ReportStop::Refused(why)) => Ok(refusal_answer(alloc, Refusal::Report(why))?),
        Err(ReportStop::NoMemory) => Err(NoMemory),
    }
}

// The answer to a report.
fn verdict_answer<R: Threads + Sync>(
    rt: &R,
    alloc: Global,
    report: &Report,
) -> Result<Answer, NoMemory>
    requires { IsWithin report.now }
    ensures decides { IfOk result (λ a. Decides report.now a.status (bytes_of a.text)) }
    ensures ends { IfOk result (λ a. IsAnswer a.status) }
{
    match check(rt, alloc, report) {
        Ok(Verdict::Valid) => Ok(valid_answer(alloc)?),
        Ok(Verdict::Broken(part)) => Ok(broken_answer(alloc, part)?),
        Err(CheckStop::DenseEdges) => Ok(refusal_answer(alloc, Refusal::DenseEdges)?),
        Err(CheckStop::DenseTriangles) => Ok(refusal_answer(alloc, Refusal::DenseTriangles)?),
        Err(CheckStop::NoMemory) => Err(NoMemory),
    }
}

// The answer to a good report.
fn valid_answer(alloc: Global) -> Result<Answer, NoMemory>
    ensures status { IfOk result (λ a. a.status ≡ Status.Done) }
    ensures text { IfOk result (λ a. bytes_of a.text ≡ line (codes "valid")) }
{
    let line = String::from_str(alloc, "valid\n")?;
    Ok(Answer {
        status: Status::Done,
        text: Text::Line(line),
    })
}

// The answer to a report of which this part is the first that fails.
fn broken_answer(alloc: Global, part: u32) -> Result<Answer, NoMemory>
    ensures status { IfOk result (λ a. a.status ≡ Status.Broken) }
    ensures text { IfOk result (λ a. bytes_of a.text ≡ broken_line part) }
{
    let name = part_name(part);
    let line = format!(in alloc; "broken {part} {name}\n")?;
    Ok(Answer {
        status: Status::Broken,
        text: Text::Line(line),
    })
}

// The name of a part of a report.
#[tactic(auto, unfolding(crate::specs::Checks::part_name))]
fn part_name(part: u32) -> &'static str
    ensures { result.now ≡ part_name part }
{
    match part {
        1 => "points",
        2 => "hull",
        3 => "candidates",
        4 => "live",
        5 => "skeleton",
        6 => "triangulation",
        7 => "length",
        8 => "prices",
        9 => "slack",
        10 => "bound",
        11 => "gap",
        _ => "faces",
    }
}
