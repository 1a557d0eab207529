// The modes `solve`, `trial` and `explain`: what there is to say of a point file.
ghost use Rattle.std.specs.Prelude.{◌≤◌, IfOk, OnOk, IsErrOf};
ghost use Rattle.mwt_base.specs.Limits.{most_unit};
ghost use Rattle.dual_checker.specs.Elimination.{HasTooManyEdges, HasTooManyTriangles, IsWithinLimits};
ghost use Rattle.mwt_tool.specs.Said.{IsAnswer};
ghost use Rattle.mwt_tool.specs.Solves.{AnswersFile, AnswersInput, Tells};
ghost use Rattle.mwt_tool.specs.Texts.{bytes_of};
ghost use Rattle.mwt_tool.specs.Words.{CanSolve};

use crate::answer::{Answer, Text, refusal_answer};
use crate::explainer::explain;
use crate::refusal::Refusal;
use crate::solver::{Settings, solve};
use crate::summary::summary;
use cert_text::write_report;
use dual_checker::CheckStop;
use mwt_base::{Bytes, Gate, NoMemory, Status};
use std::alloc::Global;
use std::thread::Threads;
use tsplib_points::{File, FileStop, read_points};

/// What is said of a file: its report, the summary of that, or its killed edges.
#[derive(Clone, Copy, Debug, PartialEq, Eq)]
pub enum Form {
    Whole,
    Summary,
    Kills,
}

/// The answer to an input, with what there is to say of what it holds in this form.
pub fn input_answer<R: Threads + Sync, G: Gate>(
    rt: &R,
    alloc: Global,
    form: Form,
    input: &Bytes,
    settings: &Settings,
    gate: &G,
) -> Result<Answer, NoMemory>
    requires { CanSolve settings.now }
    ensures answers { IfOk result (λ a. AnswersInput form settings.now input.now a.status (bytes_of a.text)) }
    ensures ends { IfOk result (λ a. IsAnswer a.status) }
{
    match read_points(alloc, input) {
        Ok(file) => Ok(file_answer(rt, alloc, form, &file, settings, gate)?),
        Err(FileStop::Refused(why)) => Ok(refusal_answer(alloc, Refusal::File(why))?),
        Err(FileStop::NoMemory) => Err(NoMemory),
    }
}

// The answer to what a file holds.
fn file_answer<R: Threads + Sync, G: Gate>(
    rt: &R,
    alloc: Global,
    form: Form,
    file: &File,
    settings: &Settings,
    gate: &G,
) -> Result<Answer, NoMemory>
    requires unit { file.now.unit ≤ most_unit }
    requires settings { CanSolve settings.now }
    ensures answers { IfOk result (λ a. AnswersFile form file.now settings.now a.status (bytes_of a.text)) }
    ensures ends { IfOk result (λ a. IsAnswer a.status) }
{
    match text_of(rt, alloc, form, file, settings, gate) {
        Ok(text) => Ok(Answer {
            status: Status::Done,
            text,
        }),
        Err(CheckStop::DenseEdges) => Ok(refusal_answer(alloc, Refusal::DenseEdges)?),
        Err(CheckStop::DenseTriangles) => Ok(refusal_answer(alloc, Refusal::DenseTriangles)?),
        Err(CheckStop::NoMemory) => Err(NoMemory),
    }
}

// The text that says it in this form.
fn text_of<R: Threads + Sync, G: Gate>(
    rt: &R,
    alloc: Global,
    form: Form,
    file: &File,
    settings: &Settings,
    gate: &G,
) -> Result<Text, CheckStop>
    requires unit { file.now.unit ≤ most_unit }
    requires settings { CanSolve settings.now }
    ensures tells { IfOk result (λ text. Tells form file.now settings.now (bytes_of text)) }
    ensures within { OnOk result (IsWithinLimits file.now.points.points settings.now.diamond) }
    ensures dense_edges { IsErrOf result CheckStop.DenseEdges →
        HasTooManyEdges file.now.points.points settings.now.diamond }
    ensures dense_triangles { IsErrOf result CheckStop.DenseTriangles →
        HasTooManyTriangles file.now.points.points settings.now.diamond }
{
    match form {
        Form::Whole => {
            let report = solve(rt, alloc, file, settings, gate)?;
            Ok(Text::Whole(write_report(alloc, &report)?))
        }
        Form::Summary => {
            let report = solve(rt, alloc, file, settings, gate)?;
            Ok(Text::Lines(summary(alloc, &report)?))
        }
        Form::Kills => {
            let text = explain(rt, alloc, &file.points, settings, gate)?;
            Ok(Text::Lines(text))
        }
    }
}
