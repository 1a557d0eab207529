// What is to be written for what the source has left. All memory is taken here, before the first write.
ghost use Rattle.std.specs.Prelude.{◌≡◌, ◌≢◌, ◌+◌, ◌≤◌, IfOk, OnOk, IsErrOf};
ghost use Rattle.mwt_base.specs.Causes.{Rose};
ghost use Rattle.mwt_base.specs.Limits.{most_bytes};
ghost use Rattle.mwt_tool.specs.Said.{IsAnswer, ReadsUpTo};
ghost use Rattle.svg_picture.specs.Draws.{Means, Pictures};
ghost use Rattle.svg_picture.specs.declared.answer.Stop.TheVariants.{NoMemory as want_of_memory};

use crate::picture::write_picture;
use crate::refusal::report_refusal;
use cert_text::{ReportStop, read_report};
use mwt_base::{Bytes, NoMemory, ReadStop, Source, Status, read_whole};
use std::alloc::Global;

// The most bytes of input.
const INPUT_LIMIT: usize = 67_108_864;

/// A status, and the text that goes with it.
#[derive(Drop)]
pub struct Answer {
    pub status: Status,
    pub text: Vec<u8>,
}

/// Why there is no answer.
#[derive(Clone, Copy, Debug, PartialEq, Eq)]
pub enum Stop {
    ReadFault,
    NoMemory,
}

impl From<NoMemory> for Stop {
    ghost from_gives = { λ _ e. e ≡ want_of_memory };

    fn from(_: NoMemory) -> Self {
        Stop::NoMemory
    }
}

/// The answer to so many words and what the source has left.
pub fn decide<S: Source>(alloc: Global, words: usize, source: &mut S) -> Result<Answer, Stop>
    ensures means { IfOk result (λ a. Means words (S.left source.old) a.status a.text.items) }
    ensures ends { IfOk result (λ a. IsAnswer a.status) }
    ensures fault { IsErrOf result Stop.ReadFault → Rose (S.faults source.old) (S.faults source.new) }
    ensures asked { IsErrOf result Stop.ReadFault → words ≡ 0 }
    ensures read_to_the_end { OnOk result (words ≡ 0 → ReadsUpTo most_bytes (S.left source.old) (S.left source.new)) }
    ensures reads { S.reads source.new ≤ S.reads source.old + (most_bytes + 2) }
    ensures read_nothing { words ≢ 0 → source.new ≡ source.old }
{
    if words > 0 {
        return Ok(refused(alloc, "refused 40 Usage\n")?);
    }
    match read_whole(alloc, source, INPUT_LIMIT) {
        Ok(input) => Ok(input_answer(alloc, &input)?),
        Err(ReadStop::TooLong) => Ok(refused(alloc, "refused 41 TooLong\n")?),
        Err(ReadStop::ReadFault) => Err(Stop::ReadFault),
        Err(ReadStop::NoMemory) => Err(Stop::NoMemory),
    }
}

// The answer to an input.
fn input_answer(alloc: Global, input: &Bytes) -> Result<Answer, NoMemory>
    ensures draws { IfOk result (λ a. Pictures input.now a.status a.text.items) }
    ensures ends { IfOk result (λ a. IsAnswer a.status) }
{
    match read_report(alloc, input) {
        Ok(report) => {
            let text = write_picture(alloc, &report)?;
            Ok(Answer {
                status: Status::Done,
                text,
            })
        }
        Err(ReportStop::Refused(why)) => {
            let line = report_refusal(alloc, why)?;
            Ok(refused(alloc, line.as_str())?)
        }
        Err(ReportStop::NoMemory) => Err(NoMemory),
    }
}

// The answer that refuses with this line.
fn refused(alloc: Global, line: &str) -> Result<Answer, NoMemory>
    ensures status { IfOk result (λ a. a.status ≡ Status.Refused) }
    ensures text { IfOk result (λ a. a.text.items ≡ line.now) }
{
    let text = Vec::from_slice(alloc, line.as_bytes())?;
    Ok(Answer {
        status: Status::Refused,
        text,
    })
}
