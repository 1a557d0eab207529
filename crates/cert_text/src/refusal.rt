// Why a text is no report.
ghost use Rattle.std.specs.Prelude.{◌≡◌};
ghost use Rattle.cert_text.specs.Reasons.{code_of, refused};

use std::alloc::{AllocError, AllocFailed};
use thiserror::Error;

/// Why a text is refused: the code of the rule that it breaks, and the number of the line that breaks it.
#[derive(Clone, Copy, Debug, PartialEq, Eq, Error)]
#[error("rule {code} is broken at line {line}")]
pub struct Refusal2 {
    pub code: u32,
    pub line: u32,
}

/// Why there is no report: the text is refused, or memory ran out.
#[derive(Clone, Copy, Debug, PartialEq, Eq, Error)]
pub enum ReportStop {
    #[error("{0}")]
    Refused(Refusal2),
    #[error("out of memory")]
    NoMemory,
}

impl From<AllocError> for ReportStop {
    ghost use Rattle.cert_text.specs.declared.refusal.ReportStop.TheVariants.{NoMemory};

    ghost from_gives = { λ _ stop. stop ≡ NoMemory };

    fn from(_: AllocError) -> Self {
        ReportStop::NoMemory
    }
}

impl<T: Drop> From<AllocFailed<T>> for ReportStop {
    ghost use Rattle.cert_text.specs.declared.refusal.ReportStop.TheVariants.{NoMemory};

    ghost from_gives = { λ _ stop. stop ≡ NoMemory };

    fn from(_: AllocFailed<T>) -> Self {
        ReportStop::NoMemory
    }
}

/// The rules of a report, by the reasons for which a text is refused.
#[derive(Clone, Copy)]
pub enum Reason {
    /// The first line is neither `mwt 1` nor `mwt 2`.
    Version = 30,
    /// A line has not the words, the number of fields or the spelling of its place.
    Line = 31,
    /// A line is not after the line before it in the order of its list.
    Order = 32,
    /// A number or an amount is out of its range.
    Range = 33,
    /// The text ends where a line should begin, or this line has no LF.
    Truncated = 34,
    /// Bytes come after the last line.
    AfterEnd = 35,
}

impl Reason {
    /// The refusal for this reason at this line.
    pub fn at(self, line: u32) -> Refusal2
        ensures { result ≡ refused line self }
    {
        Refusal2 {
            code: self as u32,
            line,
        }
    }
}
