// What a point file holds, and why it is refused.
ghost use Rattle.std.specs.Prelude.{◌≡◌};

use exact_predicates::Points;
use std::alloc::{AllocError, AllocFailed};
use thiserror::Error;

/// The points of a file. Coordinates are in units of 10^-`unit`; `merged` nodes were dropped since
/// an earlier one has their coordinates.
#[derive(Drop)]
pub struct File {
    pub points: Points,
    pub unit: u32,
    pub merged: u32,
}

/// Why a file is refused: the code of the rule that it breaks, and the number of the line that breaks
/// it, or 0 where the refusal speaks of the whole file.
#[derive(Clone, Copy, Debug, PartialEq, Eq, Error)]
#[error("rule {code} is broken at line {line}")]
pub struct Refusal {
    pub code: u32,
    pub line: u32,
}

/// Why there is no file: it is refused, or memory ran out.
#[derive(Clone, Copy, Debug, PartialEq, Eq, Error)]
pub enum FileStop {
    #[error("{0}")]
    Refused(Refusal),
    #[error("out of memory")]
    NoMemory,
}

impl From<AllocError> for FileStop {
    ghost use Rattle.tsplib_points.specs.declared.file.FileStop.TheVariants.{NoMemory};

    ghost from_gives = { λ _ stop. stop ≡ NoMemory };

    fn from(_: AllocError) -> Self {
        FileStop::NoMemory
    }
}

impl<T: Drop> From<AllocFailed<T>> for FileStop {
    ghost use Rattle.tsplib_points.specs.declared.file.FileStop.TheVariants.{NoMemory};

    ghost from_gives = { λ _ stop. stop ≡ NoMemory };

    fn from(_: AllocFailed<T>) -> Self {
        FileStop::NoMemory
    }
}
