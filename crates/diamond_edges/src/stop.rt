// Why the candidate edges are not listed.
ghost use Rattle.std.specs.Prelude.{◌≡◌};

use mwt_base::NoMemory;
use std::alloc::{AllocError, AllocFailed};
use thiserror::Error;

/// Why the candidate edges are not listed.
#[derive(Clone, Copy, Debug, PartialEq, Eq, Error)]
pub enum EdgeStop {
    /// There are more than 400,000.
    #[error("more than 400,000 candidate edges")]
    Dense,
    /// Out of memory.
    #[error("out of memory")]
    NoMemory,
}

impl From<AllocError> for EdgeStop {
    ghost use Rattle.diamond_edges.specs.declared.stop.EdgeStop.TheVariants.{NoMemory};

    ghost from_gives = { λ _ stop. stop ≡ NoMemory };

    fn from(_: AllocError) -> Self {
        EdgeStop::NoMemory
    }
}

impl<T: Drop> From<AllocFailed<T>> for EdgeStop {
    ghost use Rattle.diamond_edges.specs.declared.stop.EdgeStop.TheVariants.{NoMemory};

    ghost from_gives = { λ _ stop. stop ≡ NoMemory };

    fn from(_: AllocFailed<T>) -> Self {
        EdgeStop::NoMemory
    }
}

impl From<NoMemory> for EdgeStop {
    ghost use Rattle.diamond_edges.specs.declared.stop.EdgeStop.TheVariants.{NoMemory};

    ghost from_gives = { λ _ stop. stop ≡ NoMemory };

    fn from(_: NoMemory) -> Self {
        EdgeStop::NoMemory
    }
}
