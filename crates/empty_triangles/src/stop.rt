// Why the empty triangles are not listed.
ghost use Rattle.std.specs.Prelude.{◌≡◌};

use mwt_base::NoMemory;
use std::alloc::{AllocError, AllocFailed};
use thiserror::Error;

/// Why the empty triangles are not listed.
#[derive(Clone, Copy, Debug, PartialEq, Eq, Error)]
pub enum TriStop {
    /// There are more than 4,000,000.
    #[error("more than 4,000,000 empty triangles")]
    Dense,
    /// Out of memory.
    #[error("out of memory")]
    NoMemory,
}

impl From<AllocError> for TriStop {
    ghost use Rattle.empty_triangles.specs.declared.stop.TriStop.TheVariants.{NoMemory};

    ghost from_gives = { λ _ stop. stop ≡ NoMemory };

    fn from(_: AllocError) -> Self {
        TriStop::NoMemory
    }
}

impl<T: Drop> From<AllocFailed<T>> for TriStop {
    ghost use Rattle.empty_triangles.specs.declared.stop.TriStop.TheVariants.{NoMemory};

    ghost from_gives = { λ _ stop. stop ≡ NoMemory };

    fn from(_: AllocFailed<T>) -> Self {
        TriStop::NoMemory
    }
}

impl From<NoMemory> for TriStop {
    ghost use Rattle.empty_triangles.specs.declared.stop.TriStop.TheVariants.{NoMemory};

    ghost from_gives = { λ _ stop. stop ≡ NoMemory };

    fn from(_: NoMemory) -> Self {
        TriStop::NoMemory
    }
}
