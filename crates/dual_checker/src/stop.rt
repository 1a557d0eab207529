// Why a set of points has no elimination.
ghost use Rattle.std.specs.Prelude.{◌≡◌};
ghost use Rattle.dual_checker.specs.declared.stop.CheckStop.TheVariants.{NoMemory as out_of_memory};

use mwt_base::NoMemory;
use std::alloc::AllocError;
use thiserror::Error;

/// Why a set of points has no elimination: it has more candidate edges, or more empty triangles with
/// candidate sides, than the limit; or memory ran out.
#[derive(Clone, Copy, Debug, PartialEq, Eq, Error)]
pub enum CheckStop {
    #[error("more than 400,000 candidate edges")]
    DenseEdges,
    #[error("more than 4,000,000 empty triangles")]
    DenseTriangles,
    #[error("out of memory")]
    NoMemory,
}

impl From<AllocError> for CheckStop {
    ghost from_gives = { λ _ stop. stop ≡ out_of_memory };

    fn from(_: AllocError) -> Self {
        CheckStop::NoMemory
    }
}

impl From<NoMemory> for CheckStop {
    ghost from_gives = { λ _ stop. stop ≡ out_of_memory };

    fn from(_: NoMemory) -> Self {
        CheckStop::NoMemory
    }
}
