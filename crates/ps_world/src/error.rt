//! Failures of the outside.
use std::alloc::{AllocError, AllocFailed};
use thiserror::Error;

/// Why a call on an object of the outside gave nothing.
#[derive(Clone, Copy, Debug, PartialEq, Eq, Error)]
pub enum WorldErr {
    /// The object failed, and its count of faults rose.
    #[error("the outside failed")]
    Failed,
    /// Memory was wanted and refused; the object's count stands.
    #[error("out of memory")]
    Memory,
}

impl From<AllocError> for WorldErr {
    ghost use Rattle.std.specs.Prelude.{◌≡◌};
    ghost use Rattle.ps_world.specs.declared.error.WorldErr.TheVariants.{Memory};

    ghost from_gives = { λ _ error. error ≡ Memory };

    fn from(_refused: AllocError) -> WorldErr {
        WorldErr::Memory
    }
}

impl<T: Drop> From<AllocFailed<T>> for WorldErr {
    ghost use Rattle.std.specs.Prelude.{◌≡◌};
    ghost use Rattle.ps_world.specs.declared.error.WorldErr.TheVariants.{Memory};

    ghost from_gives = { λ _ error. error ≡ Memory };

    fn from(_refused: AllocFailed<T>) -> WorldErr {
        WorldErr::Memory
    }
}

impl From<ps_lines::Memory> for WorldErr {
    ghost use Rattle.std.specs.Prelude.{◌≡◌};
    ghost use Rattle.ps_world.specs.declared.error.WorldErr.TheVariants.{Memory};

    ghost from_gives = { λ _ error. error ≡ Memory };

    fn from(_refused: ps_lines::Memory) -> WorldErr {
        WorldErr::Memory
    }
}
