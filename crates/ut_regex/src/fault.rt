//! Why a text isn't read.

use std::alloc::AllocError;

/// Why a text isn't read as an expression. The first fault from the left is told, and `TooLarge` last.
#[derive(Clone, Copy, Debug, PartialEq, Eq)]
pub enum ReFault {
    /// The text is no expression.
    NotARegex,
    /// It refers back to what a group had, which is left out.
    BackReference,
    /// A bound of a repetition is above 255.
    RepeatTooLarge,
    /// Groups are nested over 64 deep, or the expression has over 65,536 places.
    TooLarge,
    /// Memory was wanted and refused.
    Memory,
}

impl From<AllocError> for ReFault {
    ghost use Rattle.std.specs.Prelude.{◌≡◌};
    ghost use Rattle.ut_regex.specs.declared.fault.ReFault.TheVariants as fault;

    ghost from_gives = { λ _ told. told ≡ fault.Memory };

    fn from(_refused: AllocError) -> ReFault {
        ReFault::Memory
    }
}
