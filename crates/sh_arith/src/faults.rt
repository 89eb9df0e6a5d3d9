//! Why an arithmetic expression has no value.

ghost use Rattle.std.specs.Prelude.{◌≡◌};

use ps_lines::{Memory, Text};
use std::alloc::{AllocError, AllocFailed};

/// Why an arithmetic expression has no value.
#[derive(Debug, Drop)]
pub enum ArithFault {
    /// The text isn't an expression. It is told before anything is evaluated.
    Syntax,
    DivideByZero,
    /// A result or a constant is outside 64 bits with sign, or a shift count outside 0 to 63.
    Overflow,
    /// The variable of this name isn't a constant with an optional sign.
    NotANumber(Text),
    /// Over 64 levels. It is told after Syntax, and before anything is evaluated.
    Deep,
    Memory,
}

impl From<Memory> for ArithFault {
    ghost use Rattle.sh_arith.specs.declared.faults.ArithFault.TheVariants as fault;

    ghost from_gives = { λ _ told. told ≡ fault.Memory };

    fn from(_refused: Memory) -> ArithFault {
        ArithFault::Memory
    }
}

impl From<AllocError> for ArithFault {
    ghost use Rattle.sh_arith.specs.declared.faults.ArithFault.TheVariants as fault;

    ghost from_gives = { λ _ told. told ≡ fault.Memory };

    fn from(_refused: AllocError) -> ArithFault {
        ArithFault::Memory
    }
}

impl<T: Drop> From<AllocFailed<T>> for ArithFault {
    ghost use Rattle.sh_arith.specs.declared.faults.ArithFault.TheVariants as fault;

    ghost from_gives = { λ _ told. told ≡ fault.Memory };

    fn from(_refused: AllocFailed<T>) -> ArithFault {
        ArithFault::Memory
    }
}
