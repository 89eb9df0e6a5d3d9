//! Why an expansion gives no fields.

ghost use Rattle.std.specs.Prelude.{◌≡◌};
ghost use Rattle.sh_expand.specs.Faults.{told as told_def, arith_fault as arith_fault_def};

use ps_lines::{Memory, Text};
use sh_arith::ArithFault;
use std::alloc::{AllocError, AllocFailed};

/// Why an expansion gives no fields. The variables keep what was assigned before it.
#[derive(Debug, Drop)]
pub enum ExpandFault {
    /// A parameter that is unset, or with the colon empty, in `${x?word}`: its name, and the word's text.
    Unset(Text, Text),
    /// An arithmetic expression has no value. Want of memory there is told as Memory.
    Arith(ArithFault),
    /// There are more fields than MAX_FIELDS, and neither of the two faults above.
    ArgsTooMany,
    /// The tree failed while names were looked up.
    Failed,
    Memory,
}

/// Why the parts of a word give no marks.
#[derive(Debug, Drop)]
pub(crate) enum ValueFault {
    /// The parameter's name, and the text that tells of it.
    Unset(Text, Text),
    Arith(ArithFault),
    Memory,
}

/// The same, as callers are told.
pub(crate) fn told(fault: ValueFault) -> ExpandFault
    ensures { result ≡ told_def fault }
{
    match fault {
        ValueFault::Unset(name, text) => ExpandFault::Unset(name, text),
        ValueFault::Arith(fault) => ExpandFault::Arith(fault),
        ValueFault::Memory => ExpandFault::Memory,
    }
}

/// The fault of an arithmetic expansion.
pub(crate) fn arith_fault(fault: ArithFault) -> ValueFault
    ensures { result ≡ arith_fault_def fault }
{
    match fault {
        ArithFault::Memory => ValueFault::Memory,
        other => ValueFault::Arith(other),
    }
}

impl From<Memory> for ValueFault {
    ghost use Rattle.sh_expand.specs.declared.faults.ValueFault.TheVariants as fault;

    ghost from_gives = { λ _ told. told ≡ fault.Memory };

    fn from(_refused: Memory) -> ValueFault {
        ValueFault::Memory
    }
}

impl From<AllocError> for ValueFault {
    ghost use Rattle.sh_expand.specs.declared.faults.ValueFault.TheVariants as fault;

    ghost from_gives = { λ _ told. told ≡ fault.Memory };

    fn from(_refused: AllocError) -> ValueFault {
        ValueFault::Memory
    }
}

impl<T: Drop> From<AllocFailed<T>> for ValueFault {
    ghost use Rattle.sh_expand.specs.declared.faults.ValueFault.TheVariants as fault;

    ghost from_gives = { λ _ told. told ≡ fault.Memory };

    fn from(_refused: AllocFailed<T>) -> ValueFault {
        ValueFault::Memory
    }
}
