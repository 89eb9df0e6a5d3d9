//! Why words are no invocation.
use ps_lines::{Memory, Text};

/// Why words are no invocation, with the name of the command.
#[derive(Debug, Drop)]
pub enum ArgFault {
    /// The table has no command of this name.
    UnknownCommand(Text),
    /// The command has no option of this letter. Of several it is the first from the left.
    UnsupportedFlag(Text, u8),
    /// Every other fault of its words.
    BadUsage(Text),
    /// Memory was wanted and refused.
    Memory,
}

impl From<Memory> for ArgFault {
    ghost use Rattle.std.specs.Prelude.{◌≡◌};
    ghost use Rattle.ut_args.specs.declared.faults.ArgFault.TheVariants as fault;

    ghost from_gives = { λ _ told. told ≡ fault.Memory };

    fn from(_refused: Memory) -> ArgFault {
        ArgFault::Memory
    }
}
