//! The patterns of an invocation: those of `grep` may be none that can be read.
ghost use Rattle.std.specs.Prelude.{◌≡◌, Some, IfOk};
ghost use Rattle.ut_args.specs.Invocations.{command_of};
ghost use Rattle.ut_grep.specs.Faults.{first_faulty as first_faulty_def};
ghost use Rattle.sh_eval.specs.Inner.Checks.{found_of};
ghost use Rattle.sh_eval.specs.Table.{patterns_of, told_by};

use ps_lines::{Memory, Text};
use std::alloc::Global;
use ut_args::{GrepInv, Inv};
use ut_grep::first_faulty;
use ut_regex::ReFault;

/// What is found of the patterns of an invocation.
pub(crate) enum Checked {
    /// All are read; or the command has none.
    Read,
    /// The first that can't be read is bad usage.
    Wrong,
    /// The first that can't be read refers back.
    RefersBack(Text),
}

/// Reads the patterns of an invocation.
pub(crate) fn check_patterns(alloc: Global, inv: &Inv) -> Result<Checked, Memory>
    ensures { IfOk result (λ checked. found_of checked ≡ patterns_of (command_of inv.now)) }
{
    match inv {
        Inv::Grep(grep) => check_grep(alloc, grep),
        _ => Ok(Checked::Read),
    }
}

/// Reads the patterns of `grep`.
fn check_grep(alloc: Global, grep: &GrepInv) -> Result<Checked, Memory>
    ensures { IfOk result (λ checked. found_of checked ≡ told_by (first_faulty_def grep.now.args.syntax grep.now.args.patterns)) }
{
    match first_faulty(alloc, grep) {
        Ok(None) => Ok(Checked::Read),
        Ok(Some(faulty)) => tell_fault(alloc, faulty.pattern, faulty.fault),
        Err(memory) => Err(memory),
    }
}

/// What a fault of a pattern makes of the invocation: a back-reference is refused, and every other fault is bad usage.
fn tell_fault(alloc: Global, pattern: &[u8], fault: ReFault) -> Result<Checked, Memory>
    ensures { IfOk result (λ checked. found_of checked ≡ told_by (Some (pattern.now, fault))) }
{
    match fault {
        ReFault::BackReference => Ok(Checked::RefersBack(Text::copy_of(alloc, pattern)?)),
        ReFault::NotARegex => Ok(Checked::Wrong),
        ReFault::RepeatTooLarge => Ok(Checked::Wrong),
        ReFault::TooLarge => Ok(Checked::Wrong),
        ReFault::Memory => Ok(Checked::Wrong),
    }
}
