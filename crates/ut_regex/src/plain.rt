//! The plain program: an expression and a line, answered by the machine alone. A [`Matcher`](crate::Matcher), which goes by a table and
//! looks for a literal where it can, is held against it.
ghost use Rattle.std.specs.Prelude.{◌↔◌, IfOk, IsTrue};
ghost use Rattle.ut_regex.specs.Spans.{Has};
ghost use Rattle.ut_regex.specs.Tree.{tree};

use crate::expansion::program_of;
use crate::machine::Machine;
use crate::tree::Regex;
use ps_lines::Memory;
use std::alloc::Global;

/// Whether the line has the expression (XBD 9.1): with `fold` letters are compared in both cases, and with `whole` the expression has to
/// be the whole line.
///
/// The machine is made anew for each line, and goes over the whole expression at each byte. What is wanted of memory is room for the
/// expression with its repetitions written out; `Err` says that there was none, and leaves nothing.
pub fn has(alloc: Global, re: &Regex, fold: bool, whole: bool, line: &[u8]) -> Result<bool, Memory>
    ensures has { IfOk result (λ had. IsTrue had ↔ Has fold whole line.now (tree re.now)) }
{
    let steps = program_of(alloc, &re.nodes)?;
    let mut machine = Machine::running(alloc, steps, fold, whole)?;
    let had = machine.has(line);
    drop(machine);
    Ok(had)
}
