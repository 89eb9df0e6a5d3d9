//! The end of a construct, with a stack of those that are open in it.
ghost use Rattle.std.specs.Prelude.{◌≡◌, ◌≤◌, length, IfOk, IfErr};
ghost use Rattle.sh_lex.specs.Acts.{act_of};
ghost use Rattle.sh_lex.specs.Reads.{act, Reads, past, StopsReading};

use crate::acts::Step;
use crate::arithmetic::{in_arithmetic, in_parentheses};
use crate::braces::{in_brace_head, in_braces};
use crate::dollars::in_name;
use crate::parts::{Construct, Fault};
use crate::quotes::in_double_quotes;
use crate::words::in_commands;
use std::alloc::Global;

/// Why the scan stopped.
#[derive(Clone, Copy, Debug)]
pub enum ScanStop {
    /// The text is refused.
    Refused(Fault),
    /// Memory was wanted and refused.
    Memory,
}

/// What is left behind a construct that is open at the text.
pub fn past_construct(alloc: Global, construct: Construct, text: &[u8]) -> Result<&[u8], ScanStop>
    ensures past { IfOk result (λ rest. Reads construct text.now (past rest.now)) }
    ensures refused { IfErr result (λ stop. StopsReading construct text.now stop) }
{
    let mut open = Vec::new(alloc);
    let mut part = construct;
    let mut rest = text;
    loop {
        match step(part, rest) {
            Step::Goes(next, after) => {
                part = next;
                rest = after;
            }
            Step::Enters(inner, outer, after) => {
                let Ok(()) = open.push(outer) else {
                    return Err(ScanStop::Memory);
                };
                part = inner;
                rest = after;
            }
            Step::Ends(after) => {
                match open.pop() {
                    Some(outer) => part = outer,
                    None => return Ok(after),
                }
                rest = after;
            }
            Step::Offends(fault) => return Err(ScanStop::Refused(fault)),
        }
    }
}

/// What the text does to the construct that is open there.
pub fn step(part: Construct, text: &[u8]) -> Step<'_>
    ensures { act_of result ≡ act part text.now }
{
    match part {
        Construct::Commands(nest, opened, spot) => in_commands(nest, opened, spot, text),
        Construct::Name => in_name(text),
        Construct::DoubleQuotes(nest, left) => in_double_quotes(nest, left, text),
        Construct::BraceHead(nest, left, quoted) => in_brace_head(nest, left, quoted, text),
        Construct::Braces(nest, left, quoted) => in_braces(nest, left, quoted, text),
        Construct::Arithmetic(nest, left) => in_arithmetic(nest, left, text),
        Construct::Parentheses(nest, left) => in_parentheses(nest, left, text),
    }
}
