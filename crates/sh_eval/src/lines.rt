//! The lines that a shell and its commands tell.
ghost use Rattle.std.specs.Prelude.{◌≡◌, IfOk};
ghost use Rattle.sh_eval.specs.Lines.{arithmetic_line as arithmetic_line_def, arithmetic_reason as arithmetic_reason_def, bad_usage as bad_usage_def, diagnostic as diagnostic_def, unset_line as unset_line_def};

use ps_lines::Memory;
use sh_arith::ArithFault;
use std::alloc::Global;

/// Why a path can't be read.
pub(crate) const NO_SUCH_FILE: &[u8] = b"No such file or directory";

/// Why a directory can't be read or written.
pub(crate) const IS_A_DIRECTORY: &[u8] = b"Is a directory";

/// A line of what stands in the way: who tells it, of what, and the reason.
pub(crate) fn diagnostic(
    alloc: Global,
    name: &[u8],
    subject: &[u8],
    reason: &[u8],
) -> Result<Vec<u8>, Memory>
    ensures { IfOk result (λ line. line.items ≡ diagnostic_def name.now subject.now reason.now) }
{
    let mut line = Vec::from_slice(alloc, name)?;
    line.extend_from_slice(b": ")?;
    line.extend_from_slice(subject)?;
    line.extend_from_slice(b": ")?;
    line.extend_from_slice(reason)?;
    line.extend_from_slice(b"\n")?;
    Ok(line)
}

/// That a command's words can't be used.
pub(crate) fn bad_usage(alloc: Global, name: &[u8]) -> Result<Vec<u8>, Memory>
    ensures { IfOk result (λ line. line.items ≡ bad_usage_def name.now) }
{
    let mut line = Vec::from_slice(alloc, name)?;
    line.extend_from_slice(b": bad usage\n")?;
    Ok(line)
}

/// That a parameter that has to be set isn't.
pub(crate) fn unset_line(alloc: Global, name: &[u8], text: &[u8]) -> Result<Vec<u8>, Memory>
    ensures { IfOk result (λ line. line.items ≡ unset_line_def name.now text.now) }
{
    diagnostic(alloc, b"pash", name, text)
}

/// That an arithmetic expression has no value.
pub(crate) fn arithmetic_line(alloc: Global, fault: &ArithFault) -> Result<Vec<u8>, Memory>
    ensures { IfOk result (λ line. line.items ≡ arithmetic_line_def fault.now) }
{
    diagnostic(alloc, b"pash", b"arithmetic", arithmetic_reason(fault))
}

/// Why it has none.
fn arithmetic_reason(fault: &ArithFault) -> &[u8]
    ensures { result.now ≡ arithmetic_reason_def fault.now }
{
    match fault {
        ArithFault::Syntax => b"syntax",
        ArithFault::DivideByZero => b"division by zero",
        ArithFault::Overflow => b"overflow",
        ArithFault::NotANumber(_) => b"not a number",
        ArithFault::Deep => b"too deep",
        ArithFault::Memory => b"",
    }
}
