//! The patterns of grep, as expressions.
ghost use Rattle.std.specs.Prelude.{◌≡◌, ◌∷◌, ◌++◌, [], None, Some, IfErr, IfNone, IfOk, IfSome};
ghost use Rattle.ps_lines.specs.Texts.{texts_of};
ghost use Rattle.ut_regex.specs.Several.{trees_of};
ghost use Rattle.ut_regex.specs.Tree.{Tree, tree};
ghost use Rattle.ut_grep.specs.Faults.{fault_of as fault_of_def, first_faulty as first_faulty_def};
ghost use Rattle.ut_grep.specs.Patterns.{ArePatterns, AreRead, IsPattern, RefusesFirst, RefusesPattern};

use ps_lines::Memory;
use std::alloc::Global;
use ut_args::{GrepInv, Syntax};
use ut_regex::{ReFault, Regex, read_bre, read_ere};

/// Reads the patterns of an invocation: tells the first fault of the first one that isn't an expression, or is too large. Those of `-F`
/// stand for their bytes, and have none.
///
/// `Memory` is told where the first fault isn't known for want of it.
pub fn check(alloc: Global, inv: &GrepInv) -> Result<(), ReFault>
    ensures read { IfOk result (λ _. AreRead inv.now.args) }
    ensures fault { IfErr result (RefusesFirst inv.now.args.syntax inv.now.args.patterns) }
{
    match read_patterns(alloc, inv.args.syntax, inv.args.patterns.as_slice()) {
        Ok(_) => Ok(()),
        Err(fault) => Err(fault),
    }
}

/// A pattern that can't be read, and its first fault, which is no want of memory.
#[derive(Clone, Copy)]
pub struct Faulty<'pattern> {
    pub pattern: &'pattern [u8],
    pub fault: ReFault,
}

/// The first pattern of an invocation that can't be read, if there is one.
pub fn first_faulty(alloc: Global, inv: &GrepInv) -> Result<Option<Faulty<'_>>, Memory>
    ensures some { IfOk result (λ found. IfSome found (λ faulty. first_faulty_def inv.now.args.syntax inv.now.args.patterns ≡ Some (faulty.pattern.now, faulty.fault))) }
    ensures none { IfOk result (λ found. IfNone found (first_faulty_def inv.now.args.syntax inv.now.args.patterns ≡ None)) }
{
    faulty_among(alloc, inv.args.syntax, inv.args.patterns.as_slice())
}

/// The first of these patterns that can't be read.
fn faulty_among(
    alloc: Global,
    form: Syntax,
    patterns: &[Vec<u8>],
) -> Result<Option<Faulty<'_>>, Memory>
    ensures some { IfOk result (λ found. IfSome found (λ faulty. first_faulty_def form (texts_of patterns.now) ≡ Some (faulty.pattern.now, faulty.fault))) }
    ensures none { IfOk result (λ found. IfNone found (first_faulty_def form (texts_of patterns.now) ≡ None)) }
{
    let mut left = patterns;
    while let [pattern, rest @ ..] = left {
        let pattern = pattern.as_slice();
        match fault_of(alloc, form, pattern) {
            Ok(None) => left = rest,
            Ok(Some(fault)) => return Ok(Some(Faulty { pattern, fault })),
            Err(memory) => return Err(memory),
        }
    }
    Ok(None)
}

/// The first fault of a pattern.
fn fault_of(alloc: Global, form: Syntax, pattern: &[u8]) -> Result<Option<ReFault>, Memory>
    ensures { IfOk result (λ found. found ≡ fault_of_def form pattern.now) }
{
    match read_pattern(alloc, form, pattern) {
        Ok(_) => Ok(None),
        Err(fault) => told(fault),
    }
}

/// A fault as it is told. Want of memory is none of the pattern.
fn told(fault: ReFault) -> Result<Option<ReFault>, Memory>
    ensures same { IfOk result (λ found. found ≡ Some fault) }
    ensures memory { IfOk result (λ _. fault ≡ ReFault.Memory → ⊥) }
{
    match fault {
        ReFault::NotARegex => Ok(Some(ReFault::NotARegex)),
        ReFault::BackReference => Ok(Some(ReFault::BackReference)),
        ReFault::RepeatTooLarge => Ok(Some(ReFault::RepeatTooLarge)),
        ReFault::TooLarge => Ok(Some(ReFault::TooLarge)),
        ReFault::Memory => Err(Memory),
    }
}

/// The expressions of patterns.
pub(crate) fn read_patterns(
    alloc: Global,
    form: Syntax,
    patterns: &[Vec<u8>],
) -> Result<Vec<Regex>, ReFault>
    ensures read { IfOk result (λ all. ArePatterns form (texts_of patterns.now) (trees_of all.items)) }
    ensures fault { IfErr result (RefusesFirst form (texts_of patterns.now)) }
{
    let mut all = Vec::new(alloc);
    let mut left = patterns;
    while let [pattern, rest @ ..] = left {
        match push_pattern(alloc, form, pattern.as_slice(), &mut all) {
            Ok(()) => left = rest,
            Err(fault) => return Err(fault),
        }
    }
    Ok(all)
}

/// Adds the expression of a pattern.
fn push_pattern(
    alloc: Global,
    form: Syntax,
    pattern: &[u8],
    all: &mut Vec<Regex>,
) -> Result<(), ReFault>
    ensures read { IfOk result (λ _. (re : Tree) × (trees_of all.new.items ≡ trees_of all.old.items ++ re ∷ []) × IsPattern form pattern.now re) }
    ensures fault { IfErr result (RefusesPattern form pattern.now) }
{
    match read_pattern(alloc, form, pattern) {
        Ok(re) => match all.push(re) {
            Ok(()) => Ok(()),
            Err(_) => Err(ReFault::Memory),
        },
        Err(fault) => Err(fault),
    }
}

/// The expression of a pattern.
fn read_pattern(alloc: Global, form: Syntax, pattern: &[u8]) -> Result<Regex, ReFault>
    ensures read { IfOk result (λ re. IsPattern form pattern.now (tree re)) }
    ensures fault { IfErr result (RefusesPattern form pattern.now) }
{
    match form {
        Syntax::Basic => read_bre(alloc, pattern),
        Syntax::Extended => read_ere(alloc, pattern),
        Syntax::Fixed => match Regex::of_bytes(alloc, pattern) {
            Ok(re) => Ok(re),
            Err(_) => Err(ReFault::Memory),
        },
    }
}
