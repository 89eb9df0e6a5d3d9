//! What the options and operands of the utilities ask for.
ghost use Rattle.std.specs.Prelude.{◌≡◌, [], Some, IfOk};
ghost use Rattle.ps_lines.specs.Texts.{texts_of};
ghost use Rattle.ut_args.specs.Utilities.{cat as cat_def, grep as grep_def, grep_for as grep_for_def, groups_by as groups_by_def, has_at_most_one as has_at_most_one_def, head as head_def, in_lines as in_lines_def, origin_of as origin_of_def, report_by as report_by_def, syntax_by as syntax_by_def, tail as tail_def, tail_from as tail_from_def, tee as tee_def, uniq as uniq_def, unit_of as unit_of_def, wc as wc_def, wc_of as wc_of_def};

use crate::commands::{
    CatArgs, Command, GrepArgs, Groups, HeadArgs, Origin, Report, Syntax, Tail, TailArgs, TeeArgs,
    UniqArgs, Unit, WcArgs,
};
use crate::pieces::push_pieces;
use ps_lines::{Memory, NEWLINE};
use std::alloc::Global;
use std::slice;
use ut_options::{Given, Options, Texts, read_number};

/// `cat`.
pub(crate) fn cat(operands: Texts) -> Command
    ensures { Some result ≡ cat_def [] operands }
{
    Command::Cat(CatArgs { operands })
}

/// `tee`.
pub(crate) fn tee(options: &Options, operands: Texts) -> Command
    ensures { Some result ≡ tee_def options.now operands }
{
    Command::Tee(TeeArgs {
        appends: options.has(b'a'),
        files: operands,
    })
}

/// `grep`: its patterns are those of all `-e`, else the first operand.
pub(crate) fn grep(
    alloc: Global,
    options: &Options,
    operands: Texts,
) -> Result<Option<Command>, Memory>
    ensures { IfOk result (λ read. read ≡ grep_def options.now operands) }
{
    if options.has(b'e') {
        let patterns = options.arguments(alloc, b'e')?;
        return grep_for(alloc, options, patterns.as_slice(), operands.as_slice());
    }
    match operands.as_slice().split_first() {
        Some((pattern, operands)) => grep_for(alloc, options, slice::from_ref(pattern), operands),
        None => Ok(None),
    }
}

/// `grep` with patterns.
fn grep_for(
    alloc: Global,
    options: &Options,
    patterns: &[Vec<u8>],
    operands: &[Vec<u8>],
) -> Result<Option<Command>, Memory>
    ensures { IfOk result (λ read. read ≡ grep_for_def options.now (texts_of patterns.now) (texts_of operands.now)) }
{
    let Some(syntax) = syntax_by(options.has(b'E'), options.has(b'F')) else {
        return Ok(None);
    };
    let Some(report) = report_by(options.has(b'c'), options.has(b'l'), options.has(b'q')) else {
        return Ok(None);
    };
    Ok(Some(Command::Grep(GrepArgs {
        syntax,
        report,
        ignores_case: options.has(b'i'),
        numbers: options.has(b'n'),
        silent: options.has(b's'),
        inverts: options.has(b'v'),
        whole_lines: options.has(b'x'),
        patterns: in_lines(alloc, patterns)?,
        operands: Texts::copy_of(alloc, operands)?,
    })))
}

/// The lines of patterns, each a pattern.
fn in_lines(alloc: Global, patterns: &[Vec<u8>]) -> Result<Texts, Memory>
    ensures { IfOk result (λ lines. lines ≡ in_lines_def (texts_of patterns.now)) }
{
    let mut lines = Texts::new(alloc);
    let mut left = patterns;
    while let [pattern, rest @ ..] = left {
        push_pieces(alloc, &mut lines, &[NEWLINE], pattern.as_slice())?;
        left = rest;
    }
    Ok(lines)
}

/// One syntax; none where both letters are given.
fn syntax_by(extended: bool, fixed: bool) -> Option<Syntax>
    ensures { result ≡ syntax_by_def extended fixed }
{
    match (extended, fixed) {
        (false, false) => Some(Syntax::Basic),
        (true, false) => Some(Syntax::Extended),
        (false, true) => Some(Syntax::Fixed),
        (true, true) => None,
    }
}

/// One report; none where two of the letters are given.
fn report_by(counts: bool, names: bool, quiet: bool) -> Option<Report>
    ensures { result ≡ report_by_def counts names quiet }
{
    match (counts, names, quiet) {
        (false, false, false) => Some(Report::Lines),
        (true, false, false) => Some(Report::Count),
        (false, true, false) => Some(Report::Path),
        (false, false, true) => Some(Report::Nothing),
        _ => None,
    }
}

/// `head`.
pub(crate) fn head(options: &Options, operands: Texts) -> Option<Command>
    ensures { result ≡ head_def options.now operands }
{
    let count = options.number(b'n', 10)?;
    Some(Command::Head(HeadArgs { count, operands }))
}

/// `tail`: at most one operand.
pub(crate) fn tail(options: &Options, operands: Texts) -> Option<Command>
    ensures { result ≡ tail_def options.now operands }
{
    if !has_at_most_one(&operands) {
        return None;
    }
    let part = tail_part(options.as_slice())?;
    Some(Command::Tail(TailArgs { part, operands }))
}

/// What the last option of tail says; None where an argument is no number with an optional sign.
fn tail_part(options: &[Given]) -> Option<Tail>
    ensures { result ≡ tail_from_def (record { unit = Unit.Lines; origin = Origin.End 10 }) options.now }
{
    let mut part = Tail {
        unit: Unit::Lines,
        origin: Origin::End(10),
    };
    let mut left = options;
    while let [given, rest @ ..] = left {
        part = Tail {
            unit: unit_of(given.letter),
            origin: origin_of(given.argument.as_slice())?,
        };
        left = rest;
    }
    Some(part)
}

/// What a letter of tail counts.
fn unit_of(letter: u8) -> Unit
    ensures { result ≡ unit_of_def letter }
{
    if letter == b'c' {
        Unit::Bytes
    } else {
        Unit::Lines
    }
}

/// Where an argument of tail lets it begin.
fn origin_of(argument: &[u8]) -> Option<Origin>
    ensures { result ≡ origin_of_def argument.now }
{
    match argument.split_first() {
        None => None,
        Some((b'+', number)) => read_number(number).map(Origin::Start),
        Some((b'-', number)) => read_number(number).map(Origin::End),
        Some(_) => read_number(argument).map(Origin::End),
    }
}

/// `wc`: bytes and characters are the same, and not both may be asked for.
pub(crate) fn wc(options: &Options, operands: Texts) -> Option<Command>
    ensures { result ≡ wc_def options.now operands }
{
    if options.has(b'c') && options.has(b'm') {
        return None;
    }
    Some(wc_of(
        options.has(b'l'),
        options.has(b'w'),
        options.has(b'c') || options.has(b'm'),
        operands,
    ))
}

/// `wc` of these counts, or of all where none is asked for.
fn wc_of(lines: bool, words: bool, bytes: bool, operands: Texts) -> Command
    ensures { result ≡ wc_of_def lines words bytes operands }
{
    if lines || words || bytes {
        return Command::Wc(WcArgs {
            lines,
            words,
            bytes,
            operands,
        });
    }
    Command::Wc(WcArgs {
        lines: true,
        words: true,
        bytes: true,
        operands,
    })
}

/// `uniq`: at most one operand.
pub(crate) fn uniq(options: &Options, operands: Texts) -> Option<Command>
    ensures { result ≡ uniq_def options.now operands }
{
    if !has_at_most_one(&operands) {
        return None;
    }
    let groups = groups_by(options.has(b'c'), options.has(b'd'), options.has(b'u'))?;
    let fields = options.number(b'f', 0)?;
    let bytes = options.number(b's', 0)?;
    Some(Command::Uniq(UniqArgs {
        groups,
        fields,
        bytes,
        operands,
    }))
}

/// One kind of groups; none where two of the letters are given.
fn groups_by(counted: bool, repeated: bool, single: bool) -> Option<Groups>
    ensures { result ≡ groups_by_def counted repeated single }
{
    match (counted, repeated, single) {
        (false, false, false) => Some(Groups::All),
        (true, false, false) => Some(Groups::Counted),
        (false, true, false) => Some(Groups::Repeated),
        (false, false, true) => Some(Groups::Single),
        _ => None,
    }
}

/// Whether there is at most one operand.
pub fn has_at_most_one(operands: &Texts) -> bool
    ensures { result ≡ has_at_most_one_def operands.now }
{
    match operands.as_slice() {
        [] | [_] => true,
        _ => false,
    }
}
