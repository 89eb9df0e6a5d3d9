//! Lines that a shell reads (XCU read).
ghost use Rattle.std.specs.Prelude.{◌≡◌, ℕ, List, Option, IfOk, OnOk, if◌then◌else◌};
ghost use Rattle.ps_lines.specs.Texts.{texts_of};
ghost use Rattle.ps_world.specs.Counts.{Counts};
ghost use Rattle.ps_world.specs.TreeState.{TreeState};
ghost use Rattle.fl_engines.specs.Logs.{Log};
ghost use Rattle.sh_eval.specs.Builtins.{reads};
ghost use Rattle.sh_eval.specs.Contract.{Evaluates, drawn_of, faults_of, point_of, seen_of};
ghost use Rattle.sh_eval.specs.Reading.{TakesLine, all_set, fields_of};

use crate::flows::Flow;
use crate::outcomes::How;
use crate::session::Session;
use crate::shell::Shell;
use crate::streams::From;
use ps_lines::Memory;
use ps_world::{Source, WorldErr, read_line};
use sh_arith::Env;
use sh_expand::ifs_of;
use std::alloc::Global;
use ut_options::Texts;
use ut_test::read_fields;

/// A line without its newline, and whether one ended it.
#[derive(Debug, Drop)]
pub(crate) struct Line {
    pub text: Vec<u8>,
    pub closed: bool,
}

/// Reads a line, and sets variables to its fields. Its status is 1 where no newline ends the line.
pub(crate) fn read_names<I: Source>(
    alloc: Global,
    names: &Texts,
    shell: &mut Shell,
    session: &mut Session,
    input: &mut I,
) -> How
    ensures { (tree : TreeState) (taken errors : Option (List ℕ)) (used : Option Log) (of_output of_errors of_tree : ℕ) → Evaluates (λ expansions. reads names.now)
        (point_of shell.old session.old tree (seen_of (drawn_of (I.left input.old) used) taken errors) (faults_of (I.faults input.old) of_output of_errors of_tree))
        result
        (point_of shell.new session.new tree (seen_of (drawn_of (I.left input.new) used) taken errors) (faults_of (I.faults input.new) of_output of_errors of_tree)) }
{
    match take_line(alloc, &mut session.streams.from, input) {
        Ok(line) => {
            let Ok(()) = set_fields(
                alloc,
                names.as_slice(),
                line.text.as_slice(),
                &mut shell.variables,
            ) else {
                return How::Memory;
            };
            shell.status = status_of(line.closed);
            How::Gone(Flow::On)
        }
        Err(WorldErr::Failed) => How::ReadFault,
        Err(WorldErr::Memory) => How::Memory,
    }
}

/// The status of `read`: 1 where no newline ends the line.
fn status_of(closed: bool) -> u8
    ensures { result ≡ (if closed then 0 else 1) }
{
    if closed { 0 } else { 1 }
}

/// Takes the next line of what descriptor 0 reads, and not a byte behind it.
fn take_line<I: Source>(alloc: Global, from: &mut From, input: &mut I) -> Result<Line, WorldErr>
    ensures ok { IfOk result (λ line. TakesLine from.old from.new (I.left input.old) (I.left input.new) line.text.items line.closed) }
    ensures cause { Counts (I.faults input.old) (I.faults input.new) result }
{
    let mut text = Vec::new(alloc);
    match from {
        From::Standard => {
            let closed = read_line(input, &mut text)?;
            Ok(Line { text, closed })
        }
        From::Kept(rest) => {
            let closed = rest.read_line(&mut text)?;
            Ok(Line { text, closed })
        }
    }
}

/// Sets variables to the fields of a line (XCU 2.6.5, read).
fn set_fields(
    alloc: Global,
    names: &[Vec<u8>],
    line: &[u8],
    variables: &mut Env,
) -> Result<(), Memory>
    ensures { OnOk result (variables.new ≡ all_set (texts_of names.now) (fields_of variables.old line.now (texts_of names.now)) variables.old) }
{
    let Ok(count) = u32::try_from(names.len().max(1)) else {
        return Err(Memory);
    };
    let fields = read_fields(alloc, line, ifs_of(variables), count)?;
    set_all(alloc, names, fields.as_slice(), variables)
}

/// Sets each variable to the text at its place.
fn set_all(
    alloc: Global,
    names: &[Vec<u8>],
    texts: &[Vec<u8>],
    variables: &mut Env,
) -> Result<(), Memory>
    ensures { OnOk result (variables.new ≡ all_set (texts_of names.now) (texts_of texts.now) variables.old) }
{
    let mut left = texts;
    for name in names {
        let [text, others @ ..] = left else {
            return Ok(());
        };
        variables.set(alloc, name.as_slice(), text.as_slice())?;
        left = others;
    }
    Ok(())
}
