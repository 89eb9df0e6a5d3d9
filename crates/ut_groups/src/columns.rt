//! Lines of counts.
ghost use Rattle.std.specs.Prelude.{◌≡◌, ◌∷◌, ◌++◌, []};
ghost use Rattle.std.specs.List.{position};
ghost use Rattle.std.specs.Result.{is_ok};
ghost use Rattle.ut_streams.specs.Streams.{Put};
ghost use Rattle.ut_groups.specs.Columns.{behind_count as behind_count_def, behind_number, behind_space, count_read, counts_line, counts_on, counts_read, is_space, number_before};
ghost use Rattle.ut_groups.specs.Inner.Columns.{column, counts_text};
ghost use Rattle.ut_groups.specs.Wc.{columns_of};

use crate::counting::{Counts, SPACE};
use ps_lines::{Memory, NEWLINE, decimal, read_decimal};
use ut_args::WcArgs;
use ut_streams::{put, put_line};

/// The counts that a line has, in the order of these fields.
#[derive(Clone, Copy, Debug, PartialEq, Eq)]
pub struct Columns {
    pub lines: bool,
    pub words: bool,
    pub bytes: bool,
}

impl Columns {
    /// Those that an invocation of `wc` asks for.
    pub fn of(args: &WcArgs) -> Columns
        ensures { result ≡ columns_of args.now }
    {
        Columns {
            lines: args.lines,
            words: args.words,
            bytes: args.bytes,
        }
    }
}

/// The most bytes that a line of three counts has without a name.
pub const MOST_BYTES: usize = 63;

/// Appends a line with these of the counts, one space between each two, and then the name where it isn't empty.
#[tactic(auto, using(crate::proofs::ColumnLemmas::lines))]
pub fn put_counts(
    columns: Columns,
    counts: Counts,
    name: &[u8],
    out: &mut Vec<u8>,
) -> Result<(), Memory>
    ensures { Put (counts_line columns counts name.now) out.old.items out.new.items (is_ok result) }
{
    match put_columns(columns, counts, out) {
        Ok(()) => put_name(name, out),
        Err(memory) => Err(memory),
    }
}

/// Appends the counts that the line has.
#[tactic(auto, using(crate::proofs::ColumnLemmas::columns))]
fn put_columns(columns: Columns, counts: Counts, out: &mut Vec<u8>) -> Result<(), Memory>
    ensures { Put (counts_text columns counts) out.old.items out.new.items (is_ok result) }
{
    match put_column(false, columns.lines, counts.lines, out) {
        Ok(()) => {}
        Err(memory) => return Err(memory),
    }
    match put_column(columns.lines, columns.words, counts.words, out) {
        Ok(()) => put_column(
            columns.lines | columns.words,
            columns.bytes,
            counts.bytes,
            out,
        ),
        Err(memory) => Err(memory),
    }
}

/// Appends a count where it is asked for, behind a space where the line has begun.
#[tactic(auto, using(crate::proofs::ColumnLemmas::puts))]
fn put_column(begun: bool, asked: bool, count: u64, out: &mut Vec<u8>) -> Result<(), Memory>
    ensures { Put (column begun asked count) out.old.items out.new.items (is_ok result) }
{
    if !asked {
        return Ok(());
    }
    match put(if begun { &[SPACE] } else { &[] }, out) {
        Ok(()) => decimal(count, out),
        Err(memory) => Err(memory),
    }
}

/// Appends what stands behind the counts of a line.
#[tactic(auto, using(crate::proofs::ColumnLemmas::puts))]
pub(crate) fn put_name(name: &[u8], out: &mut Vec<u8>) -> Result<(), Memory>
    ensures { Put (behind_space name.now ++ NEWLINE ∷ []) out.old.items out.new.items (is_ok result) }
{
    if name.is_empty() {
        return put(&[NEWLINE], out);
    }
    match put(&[SPACE], out) {
        Ok(()) => put_line(name, out),
        Err(memory) => Err(memory),
    }
}

/// The counts on a line without a name; no counts where the text is longer than such a line.
pub fn read_counts(columns: Columns, text: &[u8]) -> Counts
    ensures { result ≡ counts_on columns text.now }
{
    if text.len() > MOST_BYTES {
        return Counts::default();
    }
    read_line(columns, &text[..text.len().saturating_sub(1)])
}

/// The counts on a line without its newline.
fn read_line(columns: Columns, line: &[u8]) -> Counts
    ensures { result ≡ counts_read columns line.now }
{
    let (lines, rest) = read_count(columns.lines, line);
    let (words, rest) = read_count(columns.words, rest);
    let (bytes, _) = read_count(columns.bytes, rest);
    Counts {
        lines,
        words,
        bytes,
    }
}

/// A count, where it is asked for, and what stands behind it.
fn read_count(asked: bool, text: &[u8]) -> (u64, &[u8])
    ensures count { result.0 ≡ count_read asked text.now }
    ensures rest { result.1.now ≡ behind_count_def asked text.now }
{
    if asked {
        return cut_number(text);
    }
    (0, text)
}

/// The number before the first space, 0 where none stands there, and what stands behind that space.

pub(crate) fn cut_number(text: &[u8]) -> (u64, &[u8])
    ensures number { result.0 ≡ number_before text.now }
    ensures rest { result.1.now ≡ behind_number text.now }
{
    match space_in(text) {
        Some(end) => (read_decimal(&text[..end]).unwrap_or(0), &text[end + 1..]),
        None => (read_decimal(text).unwrap_or(0), &[]),
    }
}

/// The place of the first space.
fn space_in(text: &[u8]) -> Option<usize>
    ensures { result ≡ position is_space text.now }
{
    text.iter().position(|byte| *byte == SPACE)
}
