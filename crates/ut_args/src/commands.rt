//! What commands ask for: their options, operands and texts, as plain data.
use crate::lists::{Delimiters, Keys, Ordering, Ranges};
use ps_lines::Text;
use ut_options::Texts;

/// A command of the table with what its words ask for.
#[derive(Debug, Drop)]
pub enum Command {
    Cat(CatArgs),
    Grep(GrepArgs),
    Tr(TrArgs),
    Cut(CutArgs),
    Head(HeadArgs),
    Tail(TailArgs),
    Wc(WcArgs),
    Uniq(UniqArgs),
    Sort(SortArgs),
    Paste(PasteArgs),
    Tee(TeeArgs),
    True,
    False,
    Colon,
    Break(LoopArgs),
    Continue(LoopArgs),
    Exit(ExitArgs),
    Set(SetArgs),
    Shift(ShiftArgs),
    Unset(NamesArgs),
    Read(NamesArgs),
    Test(TestArgs),
    Bracket(TestArgs),
    Echo(EchoArgs),
}

/// `cat` (XCU cat): its operands joined, or standard input.
#[derive(Debug, Drop)]
pub struct CatArgs {
    pub operands: Texts,
}

/// `grep` (XCU grep): the lines of its operands in which a pattern is found.
#[derive(Debug, Drop)]
pub struct GrepArgs {
    pub syntax: Syntax,
    pub report: Report,
    /// `-i`: letters in both cases.
    pub ignores_case: bool,
    /// `-n`: each line behind its number.
    pub numbers: bool,
    /// `-s`: no diagnostics.
    pub silent: bool,
    /// `-v`: the lines in which no pattern is found.
    pub inverts: bool,
    /// `-x`: whole lines alone.
    pub whole_lines: bool,
    /// The patterns, each within one line.
    pub patterns: Texts,
    pub operands: Texts,
}

/// How grep reads its patterns.
#[derive(Clone, Copy, Debug, PartialEq, Eq)]
pub enum Syntax {
    /// Basic regular expressions.
    Basic,
    /// `-E`: extended regular expressions.
    Extended,
    /// `-F`: their bytes as they stand.
    Fixed,
}

/// What grep writes.
#[derive(Clone, Copy, Debug, PartialEq, Eq)]
pub enum Report {
    /// The selected lines.
    Lines,
    /// `-c`: how many there are.
    Count,
    /// `-l`: the path of an input that has one.
    Path,
    /// `-q`: nothing.
    Nothing,
}

/// `tr` (XCU tr): its input with bytes replaced, deleted or squeezed.
#[derive(Debug, Drop)]
pub struct TrArgs {
    /// `-c`, `-C`: the complement of the first string.
    pub complements: bool,
    /// `-d`: the bytes of the first string are deleted.
    pub deletes: bool,
    /// `-s`: runs of a byte of the last string are squeezed.
    pub squeezes: bool,
    /// The first string as it stands.
    pub first: Text,
    /// The second one.
    pub second: Option<Text>,
    /// The bytes that the first string stands for, or their complement, ascending.
    pub from: Text,
    /// Those of the second one, filled to the number of the first's where it says so; never none.
    pub to: Option<Text>,
}

/// `cut` (XCU cut): some bytes or fields of each line.
#[derive(Debug, Drop)]
pub struct CutArgs {
    pub parts: Parts,
    /// Which parts of a line.
    pub ranges: Ranges,
    pub operands: Texts,
}

/// Parts of a line that cut counts.
#[derive(Clone, Copy, Debug, PartialEq, Eq)]
pub enum Parts {
    /// `-b`, `-c`: bytes.
    Bytes,
    /// `-f`: fields, which this byte delimits; with `-s` no line without it.
    Fields { delimiter: u8, only_delimited: bool },
}

/// `head` (XCU head): the first lines of each operand.
#[derive(Debug, Drop)]
pub struct HeadArgs {
    /// How many lines.
    pub count: u64,
    pub operands: Texts,
}

/// `tail` (XCU tail): the last lines or bytes, or those from some one on.
#[derive(Debug, Drop)]
pub struct TailArgs {
    pub part: Tail,
    /// At most one operand.
    pub operands: Texts,
}

/// What tail writes of its input.
#[derive(Clone, Copy, Debug, PartialEq, Eq)]
pub struct Tail {
    pub unit: Unit,
    pub origin: Origin,
}

/// What tail counts.
#[derive(Clone, Copy, Debug, PartialEq, Eq)]
pub enum Unit {
    Lines,
    Bytes,
}

/// Where tail begins.
#[derive(Clone, Copy, Debug, PartialEq, Eq)]
pub enum Origin {
    /// `+N`: at the one of this number, counted from 1; 0 is as 1.
    Start(u64),
    /// `N`, `-N`: so many before the end.
    End(u64),
}

/// `wc` (XCU wc): how many newlines, words and bytes there are.
#[derive(Debug, Drop)]
pub struct WcArgs {
    pub lines: bool,
    pub words: bool,
    pub bytes: bool,
    pub operands: Texts,
}

/// `uniq` (XCU uniq): the first line of each group of equal lines.
#[derive(Debug, Drop)]
pub struct UniqArgs {
    pub groups: Groups,
    /// `-f`: how many fields a comparison skips.
    pub fields: u64,
    /// `-s`: how many bytes behind them.
    pub bytes: u64,
    /// At most one operand.
    pub operands: Texts,
}

/// Which groups of equal lines uniq writes.
#[derive(Clone, Copy, Debug, PartialEq, Eq)]
pub enum Groups {
    /// All.
    All,
    /// `-c`: all, each behind its number of lines.
    Counted,
    /// `-d`: those of more than one line.
    Repeated,
    /// `-u`: those of one line.
    Single,
}

/// `sort` (XCU sort): the lines of all operands in order.
#[derive(Debug, Drop)]
pub struct SortArgs {
    /// The letters that count where a key has none of its own.
    pub ordering: Ordering,
    /// `-u`: the first line of those that compare equal.
    pub unique: bool,
    /// `-t`: the byte between two fields.
    pub separator: Option<u8>,
    /// `-k`; where there is none, the key is the line.
    pub keys: Keys,
    pub operands: Texts,
}

/// `paste` (XCU paste): the lines of its operands side by side, or with `-s` those of each in one line.
#[derive(Debug, Drop)]
pub struct PasteArgs {
    /// `-s`
    pub serial: bool,
    /// What stands between two lines, in a cycle.
    pub delimiters: Delimiters,
    pub operands: Texts,
}

/// `tee` (XCU tee): its input, which it writes to files too.
#[derive(Debug, Drop)]
pub struct TeeArgs {
    /// `-a`: behind what a file has.
    pub appends: bool,
    /// The paths of the files.
    pub files: Texts,
}

/// `break`, `continue` (XCU 2.14): the loop that is meant.
#[derive(Debug, Drop)]
pub struct LoopArgs {
    /// Which of the loops around it, counted from 1, from the innermost; None: the innermost.
    pub depth: Option<u64>,
}

/// `exit` (XCU 2.14).
#[derive(Debug, Drop)]
pub struct ExitArgs {
    /// The status; None: that of the last command.
    pub status: Option<u8>,
}

/// `set` (XCU 2.14): the positional parameters.
#[derive(Debug, Drop)]
pub struct SetArgs {
    pub arguments: Texts,
}

/// `shift` (XCU 2.14).
#[derive(Debug, Drop)]
pub struct ShiftArgs {
    /// How many parameters go; None: one.
    pub count: Option<u64>,
}

/// `unset` (XCU 2.14) and `read` (XCU read): names of variables, one or more.
#[derive(Debug, Drop)]
pub struct NamesArgs {
    pub names: Texts,
}

/// `test`, `[` (XCU test): the arguments, without the `]`.
#[derive(Debug, Drop)]
pub struct TestArgs {
    pub arguments: Texts,
}

/// `echo` (XCU echo): the operands.
#[derive(Debug, Drop)]
pub struct EchoArgs {
    pub operands: Texts,
}
