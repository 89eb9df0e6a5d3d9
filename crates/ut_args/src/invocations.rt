//! What an invocation is.
ghost use Rattle.std.specs.Prelude.{◌≡◌, Ok};
ghost use Rattle.ut_args.specs.Reading.{invocation};
ghost use Rattle.ut_args.specs.declared.commands.Command.TheVariants as command;

use crate::commands::{
    CatArgs, CutArgs, EchoArgs, ExitArgs, GrepArgs, HeadArgs, LoopArgs, NamesArgs, PasteArgs,
    SetArgs, ShiftArgs, SortArgs, TailArgs, TeeArgs, TestArgs, TrArgs, UniqArgs, WcArgs,
};
use ut_options::Texts;

/// What one command asks for: a command of the table, with the words that it was read from.
#[derive(Debug, Drop)]
pub enum Inv {
    Cat(CatInv),
    Grep(GrepInv),
    Tr(TrInv),
    Cut(CutInv),
    Head(HeadInv),
    Tail(TailInv),
    Wc(WcInv),
    Uniq(UniqInv),
    Sort(SortInv),
    Paste(PasteInv),
    Tee(TeeInv),
    True(TrueInv),
    False(FalseInv),
    Colon(ColonInv),
    Break(BreakInv),
    Continue(ContinueInv),
    Exit(ExitInv),
    Set(SetInv),
    Shift(ShiftInv),
    Unset(UnsetInv),
    Read(ReadInv),
    Test(TestInv),
    Bracket(BracketInv),
    Echo(EchoInv),
}

/// `cat` (XCU cat): its operands joined, or standard input.
#[derive(Debug, Drop)]
pub struct CatInv {
    /// The words that it was read from.
    pub words: Texts,
    /// What they ask for.
    pub args: CatArgs,
    ghost read: { invocation words ≡ Ok (command.Cat args) },
}

/// `grep` (XCU grep): the lines of its operands in which a pattern is found.
#[derive(Debug, Drop)]
pub struct GrepInv {
    /// The words that it was read from.
    pub words: Texts,
    /// What they ask for.
    pub args: GrepArgs,
    ghost read: { invocation words ≡ Ok (command.Grep args) },
}

/// `tr` (XCU tr): its input with bytes replaced, deleted or squeezed.
#[derive(Debug, Drop)]
pub struct TrInv {
    /// The words that it was read from.
    pub words: Texts,
    /// What they ask for.
    pub args: TrArgs,
    ghost read: { invocation words ≡ Ok (command.Tr args) },
}

/// `cut` (XCU cut): some bytes or fields of each line.
#[derive(Debug, Drop)]
pub struct CutInv {
    /// The words that it was read from.
    pub words: Texts,
    /// What they ask for.
    pub args: CutArgs,
    ghost read: { invocation words ≡ Ok (command.Cut args) },
}

/// `head` (XCU head): the first lines of each operand.
#[derive(Debug, Drop)]
pub struct HeadInv {
    /// The words that it was read from.
    pub words: Texts,
    /// What they ask for.
    pub args: HeadArgs,
    ghost read: { invocation words ≡ Ok (command.Head args) },
}

/// `tail` (XCU tail): the last lines or bytes of its input.
#[derive(Debug, Drop)]
pub struct TailInv {
    /// The words that it was read from.
    pub words: Texts,
    /// What they ask for.
    pub args: TailArgs,
    ghost read: { invocation words ≡ Ok (command.Tail args) },
}

/// `wc` (XCU wc): how many newlines, words and bytes there are.
#[derive(Debug, Drop)]
pub struct WcInv {
    /// The words that it was read from.
    pub words: Texts,
    /// What they ask for.
    pub args: WcArgs,
    ghost read: { invocation words ≡ Ok (command.Wc args) },
}

/// `uniq` (XCU uniq): the first line of each group of equal lines.
#[derive(Debug, Drop)]
pub struct UniqInv {
    /// The words that it was read from.
    pub words: Texts,
    /// What they ask for.
    pub args: UniqArgs,
    ghost read: { invocation words ≡ Ok (command.Uniq args) },
}

/// `sort` (XCU sort): the lines of its operands in order.
#[derive(Debug, Drop)]
pub struct SortInv {
    /// The words that it was read from.
    pub words: Texts,
    /// What they ask for.
    pub args: SortArgs,
    ghost read: { invocation words ≡ Ok (command.Sort args) },
}

/// `paste` (XCU paste): the lines of its operands side by side.
#[derive(Debug, Drop)]
pub struct PasteInv {
    /// The words that it was read from.
    pub words: Texts,
    /// What they ask for.
    pub args: PasteArgs,
    ghost read: { invocation words ≡ Ok (command.Paste args) },
}

/// `tee` (XCU tee): its input, which it writes to files too.
#[derive(Debug, Drop)]
pub struct TeeInv {
    /// The words that it was read from.
    pub words: Texts,
    /// What they ask for.
    pub args: TeeArgs,
    ghost read: { invocation words ≡ Ok (command.Tee args) },
}

/// `true` (XCU true): success.
#[derive(Debug, Drop)]
pub struct TrueInv {
    /// The words that it was read from.
    pub words: Texts,
    ghost read: { invocation words ≡ Ok command.True },
}

/// `false` (XCU false): failure.
#[derive(Debug, Drop)]
pub struct FalseInv {
    /// The words that it was read from.
    pub words: Texts,
    ghost read: { invocation words ≡ Ok command.False },
}

/// `:` (XCU 2.14): success.
#[derive(Debug, Drop)]
pub struct ColonInv {
    /// The words that it was read from.
    pub words: Texts,
    ghost read: { invocation words ≡ Ok command.Colon },
}

/// `break` (XCU 2.14): the end of a loop.
#[derive(Debug, Drop)]
pub struct BreakInv {
    /// The words that it was read from.
    pub words: Texts,
    /// What they ask for.
    pub args: LoopArgs,
    ghost read: { invocation words ≡ Ok (command.Break args) },
}

/// `continue` (XCU 2.14): the next round of a loop.
#[derive(Debug, Drop)]
pub struct ContinueInv {
    /// The words that it was read from.
    pub words: Texts,
    /// What they ask for.
    pub args: LoopArgs,
    ghost read: { invocation words ≡ Ok (command.Continue args) },
}

/// `exit` (XCU 2.14): the end of the shell.
#[derive(Debug, Drop)]
pub struct ExitInv {
    /// The words that it was read from.
    pub words: Texts,
    /// What they ask for.
    pub args: ExitArgs,
    ghost read: { invocation words ≡ Ok (command.Exit args) },
}

/// `set` (XCU 2.14): the positional parameters.
#[derive(Debug, Drop)]
pub struct SetInv {
    /// The words that it was read from.
    pub words: Texts,
    /// What they ask for.
    pub args: SetArgs,
    ghost read: { invocation words ≡ Ok (command.Set args) },
}

/// `shift` (XCU 2.14): the positional parameters without the first.
#[derive(Debug, Drop)]
pub struct ShiftInv {
    /// The words that it was read from.
    pub words: Texts,
    /// What they ask for.
    pub args: ShiftArgs,
    ghost read: { invocation words ≡ Ok (command.Shift args) },
}

/// `unset` (XCU 2.14): variables that go.
#[derive(Debug, Drop)]
pub struct UnsetInv {
    /// The words that it was read from.
    pub words: Texts,
    /// What they ask for.
    pub args: NamesArgs,
    ghost read: { invocation words ≡ Ok (command.Unset args) },
}

/// `read` (XCU read): a line, split into variables.
#[derive(Debug, Drop)]
pub struct ReadInv {
    /// The words that it was read from.
    pub words: Texts,
    /// What they ask for.
    pub args: NamesArgs,
    ghost read: { invocation words ≡ Ok (command.Read args) },
}

/// `test` (XCU test): whether a condition holds.
#[derive(Debug, Drop)]
pub struct TestInv {
    /// The words that it was read from.
    pub words: Texts,
    /// What they ask for.
    pub args: TestArgs,
    ghost read: { invocation words ≡ Ok (command.Test args) },
}

/// `[` (XCU test): whether a condition holds.
#[derive(Debug, Drop)]
pub struct BracketInv {
    /// The words that it was read from.
    pub words: Texts,
    /// What they ask for.
    pub args: TestArgs,
    ghost read: { invocation words ≡ Ok (command.Bracket args) },
}

/// `echo` (XCU echo): its operands, written.
#[derive(Debug, Drop)]
pub struct EchoInv {
    /// The words that it was read from.
    pub words: Texts,
    /// What they ask for.
    pub args: EchoArgs,
    ghost read: { invocation words ≡ Ok (command.Echo args) },
}
