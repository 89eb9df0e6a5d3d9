//! What every invocation has: its words, a copy, and equality.
ghost use Rattle.std.specs.Prelude.{◌≡◌, IfOk, Ok, true};
ghost use Rattle.ps_lines.specs.Texts.{texts_of};
ghost use Rattle.ut_args.specs.Invocations.{command_of, words_of};
ghost use Rattle.ut_args.specs.Reading.{invocation};

use crate::commands::Command;
use crate::invocations::{
    BracketInv, BreakInv, CatInv, ColonInv, ContinueInv, CutInv, EchoInv, ExitInv, FalseInv,
    GrepInv, HeadInv, Inv, PasteInv, ReadInv, SetInv, ShiftInv, SortInv, TailInv, TeeInv, TestInv,
    TrInv, TrueInv, UniqInv, UnsetInv, WcInv,
};
use crate::reading::read_inv;
use ps_lines::Memory;
use ut_options::Texts;

impl Inv {
    /// The words that it was read from.
    pub fn words(&self) -> &[Vec<u8>]
        ensures { texts_of result.now ≡ words_of self.now }
    {
        self.all_words().as_slice()
    }

    /// The words that it was read from, as one value.
    pub(crate) fn all_words(&self) -> &Texts
        ensures { result.now ≡ words_of self.now }
    {
        match self {
            Inv::Cat(cat) => &cat.words,
            Inv::Grep(grep) => &grep.words,
            Inv::Tr(tr) => &tr.words,
            Inv::Cut(cut) => &cut.words,
            Inv::Head(head) => &head.words,
            Inv::Tail(tail) => &tail.words,
            Inv::Wc(wc) => &wc.words,
            Inv::Uniq(uniq) => &uniq.words,
            Inv::Sort(sort) => &sort.words,
            Inv::Paste(paste) => &paste.words,
            Inv::Tee(tee) => &tee.words,
            Inv::True(yes) => &yes.words,
            Inv::False(no) => &no.words,
            Inv::Colon(colon) => &colon.words,
            Inv::Break(inv) => &inv.words,
            Inv::Continue(inv) => &inv.words,
            Inv::Exit(exit) => &exit.words,
            Inv::Set(set) => &set.words,
            Inv::Shift(shift) => &shift.words,
            Inv::Unset(unset) => &unset.words,
            Inv::Read(read) => &read.words,
            Inv::Test(test) => &test.words,
            Inv::Bracket(bracket) => &bracket.words,
            Inv::Echo(echo) => &echo.words,
        }
    }

    /// A copy of this invocation: its words are read again, and they determine it.
    #[tactic(auto, using(crate::proofs::CommandLemmas::copy_steps))]
    pub fn copy(&self) -> Result<Inv, Memory>
        ensures { IfOk result (λ copy. copy ≡ self.now) }
    {
        let words = self.all_words();
        match read_inv(words.allocator(), words.as_slice()) {
            Ok(copy) => Ok(copy),
            Err(_) => Err(Memory),
        }
    }

    /// Whether both were read from the same words, which makes them the same.
    pub fn is(&self, other: &Inv) -> bool
        ensures yes { result ≡ true → self.now ≡ other.now }
        ensures no { self.now ≡ other.now → result ≡ true }
    {
        self.all_words() == other.all_words()
    }
}

/// The invocation of words, and of what they ask for.
pub(crate) fn with_words(words: Texts, asked: Command) -> Inv
    requires { invocation words ≡ Ok asked }
    ensures words { words_of result ≡ words }
    ensures command { command_of result ≡ asked }
{
    match asked {
        Command::Cat(args) => Inv::Cat(CatInv { words, args }),
        Command::Grep(args) => Inv::Grep(GrepInv { words, args }),
        Command::Tr(args) => Inv::Tr(TrInv { words, args }),
        Command::Cut(args) => Inv::Cut(CutInv { words, args }),
        Command::Head(args) => Inv::Head(HeadInv { words, args }),
        Command::Tail(args) => Inv::Tail(TailInv { words, args }),
        Command::Wc(args) => Inv::Wc(WcInv { words, args }),
        Command::Uniq(args) => Inv::Uniq(UniqInv { words, args }),
        Command::Sort(args) => Inv::Sort(SortInv { words, args }),
        Command::Paste(args) => Inv::Paste(PasteInv { words, args }),
        Command::Tee(args) => Inv::Tee(TeeInv { words, args }),
        Command::True => Inv::True(TrueInv { words }),
        Command::False => Inv::False(FalseInv { words }),
        Command::Colon => Inv::Colon(ColonInv { words }),
        Command::Break(args) => Inv::Break(BreakInv { words, args }),
        Command::Continue(args) => Inv::Continue(ContinueInv { words, args }),
        Command::Exit(args) => Inv::Exit(ExitInv { words, args }),
        Command::Set(args) => Inv::Set(SetInv { words, args }),
        Command::Shift(args) => Inv::Shift(ShiftInv { words, args }),
        Command::Unset(args) => Inv::Unset(UnsetInv { words, args }),
        Command::Read(args) => Inv::Read(ReadInv { words, args }),
        Command::Test(args) => Inv::Test(TestInv { words, args }),
        Command::Bracket(args) => Inv::Bracket(BracketInv { words, args }),
        Command::Echo(args) => Inv::Echo(EchoInv { words, args }),
    }
}
