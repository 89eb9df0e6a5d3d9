//! Quoting (XCU 2.2): the next piece of a text, by what it stands in.
ghost use Rattle.std.specs.Prelude.{◌≡◌, ◌∷◌, ◌+◌, ◌<◌, ◌≤◌, ◌^◌, length};
ghost use Rattle.sh_lex.specs.Texts.{unspliced};
ghost use Rattle.sh_words.specs.Steps.{step, begins_expansion, dollar, opened, backslash, escape, unquoted_at, in_quotes_at, word_at, double_quotes_at, single_quotes_at, closing_at, parenthesis_closed, arithmetic_at};
ghost use Rattle.sh_words.specs.Inner.Built.{step_of};
ghost use Rattle.sh_words.specs.Inner.Built.{open_in};
ghost use Rattle.sh_lex.specs.declared.bytes.TheConstants.{DOUBLE_QUOTE, QUOTE};

use sh_lex::{Introduced, front, introduced_by, is_quoted_escape};

/// Whose word is read.
#[derive(Clone, Copy, Debug)]
pub enum Owner {
    /// A token's: it ends with the text.
    Token,
    /// A `${ }`'s, with whether it is in double quotes: it ends at the `}`.
    Braces(bool),
}

/// What a text stands in.
#[derive(Clone, Copy, Debug)]
pub enum Mode {
    /// A word.
    Word(Owner),
    /// Double quotes in a word.
    DoubleQuotes(Owner),
    /// Single quotes in a word.
    SingleQuotes(Owner),
    /// An arithmetic expansion, with how many parentheses are open in it.
    Arithmetic(usize),
}

/// The next piece of a text. The slice is what is left behind it.
#[derive(Clone, Copy, Debug)]
pub enum Step<'a> {
    /// What the text stands in has ended.
    Ends(&'a [u8]),
    /// A quote. The text goes on in this mode.
    Passes(Mode, &'a [u8]),
    /// A byte, with whether it is quoted.
    Byte(bool, u8, Mode, &'a [u8]),
    /// An empty quoted string.
    Empty(Mode, &'a [u8]),
    /// An expansion, with whether it is quoted and how many bytes are left at its `$`. The slice is what is left behind that.
    Expands(bool, usize, &'a [u8]),
}

/// The next piece of a text in this mode.
pub fn next_step(mode: Mode, text: &[u8]) -> Step<'_>
    requires { open_in mode + length text.now < 2 ^ 63 }
    ensures { step_of result ≡ step mode text.now }
{
    match mode {
        Mode::Word(owner) => in_word(owner, text),
        Mode::DoubleQuotes(owner) => in_double_quotes(owner, text),
        Mode::SingleQuotes(owner) => in_single_quotes(owner, text),
        Mode::Arithmetic(depth) => in_arithmetic(depth, text),
    }
}

/// In a word.
fn in_word(owner: Owner, text: &[u8]) -> Step<'_>
    ensures { step_of result ≡ word_at owner (unspliced text.now) }
{
    let Some((byte, rest)) = front(text) else {
        return Step::Ends(&[]);
    };
    match owner {
        Owner::Token => unquoted(owner, byte, rest),
        Owner::Braces(_) if byte == b'}' => Step::Ends(rest),
        Owner::Braces(true) => in_quotes(owner, byte, rest),
        Owner::Braces(false) => unquoted(owner, byte, rest),
    }
}

/// At a byte of a word where quotes work as outside double quotes.
fn unquoted(owner: Owner, byte: u8, rest: &[u8]) -> Step<'_>
    ensures { step_of result ≡ unquoted_at owner byte rest.now }
{
    let word = Mode::Word(owner);
    match byte {
        b'$' => dollar(false, false, word, rest),
        b'"' => double_quote(owner, rest),
        b'\'' => single_quote(owner, rest),
        b'\\' => backslash(word, rest),
        _ => Step::Byte(false, byte, word, rest),
    }
}

/// At a byte of the word of a `${ }` in double quotes.
fn in_quotes(owner: Owner, byte: u8, rest: &[u8]) -> Step<'_>
    ensures { step_of result ≡ in_quotes_at owner byte rest.now }
{
    let word = Mode::Word(owner);
    match byte {
        b'$' => dollar(true, true, word, rest),
        b'"' => double_quote(owner, rest),
        b'\\' => escape(true, true, word, rest),
        _ => Step::Byte(true, byte, word, rest),
    }
}

/// In double quotes (XCU 2.2.3).
fn in_double_quotes(owner: Owner, text: &[u8]) -> Step<'_>
    ensures { step_of result ≡ double_quotes_at owner (unspliced text.now) }
{
    let inside = Mode::DoubleQuotes(owner);
    let Some((byte, rest)) = front(text) else {
        return Step::Ends(&[]);
    };
    match byte {
        b'"' => Step::Passes(Mode::Word(owner), rest),
        b'$' => dollar(true, true, inside, rest),
        b'\\' => escape(true, false, inside, rest),
        _ => Step::Byte(true, byte, inside, rest),
    }
}

/// In single quotes (XCU 2.2.2).
fn in_single_quotes(owner: Owner, text: &[u8]) -> Step<'_>
    ensures { step_of result ≡ single_quotes_at owner text.now }
{
    let Some((byte, rest)) = text.split_first() else {
        return Step::Ends(&[]);
    };
    if *byte == b'\'' {
        Step::Passes(Mode::Word(owner), rest)
    } else {
        Step::Byte(true, *byte, Mode::SingleQuotes(owner), rest)
    }
}

/// In the text of an arithmetic expansion (XCU 2.6.4).
fn in_arithmetic(depth: usize, text: &[u8]) -> Step<'_>
    requires { depth + length text.now < 2 ^ 63 }
    ensures { step_of result ≡ arithmetic_at depth (unspliced text.now) }
{
    let arithmetic = Mode::Arithmetic(depth);
    let Some((byte, rest)) = front(text) else {
        return Step::Ends(&[]);
    };
    match byte {
        b')' => parenthesis_closed(depth, rest),
        b'(' => Step::Byte(false, byte, Mode::Arithmetic(depth + 1), rest),
        b'$' => dollar(true, false, arithmetic, rest),
        b'\\' => escape(false, false, arithmetic, rest),
        _ => Step::Byte(false, byte, arithmetic, rest),
    }
}

/// Behind a `)` in an arithmetic expansion of which so many parentheses are open.
fn parenthesis_closed(depth: usize, rest: &[u8]) -> Step<'_>
    ensures { step_of result ≡ parenthesis_closed depth rest.now }
{
    if depth > 0 {
        return Step::Byte(false, b')', Mode::Arithmetic(depth - 1), rest);
    }
    match front(rest) {
        Some((b')', behind)) => Step::Ends(behind),
        _ => Step::Byte(false, b')', Mode::Arithmetic(0), rest),
    }
}

/// Behind a `$`; `quoted`: its expansion is, `bytes_quoted`: bytes are.
fn dollar(quoted: bool, bytes_quoted: bool, mode: Mode, rest: &[u8]) -> Step<'_>
    ensures { step_of result ≡ dollar quoted bytes_quoted mode rest.now }
{
    if begins_expansion(rest) {
        Step::Expands(quoted, rest.len() + 1, rest)
    } else {
        Step::Byte(bytes_quoted, b'$', mode, rest)
    }
}

/// Whether a `$` before this text begins an expansion (XCU 2.6). One that isn't in the profile doesn't.
fn begins_expansion(text: &[u8]) -> bool
    ensures { result ≡ begins_expansion (unspliced text.now) }
{
    let Some((byte, _)) = front(text) else {
        return false;
    };
    match introduced_by(byte) {
        Introduced::Braces | Introduced::Parenthesis | Introduced::Name | Introduced::Special =>
            true,
        Introduced::OutOfProfile(_) | Introduced::Nothing => false,
    }
}

/// Behind a `"` that opens.
fn double_quote(owner: Owner, rest: &[u8]) -> Step<'_>
    ensures { step_of result ≡ opened DOUBLE_QUOTE (Mode.DoubleQuotes owner) (Mode.Word owner) rest.now (unspliced rest.now) }
{
    match front(rest) {
        Some((b'"', behind)) => Step::Empty(Mode::Word(owner), behind),
        _ => Step::Passes(Mode::DoubleQuotes(owner), rest),
    }
}

/// Behind a `'` that opens.
fn single_quote(owner: Owner, rest: &[u8]) -> Step<'_>
    ensures { step_of result ≡ opened QUOTE (Mode.SingleQuotes owner) (Mode.Word owner) rest.now rest.now }
{
    match rest.split_first() {
        Some((b'\'', behind)) => Step::Empty(Mode::Word(owner), behind),
        _ => Step::Passes(Mode::SingleQuotes(owner), rest),
    }
}

/// Behind a backslash outside quotes (XCU 2.2.1).
fn backslash(mode: Mode, rest: &[u8]) -> Step<'_>
    ensures { step_of result ≡ backslash mode rest.now }
{
    match rest.split_first() {
        Some((byte, behind)) => Step::Byte(true, *byte, mode, behind),
        None => Step::Byte(false, b'\\', mode, rest),
    }
}

/// Behind a backslash where quotes work as in double quotes; `braces`: it quotes `}` too.
fn escape(quoted: bool, braces: bool, mode: Mode, rest: &[u8]) -> Step<'_>
    ensures { step_of result ≡ escape quoted braces mode rest.now }
{
    match rest.split_first() {
        Some((byte, behind)) if is_quoted_escape(*byte) || (braces && *byte == b'}') => {
            Step::Byte(quoted, *byte, mode, behind)
        }
        _ => Step::Byte(quoted, b'\\', mode, rest),
    }
}
