//! The bytes of a string, each with whether a backslash stood before it.
ghost use Rattle.std.specs.Prelude.{◌≡◌, ◌++◌, nat_le, Some, None, IfOk, IfSome, OnOk, if◌then◌else◌};
ghost use Rattle.ut_strings.specs.Marked.{byte_given, byte_state, end_given, escaped, is_octal as is_octal_def, letter_of as letter_of_def, marked_of as marked_of_def, number_of_one as number_of_one_def, number_of_three, number_of_two as number_of_two_def, plain_given, plain_state};

use ps_lines::Memory;
use std::alloc::Global;
use std::marker::Model;

/// A byte of a string.
#[derive(Clone, Copy, Debug, PartialEq, Eq)]
pub(crate) struct Marked {
    pub byte: u8,
    /// Whether a backslash stood before it: then it is ordinary.
    pub escaped: bool,
}

/// The bytes of a string, in order.
#[derive(Debug, Drop)]
pub(crate) struct MarkedBytes {
    bytes: Vec<Marked>,
}

impl Model for MarkedBytes {
    ghost use Rattle.std.specs.Prelude.{List};
    ghost use Rattle.ut_strings.specs.declared.marked.Marked.{Marked};

    ghost Value = { List Marked };

    ghost view = { λ bytes. bytes.bytes.items };
}

impl MarkedBytes {
    ghost use Rattle.std.specs.Prelude.{◌∷◌, [], true};

    /// No byte.
    fn new(alloc: Global) -> MarkedBytes
        ensures { result ≡ [] }
    {
        MarkedBytes {
            bytes: Vec::new(alloc),
        }
    }

    /// Appends a byte.
    fn push(&mut self, byte: u8, escaped: bool) -> Result<(), Memory>
        ensures { OnOk result (self.new ≡ self.old ++ record { byte = byte; escaped = escaped } ∷ []) }
    {
        self.bytes.push(Marked { byte, escaped })?;
        Ok(())
    }

    /// The bytes.
    pub(crate) fn as_slice(&self) -> &[Marked]
        ensures { result.now ≡ self.now }
    {
        self.bytes.as_slice()
    }
}

/// What stood before the next byte.
#[derive(Clone, Copy, Debug, PartialEq, Eq)]
pub(crate) enum State {
    /// Nothing that matters.
    Plain,
    /// A backslash.
    Backslash,
    /// A backslash and an octal digit.
    One(u8),
    /// A backslash and two octal digits.
    Two(u8, u8),
}

/// The bytes of a string; None where an octal number is above 255.
pub(crate) fn marked_of(alloc: Global, text: &[u8]) -> Result<Option<MarkedBytes>, Memory>
    ensures { IfOk result (λ read. read ≡ marked_of_def text.now) }
{
    let mut bytes = MarkedBytes::new(alloc);
    let mut state = State::Plain;
    let mut left = text;
    while let [byte, rest @ ..] = left {
        match read_byte(&mut bytes, state, *byte)? {
            Some(next) => state = next,
            None => return Ok(None),
        }
        left = rest;
    }
    end(&mut bytes, state)?;
    Ok(Some(bytes))
}

/// Appends what one byte gives, by what stands before it, and answers what stands before the next; None at a number above 255.
fn read_byte(bytes: &mut MarkedBytes, state: State, byte: u8) -> Result<Option<State>, Memory>
    ensures state { IfOk result (λ next. next ≡ byte_state state byte) }
    ensures bytes { IfOk result (λ next. IfSome next (λ _. bytes.new ≡ bytes.old ++ byte_given state byte)) }
{
    match state {
        State::Plain => Ok(Some(read_plain(bytes, byte)?)),
        State::Backslash => Ok(Some(read_escaped(bytes, byte)?)),
        State::One(first) => {
            if is_octal(byte) {
                return Ok(Some(State::Two(first, byte)));
            }
            bytes.push(number_of_one(first), true)?;
            Ok(Some(read_plain(bytes, byte)?))
        }
        State::Two(first, second) => {
            if is_octal(byte) {
                return read_third(bytes, first, second, byte);
            }
            bytes.push(number_of_two(first, second), true)?;
            Ok(Some(read_plain(bytes, byte)?))
        }
    }
}

/// Appends the number of three octal digits.
fn read_third(
    bytes: &mut MarkedBytes,
    first: u8,
    second: u8,
    third: u8,
) -> Result<Option<State>, Memory>
    ensures state { IfOk result (λ next. next ≡ (if nat_le (number_of_three first second third) 255 then Some State.Plain else None)) }
    ensures bytes { IfOk result (λ next. IfSome next (λ _. bytes.new ≡ bytes.old ++ escaped (number_of_three first second third))) }
{
    let number = u32::from(first % 8) * 64 + u32::from(second % 8) * 8 + u32::from(third % 8);
    if number > 255 {
        return Ok(None);
    }
    bytes.push(number as u8, true)?;
    Ok(Some(State::Plain))
}

/// Appends what a byte gives that no escape takes.
fn read_plain(bytes: &mut MarkedBytes, byte: u8) -> Result<State, Memory>
    ensures state { IfOk result (λ next. next ≡ plain_state byte) }
    ensures bytes { OnOk result (bytes.new ≡ bytes.old ++ plain_given byte) }
{
    if byte == b'\\' {
        return Ok(State::Backslash);
    }
    bytes.push(byte, false)?;
    Ok(State::Plain)
}

/// Appends what a byte gives behind a backslash.
fn read_escaped(bytes: &mut MarkedBytes, byte: u8) -> Result<State, Memory>
    ensures state { IfOk result (λ next. Some next ≡ byte_state State.Backslash byte) }
    ensures bytes { OnOk result (bytes.new ≡ bytes.old ++ byte_given State.Backslash byte) }
{
    if is_octal(byte) {
        return Ok(State::One(byte));
    }
    bytes.push(letter_of(byte), true)?;
    Ok(State::Plain)
}

/// Appends what the end of the text gives.
fn end(bytes: &mut MarkedBytes, state: State) -> Result<(), Memory>
    ensures { OnOk result (bytes.new ≡ bytes.old ++ end_given state) }
{
    match state {
        State::Plain => Ok(()),
        State::Backslash => bytes.push(b'\\', true),
        State::One(first) => bytes.push(number_of_one(first), true),
        State::Two(first, second) => bytes.push(number_of_two(first, second), true),
    }
}

/// The number of one octal digit.
fn number_of_one(first: u8) -> u8
    ensures { result ≡ number_of_one_def first }
{
    first % 8
}

/// The number of two octal digits.
fn number_of_two(first: u8, second: u8) -> u8
    ensures { result ≡ number_of_two_def first second }
{
    first % 8 * 8 + second % 8
}

/// The byte that an escape of one letter stands for.
fn letter_of(byte: u8) -> u8
    ensures { result ≡ letter_of_def byte }
{
    match byte {
        b'a' => 7,
        b'b' => 8,
        b'f' => 12,
        b'n' => 10,
        b'r' => 13,
        b't' => 9,
        b'v' => 11,
        _ => byte,
    }
}

/// Whether the byte is an octal digit.
pub(crate) fn is_octal(byte: u8) -> bool
    ensures { result ≡ is_octal_def byte }
{
    b'0' <= byte && byte <= b'7'
}
