//! The options that words give.
ghost use Rattle.std.specs.Prelude.{◌≡◌};
ghost use Rattle.ut_options.specs.Given.{byte_of, has_any};

use crate::letters::is_among;
use crate::numbers::read_number;
use crate::texts::Texts;
use ps_lines::{Memory, Text};
use std::alloc::Global;
use std::marker::Model;

/// One option that words give.
#[derive(Debug, Drop)]
pub struct Given {
    /// Its letter.
    pub letter: u8,
    /// Its argument; the empty text where the letter takes none.
    pub argument: Text,
}

/// The options that words give, in their order.
#[derive(Debug, Drop)]
pub struct Options {
    given: Vec<Given>,
}

impl Model for Options {
    ghost use Rattle.std.specs.Prelude.{List};
    ghost use Rattle.ut_options.specs.declared.given.Given.{Given};

    ghost Value = { List Given };

    ghost view = { λ options. options.given.items };
}

impl Options {
    ghost use Rattle.std.specs.Prelude.{◌∷◌, ◌++◌, [], IfOk, IfSome, IfNone, OnOk, None, Some};
    ghost use Rattle.ut_options.specs.Given.{arguments, has, has_any, last_byte, last_number, only_of};

    /// No option.
    pub fn new(alloc: Global) -> Options
        ensures { result ≡ [] }
    {
        Options {
            given: Vec::new(alloc),
        }
    }

    /// Appends an option.
    pub fn push(&mut self, alloc: Global, letter: u8, argument: &[u8]) -> Result<(), Memory>
        ensures { OnOk result (self.new ≡ self.old ++ record { letter = letter; argument = argument.now } ∷ []) }
    {
        let argument = Text::copy_of(alloc, argument)?;
        self.given.push(Given { letter, argument })?;
        Ok(())
    }

    /// The options.
    pub fn as_slice(&self) -> &[Given]
        ensures { result.now ≡ self.now }
    {
        self.given.as_slice()
    }

    /// Whether the letter is given.
    pub fn has(&self, letter: u8) -> bool
        ensures { result ≡ has letter self.now }
    {
        let mut left = self.given.as_slice();
        while let [given, rest @ ..] = left {
            if given.letter == letter {
                return true;
            }
            left = rest;
        }
        false
    }

    /// The arguments of a letter, in order.
    pub fn arguments(&self, alloc: Global, letter: u8) -> Result<Texts, Memory>
        ensures { IfOk result (λ texts. texts ≡ arguments letter self.now) }
    {
        let mut texts = Texts::new(alloc);
        let mut left = self.given.as_slice();
        while let [given, rest @ ..] = left {
            if given.letter == letter {
                texts.push(alloc, given.argument.as_slice())?;
            }
            left = rest;
        }
        Ok(texts)
    }

    /// The number that the last option of a letter gives, or `fallback`; None where an argument of the letter is no number.
    pub fn number(&self, letter: u8, fallback: u64) -> Option<u64>
        ensures { result ≡ last_number letter fallback self.now }
    {
        let mut number = fallback;
        let mut left = self.given.as_slice();
        while let [given, rest @ ..] = left {
            if given.letter == letter {
                number = read_number(given.argument.as_slice())?;
            }
            left = rest;
        }
        Some(number)
    }

    /// The byte that the last option of a letter gives, or `fallback`; None where an argument of the letter isn't one byte.
    pub fn byte(&self, letter: u8, fallback: Option<u8>) -> Option<Option<u8>>
        ensures { result ≡ last_byte letter fallback self.now }
    {
        let mut byte = fallback;
        let mut left = self.given.as_slice();
        while let [given, rest @ ..] = left {
            if given.letter == letter {
                byte = Some(read_byte(given.argument.as_slice())?);
            }
            left = rest;
        }
        Some(byte)
    }

    /// The one option of these letters; None where there is none, or more than one.
    pub fn only_of(&self, letters: &[u8]) -> Option<&Given>
        ensures one { IfSome result (λ given. only_of letters.now self.now ≡ Some given.now) }
        ensures none { IfNone result (only_of letters.now self.now ≡ None) }
    {
        let mut left = self.given.as_slice();
        while let [given, rest @ ..] = left {
            if is_among(letters, given.letter) {
                if has_any(rest, letters) {
                    return None;
                }
                return Some(given);
            }
            left = rest;
        }
        None
    }
}

/// Whether one of the letters is given.
fn has_any(given: &[Given], letters: &[u8]) -> bool
    ensures { result ≡ has_any letters.now given.now }
{
    let mut left = given;
    while let [given, rest @ ..] = left {
        if is_among(letters, given.letter) {
            return true;
        }
        left = rest;
    }
    false
}

/// The byte that a text is.
fn read_byte(text: &[u8]) -> Option<u8>
    ensures { result ≡ byte_of text.now }
{
    match text {
        [byte] => Some(*byte),
        _ => None,
    }
}
