//! Runs of bytes at the beginning of a text, without backslash-newlines (XCU 2.2.1).
ghost use Rattle.std.specs.Prelude.{◌≡◌, ◌≤◌, length, IfOk};
ghost use Rattle.sh_lex.specs.Runs.{has};
ghost use Rattle.sh_lex.specs.Texts.{run, behind_run};

use crate::bytes::is_blank;
use crate::texts::front;
use ps_lines::{Memory, is_name_byte};
use std::alloc::Global;

/// The bytes of a run.
#[derive(Clone, Copy, Debug)]
pub enum Class {
    /// Blanks.
    Blank,
    /// Decimal digits.
    Digit,
    /// The bytes of a name behind its first one (XBD 3.235).
    Name,
}

impl Class {
    /// Whether the byte belongs to such a run.
    pub fn has(self, byte: u8) -> bool
        ensures { result ≡ has self byte }
    {
        match self {
            Class::Blank => is_blank(byte),
            Class::Digit => byte.is_ascii_digit(),
            Class::Name => is_name_byte(byte),
        }
    }
}

/// What is left behind the longest run at the beginning of the text.
#[tactic(auto, using(crate::proofs::Fronts::runs))]
pub fn behind_run(class: Class, text: &[u8]) -> &[u8]
    ensures behind { result.now ≡ behind_run (has class) text.now }
    ensures within { length result.now ≤ length text.now }
{
    let mut rest = text;
    while let Some((byte, after)) = front(rest) {
        if !class.has(byte) {
            break;
        }
        rest = after;
    }
    rest
}

/// The longest run at the beginning of the text.
pub fn run(alloc: Global, class: Class, text: &[u8]) -> Result<Vec<u8>, Memory>
    ensures { IfOk result (λ bytes. bytes.items ≡ run (has class) text.now) }
{
    let mut bytes = Vec::new(alloc);
    let mut rest = text;
    while let Some((byte, after)) = front(rest) {
        if !class.has(byte) {
            return Ok(bytes);
        }
        bytes.push(byte)?;
        rest = after;
    }
    Ok(bytes)
}
