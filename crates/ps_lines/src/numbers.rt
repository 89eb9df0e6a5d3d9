//! Numbers in decimal.
ghost use Rattle.std.specs.Prelude.{◌≡◌, ◌++◌, decimal, OnErr, OnOk};
ghost use Rattle.ps_lines.specs.Numbers.{number_of, with_one_more};

use crate::memory::Memory;
use itoa::Buffer;

/// The most digits that a number below 2^64 is read from.
const MOST_DIGITS: usize = 20;

/// Appends the number in decimal: digits alone, with no zero before the first digit of a number that isn't 0.
pub fn decimal(number: u64, out: &mut Vec<u8>) -> Result<(), Memory>
    ensures ok { OnOk result (out.new.items ≡ out.old.items ++ decimal number) }
    ensures err { OnErr result (out.new.items ≡ out.old.items) }
{
    let mut buffer = Buffer::new();
    out.extend_from_slice(buffer.format(number).as_bytes())?;
    Ok(())
}

/// The number that a text spells in decimal: 1 to 20 digits, leading zeros among them, of a number below 2^64.
///
/// There is no sign and no blank; any other text gives None.
#[tactic(auto, using(crate::proofs::NumberLemmas::number_steps))]
pub fn read_decimal(text: &[u8]) -> Option<u64>
    ensures { result ≡ number_of text.now }
{
    if text.is_empty() || text.len() > MOST_DIGITS {
        return None;
    }
    let mut number = 0;
    for byte in text {
        number = with_digit(number, *byte)?;
    }
    Some(number)
}

/// `number` with one more digit at its end, where `byte` is a digit and the number stays below 2^64.
fn with_digit(number: u64, byte: u8) -> Option<u64>
    ensures { result ≡ with_one_more number byte }
{
    if !byte.is_ascii_digit() {
        return None;
    }
    number.checked_mul(10)?.checked_add(u64::from(byte - b'0'))
}
