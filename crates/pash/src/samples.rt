//! Texts that are made from a seed.
ghost use Rattle.std.specs.Prelude.{◌≡◌, ◌^◌, ◌≤◌, ◌++◌, vec_len, IfOk};
ghost use Rattle.pash.specs.Samples.{line_behind, next_number as next_number_def, sample_text as sample_text_def, third_number, word_of as word_of_def};

use ps_lines::Memory;
use std::alloc::Global;

/// The text of so many lines that a seed gives.
pub fn sample_text(alloc: Global, seed: u32, lines: u32) -> Result<Vec<u8>, Memory>
    ensures text { IfOk result (λ text. text.items ≡ sample_text_def seed lines) }
    ensures most { IfOk result (λ text. vec_len text ≤ 2 ^ 40) }
{
    let mut text = Vec::new(alloc);
    let mut number = seed;
    let mut left = lines;
    while left > 0 {
        number = add_line(&mut text, number)?;
        left -= 1;
    }
    Ok(text)
}

/// Puts the line behind a number at the end of a text; answers the line's last number.
fn add_line(text: &mut Vec<u8>, number: u32) -> Result<u32, Memory>
    ensures number { IfOk result (λ last. last ≡ third_number number) }
    ensures line { IfOk result (λ _. text.new.items ≡ text.old.items ++ line_behind number) }
{
    let first = next_number(number);
    let second = next_number(first);
    let third = next_number(second);
    let [a, b] = word_of(first);
    let [c, d] = word_of(second);
    let [e, f] = word_of(third);
    text.extend_from_slice(&[a, b, b' ', c, d, b' ', e, f, b'\n'])?;
    Ok(third)
}

/// The number that comes next.
fn next_number(number: u32) -> u32
    ensures { result ≡ next_number_def number }
{
    number.wrapping_mul(1_664_525).wrapping_add(1_013_904_223)
}

/// A number's word.
fn word_of(number: u32) -> [u8; 2]
    ensures { result ≡ word_of_def number }
{
    let letters = number / 65_536;
    [b'a' + (letters % 8) as u8, b'a' + (letters / 8 % 4) as u8]
}
