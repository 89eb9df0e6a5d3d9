//! What a `$` begins (XCU 2.6).
ghost use Rattle.std.specs.Prelude.{◌≡◌, ◌<◌, ◌≤◌, ◌↔◌, IsTrue};
ghost use Rattle.sh_lex.specs.Texts.{unspliced};
ghost use Rattle.sh_lex.specs.Acts.{act_of};
ghost use Rattle.sh_lex.specs.Dollars.{introduced_by, opening, substitution, parenthesis, after_dollar, in_name, deeper, inside_braces};

use crate::acts::Step;
use crate::bytes::{BANG, DASH, DOLLAR, OPEN, OPEN_BRACE, is_parameter};
use crate::parts::{Construct, Fault, MAX_LEVELS, Nest, Spelling, Spot};
use crate::texts::front;
use ps_lines::{is_name_byte, is_name_start};

/// What a `$` introduces (XCU 2.6).
#[derive(Clone, Copy, Debug)]
pub enum Introduced {
    /// `$$`, `$!` or `$-`, which aren't in the profile.
    OutOfProfile(Spelling),
    /// A `${ }`.
    Braces,
    /// A `$( )` or a `$(( ))`.
    Parenthesis,
    /// A `$name`, which this byte begins.
    Name,
    /// A parameter of this one byte.
    Special,
    /// Nothing: the `$` is ordinary.
    Nothing,
}

/// What a `$` introduces, by the byte behind it.
#[inline]
#[tactic(auto, unfolding(crate::specs::Dollars::introduced_by))]
pub fn introduced_by(byte: u8) -> Introduced
    ensures { result ≡ introduced_by byte }
{
    match byte {
        DOLLAR => Introduced::OutOfProfile(Spelling::DollarDollar),
        BANG => Introduced::OutOfProfile(Spelling::DollarBang),
        DASH => Introduced::OutOfProfile(Spelling::DollarDash),
        OPEN_BRACE => Introduced::Braces,
        OPEN => Introduced::Parenthesis,
        _ if is_name_start(byte) => Introduced::Name,
        _ if is_parameter(byte) => Introduced::Special,
        _ => Introduced::Nothing,
    }
}

/// Behind a `$`, at which `left` bytes are left, in the construct `outer`; `quoted`: in double quotes.
pub fn after_dollar(
    nest: Nest,
    quoted: bool,
    left: usize,
    outer: Construct,
    text: &[u8],
) -> Step<'_>
    ensures { act_of result ≡ after_dollar nest quoted left outer text.now }
{
    let Some((byte, rest)) = front(text) else {
        return Step::Goes(outer, text);
    };
    match introduced_by(byte) {
        Introduced::OutOfProfile(spelling) => Step::Offends(Fault::Spelled(spelling, left)),
        Introduced::Braces => braces(nest, quoted, left, outer, rest),
        Introduced::Parenthesis => parenthesis(nest, left, outer, rest),
        Introduced::Name => Step::Enters(Construct::Name, outer, rest),
        Introduced::Special => Step::Goes(outer, rest),
        Introduced::Nothing => Step::Goes(outer, text),
    }
}

/// Behind a `${`.
fn braces(nest: Nest, quoted: bool, left: usize, outer: Construct, rest: &[u8]) -> Step<'_>
    ensures { act_of result ≡ opening nest left (Construct.BraceHead (inside_braces nest) left quoted) outer rest.now }
{
    if is_full(nest) {
        return Step::Offends(Fault::TooDeep(left));
    }
    let inside = Nest {
        levels: nest.levels + 1,
        in_braces: true,
    };
    Step::Enters(Construct::BraceHead(inside, left, quoted), outer, rest)
}

/// Behind a `$(`, with what is left behind it.
fn parenthesis(nest: Nest, left: usize, outer: Construct, inner: &[u8]) -> Step<'_>
    ensures { act_of result ≡ parenthesis nest left outer inner.now (unspliced inner.now) }
{
    match front(inner) {
        Some((OPEN, rest)) => arithmetic(nest, left, outer, rest),
        _ => substitution(nest, left, outer, inner),
    }
}

/// Behind a `$((`.
fn arithmetic(nest: Nest, left: usize, outer: Construct, rest: &[u8]) -> Step<'_>
    ensures { act_of result ≡ opening nest left (Construct.Arithmetic (deeper nest) left) outer rest.now }
{
    if is_full(nest) {
        return Step::Offends(Fault::TooDeep(left));
    }
    Step::Enters(Construct::Arithmetic(deeper(nest), left), outer, rest)
}

/// Behind a `$(` that begins a command substitution.
fn substitution(nest: Nest, left: usize, outer: Construct, rest: &[u8]) -> Step<'_>
    ensures { act_of result ≡ substitution nest left outer rest.now }
{
    if nest.in_braces {
        return Step::Offends(Fault::Spelled(Spelling::Substitution, left));
    }
    if is_full(nest) {
        return Step::Offends(Fault::TooDeep(left));
    }
    Step::Enters(
        Construct::Commands(deeper(nest), Some(left), Spot::Between),
        outer,
        rest,
    )
}

/// Whether no further level may open.
fn is_full(nest: Nest) -> bool
    ensures { IsTrue result ↔ (MAX_LEVELS ≤ nest.levels) }
{
    nest.levels >= MAX_LEVELS
}

/// One level deeper.
fn deeper(nest: Nest) -> Nest
    requires { nest.levels < MAX_LEVELS }
    ensures { result ≡ deeper nest }
{
    Nest {
        levels: nest.levels + 1,
        in_braces: nest.in_braces,
    }
}

/// In the name of a `$name`.
pub fn in_name(text: &[u8]) -> Step<'_>
    ensures { act_of result ≡ in_name text.now }
{
    match front(text) {
        Some((byte, rest)) if is_name_byte(byte) => Step::Goes(Construct::Name, rest),
        _ => Step::Ends(text),
    }
}
