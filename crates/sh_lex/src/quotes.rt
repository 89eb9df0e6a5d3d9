//! Single and double quotes (XCU 2.2).
ghost use Rattle.std.specs.Prelude.{◌≡◌};
ghost use Rattle.sh_lex.specs.Texts.{behind_quote};
ghost use Rattle.sh_lex.specs.Acts.{act_of};
ghost use Rattle.sh_lex.specs.Braces.{single_quotes};
ghost use Rattle.sh_lex.specs.DoubleQuotes.{in_double_quotes};

use crate::acts::Step;
use crate::bytes::{BACKQUOTE, BACKSLASH, DOLLAR, DOUBLE_QUOTE};
use crate::dollars::after_dollar;
use crate::parts::{Construct, Fault, Nest, Spelling};
use crate::texts::{behind_backslash, behind_quote, front};

/// Behind a single quote at which `left` bytes are left; `next` goes on behind the closing one.
pub fn single_quotes(left: usize, next: Construct, rest: &[u8]) -> Step<'_>
    ensures { act_of result ≡ single_quotes left next (behind_quote rest.now) }
{
    match behind_quote(rest) {
        Some(after) => Step::Goes(next, after),
        None => Step::Offends(Fault::UnclosedQuote(left)),
    }
}

/// In double quotes that opened where `left` bytes were left.
pub fn in_double_quotes(nest: Nest, left: usize, text: &[u8]) -> Step<'_>
    ensures { act_of result ≡ in_double_quotes nest left text.now }
{
    let part = Construct::DoubleQuotes(nest, left);
    let Some((byte, rest)) = front(text) else {
        return Step::Offends(Fault::UnclosedQuote(left));
    };
    match byte {
        DOUBLE_QUOTE => Step::Ends(rest),
        BACKQUOTE => Step::Offends(Fault::Spelled(Spelling::Backquote, rest.len() + 1)),
        DOLLAR => after_dollar(nest, true, rest.len() + 1, part, rest),
        BACKSLASH => Step::Goes(part, behind_backslash(false, rest)),
        _ => Step::Goes(part, rest),
    }
}
