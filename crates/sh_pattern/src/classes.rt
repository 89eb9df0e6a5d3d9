//! Character classes in a pattern: `[:`, a name and `:]` inside a bracket expression (XBD 9.3.5, item 6).

ghost use Rattle.std.specs.Prelude.{◌≡◌, ◌+◌, ◌<◌, ◌∷◌, [], Some, None, MatchOption, IfSome, length};
ghost use Rattle.sh_pattern.specs.Marks.{past_spelling};
ghost use Rattle.sh_pattern.specs.Classes.{spelling, class_among, class_at};

use crate::marks::{Mark, front, is_unquoted};
use ps_lines::Class;

/// What follows these bytes where the text begins with them, none of them quoted.
fn past_spelling<'a>(text: &'a [Mark], bytes: &[u8]) -> Option<&'a [Mark]>
    ensures past { MatchOption result
        (past_spelling bytes.now text.now ≡ None)
        (λ rest. past_spelling bytes.now text.now ≡ Some rest.now) }
    ensures shorter { IfSome result (λ rest. length rest.now + length bytes.now ≡ length text.now) }
{
    let mut rest = text;
    for byte in bytes {
        let Some((mark, left)) = front(rest) else {
            return None;
        };
        if !is_unquoted(mark, *byte) {
            return None;
        }
        rest = left;
    }
    Some(rest)
}

/// What follows the class where the text begins with it.
fn past_class(text: &[Mark], class: Class) -> Option<&[Mark]>
    ensures past { MatchOption result
        (past_spelling (spelling class) text.now ≡ None)
        (λ rest. past_spelling (spelling class) text.now ≡ Some rest.now) }
    ensures shorter { IfSome result (λ rest. length rest.now < length text.now) }
{
    let named = past_spelling(text, b"[:")?;
    let closed = past_spelling(named, class.name())?;
    past_spelling(closed, b":]")
}

/// The first of the classes with which the text begins, and what follows it.
fn class_among<'a>(classes: &[Class], text: &'a [Mark]) -> Option<(Class, &'a [Mark])>
    ensures class { MatchOption result
        (class_among classes.now text.now ≡ None)
        (λ r. class_among classes.now text.now ≡ Some (r.0, r.1.now)) }
    ensures shorter { IfSome result (λ r. length r.1.now < length text.now) }
{
    for class in classes {
        if let Some(rest) = past_class(text, *class) {
            return Some((*class, rest));
        }
    }
    None
}

/// The class that the text begins with, and what follows it.
pub(crate) fn class_at(text: &[Mark]) -> Option<(Class, &[Mark])>
    ensures class { MatchOption result
        (class_at text.now ≡ None)
        (λ r. class_at text.now ≡ Some (r.0, r.1.now)) }
    ensures shorter { IfSome result (λ r. length r.1.now < length text.now) }
{
    class_among(&Class::ALL, text)
}
