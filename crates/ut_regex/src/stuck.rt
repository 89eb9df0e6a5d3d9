//! The state that no byte leaves, and in which no line has the expression.
ghost use Rattle.std.specs.Prelude.{◌≡◌, ◌<◌, ◌≤◌, ℕ, List, None, length, IfNone, IfSome, MatchOption};
ghost use Rattle.std.specs.Bool.{Decides};
ghost use Rattle.std.specs.Option.{ForSome};
ghost use Rattle.ut_regex.specs.Inner.Idling.{IsStuck, WaitsForLine};
ghost use Rattle.ut_regex.specs.Inner.Tables.{left_at_found};

use crate::idle::STEP_STRETCH;
use crate::table::{FOUND, ends_at, entry_of};
use ps_lines::cut_line;

/// The state in which a line lacks the expression, whatever follows in it, where a table has one.
pub(crate) fn stuck_of(next: &[u16], ends: &[bool]) -> Option<u16>
    ensures some { ForSome result (λ state. IsStuck next.now ends.now state) }
    ensures none { IfNone result ((state : ℕ) → state < 256 → IsStuck next.now ends.now state → ⊥) }
{
    for state in 0..256u16 {
        if is_stuck(next, ends, state) {
            return Some(state);
        }
    }
    None
}

/// Whether each byte leads from the state to itself, and no line has the expression there.
fn is_stuck(next: &[u16], ends: &[bool], state: u16) -> bool
    requires { state < FOUND }
    ensures { Decides result (IsStuck next.now ends.now state) }
{
    for code in 0..256u16 {
        let byte = code as u8;
        if entry_of(next, state, byte) != state {
            return false;
        }
    }
    !ends_at(ends, state)
}

/// Whether so few bytes of a sample cost a step, where a line is left once it is stuck, that it is worth it.
pub(crate) fn are_lines_left_soon(next: &[u16], stuck: u16, sample: &[u8]) -> bool {
    let mut steps = 0;
    let mut state = 0u16;
    let mut left = sample;
    while let [byte, rest @ ..] = left {
        if state != stuck {
            steps += 1;
        }
        state = entry_of(next, state, *byte);
        left = rest;
    }
    steps < sample.len() / STEP_STRETCH
}

/// How much is left of a text where a table shows a line, from the first state on. What follows in a line that is stuck costs no step.
pub(crate) fn left_by_lines(next: &[u16], stuck: u16, text: &[u8]) -> Option<usize>
    requires { WaitsForLine next.now stuck }
    ensures found { result ≡ left_at_found next.now 0 text.now }
    ensures some { IfSome result (λ left. left ≤ length text.now) }
{
    let mut state = 0u16;
    let mut left = text;
    while let [byte, rest @ ..] = left {
        let entry = entry_of(next, state, *byte);
        if entry == FOUND {
            return Some(left.len());
        }
        if entry != stuck {
            state = entry;
            left = rest;
            continue;
        }
        let Some(behind) = behind_line(stuck, rest) else {
            return None;
        };
        state = 0;
        left = behind;
    }
    None
}

/// What is left of a text behind the end of a line that is stuck.
fn behind_line(stuck: u16, text: &[u8]) -> Option<&[u8]>
    ensures same { (next : List ℕ) → WaitsForLine next stuck
        → MatchOption result (left_at_found next stuck text.now ≡ None) (λ behind. left_at_found next stuck text.now ≡ left_at_found next 0 behind.now) }
    ensures shorter { IfSome result (λ behind. length behind.now < length text.now) }
{
    match cut_line(text) {
        Some((_, behind)) => Some(behind),
        None => None,
    }
}
