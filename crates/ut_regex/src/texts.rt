//! Tables for texts of lines. At a newline an entry leads to the beginning of the next line, so that no step asks for one.
ghost use Rattle.std.specs.Prelude.{◌≡◌, ◌+◌, ◌*◌, ◌<◌, ◌≤◌, IfOk, IfSome, length, slice_index_or};
ghost use Rattle.std.specs.Option.{ForSome};
ghost use Rattle.ps_lines.specs.Lines.{is_closed};
ghost use Rattle.ut_regex.specs.Inner.Tables.{left_at_found, text_entry, BeginsLines, IsForTexts, IsRun, IsWhole};
ghost use Rattle.ut_regex.specs.Inner.Idling.{Idles, WaitsForLine};

use crate::cuts::cut_at_line;
use crate::idle::{Idle, idle_of, left_behind_starts};
use crate::stuck::{are_lines_left_soon, left_by_lines, stuck_of};
use crate::table::{FOUND, ends_at, entry_of};
use ps_lines::NEWLINE;
use std::alloc::{AllocError, Global};

/// The bytes of a text that are run over alone, before its quarters: a line that is found among them costs no other work.
const HEAD: usize = 1024;

/// The bytes of a text that are taken to be like those that follow.
const SAMPLE: usize = 128;

/// Which state follows which in a text of lines: 256 entries for each.
#[derive(Drop)]
pub(crate) struct TextTable {
    pub next: Vec<u16>,
    /// Where it waits for a byte at which something may begin, if there is such a state.
    idle: Option<Idle>,
    /// The state in which a line lacks the expression, whatever follows in it, if there is one.
    pub stuck: Option<u16>,
    ghost whole: { IsWhole next.items },
    ghost begins: { BeginsLines next.items },
    ghost idles: { ForSome idle (λ idle. Idles next.items idle.state idle.starts.set) },
    ghost waits: { ForSome stuck (λ state. WaitsForLine next.items state) },
}

/// How far a table has run over a text.
#[derive(Clone, Copy)]
pub(crate) struct Run<'t> {
    pub state: u16,
    pub left: &'t [u8],
}

/// How far a table has run over four texts.
#[derive(Clone, Copy)]
struct Runs<'t> {
    first: Run<'t>,
    second: Run<'t>,
    third: Run<'t>,
    fourth: Run<'t>,
}

impl TextTable {
    ghost use Rattle.std.specs.Prelude.{◌≡◌, ◌*◌, ◌≤◌, IfOk, IfSome, length, true};
    ghost use Rattle.std.specs.Option.{ForSome};
    ghost use Rattle.ut_regex.specs.Inner.Idling.{IsStuck};
    ghost use Rattle.ut_regex.specs.Inner.Tables.{left_at_found, IsForTexts, IsWhole};

    /// The table for texts of a table's lines.
    pub(crate) fn of(alloc: Global, next: &[u16], ends: &[bool]) -> Result<TextTable, AllocError>
        requires full { length next.now ≡ 256 * length ends.now }
        requires few { length ends.now ≤ FOUND }
        requires whole { IsWhole next.now }
        ensures texts { IfOk result (λ table. IsForTexts next.now ends.now table.next.items) }
        ensures sticks { IfOk result (λ table. ForSome table.stuck (λ state. IsStuck next.now ends.now state)) }
    {
        let entries = text_entries(alloc, next, ends)?;
        let idle = idle_of(&entries);
        let stuck = stuck_of(next, ends);
        Ok(TextTable {
            next: entries,
            idle,
            stuck,
        })
    }

    /// How much is left of a closed text where the first line that has the expression is known to have it, the byte that shows it
    /// among it; a newline is a byte of the line that it ends.
    pub(crate) fn left_at_found(&self, text: &[u8]) -> Option<usize>
        requires { is_closed text.now ≡ true }
        ensures found { result ≡ left_at_found self.now.next.items 0 text.now }
        ensures some { IfSome result (λ left. left ≤ length text.now) }
    {
        let (head, tail) = cut_at_line(text, SAMPLE.min(text.len()));
        match run_on(&self.next, 0, head) {
            Some(left) => Some(left + tail.len()),
            None => self.left_in_tail(head, tail),
        }
    }

    /// How much is left of the tail of a text where a table shows a line. Where a part of the head tells that it is worth it, the ends of
    /// lines that are stuck, or bytes at which something may begin, are looked for.
    fn left_in_tail(&self, head: &[u8], tail: &[u8]) -> Option<usize>
        requires { is_closed tail.now ≡ true }
        ensures found { result ≡ left_at_found self.now.next.items 0 tail.now }
        ensures some { IfSome result (λ left. left ≤ length tail.now) }
    {
        let sample = &head[..SAMPLE.min(head.len())];
        if let Some(stuck) = self.stuck
            && are_lines_left_soon(&self.next, stuck, sample)
        {
            return left_by_lines(&self.next, stuck, tail);
        }
        match &self.idle {
            Some(idle) if idle.are_steps_rare(&self.next, sample) => {
                left_behind_starts(&self.next, idle, tail)
            }
            Some(_) | None => self.left_behind_head(tail),
        }
    }

    /// How much is left of a closed text where a table shows a line. A line near its beginning costs no more than the way there.
    fn left_behind_head(&self, text: &[u8]) -> Option<usize>
        requires { is_closed text.now ≡ true }
        ensures found { result ≡ left_at_found self.now.next.items 0 text.now }
        ensures some { IfSome result (λ left. left ≤ length text.now) }
    {
        let (head, tail) = cut_at_line(text, HEAD.min(text.len()));
        match run_on(&self.next, 0, head) {
            Some(left) => Some(left + tail.len()),
            None => self.left_in_quarters(tail),
        }
    }

    /// How much is left of a closed text where a table shows a line.
    ///
    /// The text is run over in four quarters at a time: a state waits for the one before it, and those of the others don't.
    fn left_in_quarters(&self, text: &[u8]) -> Option<usize>
        requires { is_closed text.now ≡ true }
        ensures found { result ≡ left_at_found self.now.next.items 0 text.now }
        ensures some { IfSome result (λ left. left ≤ length text.now) }
    {
        let next = self.next.as_slice();
        let (front, back) = cut_at_line(text, text.len() / 2);
        let (first, second) = cut_at_line(front, front.len() / 2);
        let (third, fourth) = cut_at_line(back, back.len() / 2);
        let runs = run_over_four(next, first, second, third, fourth);
        if let Some(left) = run_on(next, runs.first.state, runs.first.left) {
            return Some(left + second.len() + back.len());
        }
        if let Some(left) = run_on(next, runs.second.state, runs.second.left) {
            return Some(left + back.len());
        }
        if let Some(left) = run_on(next, runs.third.state, runs.third.left) {
            return Some(left + fourth.len());
        }
        run_on(next, runs.fourth.state, runs.fourth.left)
    }
}

/// Runs over four texts as far as none is at its end and none shows a line.
///
/// It isn't inlined, so that what it carries along stays in registers; and it looks up no entry that may be missing, since a table has
/// those of each state to which it leads.
#[inline(never)]
fn run_over_four<'t>(
    next: &[u16],
    first: &'t [u8],
    second: &'t [u8],
    third: &'t [u8],
    fourth: &'t [u8],
) -> Runs<'t>
    requires { IsWhole next.now }
    ensures first { IsRun next.now first.now result.first }
    ensures second { IsRun next.now second.now result.second }
    ensures third { IsRun next.now third.now result.third }
    ensures fourth { IsRun next.now fourth.now result.fourth }
{
    let count = first
        .len()
        .min(second.len())
        .min(third.len())
        .min(fourth.len());
    let first_front = &first[..count];
    let second_front = &second[..count];
    let third_front = &third[..count];
    let fourth_front = &fourth[..count];
    let mut at = 0;
    let mut first_state = 0u16;
    let mut second_state = 0u16;
    let mut third_state = 0u16;
    let mut fourth_state = 0u16;
    while at < count {
        let first_entry = known_entry(next, first_state, first_front[at]);
        let second_entry = known_entry(next, second_state, second_front[at]);
        let third_entry = known_entry(next, third_state, third_front[at]);
        let fourth_entry = known_entry(next, fourth_state, fourth_front[at]);
        if first_entry == FOUND
            || second_entry == FOUND
            || third_entry == FOUND
            || fourth_entry == FOUND
        {
            break;
        }
        first_state = first_entry;
        second_state = second_entry;
        third_state = third_entry;
        fourth_state = fourth_entry;
        at += 1;
    }
    Runs {
        first: Run {
            state: first_state,
            left: &first[at..],
        },
        second: Run {
            state: second_state,
            left: &second[at..],
        },
        third: Run {
            state: third_state,
            left: &third[at..],
        },
        fourth: Run {
            state: fourth_state,
            left: &fourth[at..],
        },
    }
}

/// The entry of a state that a table has, for a byte.
#[inline(always)]
fn known_entry(next: &[u16], state: u16, byte: u8) -> u16
    requires { 256 * state + byte < length next.now }
    ensures { result ≡ slice_index_or next.now (256 * state + byte) FOUND }
{
    next[256 * state as usize + byte as usize]
}

/// How much is left of a text where a table shows a line, from a state on.
fn run_on(next: &[u16], begun: u16, text: &[u8]) -> Option<usize>
    ensures found { result ≡ left_at_found next.now begun text.now }
    ensures some { IfSome result (λ left. left ≤ length text.now) }
{
    let mut state = begun;
    let mut left = text;
    while let [byte, rest @ ..] = left {
        let entry = entry_of(next, state, *byte);
        if entry == FOUND {
            return Some(left.len());
        }
        state = entry;
        left = rest;
    }
    None
}

/// The entries for texts of a table's lines.
fn text_entries(alloc: Global, next: &[u16], ends: &[bool]) -> Result<Vec<u16>, AllocError>
    requires full { length next.now ≡ 256 * length ends.now }
    requires few { length ends.now ≤ FOUND }
    ensures texts { IfOk result (λ entries. IsForTexts next.now ends.now entries.items) }
    ensures size { IfOk result (λ entries. length entries.items ≡ length next.now) }
{
    let mut entries = Vec::new(alloc);
    for place in 0..next.len() {
        let entry = text_entry(next, ends, (place / 256) as u16, (place % 256) as u8);
        entries.push(entry)?;
    }
    Ok(entries)
}

/// The entry of a state for a byte of a text of lines.
fn text_entry(next: &[u16], ends: &[bool], state: u16, byte: u8) -> u16
    ensures { result ≡ text_entry next.now ends.now state byte }
{
    if byte != NEWLINE {
        return entry_of(next, state, byte);
    }
    if ends_at(ends, state) { FOUND } else { 0 }
}
