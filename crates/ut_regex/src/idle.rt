//! The states in which a table waits for the first byte of what is sought.
ghost use Rattle.std.specs.Prelude.{◌≡◌, ◌⊎◌, ◌<◌, ◌≤◌, ℕ, List, length, IfSome};
ghost use Rattle.std.specs.Bool.{Decides};
ghost use Rattle.std.specs.Option.{ForSome};
ghost use Rattle.ut_regex.specs.Inner.Idling.{idle_behind, stays, Idles};
ghost use Rattle.ut_regex.specs.Inner.Tables.{left_at_found};

use crate::starts::Starts;
use crate::table::{FOUND, entry_of};
use crate::texts::Run;
use ps_lines::{ByteSet, NEWLINE};

/// The bytes in which one step among bytes that are passed over costs no more than a step for each.
pub(crate) const STEP_STRETCH: usize = 6;

/// The state to which a table comes, from the first one, by each byte at which nothing begins; and the other bytes.
#[derive(Clone, Copy, Drop)]
pub(crate) struct Idle {
    pub state: u16,
    pub starts: Starts,
}

impl Idle {
    /// Whether a state is one in which the table waits.
    fn waits_in(&self, state: u16) -> bool
        ensures { Decides result ((state ≡ 0) ⊎ (state ≡ self.now.state)) }
    {
        state == 0 || state == self.state
    }

    /// Whether so few bytes of a sample cost a step, where those at which nothing begins are passed over, that a search for the others
    /// is worth it.
    pub(crate) fn are_steps_rare(&self, next: &[u16], sample: &[u8]) -> bool {
        let mut steps = 0;
        let mut state = 0u16;
        let mut left = sample;
        while let [byte, rest @ ..] = left {
            if !self.waits_in(state) || self.starts.set.has(*byte) {
                steps += 1;
            }
            state = entry_of(next, state, *byte);
            left = rest;
        }
        steps < sample.len() / STEP_STRETCH
    }

    /// The run from a state on, and if the table waits in that state, behind all bytes at which nothing begins.
    fn run_from<'t>(&self, state: u16, left: &'t [u8]) -> Run<'t>
        ensures same { (next : List ℕ) → Idles next self.now.state self.now.starts.set
            → left_at_found next result.state result.left.now ≡ left_at_found next state left.now }
        ensures shorter { length result.left.now ≤ length left.now }
    {
        if !self.waits_in(state) {
            return Run { state, left };
        }
        let passed = self.starts.first_place(left);
        if passed == 0 {
            return Run { state, left };
        }
        Run {
            state: idle_behind(self.state, left[passed - 1]),
            left: &left[passed..],
        }
    }
}

/// How much is left of a text where a table shows a line, from the first state on. Bytes at which nothing begins cost no step.
pub(crate) fn left_behind_starts(next: &[u16], idle: &Idle, text: &[u8]) -> Option<usize>
    requires { Idles next.now idle.now.state idle.now.starts.set }
    ensures found { result ≡ left_at_found next.now 0 text.now }
    ensures some { IfSome result (λ left. left ≤ length text.now) }
{
    let mut run = idle.run_from(0, text);
    while let [byte, rest @ ..] = run.left {
        let entry = entry_of(next, run.state, *byte);
        if entry == FOUND {
            return Some(run.left.len());
        }
        run = idle.run_from(entry, rest);
    }
    None
}

/// The state in which a table waits, where it waits for some bytes alone.
pub(crate) fn idle_of(next: &[u16]) -> Option<Idle>
    ensures { ForSome result (λ idle. Idles next.now idle.state idle.starts.set) }
{
    let state = common_entry(next);
    if state == FOUND {
        return None;
    }
    let set = starts_of(next, state);
    Some(Idle {
        state,
        starts: Starts::of(set),
    })
}

/// The entry of the first state that most printable bytes have, if more than half of them have one; else that of any.
fn common_entry(next: &[u16]) -> u16 {
    let mut common = FOUND;
    let mut votes = 0u8;
    for byte in b' '..=b'~' {
        let entry = entry_of(next, 0, byte);
        if votes == 0 {
            common = entry;
        }
        if entry == common {
            votes += 1;
        } else {
            votes -= 1;
        }
    }
    common
}

/// The bytes that don't lead to the state from the first one and from itself.
fn starts_of(next: &[u16], state: u16) -> ByteSet
    ensures { state < FOUND → Idles next.now state result }
{
    let mut starts = ByteSet::empty();
    for code in 0..256u16 {
        let byte = code as u8;
        if !stays(next, state, byte) {
            starts.add(byte);
        }
    }
    starts
}

/// Whether a byte leads to the state, or to the next line's beginning, from the first state and from this one.
fn stays(next: &[u16], state: u16, byte: u8) -> bool
    ensures { result ≡ stays next.now state byte }
{
    let behind = idle_behind(state, byte);
    entry_of(next, 0, byte) == behind && entry_of(next, state, byte) == behind
}

/// The state behind a byte at which nothing begins.
fn idle_behind(state: u16, byte: u8) -> u16
    ensures { result ≡ idle_behind state byte }
{
    if byte == NEWLINE { 0 } else { state }
}
