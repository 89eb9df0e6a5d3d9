//! Where descriptors lead before, within and behind a command's redirections (XCU 2.7).
ghost use Rattle.std.specs.Prelude.{◌≡◌, IfOk};
ghost use Rattle.std.specs.Option.{unwrap_or};
ghost use Rattle.sh_eval.specs.Leading.{before_in, keeping, kept_by, put_back, read_again as read_again_def};
ghost use Rattle.sh_eval.specs.Redirections.{leads_to, led_to as led_to_def};
ghost use Rattle.sh_eval.specs.States.{in_streams, reading};

use crate::rests::Rest;
use crate::session::Session;
use crate::streams::{From, HeldPaths, Streams, To};
use ps_lines::Memory;
use std::alloc::Global;
use std::mem;

/// Where the descriptors led before a command's redirections.
#[derive(Debug, Drop)]
pub struct Before {
    /// What descriptor 0 read, where it reads something else now.
    pub(crate) from: Option<From>,
    pub(crate) to: To,
    pub(crate) errors_to: To,
    pub(crate) held: HeldPaths,
}

impl Before {
    /// Where descriptors lead now.
    pub(crate) fn of(alloc: Global, streams: &Streams) -> Result<Before, Memory>
        ensures { IfOk result (λ before. before ≡ before_in streams.now) }
    {
        let to = streams.to.copy()?;
        let errors_to = streams.errors_to.copy()?;
        let held = streams.held.copy(alloc)?;
        Ok(Before {
            from: None,
            to,
            errors_to,
            held,
        })
    }

    /// Keeps what descriptor 0 read, but where it read something earlier.
    pub(crate) fn keep(&mut self, read: From)
        ensures { self.new ≡ keeping read self.old }
    {
        if self.from.is_some() {
            return;
        }
        self.from = Some(read);
    }

    /// Keeps what descriptor 0 read, where it reads something else now.
    pub(crate) fn keep_read(&mut self, read: Option<From>)
        ensures { self.new ≡ kept_by read self.old }
    {
        match read {
            Some(read) => self.keep(read),
            None => {}
        }
    }

    /// Has the descriptors lead where they led. What was read of the shell's own input stays read.
    pub(crate) fn lead_back(self, session: &mut Session)
        ensures { session.new ≡ in_streams (put_back self) session.old }
    {
        let Before {
            from,
            to,
            errors_to,
            held,
        } = self;
        read_again(from, session);
        session.streams.to = to;
        session.streams.errors_to = errors_to;
        session.streams.held = held;
    }
}

/// Has descriptor 0 read what it read before, if it was something else.
fn read_again(from: Option<From>, session: &mut Session)
    ensures { session.new ≡ in_streams (read_again_def from) session.old }
{
    match from {
        Some(from) => session.streams.from = from,
        None => {}
    }
}

/// Has descriptor 0 read a text, and gives what it read.
pub(crate) fn read_instead(text: Rest, session: &mut Session) -> From
    ensures from { result ≡ session.old.streams.from }
    ensures session { session.new ≡ reading (From.Kept text) session.old }
{
    mem::replace(&mut session.streams.from, From::Kept(text))
}

/// Has a descriptor lead to a place.
pub(crate) fn lead(number: u8, place: To, session: &mut Session)
    ensures { session.new ≡ in_streams (leads_to number place) session.old }
{
    if number == 2 {
        session.streams.errors_to = place;
        return;
    }
    session.streams.to = place;
}

/// Where the descriptor leads that a redirection copies.
pub(crate) fn led_to(text: &[u8], streams: &Streams) -> Result<To, Memory>
    ensures { IfOk result (λ place. place ≡ led_to_def text.now streams.now) }
{
    if text == b"2".as_slice() {
        return streams.errors_to.copy();
    }
    streams.to.copy()
}
