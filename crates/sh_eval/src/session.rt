//! What a shell shares with the shells around it.
use crate::rests::Rest;
use crate::streams::{From, HeldPaths, Streams, To};
use ps_lines::{Memory, Text};
use std::alloc::Global;
use std::marker::Model;
use std::mem;

/// The texts that open pipes have taken in, the outermost first. Contracts see their list.
#[derive(Debug, Drop)]
pub struct Pipes {
    texts: Vec<Vec<u8>>,
}

impl Model for Pipes {
    ghost use Rattle.std.specs.Prelude.{ℕ, List};
    ghost use Rattle.ps_lines.specs.Texts.{texts_of};

    ghost Value = { List (List ℕ) };

    ghost view = { λ pipes. texts_of pipes.texts.items };
}

/// What a shell shares with the shells around it, besides files, input and output.
#[derive(Debug, Drop)]
pub struct Session {
    pub streams: Streams,
    /// What each open pipe has taken in.
    pub pipes: Pipes,
    /// What the stage before this one has written.
    pub piped: Text,
    /// The turns of loops that were used.
    pub turns: u64,
}

impl Pipes {
    ghost use Rattle.std.specs.Prelude.{◌≡◌, [], ◌∷◌, ◌++◌, ◌-◌, get_or, length, take, OnOk, OnErr};
    ghost use Rattle.sh_eval.specs.States.{grown_at};

    /// How many pipes are open.
    fn count(&self) -> u64
        ensures { result ≡ length self.now }
    {
        self.texts.len() as u64
    }

    /// Opens a pipe inside all others.
    fn open(&mut self, alloc: Global) -> Result<(), Memory>
        ensures ok { OnOk result (self.new ≡ self.old ++ [] ∷ []) }
        ensures err { OnErr result (self.new ≡ self.old) }
    {
        Ok(self.texts.push(Vec::new(alloc))?)
    }

    /// Puts bytes behind what the pipe of this number has taken in.
    pub(crate) fn append(&mut self, number: u64, bytes: &[u8]) -> Result<(), Memory>
        ensures ok { OnOk result (self.new ≡ grown_at number bytes.now self.old) }
        ensures err { OnErr result (self.new ≡ self.old) }
    {
        let place = number as usize;
        if place < self.texts.len() {
            self.texts[place].extend_from_slice(bytes)?;
        }
        Ok(())
    }

    /// Closes the innermost pipe, and gives what it has taken in.
    fn close(&mut self, alloc: Global) -> Vec<u8>
        ensures text { result.items ≡ get_or self.old (length self.old - 1) [] }
        ensures rest { self.new ≡ take (length self.old - 1) self.old }
    {
        self.texts.pop().unwrap_or(Vec::new(alloc))
    }
}

impl Session {
    ghost use Rattle.std.specs.Prelude.{◌≡◌, IfOk, OnErr};
    ghost use Rattle.sh_eval.specs.Commands.{reading_piped};
    ghost use Rattle.sh_eval.specs.Meaning.{begun_session};
    ghost use Rattle.sh_eval.specs.Segments.{no_pipe};
    ghost use Rattle.sh_eval.specs.States.{piping, reading, unpiped, innermost};

    /// The session in which a run begins: no pipe is open, and no path is held.
    pub(crate) fn begun(alloc: Global) -> Session
        ensures { result ≡ begun_session }
    {
        Session {
            streams: Streams {
                from: From::Standard,
                to: To::Output,
                errors_to: To::Errors,
                held: HeldPaths::new(alloc),
            },
            pipes: Pipes {
                texts: Vec::new(alloc),
            },
            piped: Text::from_vec(Vec::new(alloc)),
            turns: 0,
        }
    }

    /// What it takes memory from.
    pub(crate) fn alloc(&self) -> Global {
        *self.pipes.texts.allocator()
    }

    /// Opens a pipe, which takes in the output, and gives where the output went.
    pub(crate) fn open_pipe(&mut self, alloc: Global) -> Result<To, Memory>
        ensures ok { IfOk result (λ place. (place ≡ self.old.streams.to) × (self.new ≡ piping self.old)) }
        ensures err { OnErr result (self.new ≡ self.old) }
    {
        let number = self.pipes.count();
        self.pipes.open(alloc)?;
        Ok(mem::replace(&mut self.streams.to, To::Pipe(number)))
    }

    /// Closes the pipe, and keeps what it has taken in for the next stage; the output goes to `place`.
    pub(crate) fn hand_on(&mut self, alloc: Global, place: To)
        ensures { self.new ≡ unpiped place (record self.old { piped = innermost self.old }) }
    {
        let text = self.close_pipe(alloc, place);
        self.piped = Text::from_vec(text);
    }

    /// Closes the pipe, and gives what it has taken in; the output goes to `place`.
    pub(crate) fn close_pipe(&mut self, alloc: Global, place: To) -> Vec<u8>
        ensures text { result.items ≡ innermost self.old }
        ensures session { self.new ≡ unpiped place self.old }
    {
        let text = self.pipes.close(alloc);
        self.streams.to = place;
        text
    }

    /// Leaves nothing for a next stage.
    pub(crate) fn empty_pipe(&mut self, alloc: Global)
        ensures { self.new ≡ no_pipe self.old }
    {
        self.piped = Text::from_vec(Vec::new(alloc));
    }

    /// Reads what the stage before has written, and gives what was read until now.
    pub(crate) fn read_piped(&mut self, alloc: Global) -> From
        ensures from { result ≡ self.old.streams.from }
        ensures session { self.new ≡ reading_piped self.old }
    {
        let piped = mem::replace(&mut self.piped, Text::from_vec(Vec::new(alloc)));
        mem::replace(
            &mut self.streams.from,
            From::Kept(Rest::of(piped.into_vec())),
        )
    }

    /// Reads this.
    pub(crate) fn read_from(&mut self, source: From)
        ensures { self.new ≡ reading source self.old }
    {
        self.streams.from = source;
    }
}
