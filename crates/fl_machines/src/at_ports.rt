//! A machine with a stream of several inputs at once in it.
ghost use Rattle.std.specs.Prelude.{◌≡◌, ◌≤◌, ◌<◌, ◌==◌, ◌^◌, ℕ, List, [], length, vec_len, drop, get_or, nat_lt, Bool, true, false, Option, None, IfSome, IfNone, IfOk, if◌then◌else◌};
ghost use Rattle.fl_machines.specs.AtPorts.{first_open as first_open_def, turn_of};

use crate::waiting::Waiting;
use fl_graph::{Act, Machine, Piece};
use ps_lines::Memory;
use std::alloc::Global;
use ut_streams::PortStream;

/// The machine of a node with one out that puts what a stream makes of its inputs, each at the in of its number: it takes from the in that the
/// stream needs.
#[derive(Drop)]
pub struct AtPorts<S: PortStream> {
    stream: S,
    waiting: Waiting,
    /// Of each in, whether it hasn't ended. A machine that is broken takes them to their ends, and asks its stream for nothing.
    opens: Vec<bool>,
    putting: bool,
    broken: bool,
    ghost counted: { vec_len opens < 2 ^ 32 },
    ghost usable: { broken ≡ false → S.spent stream ≡ false },
    ghost agrees: { broken ≡ false → (port : ℕ) → S.open_at stream port ≡ get_or opens.items port false },
    ghost ended: { putting ≡ false → broken ≡ false → S.wanted stream ≡ None },
    ghost empty: { putting ≡ false → broken ≡ false → waiting ≡ [] },
}

impl<S: PortStream> AtPorts<S> {
    /// The machine of a node with so many ins, of a stream that is at its beginning.
    pub fn new(alloc: Global, stream: S, ins: u32) -> Result<AtPorts<S>, Memory>
        requires unspent { S.spent stream ≡ false }
        requires ports { (port : ℕ) → S.open_at stream port ≡ nat_lt port ins }
        ensures stream { IfOk result (λ machine. machine.stream ≡ stream) }
        ensures waiting { IfOk result (λ machine. machine.waiting ≡ []) }
        ensures opens { IfOk result (λ machine. (port : ℕ) → get_or machine.opens.items port false ≡ nat_lt port ins) }
        ensures putting { IfOk result (λ machine. machine.putting ≡ true) }
        ensures broken { IfOk result (λ machine. machine.broken ≡ false) }
    {
        match all_open(alloc, ins) {
            Ok(opens) => Ok(AtPorts {
                stream,
                waiting: Waiting::nothing(alloc),
                opens,
                putting: true,
                broken: false,
            }),
            Err(memory) => Err(memory),
        }
    }

    /// The in whose turn it is.
    fn turn(&self) -> Option<u32>
        ensures turn { result ≡ turn_of self.now.broken self.now.opens.items (S.wanted self.now.stream) }
        ensures some { IfSome result (λ port. get_or self.now.opens.items port false ≡ true) }
        ensures none { IfNone result ((port : ℕ) → get_or self.now.opens.items port false ≡ false) }
    {
        if self.broken {
            return first_open(self.opens.as_slice());
        }
        self.stream.needs()
    }
}

/// So many ins, all of which are open.
#[tactic(auto, using(crate::proofs::PortLemmas::opened))]
fn all_open(alloc: Global, ins: u32) -> Result<Vec<bool>, Memory>
    ensures count { IfOk result (λ opens. vec_len opens < 2 ^ 32) }
    ensures opens { IfOk result (λ opens. (port : ℕ) → get_or opens.items port false ≡ nat_lt port ins) }
{
    let mut opens = Vec::new(alloc);
    for _ in 0..ins {
        opens.push(true)?;
    }
    Ok(opens)
}

/// The first in that is open.
#[tactic(auto, using(crate::proofs::PortLemmas::firsts))]
fn first_open(opens: &[bool]) -> Option<u32>
    requires { length opens.now < 2 ^ 32 }
    ensures first { result ≡ first_open_def 0 opens.now }
    ensures some { IfSome result (λ port. get_or opens.now port false ≡ true) }
    ensures none { IfNone result ((port : ℕ) → get_or opens.now port false ≡ false) }
{
    let mut at = 0;
    let mut left = opens;
    while let [is_open, rest @ ..] = left {
        if *is_open {
            return Some(at);
        }
        at += 1;
        left = rest;
    }
    None
}

/// An in has ended.
#[tactic(auto, using(crate::proofs::PortLemmas::closes))]
fn close(opens: &mut Vec<bool>, port: u32)
    ensures count { vec_len opens.new ≡ vec_len opens.old }
    ensures opens { (other : ℕ) → get_or opens.new.items other false ≡ (if other == port then false else get_or opens.old.items other false) }
{
    let place = port as usize;
    if place < opens.len() {
        opens[place] = false;
    }
}

impl<S: PortStream> Machine for AtPorts<S> {
    ghost use Rattle.std.specs.Prelude.{◌||◌};
    ghost use Rattle.fl_machines.specs.AtPorts.{due_at_ports, next_at_ports};
    ghost use Rattle.fl_machines.specs.Through.{only_port};
    ghost use Rattle.fl_machines.specs.Waiting.{is_worth_putting};

    ghost state = { λ machine. record {
      act = next_at_ports (machine.broken || is_worth_putting machine.waiting) (turn_of machine.broken machine.opens.items (S.wanted machine.stream)) machine.putting;
      takes = λ port. get_or machine.opens.items port false;
      puts = only_port machine.putting;
      numbered_ins = λ port. false;
      numbered_outs = λ port. false;
      broken = machine.broken;
      due = due_at_ports machine.waiting (S.due machine.stream);
      selects = λ texts. false;
    } };

    fn next(&self) -> Act {
        if self.putting && (self.broken || self.waiting.is_worth_putting()) {
            return Act::Put(0);
        }
        match self.turn() {
            Some(port) => Act::Take(port),
            None => {
                if self.putting {
                    return Act::Put(0);
                }
                Act::Stop
            }
        }
    }

    #[tactic(auto, using(crate::proofs::PortLemmas::takes))]
    fn take(&mut self, piece: Piece) -> Result<(), Memory> {
        let Some(port) = self.turn() else {
            unreachable!()
        };
        match piece {
            Piece::Bytes(bytes) => {
                if self.broken {
                    return Ok(());
                }
                let mut out = self.waiting.buffer();
                let fed = self.stream.feed_port(port, bytes.as_slice(), &mut out);
                self.waiting.hold(out);
                self.waiting.keep(bytes);
                self.broken = fed.is_err();
                fed
            }
            Piece::Mark => Ok(()),
            Piece::End => {
                close(&mut self.opens, port);
                if self.broken {
                    return Ok(());
                }
                let mut out = self.waiting.buffer();
                let ended = self.stream.end_port(port, &mut out);
                self.waiting.hold(out);
                self.broken = ended.is_err();
                ended
            }
            Piece::Broken => {
                close(&mut self.opens, port);
                self.broken = true;
                Ok(())
            }
        }
    }

    fn put(&mut self) -> Result<Piece, Memory> {
        if self.broken {
            self.putting = false;
            return Ok(Piece::Broken);
        }
        if self.waiting.is_empty() {
            return match self.stream.needs() {
                Some(_) => unreachable!(),
                None => {
                    self.putting = false;
                    Ok(Piece::End)
                }
            };
        }
        match self.waiting.next() {
            Ok(bytes) => Ok(Piece::Bytes(bytes)),
            Err(memory) => {
                self.broken = true;
                Err(memory)
            }
        }
    }

    fn break_off(&mut self) {
        self.broken = true;
    }

    fn selected(&self) -> bool {
        false
    }
}
