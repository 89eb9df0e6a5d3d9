//! The pieces that wait on an edge.
ghost use Rattle.std.specs.Prelude.{◌≡◌, ◌∷◌, ◌++◌, [], true, false, IfSome, IfNone, OnOk, OnErr};
ghost use Rattle.fl_net.specs.Steps.{has_bytes, is_full, Broke, GaveLast};

use fl_graph::{Machine, Piece, break_machine, put_piece};
use ps_lines::Memory;
use std::alloc::Global;
use std::collections::VecDeque;
use std::marker::Model;

/// The pieces that were put on an edge and not taken, the oldest first. Contracts see the list of them.
#[derive(Drop)]
pub struct Wire {
    pieces: VecDeque<Piece>,
}

impl Model for Wire {
    ghost use Rattle.std.specs.Prelude.{List};
    ghost use Rattle.fl_graph.specs.declared.pieces.Piece.{Piece as Pieces};

    ghost Value = { List Pieces };

    ghost view = { λ wire. wire.pieces.items };
}

impl Wire {
    ghost use Rattle.fl_graph.specs.Machines.{is_put, port_put, MayDo};

    /// An edge on which nothing waits.
    pub fn new(alloc: Global) -> Wire
        ensures { result ≡ [] }
    {
        Wire {
            pieces: VecDeque::new(alloc),
        }
    }

    /// Whether as many pieces wait as there is room for. It is a bound on memory alone, and `push` takes more.
    pub fn is_full(&self, room: Option<u32>) -> bool
        ensures { result ≡ is_full room self.now }
    {
        match room {
            Some(room) => self.pieces.len() >= room as usize,
            None => false,
        }
    }

    /// Puts a piece behind those that wait. On Memory the piece is dropped, and nothing changes.
    pub fn push(&mut self, piece: Piece) -> Result<(), Memory>
        ensures ok { OnOk result (self.new ≡ self.old ++ piece ∷ []) }
        ensures err { OnErr result (self.new ≡ self.old) }
    {
        match self.pieces.push_back(piece) {
            Ok(()) => Ok(()),
            Err(_refused) => Err(Memory),
        }
    }

    /// Puts the piece behind those that wait which the machine puts next.
    ///
    /// Room for it is made first, so that none is lost: on Memory nothing changes here, and the machine is broken.
    pub fn push_from<M: Machine>(&mut self, machine: &mut M) -> Result<(), Memory>
        requires turn { is_put (M.state machine.old).act ≡ true }
        requires may { MayDo (M.state machine.old) (M.state machine.old).act }
        requires plain { (M.state machine.old).numbered_outs (port_put (M.state machine.old).act) ≡ false }
        ensures gave { OnOk result (GaveLast (M.state machine.old) (M.state machine.new) (port_put (M.state machine.old).act) self.old self.new) }
        ensures refused { OnErr result (Broke (M.state machine.old) (M.state machine.new)) }
        ensures broken { OnErr result ((M.state machine.new).broken ≡ true) }
        ensures same { OnErr result (self.new ≡ self.old) }
    {
        if self.pieces.try_reserve(1).is_err() {
            break_machine(machine);
            return Err(Memory);
        }
        let piece = match put_piece(machine) {
            Ok(piece) => piece,
            Err(memory) => return Err(memory),
        };
        a_piece_has_bytes(&piece);
        match self.pieces.push_back(piece) {
            Ok(()) => Ok(()),
            // There is room for one more.
            Err(_refused) => unreachable!(),
        }
    }

    /// Takes the piece that has waited longest, where one waits.
    pub fn pop(&mut self) -> Option<Piece>
        ensures some { IfSome result (λ piece. self.old ≡ piece ∷ self.new) }
        ensures none { IfNone result ((self.old ≡ []) × (self.new ≡ [])) }
    {
        self.pieces.pop_front()
    }
}

/// Does nothing: a piece of bytes has one at least, since its type says so.
fn a_piece_has_bytes(piece: &Piece)
    ensures { has_bytes piece.now ≡ true }
{
    if let Piece::Bytes(bytes) = piece {
        let _ = bytes.as_slice();
    }
}
