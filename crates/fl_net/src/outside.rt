//! Pieces from the outside and to it.
ghost use Rattle.std.specs.Prelude.{◌≡◌, ◌==◌, ◌<◌, ◌≤◌, ℕ, [], ◌∷◌, true, false, length, IfOk, OnOk, OnErr};
ghost use Rattle.ps_world.specs.Told.{bytes_then, then_bytes, GrewByPrefix, IsEnded};
ghost use Rattle.fl_graph.specs.Machines.{is_broken, is_mark};
ghost use Rattle.fl_graph.specs.Runs.{is_end, text_of};
ghost use Rattle.fl_graph.specs.declared.pieces.TheConstants.{MAX_PIECE};
ghost use Rattle.fl_net.specs.Causes.{Causes};
ghost use Rattle.fl_net.specs.NodeEnds.{KeepsEnds};
ghost use Rattle.fl_net.specs.Steps.{has_bytes, is_plain};

use crate::ends::NodeEnds;
use fl_graph::{Bytes, MAX_PIECE, Piece};
use ps_world::WorldErr;
use std::alloc::Global;

/// Why a run halts before its end.
#[derive(Clone, Copy, Debug, PartialEq, Eq)]
pub enum Halt {
    /// The end of this node failed.
    Fault(u32),
    /// Memory was refused.
    Memory,
}

/// The halt that an error of a node's end makes.
pub(crate) fn halt_of(node: u32, error: WorldErr) -> Halt
    ensures fault { error ≡ WorldErr.Failed → result ≡ Halt.Fault node }
    ensures memory { error ≡ WorldErr.Memory → result ≡ Halt.Memory }
{
    match error {
        WorldErr::Failed => Halt::Fault(node),
        WorldErr::Memory => Halt::Memory,
    }
}

/// Reads a piece from a source's end, through a buffer: the end of the text where nothing is left.
pub(crate) fn read_piece<E: NodeEnds>(
    alloc: Global,
    node: u32,
    ends: &mut E,
    buffer: &mut [u8],
) -> Result<Piece, Halt>
    requires reads { E.reads ends.old node ≡ true }
    requires room { (0 < length buffer.old) × (length buffer.old ≤ MAX_PIECE) }
    ensures plain { IfOk result (λ piece. is_plain piece ≡ true) }
    ensures whole { IfOk result (λ piece. is_broken piece ≡ false) }
    ensures sized { IfOk result (λ piece. has_bytes piece ≡ true) }
    ensures bytes { IfOk result (λ piece. E.left ends.old node ≡ bytes_then (text_of (piece ∷ [])) (E.left ends.new node)) }
    ensures ended { IfOk result (λ piece. is_end piece ≡ true → IsEnded (E.left ends.new node)) }
    ensures left { (other : ℕ) → (other == node) ≡ false → E.left ends.new other ≡ E.left ends.old other }
    ensures taken { (other : ℕ) → E.taken ends.new other ≡ E.taken ends.old other }
    ensures kept { KeepsEnds E.reads E.writes E.borrows ends.old ends.new }
    ensures cause { Causes (E.faults ends.old) (E.faults ends.new) result }
{
    let count = match ends.read(node, buffer) {
        Ok(count) => count,
        Err(error) => return Err(halt_of(node, error)),
    };
    if count == 0 {
        return Ok(Piece::End);
    }
    match Vec::from_slice(alloc, &buffer[..count]) {
        Ok(bytes) => Ok(Piece::Bytes(Bytes::new(bytes))),
        Err(_refused) => Err(Halt::Memory),
    }
}

/// Writes a piece to a node's end: its bytes, where it has some; no mark comes there. On an error the end has taken a front of them.
pub(crate) fn write_piece<E: NodeEnds>(node: u32, ends: &mut E, piece: &Piece) -> Result<(), Halt>
    requires writes { E.writes ends.old node ≡ true }
    ensures ok { OnOk result (is_mark piece.now ≡ false → E.taken ends.new node ≡ then_bytes (E.taken ends.old node) (text_of (piece.now ∷ []))) }
    ensures err { OnErr result (GrewByPrefix (E.taken ends.old node) (E.taken ends.new node) (text_of (piece.now ∷ []))) }
    ensures taken { (other : ℕ) → (other == node) ≡ false → E.taken ends.new other ≡ E.taken ends.old other }
    ensures left { (other : ℕ) → E.left ends.new other ≡ E.left ends.old other }
    ensures kept { KeepsEnds E.reads E.writes E.borrows ends.old ends.new }
    ensures cause { Causes (E.faults ends.old) (E.faults ends.new) result }
{
    let Piece::Bytes(bytes) = piece else {
        return Ok(());
    };
    match ends.write_all(node, bytes.as_slice()) {
        Ok(()) => Ok(()),
        Err(error) => Err(halt_of(node, error)),
    }
}
