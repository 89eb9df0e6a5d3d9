//! Pieces from a source and to a sink.
ghost use Rattle.std.specs.Prelude.{◌≡◌, ◌<◌, ◌≤◌, [], ◌∷◌, true, false, length, IfOk, OnOk, OnErr};
ghost use Rattle.fl_graph.specs.Machines.{is_broken, is_mark};
ghost use Rattle.fl_graph.specs.Runs.{is_end, text_of};
ghost use Rattle.fl_graph.specs.declared.pieces.TheConstants.{MAX_PIECE};
ghost use Rattle.ps_world.specs.Counts.{Counts};
ghost use Rattle.ps_world.specs.Told.{bytes_then, then_bytes, GrewByPrefix, IsEnded};

use fl_graph::{Bytes, MAX_PIECE, Piece};
use ps_world::{Sink, Source, WorldErr, write_all};
use std::alloc::Global;

/// Reads a piece through a buffer: the end of the text where nothing is left.
pub(crate) fn read_from<S: Source>(
    alloc: Global,
    source: &mut S,
    buffer: &mut [u8],
) -> Result<Piece, WorldErr>
    requires room { (0 < length buffer.old) × (length buffer.old ≤ MAX_PIECE) }
    ensures plain { IfOk result (λ piece. is_mark piece ≡ false) }
    ensures whole { IfOk result (λ piece. is_broken piece ≡ false) }
    ensures bytes { IfOk result (λ piece. S.left source.old ≡ bytes_then (text_of (piece ∷ [])) (S.left source.new)) }
    ensures ended { IfOk result (λ piece. is_end piece ≡ true → IsEnded (S.left source.new)) }
    ensures cause { Counts (S.faults source.old) (S.faults source.new) result }
{
    let count = match source.read(buffer) {
        Ok(count) => count,
        Err(error) => return Err(error),
    };
    if count == 0 {
        return Ok(Piece::End);
    }
    match Vec::from_slice(alloc, &buffer[..count]) {
        Ok(bytes) => Ok(Piece::Bytes(Bytes::new(bytes))),
        Err(_refused) => Err(WorldErr::Memory),
    }
}

/// Writes a piece: its bytes, where it has some. On an error the sink has taken a front of them.
pub(crate) fn write_to<S: Sink>(sink: &mut S, piece: &Piece) -> Result<(), WorldErr>
    requires plain { is_mark piece.now ≡ false }
    ensures ok { OnOk result (S.taken sink.new ≡ then_bytes (S.taken sink.old) (text_of (piece.now ∷ []))) }
    ensures err { OnErr result (GrewByPrefix (S.taken sink.old) (S.taken sink.new) (text_of (piece.now ∷ []))) }
    ensures cause { Counts (S.faults sink.old) (S.faults sink.new) result }
{
    let Piece::Bytes(bytes) = piece else {
        return Ok(());
    };
    match write_all(sink, bytes.as_slice()) {
        Ok(()) => Ok(()),
        Err(error) => Err(error),
    }
}
