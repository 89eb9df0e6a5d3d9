//! A source and room for what is read from it.
ghost use Rattle.std.specs.Prelude.{◌≡◌, ◌<◌, ◌≤◌, [], ◌∷◌, true, false, length, IfOk};
ghost use Rattle.fl_graph.specs.Machines.{is_broken, is_mark};
ghost use Rattle.fl_graph.specs.Runs.{is_end, text_of};
ghost use Rattle.fl_graph.specs.declared.pieces.TheConstants.{MAX_PIECE};
ghost use Rattle.ps_world.specs.Counts.{Counts};
ghost use Rattle.ps_world.specs.Told.{bytes_then, IsEnded};

use crate::streams::read_from;
use fl_graph::{MAX_PIECE, Piece};
use ps_lines::Memory;
use ps_world::{Source, WorldErr};
use std::alloc::Global;

/// What a source reads from, and a buffer, which is made as the first piece is read.
#[derive(Drop)]
pub struct Inlet<S> {
    pub end: S,
    buffer: Option<Buffer>,
}

/// Room for one piece.
#[derive(Drop)]
struct Buffer {
    bytes: Vec<u8>,
    ghost some: { 0 < length bytes.items },
    ghost fits: { length bytes.items ≤ MAX_PIECE },
}

/// The buffer that is there, or a new one.
fn buffer_for(alloc: Global, held: Option<Buffer>) -> Result<Buffer, Memory> {
    match held {
        Some(buffer) => Ok(buffer),
        None => new_buffer(alloc),
    }
}

fn new_buffer(alloc: Global) -> Result<Buffer, Memory> {
    match vec![in alloc; 0; MAX_PIECE] {
        Ok(bytes) => Ok(Buffer { bytes }),
        Err(_refused) => Err(Memory),
    }
}

impl<S> Inlet<S> {
    /// This end, before anything is read from it.
    pub fn new(end: S) -> Inlet<S>
        ensures { result.end ≡ end }
    {
        Inlet { end, buffer: None }
    }

    /// The end.
    pub fn into_end(self) -> S
        ensures { result ≡ self.end }
    {
        let Inlet {
            end,
            buffer: _buffer,
        } = self;
        end
    }
}

impl<S: Source> Inlet<S> {
    /// Reads a piece: the end of the text where nothing is left.
    pub fn read_piece(&mut self, alloc: Global) -> Result<Piece, WorldErr>
        ensures plain { IfOk result (λ piece. is_mark piece ≡ false) }
        ensures whole { IfOk result (λ piece. is_broken piece ≡ false) }
        ensures bytes { IfOk result (λ piece. S.left self.old.end ≡ bytes_then (text_of (piece ∷ [])) (S.left self.new.end)) }
        ensures ended { IfOk result (λ piece. is_end piece ≡ true → IsEnded (S.left self.new.end)) }
        ensures cause { Counts (S.faults self.old.end) (S.faults self.new.end) result }
    {
        let mut buffer = match buffer_for(alloc, self.buffer.take()) {
            Ok(buffer) => buffer,
            Err(_refused) => return Err(WorldErr::Memory),
        };
        let read = read_from(alloc, &mut self.end, buffer.bytes.as_mut_slice());
        self.buffer = Some(buffer);
        read
    }
}
