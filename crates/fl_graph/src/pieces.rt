//! What comes along an edge.
ghost use Rattle.std.specs.Prelude.{◌≡◌, ◌<◌, length, min, take, IfOk};
ghost use Rattle.fl_graph.specs.declared.pieces.TheConstants.{MAX_PIECE};

use ps_lines::Memory;
use std::alloc::Global;
use std::marker::Model;

/// The most bytes that a piece has.
pub const MAX_PIECE: usize = 65_536;

/// The bytes of a piece: one at least, and `MAX_PIECE` at most. Contracts see the list of them.
#[derive(Debug, Drop)]
pub struct Bytes {
    bytes: Vec<u8>,
}

impl Model for Bytes {
    ghost use Rattle.std.specs.Prelude.{ℕ, List, ◌<◌, ◌≤◌, length};

    ghost Value = { List ℕ };

    ghost use Rattle.fl_graph.specs.declared.pieces.TheConstants.{MAX_PIECE};

    ghost view = { λ piece. piece.bytes.items };

    ghost invariant = { λ piece. (0 < length piece.bytes.items) × (length piece.bytes.items ≤ MAX_PIECE) };
}

impl Bytes {
    ghost use Rattle.std.specs.Prelude.{◌≡◌, ◌<◌, ◌≤◌, length};

    /// These bytes, as those of a piece.
    pub fn new(bytes: Vec<u8>) -> Bytes
        requires some { 0 < length bytes.items }
        requires fit { length bytes.items ≤ MAX_PIECE }
        ensures { result ≡ bytes.items }
    {
        Bytes { bytes }
    }

    /// The bytes.
    pub fn as_slice(&self) -> &[u8]
        ensures bytes { result.now ≡ self.now }
        ensures some { 0 < length self.now }
        ensures fit { length self.now ≤ MAX_PIECE }
    {
        self.bytes.as_slice()
    }

    /// The buffer that they lie in.
    pub fn into_vec(self) -> Vec<u8>
        ensures { result.items ≡ self }
    {
        self.bytes
    }
}

/// A piece of the front of these bytes, as long as a piece can be.
pub fn first_piece(alloc: Global, waiting: &[u8]) -> Result<Bytes, Memory>
    requires { 0 < length waiting.now }
    ensures { IfOk result (λ bytes. bytes ≡ take (min (length waiting.now) MAX_PIECE) waiting.now) }
{
    let bytes = Vec::from_slice(alloc, &waiting[..waiting.len().min(MAX_PIECE)])?;
    Ok(Bytes::new(bytes))
}

/// What is put on an edge at once. A text comes in pieces of bytes, cut anywhere, and is ended by one `End` or `Broken`.
#[derive(Debug, Drop)]
pub enum Piece {
    /// Bytes of the text.
    Bytes(Bytes),
    /// The end of a block. It comes on edges that carry numbered blocks alone, and no node has such edges yet.
    Mark,
    /// The text is whole. Nothing follows.
    End,
    /// The text won't become whole, since a node before couldn't go on. Nothing follows.
    Broken,
}

/// What a machine does next.
#[derive(Clone, Copy, Debug, PartialEq, Eq)]
pub enum Act {
    /// It takes a piece from this in, counted from 0 in the node's order.
    Take(u32),
    /// It puts a piece on this out, counted from 0 in the node's order.
    Put(u32),
    /// It has ended all its outs, and has taken all its ins to their ends.
    Stop,
}
