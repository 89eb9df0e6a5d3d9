//! The ends that nodes have: files and the standard streams.

use crate::ends::OwnEnd;
use crate::inlets::Inlet;
use crate::streams::write_to;
use fl_graph::Piece;
use ps_world::{Sink, Source, WorldErr};
use std::alloc::Global;

/// What a node reads or writes outside.
#[derive(Drop)]
pub enum Own<R, W, I, O> {
    /// It does neither.
    Nothing,
    /// It reads a file.
    Reader(Inlet<R>),
    /// It writes a file.
    Writer(W),
    /// It reads standard input.
    Input(Inlet<I>),
    /// It writes standard output.
    Output(O),
}

impl<R: Source, W: Sink, I: Source, O: Sink> OwnEnd for Own<R, W, I, O> {
    ghost use Rattle.fl_nodes.specs.Ends.{nothing, reading, writing, Reader, Writer, Input, Output};
    ghost use Rattle.fl_nodes.specs.declared.own.Own.TheVariants as own;

    ghost state = { λ end. elim end [
      | own.Nothing ↦ nothing
      | own.Reader inlet ↦ reading Reader (R.left inlet.end) (R.faults inlet.end)
      | own.Writer writer ↦ writing Writer (W.taken writer) (W.faults writer)
      | own.Input inlet ↦ reading Input (I.left inlet.end) (I.faults inlet.end)
      | own.Output out ↦ writing Output (O.taken out) (O.faults out)
    ] };

    fn is_read(&self) -> bool {
        matches!(self, Own::Reader(_) | Own::Input(_))
    }

    fn is_written(&self) -> bool {
        matches!(self, Own::Writer(_) | Own::Output(_))
    }

    fn read_piece(&mut self, alloc: Global) -> Result<Piece, WorldErr> {
        match self {
            Own::Reader(inlet) => inlet.read_piece(alloc),
            Own::Input(inlet) => inlet.read_piece(alloc),
            Own::Nothing | Own::Writer(_) | Own::Output(_) => unreachable!(),
        }
    }

    fn write_piece(&mut self, piece: &Piece) -> Result<(), WorldErr> {
        match self {
            Own::Writer(writer) => write_to(writer, piece),
            Own::Output(out) => write_to(out, piece),
            Own::Nothing | Own::Reader(_) | Own::Input(_) => unreachable!(),
        }
    }
}
