//! The end that a node has outside.
ghost use Rattle.std.specs.Prelude.{◌≡◌, true, false, [], ◌∷◌, IfOk, OnOk, OnErr};
ghost use Rattle.fl_graph.specs.Machines.{is_broken, is_mark};
ghost use Rattle.fl_graph.specs.Runs.{is_end, text_of};
ghost use Rattle.fl_nodes.specs.Ends.{SameEnd};
ghost use Rattle.ps_world.specs.Counts.{Counts};
ghost use Rattle.ps_world.specs.Told.{bytes_then, then_bytes, GrewByPrefix, IsEnded};

use fl_graph::Piece;
use ps_world::WorldErr;
use std::alloc::Global;

/// What a node reads or writes outside of its graph, or nothing.
pub trait OwnEnd {
    ghost use Rattle.fl_nodes.specs.Ends.{EndState};

    /// What it is to its callers.
    ghost state: { Self → EndState };

    /// Whether it is read.
    fn is_read(&self) -> bool
        ensures { result ≡ (state self.now).reads };

    /// Whether it is written.
    fn is_written(&self) -> bool
        ensures { result ≡ (state self.now).writes };

    /// Reads a piece: the end of the text where nothing is left. On Memory what it read is lost.
    fn read_piece(&mut self, alloc: Global) -> Result<Piece, WorldErr>
        requires { (state self.old).reads ≡ true }
        ensures plain { IfOk result (λ piece. is_mark piece ≡ false) }
        ensures whole { IfOk result (λ piece. is_broken piece ≡ false) }
        ensures bytes { IfOk result (λ piece. (state self.old).left ≡ bytes_then (text_of (piece ∷ [])) (state self.new).left) }
        ensures ended { IfOk result (λ piece. is_end piece ≡ true → IsEnded (state self.new).left) }
        ensures cause { Counts (state self.old).faults (state self.new).faults result }
        ensures same { SameEnd (state self.old) (state self.new) };

    /// Writes a piece: its bytes, where it has some. On an error the end has taken a front of them.
    fn write_piece(&mut self, piece: &Piece) -> Result<(), WorldErr>
        requires writes { (state self.old).writes ≡ true }
        requires plain { is_mark piece.now ≡ false }
        ensures ok { OnOk result ((state self.new).taken ≡ then_bytes (state self.old).taken (text_of (piece.now ∷ []))) }
        ensures err { OnErr result (GrewByPrefix (state self.old).taken (state self.new).taken (text_of (piece.now ∷ []))) }
        ensures cause { Counts (state self.old).faults (state self.new).faults result }
        ensures same { SameEnd (state self.old) (state self.new) };
}
