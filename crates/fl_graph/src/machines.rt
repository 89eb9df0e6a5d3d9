//! Machines: what runs a node.
ghost use Rattle.std.specs.Prelude.{◌≡◌, ℕ, List, [], true, false, ◌||◌, OnOk, OnErr, IfOk};
ghost use Rattle.fl_graph.specs.Machines.{closes, comes, is_broken, is_put, is_stray, is_take, port_put, port_taken, shut_by, DidPut, MayDo};

use crate::pieces::{Act, Piece};
use ps_lines::Memory;

/// A node at work: it takes pieces from its ins and puts pieces on its outs, one at a time, and says which it does next.
///
/// What it is to its callers is its `state`. There `due` is the node's equation at the point that it has come to: what it has still to put
/// on each out if these values and no others come at its ins. So what it has put is always a front of what its equation gives, whatever
/// comes, and the whole of it once it has ended the out.
///
/// Where memory is refused, where it is broken off, or where `Broken` comes at an in, the machine is broken: it puts no more bytes, ends each
/// out that it hasn't ended by `Broken`, takes its ins to their ends, and stops.
pub trait Machine: Drop {
    ghost use Rattle.fl_graph.specs.Machines.{State};
    ghost use Rattle.fl_graph.specs.declared.pieces.Act.TheVariants.{Stop};

    /// What it is to its callers.
    ghost state: { Self → State };

    /// What it does next: it names no end that is shut, and stops exactly where all are.
    fn next(&self) -> Act
        ensures act { result ≡ (state self.now).act }
        ensures may { MayDo (state self.now) result };

    /// Takes the piece that comes at the in which `next` names; a mark, only where that in carries blocks. On Memory the piece is dropped, and
    /// the machine is broken.
    fn take(&mut self, piece: Piece) -> Result<(), Memory>
        requires turn { is_take (state self.old).act ≡ true }
        requires known { is_stray (state self.old) piece ≡ false }
        ensures takes { (port : ℕ) → (state self.new).takes port ≡ shut_by (closes piece) (port_taken (state self.old).act) (state self.old).takes port }
        ensures puts { (port : ℕ) → (state self.new).puts port ≡ (state self.old).puts port }
        ensures numbered_ins { (port : ℕ) → (state self.new).numbered_ins port ≡ (state self.old).numbered_ins port }
        ensures numbered_outs { (port : ℕ) → (state self.new).numbered_outs port ≡ (state self.old).numbered_outs port }
        ensures due { (state self.new).broken ≡ false → (values : ℕ → List ℕ) (port : ℕ) →
            (state self.new).due values port ≡ (state self.old).due (comes (port_taken (state self.old).act) piece values) port }
        ensures selects { (state self.new).broken ≡ false → (values : ℕ → List ℕ) →
            (state self.new).selects values ≡ (state self.old).selects (comes (port_taken (state self.old).act) piece values) }
        ensures broken { OnOk result ((state self.new).broken ≡ ((state self.old).broken || is_broken piece)) }
        ensures memory { OnErr result (((state self.old).broken ≡ false) × ((state self.new).broken ≡ true)) };

    /// The piece that it puts on the out which `next` names. On Memory nothing is put, and the machine is broken.
    fn put(&mut self) -> Result<Piece, Memory>
        requires turn { is_put (state self.old).act ≡ true }
        ensures takes { (port : ℕ) → (state self.new).takes port ≡ (state self.old).takes port }
        ensures puts { IfOk result (λ piece. (port : ℕ) → (state self.new).puts port ≡ shut_by (closes piece) (port_put (state self.old).act) (state self.old).puts port) }
        ensures numbered_ins { (port : ℕ) → (state self.new).numbered_ins port ≡ (state self.old).numbered_ins port }
        ensures numbered_outs { (port : ℕ) → (state self.new).numbered_outs port ≡ (state self.old).numbered_outs port }
        ensures put { IfOk result (λ piece. DidPut (state self.old) (state self.new) (port_put (state self.old).act) piece) }
        ensures selects { OnOk result ((values : ℕ → List ℕ) → (state self.new).selects values ≡ (state self.old).selects values) }
        ensures broken { OnOk result ((state self.new).broken ≡ (state self.old).broken) }
        ensures memory { OnErr result (((state self.old).broken ≡ false) × ((state self.new).broken ≡ true) × ((port : ℕ) → (state self.new).puts port ≡ (state self.old).puts port)) };

    /// Breaks the machine, for what happened outside it: memory was refused to an edge of its node, or what the node reads or writes failed.
    /// Takes no memory.
    fn break_off(&mut self)
        ensures takes { (port : ℕ) → (state self.new).takes port ≡ (state self.old).takes port }
        ensures puts { (port : ℕ) → (state self.new).puts port ≡ (state self.old).puts port }
        ensures numbered_ins { (port : ℕ) → (state self.new).numbered_ins port ≡ (state self.old).numbered_ins port }
        ensures numbered_outs { (port : ℕ) → (state self.new).numbered_outs port ≡ (state self.old).numbered_outs port }
        ensures broken { (state self.new).broken ≡ true };

    /// Whether it has selected a line, once it has stopped and isn't broken (XCU grep, EXIT STATUS).
    fn selected(&self) -> bool
        ensures { (state self.now).act ≡ Stop → (state self.now).broken ≡ false → result ≡ (state self.now).selects (λ _. []) };
}
