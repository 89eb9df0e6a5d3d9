//! The ends of nodes.
ghost use Rattle.std.specs.Prelude.{◌≡◌, ◌==◌, ℕ, List, Bool, true, false, Option};
ghost use Rattle.ps_world.specs.Counts.{Counts};
ghost use Rattle.fl_net.specs.NodeEnds.{DidRead, DidWrite, KeepsEnds};

use ps_world::WorldErr;

/// What a graph's sources read, and what those of its nodes write that write outside, by their numbers.
///
/// A call touches the end of its node alone.
pub trait NodeEnds {
    /// The bytes still to come at a source, where its end tells them.
    ghost left: { Self → ℕ → Option (List ℕ) };
    /// The bytes that the end of a node that writes has taken, where it tells them.
    ghost taken: { Self → ℕ → Option (List ℕ) };
    /// How many calls of a node's end have failed.
    ghost faults: { Self → ℕ → ℕ };
    /// The nodes that have an end to read.
    ghost reads: { Self → ℕ → Bool };
    /// The nodes that have an end to write.
    ghost writes: { Self → ℕ → Bool };
    /// The type of what no call changes.
    ghost Kept: { Type 0 };
    /// What no call changes: the borrows that it holds, by their ghost names, and which ends there are.
    ghost borrows: { Self → Kept };

    /// Reads into the front of `buffer` from a source's end, as `Source::read` does.
    fn read(&mut self, node: u32, buffer: &mut [u8]) -> Result<usize, WorldErr>
        requires { reads self.old node ≡ true }
        ensures read { DidRead (left self.old node) (left self.new node) buffer.new result }
        ensures left { (other : ℕ) → (other == node) ≡ false → left self.new other ≡ left self.old other }
        ensures taken { (other : ℕ) → taken self.new other ≡ taken self.old other }
        ensures cause { Counts (faults self.old node) (faults self.new node) result }
        ensures calm { (other : ℕ) → (other == node) ≡ false → faults self.new other ≡ faults self.old other }
        ensures kept { KeepsEnds reads writes borrows self.old self.new };

    /// Writes all of `bytes` to a node's end. On an error it has taken a front of them.
    fn write_all(&mut self, node: u32, bytes: &[u8]) -> Result<(), WorldErr>
        requires { writes self.old node ≡ true }
        ensures written { DidWrite (taken self.old node) (taken self.new node) bytes.now result }
        ensures taken { (other : ℕ) → (other == node) ≡ false → taken self.new other ≡ taken self.old other }
        ensures left { (other : ℕ) → left self.new other ≡ left self.old other }
        ensures cause { Counts (faults self.old node) (faults self.new node) result }
        ensures calm { (other : ℕ) → (other == node) ≡ false → faults self.new other ≡ faults self.old other }
        ensures kept { KeepsEnds reads writes borrows self.old self.new };
}
