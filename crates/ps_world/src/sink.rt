//! Where bytes go.
ghost use Rattle.std.specs.Prelude.{◌≡◌, ℕ, ◌<◌, ◌≤◌, List, length, take, Option, MatchResult, IfOk, IfSome};
ghost use Rattle.ps_lines.specs.Texts.{BeginsWith};
ghost use Rattle.ps_world.specs.Counts.{Counts};
ghost use Rattle.ps_world.specs.Told.{then_bytes};

use crate::error::WorldErr;

/// A stream of bytes that is written to its end, as standard output or a file that is being made.
pub trait Sink {
    /// The bytes that it has taken, where the sink tells them.
    ghost taken: { Self → Option (List ℕ) };
    /// Those of them that a flush has sent on.
    ghost sent: { Self → Option (List ℕ) };
    /// How many of its calls have failed.
    ghost faults: { Self → ℕ };

    /// Takes a front of `bytes`, and answers how many bytes it took: 0 only of an empty piece.
    ///
    /// An error leaves what was taken as it was. A write sends nothing on by itself.
    fn write(&mut self, bytes: &[u8]) -> Result<usize, WorldErr>
        ensures bound { IfOk result (λ count. count ≤ length bytes.now) }
        ensures some { 0 < length bytes.now → IfOk result (λ count. 0 < count) }
        ensures taken { MatchResult result
            (λ count. taken self.new ≡ then_bytes (taken self.old) (take count bytes.now))
            (λ _. taken self.new ≡ taken self.old) }
        ensures sent { sent self.new ≡ sent self.old }
        ensures cause { Counts (faults self.old) (faults self.new) result };

    /// Sends on all that was taken. An error leaves what was sent as it was.
    fn flush(&mut self) -> Result<(), WorldErr>
        ensures taken { taken self.new ≡ taken self.old }
        ensures sent { MatchResult result
            (λ _. sent self.new ≡ taken self.old)
            (λ _. sent self.new ≡ sent self.old) }
        ensures cause { Counts (faults self.old) (faults self.new) result };

    /// What was sent is the front of what was taken.
    ghost sent_first: { (sink : Self) → IfSome (taken sink) (λ taken. IfSome (sent sink) (BeginsWith taken)) };
}
