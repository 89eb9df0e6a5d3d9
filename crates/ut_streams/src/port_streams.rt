//! Streams of several inputs at once.
ghost use Rattle.std.specs.Prelude.{◌≡◌, ◌==◌, ℕ, List, [], Bool, true, false, not, Option, Some, None, IfSome, IfNone, if◌then◌else◌};
ghost use Rattle.std.specs.Result.{is_ok};
ghost use Rattle.ut_streams.specs.Streams.{comes_before, ends_at, Wrote};

use ps_lines::Memory;

/// A utility of several inputs, each at a port of its own, which says whose bytes it needs next.
///
/// What is due hangs on the texts that are still to come at the ports. Want of memory is the only refusal: the output has then grown by a
/// front of what was due, and the stream is spent.
pub trait PortStream: Drop {
    /// What is still to be written, if these texts and no others come at the ports.
    ghost due: { Self → (ℕ → List ℕ) → List ℕ };
    /// The port whose bytes are needed next, or whose end.
    ghost wanted: { Self → Option ℕ };
    /// Whether a port hasn't ended.
    ghost open_at: { Self → ℕ → Bool };
    /// Whether a call has answered Memory.
    ghost spent: { Self → Bool };

    /// The port whose bytes are needed next, or whose end; None where each port has ended, and then all of the output is written.
    fn needs(&self) -> Option<u32>
        requires { spent self.now ≡ false }
        ensures wanted { result ≡ wanted self.now }
        ensures some { IfSome result (λ port. open_at self.now port ≡ true) }
        ensures none { IfNone result ((port : ℕ) → open_at self.now port ≡ false) }
        ensures whole { IfNone result ((texts : ℕ → List ℕ) → due self.now texts ≡ []) };

    /// Takes the next piece at the port that is needed, and appends what is determined by now.
    fn feed_port(&mut self, port: u32, piece: &[u8], out: &mut Vec<u8>) -> Result<(), Memory>
        requires unspent { spent self.old ≡ false }
        requires needed { wanted self.old ≡ Some port }
        ensures wrote { Wrote (λ texts. due self.old (comes_before port piece.now texts)) (due self.new) out.old.items out.new.items (is_ok result) }
        ensures opens { (other : ℕ) → open_at self.new other ≡ open_at self.old other }
        ensures spent { spent self.new ≡ not (is_ok result) };

    /// The port that is needed has ended: appends what is determined by now.
    fn end_port(&mut self, port: u32, out: &mut Vec<u8>) -> Result<(), Memory>
        requires unspent { spent self.old ≡ false }
        requires needed { wanted self.old ≡ Some port }
        ensures wrote { Wrote (λ texts. due self.old (ends_at port texts)) (due self.new) out.old.items out.new.items (is_ok result) }
        ensures opens { (other : ℕ) → open_at self.new other ≡ (if other == port then false else open_at self.old other) }
        ensures spent { spent self.new ≡ not (is_ok result) };

    /// Whether a call has answered Memory. No other call is allowed then.
    fn is_spent(&self) -> bool
        ensures { result ≡ spent self.now };
}
