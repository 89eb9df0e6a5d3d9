//! Where bytes come from.
ghost use Rattle.std.specs.Prelude.{◌≡◌, ◌≢◌, ℕ, ◌+◌, ◌^◌, ◌<◌, ◌≤◌, List, [], length, take, Option, Ok, Err, MatchResult, IfOk};
ghost use Rattle.std.specs.Option.{option_map};
ghost use Rattle.ps_world.specs.Counts.{Counts};
ghost use Rattle.ps_world.specs.Told.{bytes_then};

use crate::error::WorldErr;

/// A stream of bytes that is read from its beginning to its end, as standard input or an open file.
///
/// A source gives at most 2^40 bytes. One that has given so many and isn't at its end counts a fault and answers Failed from
/// then on.
pub trait Source {
    /// The bytes still to come, where the source tells them.
    ghost left: { Self → Option (List ℕ) };
    /// How many bytes it has given.
    ghost given: { Self → ℕ };
    /// How many of its calls have failed.
    ghost faults: { Self → ℕ };

    /// Reads into the front of `buf`, and answers how many bytes it gave.
    ///
    /// Ok(0) at a buffer with room means the end, and is the answer to an empty buffer. Failed leaves what is still to come as it
    /// was. No memory is taken.
    fn read(&mut self, buf: &mut [u8]) -> Result<usize, WorldErr>
        ensures bound { IfOk result (λ count. count ≤ length buf.new) }
        ensures bytes { MatchResult result
            (λ count. left self.old ≡ bytes_then (take count buf.new) (left self.new))
            (λ _. left self.new ≡ left self.old) }
        ensures end { result ≡ Ok 0 → 0 < length buf.new → left self.old ≡ option_map (λ _. []) (left self.old) }
        ensures empty { length buf.old ≡ 0 → result ≡ Ok 0 }
        ensures given { MatchResult result
            (λ count. given self.new ≡ given self.old + count)
            (λ _. given self.new ≡ given self.old) }
        ensures within { given self.new ≤ 2 ^ 40 }
        ensures cause { Counts (faults self.old) (faults self.new) result }
        ensures no_memory { result ≢ Err WorldErr.Memory };
}
