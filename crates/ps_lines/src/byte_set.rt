//! Sets of bytes.
ghost use Rattle.std.specs.Prelude.{◌≡◌, ℕ, ◌==◌, ◌&&◌, not, nat_lt};
ghost use Rattle.ps_lines.specs.Bits.{bit_of};

/// A set of bytes. No call takes memory, and each takes the same time for every set.
#[derive(Clone, Copy, Debug, PartialEq, Eq)]
pub struct ByteSet {
    words: [u64; 4],
}

impl ByteSet {
    ghost use Rattle.std.specs.Prelude.{◌≡◌, ℕ, false, ◌==◌, ◌||◌, ◌&&◌, not, nat_lt};
    ghost use Rattle.ps_lines.specs.ByteSet.{has_byte};

    /// The set that holds nothing.
    pub fn empty() -> ByteSet
        ensures { (byte : ℕ) → has_byte result byte ≡ false }
    {
        ByteSet { words: [0; 4] }
    }

    /// Puts `added` into the set. It may be there already.
    pub fn add(&mut self, added: u8)
        ensures { (byte : ℕ) → has_byte self.new byte ≡ (byte == added || has_byte self.old byte) }
    {
        self.words[added as usize / 64] |= 1 << (added % 64);
    }

    /// Whether the set holds `byte`.
    pub fn has(&self, byte: u8) -> bool
        ensures { result ≡ has_byte self.now byte }
    {
        (self.words[byte as usize / 64] >> (byte % 64)) & 1 == 1
    }

    /// The bytes that this set lacks: exactly those numbers below 256.
    pub fn complement(&self) -> ByteSet
        ensures { (byte : ℕ) → has_byte result byte ≡ (nat_lt byte 256 && not (has_byte self.now byte)) }
    {
        ByteSet {
            words: complement_words(self.words),
        }
    }
}

/// The words with each bit turned.
fn complement_words(words: [u64; 4]) -> [u64; 4]
    ensures { (byte : ℕ) → (bit_of result byte == 1) ≡ (nat_lt byte 256 && not (bit_of words byte == 1)) }
{
    [!words[0], !words[1], !words[2], !words[3]]
}
