//! Stacks of bits that take no memory once they are made.
ghost use Rattle.std.specs.Prelude.{◌≡◌, ◌∷◌, [], ◌≤◌, ◌<◌, length, reverse, IfOk, OnOk};
ghost use Rattle.ut_regex.specs.Inner.Sweeps.{top, below};

use std::alloc::{AllocError, Global};
use std::marker::Model;

/// A stack of bits in memory of its own, of which it never takes more.
#[derive(Drop)]
pub(crate) struct Bits {
    items: Vec<bool>,
}

impl Model for Bits {
    ghost use Rattle.std.specs.Prelude.{reverse, vec_capacity};
    ghost use Rattle.ut_regex.specs.Inner.Held.{Held};

    ghost Value = { Held };

    ghost view = { λ bits. record { bits = reverse bits.items.items; capacity = vec_capacity bits.items } };
}

impl Bits {
    /// An empty stack with room for `capacity` bits.
    pub(crate) fn with_capacity(alloc: Global, capacity: usize) -> Result<Bits, AllocError>
        ensures { IfOk result (λ made. made ≡ record { bits = []; capacity = capacity }) }
    {
        let items = Vec::with_capacity(alloc, capacity)?;
        Ok(Bits { items })
    }

    /// Takes every bit off.
    pub(crate) fn clear(&mut self)
        ensures { self.new ≡ record { bits = []; capacity = self.old.capacity } }
    {
        self.items.clear();
    }

    /// Puts a bit on top.
    pub(crate) fn push(&mut self, bit: bool)
        requires { length self.old.bits < self.old.capacity }
        ensures { self.new ≡ record { bits = bit ∷ self.old.bits; capacity = self.old.capacity } }
    {
        self.items.push_reserved(bit);
    }

    /// Takes the top bit off, which is false where there is none.
    pub(crate) fn pop(&mut self) -> bool
        ensures bit { result ≡ top self.old.bits }
        ensures rest { self.new ≡ record { bits = below self.old.bits; capacity = self.old.capacity } }
    {
        self.items.pop().unwrap_or(false)
    }

    /// Has these bits, of which the last is on top. It takes memory only where there are more of them than room.
    pub(crate) fn load(&mut self, bits: &[bool]) -> Result<(), AllocError>
        ensures bits { OnOk result (self.new.bits ≡ reverse bits.now) }
        ensures room { self.old.capacity ≤ self.new.capacity }
    {
        self.items.clear();
        self.items.extend_from_slice(bits)
    }

    /// Makes of other bits these, of which the last is on top.
    pub(crate) fn copy_to(&self, bits: &mut Vec<bool>) -> Result<(), AllocError>
        ensures { OnOk result (reverse bits.new.items ≡ self.now.bits) }
    {
        bits.clear();
        bits.extend_from_slice(&self.items)
    }
}
