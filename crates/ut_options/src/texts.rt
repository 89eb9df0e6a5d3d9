//! Lists of texts that contracts see as lists.
use ps_lines::Memory;
use std::alloc::Global;
use std::marker::Model;

/// A list of texts, as words or operands. Contracts see the list of their bytes.
#[derive(Debug, Drop)]
pub struct Texts {
    texts: Vec<Vec<u8>>,
}

impl Model for Texts {
    ghost use Rattle.std.specs.Prelude.{ℕ, List};

    ghost Value = { List (List ℕ) };

    ghost use Rattle.ps_lines.specs.Texts.{texts_of};

    ghost view = { λ texts. texts_of texts.texts.items };
}

impl PartialEq for Texts {
    ghost use Rattle.std.specs.Prelude.{nat_eq};
    ghost use Rattle.std.proofs.Common.{rules};
    ghost use Rattle.std.specs.Cmp.Lexicographic.{pointwise};
    ghost use Rattle.std.specs.Cmp.Rules.{comparing};

    ghost eq = { pointwise (pointwise nat_eq) };

    ghost laws = { Prim.search (comparing, rules) };

    fn eq(&self, other: &Texts) -> bool {
        self.texts.as_slice() == other.texts.as_slice()
    }
}

impl Texts {
    ghost use Rattle.std.specs.Prelude.{◌≡◌, ◌∷◌, ◌++◌, [], IfOk, OnOk};
    ghost use Rattle.ps_lines.specs.Texts.{texts_of};

    /// No text.
    pub fn new(alloc: Global) -> Texts
        ensures { result ≡ [] }
    {
        Texts {
            texts: Vec::new(alloc),
        }
    }

    /// A copy of these texts.
    pub fn copy_of(alloc: Global, texts: &[Vec<u8>]) -> Result<Texts, Memory>
        ensures { IfOk result (λ copy. copy ≡ texts_of texts.now) }
    {
        let texts = texts.to_vec(alloc)?;
        Ok(Texts { texts })
    }

    /// A copy of these texts.
    pub fn copy(&self) -> Result<Texts, Memory>
        ensures { IfOk result (λ copy. copy ≡ self.now) }
    {
        let texts = self.texts.clone()?;
        Ok(Texts { texts })
    }

    /// Appends a copy of a text.
    pub fn push(&mut self, alloc: Global, text: &[u8]) -> Result<(), Memory>
        ensures { OnOk result (self.new ≡ self.old ++ text.now ∷ []) }
    {
        let text = Vec::from_slice(alloc, text)?;
        self.texts.push(text)?;
        Ok(())
    }

    /// What its memory is taken from.
    pub fn allocator(&self) -> Global {
        *self.texts.allocator()
    }

    /// The texts.
    pub fn as_slice(&self) -> &[Vec<u8>]
        ensures { texts_of result.now ≡ self.now }
    {
        self.texts.as_slice()
    }
}
