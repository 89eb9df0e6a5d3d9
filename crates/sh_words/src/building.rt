//! The parts of a word that is read.
ghost use Rattle.std.specs.Prelude.{◌≡◌, ◌∷◌, ◌++◌, [], ℕ, List, IfOk, OnOk, Some, true};
ghost use Rattle.sh_tree.specs.Trees.{WordTree, no_part, part, quoted};
ghost use Rattle.std.specs.Option.{option_map};
ghost use Rattle.sh_words.specs.Pieces.{before, found_before, literal};
ghost use Rattle.sh_tree.specs.Views.{part_tree};
ghost use Rattle.sh_words.specs.Inner.Built.{trees_onto, run_onto, built, ended, is_expansion, is_found};

use ps_lines::{Memory, Text};
use sh_tree::Part;
use std::alloc::Global;

/// What is read of a word.
#[derive(Drop)]
pub struct Building {
    /// The parts that are whole.
    pub parts: Vec<Part>,
    /// Whether the bytes behind them are quoted; None: there are none.
    pub run: Option<bool>,
    /// These bytes.
    pub bytes: Vec<u8>,
}

impl Building {
    /// Nothing is read.
    pub fn start(alloc: Global) -> Building
        ensures { (more : WordTree) → built result more ≡ more }
    {
        Building {
            parts: Vec::new(alloc),
            run: None,
            bytes: Vec::new(alloc),
        }
    }

    /// Adds a byte, with whether it is quoted.
    pub fn push_byte(&mut self, alloc: Global, quoted: bool, byte: u8) -> Result<(), Memory>
        ensures { OnOk result ((more : WordTree) → built self.new more ≡ built self.old (before (literal quoted (byte ∷ [])) more)) }
    {
        self.begin(alloc, quoted)?;
        self.bytes.push(byte)?;
        Ok(())
    }

    /// Adds an empty quoted string.
    pub fn push_empty(&mut self, alloc: Global) -> Result<(), Memory>
        ensures { OnOk result ((more : WordTree) → built self.new more ≡ built self.old (before (quoted []) more)) }
    {
        self.begin(alloc, true)
    }

    /// Adds what an expansion gives.
    pub fn push_found(&mut self, alloc: Global, found: Option<Part>) -> Result<(), Memory>
        requires { is_found (option_map part_tree found) ≡ true }
        ensures { OnOk result ((more : WordTree) → built self.new more ≡ built self.old (found_before (option_map part_tree found) more)) }
    {
        match found {
            Some(part) => self.push_expansion(alloc, part),
            None => Ok(()),
        }
    }

    /// Adds an expansion.
    fn push_expansion(&mut self, alloc: Global, part: Part) -> Result<(), Memory>
        requires { is_expansion (part_tree part) ≡ true }
        ensures { OnOk result ((more : WordTree) → built self.new more ≡ built self.old (before (part_tree part) more)) }
    {
        self.end_run(alloc)?;
        self.parts.push(part)?;
        Ok(())
    }

    /// The parts.
    pub fn finish(self, alloc: Global) -> Result<Vec<Part>, Memory>
        ensures { IfOk result (λ parts. trees_onto parts.items no_part ≡ built self no_part) }
    {
        let mut building = self;
        building.end_run(alloc)?;
        let Building { parts, .. } = building;
        Ok(parts)
    }

    /// Bytes of this quoting come next.
    fn begin(&mut self, alloc: Global, quoted: bool) -> Result<(), Memory>
        ensures run { OnOk result (self.new.run ≡ Some quoted) }
        ensures built { OnOk result ((bytes : List ℕ) (more : WordTree)
            → trees_onto self.new.parts.items (before (literal quoted (self.new.bytes.items ++ bytes)) more) ≡ built self.old (before (literal quoted bytes) more)) }
    {
        if self.run == Some(quoted) {
            return Ok(());
        }
        self.end_run(alloc)?;
        self.bytes.clear();
        self.run = Some(quoted);
        Ok(())
    }

    /// Makes a part of the bytes at the end.
    fn end_run(&mut self, alloc: Global) -> Result<(), Memory>
        ensures run { OnOk result (self.new.run ≡ None) }
        ensures built { OnOk result ((more : WordTree) → trees_onto self.new.parts.items more ≡ ended self.old more) }
    {
        let Some(quoted) = self.run else {
            return Ok(());
        };
        let text = Text::copy_of(alloc, self.bytes.as_slice())?;
        self.run = None;
        self.parts.push(literal(quoted, text))?;
        Ok(())
    }
}

/// Bytes as a part, with whether they are quoted.
fn literal(quoted: bool, text: Text) -> Part
    ensures { part_tree result ≡ literal quoted text }
{
    if quoted {
        Part::Quoted(text)
    } else {
        Part::Plain(text)
    }
}
