//! The names of a command's inputs.
ghost use Rattle.std.specs.Prelude.{◌≡◌, ◌≤◌, ◌∷◌, ◌++◌, [], get_or, vec_len, IfOk, OnOk, if◌then◌else◌};
ghost use Rattle.std.specs.List.{filter};
ghost use Rattle.ps_lines.specs.Texts.{texts_of};
ghost use Rattle.ut_args.specs.Inputs.{is_named};

use ps_lines::Memory;
use std::alloc::Global;
use std::marker::Model;
use ut_options::Texts;

/// The names of the inputs of a command that are still to come: its operands that name one. Contracts see them as a list.
#[derive(Debug, Drop)]
pub struct Labels {
    names: Vec<Vec<u8>>,
    /// How many of them have come.
    passed: usize,
    ghost within: { passed ≤ vec_len names },
}

impl Model for Labels {
    ghost use Rattle.std.specs.Prelude.{ℕ, List, drop};

    ghost Value = { List (List ℕ) };

    ghost use Rattle.ps_lines.specs.Texts.{texts_of};

    ghost view = { λ labels. drop labels.passed (texts_of labels.names.items) };
}

impl Labels {
    ghost use Rattle.std.specs.Prelude.{◌≡◌, [], drop, get_or, IfOk};
    ghost use Rattle.std.specs.List.{filter};
    ghost use Rattle.ps_lines.specs.Texts.{texts_of};
    ghost use Rattle.ut_args.specs.Inputs.{is_named};

    /// The names of all inputs of a command with these operands.
    pub fn of(alloc: Global, operands: &Texts) -> Result<Labels, Memory>
        ensures { IfOk result (λ labels. labels ≡ filter is_named operands.now) }
    {
        let names = named(alloc, operands.as_slice())?;
        Ok(Labels { names, passed: 0 })
    }

    /// The name of the next input; it is empty where no operand names it.
    #[tactic(auto, using(crate::proofs::LabelLemmas::firsts))]
    pub fn first(&self) -> &[u8]
        ensures { result.now ≡ get_or self.now 0 [] }
    {
        match self.left() {
            [name, ..] => name.as_slice(),
            [] => &[],
        }
    }

    /// The next input has come.
    #[tactic(auto, using(crate::proofs::LabelLemmas::passes))]
    pub fn pass(&mut self)
        ensures { self.new ≡ drop 1 self.old }
    {
        if self.passed < self.names.len() {
            self.passed += 1;
        }
    }

    /// The names that are still to come.
    #[tactic(auto, using(crate::proofs::LabelLemmas::lefts))]
    fn left(&self) -> &[Vec<u8>]
        ensures { texts_of result.now ≡ self.now }
    {
        &self.names.as_slice()[self.passed..]
    }
}

/// The name of the first input of a command with these operands; it is empty where none of them names one.
pub fn first_name(operands: &Texts) -> &[u8]
    ensures { result.now ≡ get_or (filter is_named operands.now) 0 [] }
{
    first_named(operands.as_slice())
}

/// The first of the operands that names an input, or nothing.
fn first_named(operands: &[Vec<u8>]) -> &[u8]
    ensures { result.now ≡ get_or (filter is_named (texts_of operands.now)) 0 [] }
{
    let mut left = operands;
    while let [operand, rest @ ..] = left {
        if !operand.is_empty() {
            return operand.as_slice();
        }
        left = rest;
    }
    &[]
}

/// Copies of the operands that name an input.
#[tactic(auto, using(crate::proofs::LabelLemmas::named_steps))]
fn named(alloc: Global, operands: &[Vec<u8>]) -> Result<Vec<Vec<u8>>, Memory>
    ensures { IfOk result (λ names. texts_of names.items ≡ filter is_named (texts_of operands.now)) }
{
    let mut names = Vec::new(alloc);
    let mut left = operands;
    while let [operand, rest @ ..] = left {
        push_named(alloc, &mut names, operand.as_slice())?;
        left = rest;
    }
    Ok(names)
}

/// Appends a copy of an operand, where it names an input.
fn push_named(alloc: Global, names: &mut Vec<Vec<u8>>, operand: &[u8]) -> Result<(), Memory>
    ensures { OnOk result (texts_of names.new.items ≡ texts_of names.old.items ++ (if is_named operand.now then operand.now ∷ [] else [])) }
{
    if operand.is_empty() {
        return Ok(());
    }
    let name = Vec::from_slice(alloc, operand)?;
    names.push(name)?;
    Ok(())
}
