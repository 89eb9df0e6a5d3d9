//! Variables: a finite map from names to texts.

ghost use Rattle.std.specs.Prelude.{◌≡◌, ◌<◌, ◌≤◌, ◌↔◌, ℕ, List, length, IsTrue, IfErr, IfOk, OnOk, OnErr};
ghost use Rattle.std.specs.Option.{option_copied};
ghost use Rattle.std.specs.FinMap as map;
ghost use Rattle.std.specs.FinMap.{find};

use ps_lines::{Memory, Text};
use std::alloc::Global;
use std::cmp::Ordering;
use std::marker::Model;

/// A variable that is set.
#[derive(Debug, Drop)]
pub(crate) struct Variable {
    name: Text,
    value: Text,
}

/// The variables of a shell (XCU 2.5), each with its text. Contracts see a map from names to texts.
#[derive(Debug, Drop)]
pub struct Env {
    /// In the order of their names, of which no two are the same.
    variables: Vec<Variable>,
}

impl Model for Env {
    ghost use Rattle.std.specs.Prelude.{ℕ, List};
    ghost use Rattle.std.specs.FinMap as map;
    ghost use Rattle.std.specs.Coded.{coded_ℕ, coded_list};
    ghost use Rattle.sh_arith.specs.Names.{name_cmp};

    ghost Value = { map.FinMap name_cmp (List ℕ) };

    ghost coded = { map.code (coded_list coded_ℕ) (coded_list coded_ℕ) };

    ghost use Rattle.sh_arith.specs.Variables.{AreOrdered, variables_of};

    ghost view = { λ env. variables_of env.variables.items };

    ghost invariant = { λ env. AreOrdered env.variables.items };
}

impl Env {
    ghost use Rattle.sh_arith.specs.Names.{name_cmp};

    /// No variable is set.
    pub fn new(alloc: Global) -> Env
        ensures { result ≡ map.empty }
    {
        Env {
            variables: Vec::new(alloc),
        }
    }

    /// The text of a variable, or none where it is unset.
    pub fn get(&self, name: &[u8]) -> Option<&[u8]>
        ensures { option_copied result ≡ map.get self.now name.now }
    {
        value_of(self.variables.as_slice(), name)
    }

    /// Sets a variable to a text.
    pub fn set(&mut self, alloc: Global, name: &[u8], text: &[u8]) -> Result<(), Memory>
        ensures ok { OnOk result (self.new ≡ map.insert self.old name.now text.now) }
        ensures err { OnErr result (self.new ≡ self.old) }
    {
        let value = Text::copy_of(alloc, text)?;
        match search(self.variables.as_slice(), name) {
            Ok(place) => self.variables[place].value = value,
            Err(place) => {
                let name = Text::copy_of(alloc, name)?;
                self.variables.insert(place, Variable { name, value })?;
            }
        }
        Ok(())
    }

    /// Unsets a variable. One that is unset stays so.
    pub fn unset(&mut self, name: &[u8])
        ensures { self.new ≡ map.remove self.old name.now }
    {
        self.variables.retain(|variable| !is_named(variable, name));
    }

    /// The same variables, for a shell of its own.
    pub fn copy(&self, alloc: Global) -> Result<Env, Memory>
        ensures { IfOk result (λ env. env ≡ self.now) }
    {
        let mut variables = Vec::with_capacity(alloc, self.variables.len())?;
        for variable in &self.variables {
            variables.push(Variable {
                name: Text::copy_of(alloc, variable.name.as_slice())?,
                value: Text::copy_of(alloc, variable.value.as_slice())?,
            })?;
        }
        Ok(Env { variables })
    }
}

ghost use Rattle.sh_arith.specs.Names.{name_cmp};
ghost use Rattle.sh_arith.specs.Variables.{AreOrdered, IsAt, IsGapFor, pairs};
ghost use Rattle.std.specs.Ordering.{eq_by_cmp};

/// The text of the variable of this name.
fn value_of<'a>(variables: &'a [Variable], name: &[u8]) -> Option<&'a [u8]>
    requires ordered { AreOrdered variables.now }
    ensures { option_copied result ≡ find name_cmp name.now (pairs variables.now) }
{
    match search(variables, name) {
        Ok(place) => Some(variables[place].value.as_slice()),
        Err(_) => None,
    }
}

/// The place of the variable of this name, or that at which it would stand.
fn search(variables: &[Variable], name: &[u8]) -> Result<usize, usize>
    requires ordered { AreOrdered variables.now }
    ensures found { IfOk result (IsAt name.now variables.now) }
    ensures within { IfOk result (λ place. place < length variables.now) }
    ensures absent { IfErr result (IsGapFor name.now variables.now) }
    ensures inside { IfErr result (λ place. place ≤ length variables.now) }
{
    variables.binary_search_by(|variable| order(variable, name))
}

/// How a variable's name compares with this one.
fn order(variable: &Variable, name: &[u8]) -> Ordering
    ensures { result ≡ name_cmp variable.now.name name.now }
{
    variable.name.as_slice().cmp(name)
}

fn is_named(variable: &Variable, name: &[u8]) -> bool
    ensures named { IsTrue result ↔ (variable.now.name ≡ name.now) }
    ensures ties { result ≡ eq_by_cmp name_cmp name.now variable.now.name }
{
    variable.name.as_slice() == name
}
