//! The inputs of the columns of a paste.
ghost use Rattle.std.specs.Prelude.{◌≡◌, ◌∷◌, ◌++◌, ℕ, suc, List, [], nat_lt, OnOk, IfOk};
ghost use Rattle.ps_lines.specs.Texts.{texts_of};
ghost use Rattle.ut_slices.specs.Paste.{column_inputs, inputs_from};
ghost use Rattle.std.specs.List.{filter};
ghost use Rattle.ut_args.specs.Inputs.{is_named};
ghost use Rattle.ut_slices.specs.Inner.Rows.{has_port};
ghost use Rattle.ut_slices.specs.Inner.Columns.{AreUsed};

use ps_lines::Memory;
use std::alloc::Global;

/// The inputs of some columns.
#[derive(Drop)]
pub(crate) struct Columns {
    /// The number of the input of each.
    pub(crate) inputs: Vec<u32>,
    /// How many inputs they have.
    pub(crate) next: u32,
    /// The input of those that are standard input, once one is.
    pub(crate) standard: Option<u32>,
}

/// The inputs of the columns that these operands name.
#[tactic(auto, using(crate::proofs::ColumnLemmas::columns))]
pub(crate) fn columns_of(alloc: Global, operands: &[Vec<u8>]) -> Result<Columns, Memory>
    ensures inputs { IfOk result (λ columns. columns.inputs.items ≡ column_inputs (texts_of operands.now)) }
    ensures used { IfOk result (λ columns. (input : ℕ) → has_port input columns.inputs.items ≡ nat_lt input columns.next) }
{
    let mut columns = Columns {
        inputs: Vec::new(alloc),
        next: 0,
        standard: None,
    };
    if operands.is_empty() {
        return match add_new(&mut columns) {
            Ok(()) => Ok(columns),
            Err(memory) => Err(memory),
        };
    }
    let mut left = operands;
    while let [operand, rest @ ..] = left {
        match add_named(&mut columns, operand.as_slice()) {
            Ok(()) => left = rest,
            Err(memory) => return Err(memory),
        }
    }
    Ok(columns)
}

/// Adds the column of an operand, where it names an input.
fn add_named(columns: &mut Columns, operand: &[u8]) -> Result<(), Memory>
    ensures dealt { OnOk result ((others : List (List ℕ)) → columns.new.inputs.items ++ inputs_from columns.new.next columns.new.standard (filter is_named others)
        ≡ columns.old.inputs.items ++ inputs_from columns.old.next columns.old.standard (filter is_named (operand.now ∷ others))) }
    ensures used { OnOk result (AreUsed columns.old → AreUsed columns.new) }
{
    if operand.is_empty() {
        return Ok(());
    }
    add(columns, operand)
}

/// Adds the column of an operand that names an input.
fn add(columns: &mut Columns, operand: &[u8]) -> Result<(), Memory>
    ensures dealt { OnOk result ((others : List (List ℕ)) → columns.new.inputs.items ++ inputs_from columns.new.next columns.new.standard others
        ≡ columns.old.inputs.items ++ inputs_from columns.old.next columns.old.standard (operand.now ∷ others)) }
    ensures used { OnOk result (AreUsed columns.old → AreUsed columns.new) }
{
    let is_standard = operand == b"-".as_slice();
    match columns.standard {
        Some(input) => {
            if is_standard {
                return push_input(&mut columns.inputs, input);
            }
            add_new(columns)
        }
        None => {
            let next = columns.next;
            match add_new(columns) {
                Ok(()) => {}
                Err(memory) => return Err(memory),
            }
            if !is_standard {
                return Ok(());
            }
            columns.standard = Some(next);
            Ok(())
        }
    }
}

/// Adds a column with an input of its own. There are never 2^32 of them.
fn add_new(columns: &mut Columns) -> Result<(), Memory>
    ensures inputs { OnOk result (columns.new.inputs.items ≡ columns.old.inputs.items ++ columns.old.next ∷ []) }
    ensures next { OnOk result (columns.new.next ≡ suc columns.old.next) }
    ensures standard { columns.new.standard ≡ columns.old.standard }
{
    let Some(next) = columns.next.checked_add(1) else {
        return Err(Memory);
    };
    match push_input(&mut columns.inputs, columns.next) {
        Ok(()) => {
            columns.next = next;
            Ok(())
        }
        Err(memory) => Err(memory),
    }
}

fn push_input(inputs: &mut Vec<u32>, input: u32) -> Result<(), Memory>
    ensures { OnOk result (inputs.new.items ≡ inputs.old.items ++ input ∷ []) }
{
    inputs.push(input)?;
    Ok(())
}
