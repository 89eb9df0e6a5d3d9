//! The tree of a list of items: one pass, with a stack of what is still owed and the constructs that are open.
ghost use Rattle.std.specs.Prelude.{◌≡◌, [], ◌∷◌, IfOk, IfErr, OnOk};
ghost use Rattle.sh_tree.specs.Views.{script_tree};
ghost use Rattle.sh_parse.specs.Pieces.{WordViews};
ghost use Rattle.sh_parse.specs.Inner.Owed.{again};
ghost use Rattle.sh_parse.specs.Inner.Moves.{stacked};
ghost use Rattle.sh_parse.specs.Inner.Building.{start, walked, ended, build, script_built};
ghost use Rattle.sh_parse.specs.Inner.Built.{state_of};
ghost use Rattle.sh_parse.specs.Stops.{HasScript, Refuses};

use crate::building::{Building, role_of};
use crate::checking::{check, front, owe, owe_all};
use crate::items::Item;
use crate::parts::{Move, Pending, move_at};
use crate::readers::WordReader;
use crate::refusals::GrammarRefusal;
use ps_lines::Memory;
use sh_tree::Script;
use std::alloc::Global;

/// The script that the items are, or why they are none.
///
/// The words are as `reader` reads them. The refusal is told at the first item that no script goes on with, or that opens the 65th
/// level.
pub fn parse_items<W: WordReader>(
    alloc: Global,
    reader: &W,
    items: &[Item],
) -> Result<Script, GrammarRefusal>
    ensures script { IfOk result (λ script. HasScript (W.views reader.now) items.now (script_tree script)) }
    ensures refusal { IfErr result (λ refusal. (views : WordViews) → Refuses views items.now refusal) }
{
    match check(alloc, items) {
        Ok(()) => match build(alloc, reader, items) {
            Ok(script) => Ok(script),
            Err(Memory) => Err(GrammarRefusal::Memory),
        },
        Err(refusal) => Err(refusal),
    }
}

/// What is read of the items. Only where they are a script is it one's tree.
pub fn build<W: WordReader>(alloc: Global, reader: &W, items: &[Item]) -> Result<Script, Memory>
    ensures { IfOk result (λ script. script_tree script
        ≡ script_built (build (W.views reader.now) items.now (again ∷ []) start)) }
{
    let mut building = Building::start(alloc);
    let Ok(owed) = owe(Vec::new(alloc), Pending::Again) else {
        return Err(Memory);
    };
    let mut stack = owed;
    let mut rest = items;
    while let Some((first, left)) = front(rest) {
        stack = walk(alloc, reader, stack, first, &mut building)?;
        rest = left;
    }
    end(alloc, stack, &mut building)?;
    Ok(building.into_script())
}

/// Reads one item, and what is owed behind it.
fn walk<W: WordReader>(
    alloc: Global,
    reader: &W,
    stack: Vec<Pending>,
    first: Item,
    building: &mut Building,
) -> Result<Vec<Pending>, Memory>
    ensures { IfOk result (λ behind. walked (W.views reader.now) (stacked stack.items) first (state_of building.old)
        ≡ (stacked behind.items, state_of building.new)) }
{
    let mut stack = stack;
    while let Some(part) = stack.pop() {
        let owing = move_at(part, first);
        match owing.what {
            Move::Push(parts) | Move::Opens(parts) => {
                building.act(alloc, reader, role_of(part), first)?;
                let Ok(behind) = owe_all(stack, parts, owing.behind) else {
                    return Err(Memory);
                };
                return Ok(behind);
            }
            // The items of a script are never stuck, and what is read of others is of no use.
            Move::Skip | Move::Stuck => building.leave_out(alloc, part)?,
        }
    }
    Ok(stack)
}

/// Leaves out all that is still owed.
fn end(alloc: Global, stack: Vec<Pending>, building: &mut Building) -> Result<(), Memory>
    ensures { OnOk result (state_of building.new ≡ ended (stacked stack.items) (state_of building.old)) }
{
    let mut stack = stack;
    while let Some(part) = stack.pop() {
        building.leave_out(alloc, part)?;
    }
    Ok(())
}
