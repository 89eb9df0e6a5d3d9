//! The stages of utilities over what their operands name.
ghost use Rattle.std.specs.Prelude.{◌≡◌, ◌∷◌, ◌++◌, [], List, IfOk, OnOk};
ghost use Rattle.ut_args.specs.Invocations.{command_of};
ghost use Rattle.fl_commands.specs.Inner.Stages.{AreStagesOf, IsStageOf, plain_status, some_lacks as some_lacks_def};

use crate::members::Member;
use crate::operands::{Operand, deals, ins_of, lacking, lacks};
use crate::writers::copies_of;
use fl_graph::Seq;
use fl_segments::{Does, Out, Stage};
use ps_lines::{Memory, Text};
use ps_world::Path;
use std::alloc::Global;
use ut_args::Inv;

/// The stages of the members of a pipeline, in their order.
pub(crate) fn stages_of(alloc: Global, members: &[Member]) -> Result<Vec<Stage>, Memory>
    ensures { IfOk result (λ stages. AreStagesOf members.now stages.items) }
{
    let mut stages = Vec::new(alloc);
    let mut left = members;
    while let [member, rest @ ..] = left {
        add_stage(alloc, member, &mut stages)?;
        left = rest;
    }
    Ok(stages)
}

/// Puts the stage of a member behind those of others.
#[tactic(auto, using(crate::proofs::StageLemmas::stage_steps))]
fn add_stage(alloc: Global, member: &Member, stages: &mut Vec<Stage>) -> Result<(), Memory>
    ensures { (members : List Member) → AreStagesOf members stages.old.items → OnOk result (AreStagesOf (members ++ member.now ∷ []) stages.new.items) }
{
    let stage = stage_of(
        alloc,
        &member.inv,
        member.operands.as_slice(),
        member.tees.as_slice(),
    )?;
    stages.push(stage)?;
    Ok(())
}

/// The stage of a utility that writes these files, whose output goes on.
pub(crate) fn stage_of(
    alloc: Global,
    inv: &Inv,
    operands: &[Operand],
    tees: &[Path],
) -> Result<Stage, Memory>
    ensures { IfOk result (λ stage. IsStageOf inv.now operands.now tees.now stage) }
{
    let flags = lacking(alloc, operands)?;
    // Behind the invocation no call may fail: an exit at which it's let go is long.
    let ins = ins_of(alloc, operands, deals(inv))?;
    let tees = copies_of(alloc, tees)?;
    let without = inv.without(alloc, flags.as_slice())?;
    Ok(Stage {
        does: Does::Util(without),
        ins: Seq::from_vec(ins),
        out: Out::Next,
        first: Text::from_vec(Vec::new(alloc)),
        piped: Text::from_vec(Vec::new(alloc)),
        status: status_where(inv, some_lacks(operands)),
        reads: Seq::from_vec(Vec::new(alloc)),
        writes: Seq::from_vec(Vec::new(alloc)),
        tees: Seq::from_vec(tees),
    })
}

/// Whether an operand has no input.
pub(crate) fn some_lacks(operands: &[Operand]) -> bool
    ensures { result ≡ some_lacks_def operands.now }
{
    operands.iter().any(|operand| lacks(operand))
}

/// The status where no line that grep selects changes it (XCU grep, sort: EXIT STATUS).
fn status_where(inv: &Inv, some_lacks: bool) -> u8
    ensures { result ≡ plain_status (command_of inv.now) some_lacks }
{
    if !some_lacks {
        return 0;
    }
    match inv {
        Inv::Grep(_) | Inv::Sort(_) => 2,
        _ => 1,
    }
}
