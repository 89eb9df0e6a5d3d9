//! Utilities of a pipeline that are gathered to run as one.
ghost use Rattle.std.specs.Prelude.{◌≡◌, ◌&&◌, [], ◌∷◌, ◌++◌, List, ℕ, false, map, true, IfOk, IfSome, OnOk};
ghost use Rattle.ps_lines.specs.Texts.{texts_of};
ghost use Rattle.ps_world.specs.Counts.{Counts};
ghost use Rattle.sh_tree.specs.Trees.{no_sub, simple as simple_of, simple_command};
ghost use Rattle.sh_tree.specs.Views.{command_tree, simple_tree, word_tree};
ghost use Rattle.fl_commands.specs.Inner.Stages.{some_lacks};
ghost use Rattle.ut_args.specs.Inputs.{operands_of};
ghost use Rattle.ut_args.specs.Invocations.{command_of};
ghost use Rattle.sh_eval.specs.Inner.Gathering.{AddsStage, CanBeMember, GathersFront, GiveFields, IsAskedBy, IsFound, IsFree, IsFront, IsRead};
ghost use Rattle.sh_eval.specs.Inner.Inputs.{IsLooked, called_by, lines_by};
ghost use Rattle.sh_eval.specs.Segments.{is_plain_place as is_plain_place_def, name_of as name_of_def};
ghost use Rattle.sh_eval.specs.Table.{patterns_of};
ghost use Rattle.sh_eval.specs.Utilities.{needs_all, read};

use crate::busy::{add_operands, first_busy};
use crate::expanding::fields_of;
use crate::patterns::{Checked, check_patterns};
use crate::shell::Shell;
use crate::simple::MAX_OPERANDS;
use crate::streams::{HeldPaths, Streams, To};
use crate::teeing::is_tee;
use crate::utilities::{lines_told, look_for_operands, skips};
use fl_commands::{Member, Operand};
use fl_segments::MAX_STAGES;
use ps_lines::Memory;
use ps_world::{Tree, WorldErr};
use sh_expand::ExpandFault;
use sh_tree::{Command, Simple, Word};
use std::alloc::Global;
use ut_args::{ArgFault, Inv, is_built, read_inv};

/// Utilities of a pipeline that run as one: what is told of operands without an input, and the members.
#[derive(Drop)]
pub struct Segment {
    pub(crate) lines: Vec<u8>,
    pub(crate) members: Vec<Member>,
}

/// Gathers the stages of a pipeline, from the first on and as many as can run as one, if these are two or more.
///
/// Each has to be a utility that runs, and nothing more: no assignment, redirection or substitution stands before it, its words have no fault,
/// and it isn't refused. What such a stage is to do hangs on nothing that a stage before it does, since none changes a file, and each has a
/// shell of its own. Nothing is told or done here: the tree is as it was. A fault is the tree's.
pub(crate) fn gather<T: Tree>(
    alloc: Global,
    stages: &[Command],
    shell: &Shell,
    streams: &Streams,
    tree: &mut T,
) -> Result<Option<Segment>, WorldErr>
    ensures gathers { IfOk result (λ found. IfSome found (GathersFront stages.now shell.now streams.now (T.state tree.old))) }
    ensures state { T.state tree.new ≡ T.state tree.old }
    ensures cause { Counts (T.faults tree.old) (T.faults tree.new) result }
{
    if !may_run_as_one(stages) || !is_plain_place(&streams.errors_to) {
        return Ok(None);
    }
    let segment = gather_front(alloc, stages, shell, &streams.held, tree)?;
    if segment.members.len() < 2 {
        return Ok(None);
    }
    Ok(Some(segment))
}

/// Whether the first two stages may run as one, by what they look like before their words are expanded.
fn may_run_as_one(stages: &[Command]) -> bool {
    match stages {
        [first, second, ..] => bare_words(first).is_some() && bare_words(second).is_some(),
        _ => false,
    }
}

/// Gathers stages up to the first that isn't a utility that runs, and no more than a graph may have.
fn gather_front<T: Tree>(
    alloc: Global,
    stages: &[Command],
    shell: &Shell,
    held: &HeldPaths,
    tree: &mut T,
) -> Result<Segment, WorldErr>
    ensures front { IfOk result (IsFront stages.now shell.now held.now (T.state tree.old)) }
    ensures state { T.state tree.new ≡ T.state tree.old }
    ensures cause { Counts (T.faults tree.old) (T.faults tree.new) result }
{
    let mut segment = Segment {
        lines: Vec::new(alloc),
        members: Vec::new(alloc),
    };
    for stage in stages {
        if segment.members.len() == MAX_STAGES {
            return Ok(segment);
        }
        let added = add_stage(alloc, stage, shell, held, &mut segment, tree)?;
        if !added {
            return Ok(segment);
        }
    }
    Ok(segment)
}

/// Whether what is told there changes no file and no pipe.
fn is_plain_place(place: &To) -> bool
    ensures { result ≡ is_plain_place_def place.now }
{
    match place {
        To::Output | To::Errors | To::Null => true,
        To::Pipe(_) | To::File(_) => false,
    }
}

/// The words of a command that has nothing else.
fn bare_words(command: &Command) -> Option<&[Word]>
    ensures { IfSome result (λ words. command_tree command.now ≡ simple_of (simple_command [] (map word_tree words.now) [] no_sub)) }
{
    match command {
        Command::Simple(simple) => words_alone(simple),
        _ => None,
    }
}

/// The words of a simple command that has nothing else.
fn words_alone(simple: &Simple) -> Option<&[Word]>
    ensures { IfSome result (λ words. simple_tree simple.now ≡ simple_command [] (map word_tree words.now) [] no_sub) }
{
    if !simple.assigns.is_empty() || !simple.redirs.is_empty() || !simple.subs.is_empty() {
        return None;
    }
    Some(simple.words.as_slice())
}

/// Puts a stage behind those of a segment, if it's a utility that runs.
fn add_stage<T: Tree>(
    alloc: Global,
    stage: &Command,
    shell: &Shell,
    held: &HeldPaths,
    segment: &mut Segment,
    tree: &mut T,
) -> Result<bool, WorldErr>
    ensures added { IfOk result (λ added. added ≡ true → AddsStage (command_tree stage.now) shell.now held.now (T.state tree.old) segment.old segment.new) }
    ensures kept { IfOk result (λ added. added ≡ false → segment.new ≡ segment.old) }
    ensures state { T.state tree.new ≡ T.state tree.old }
    ensures cause { Counts (T.faults tree.old) (T.faults tree.new) result }
{
    let Some(words) = bare_words(stage) else {
        return Ok(false);
    };
    let Some(member) = find_member(alloc, words, shell, held, tree)? else {
        return Ok(false);
    };
    add_member(alloc, member, segment)?;
    Ok(true)
}

/// Puts a member behind those of a segment, and its lines behind theirs.
fn add_member(alloc: Global, member: Member, segment: &mut Segment) -> Result<(), Memory>
    ensures members { OnOk result (segment.new.members.items ≡ segment.old.members.items ++ member ∷ []) }
    ensures lines { OnOk result (segment.new.lines.items ≡ segment.old.lines.items ++ lines_by (name_of_def (called_by member.inv)) member.inv member.operands.items) }
{
    match add_lines(alloc, &member, &mut segment.lines) {
        Ok(()) => {
            segment.members.push(member)?;
            Ok(())
        }
        Err(fault) => {
            drop(member);
            Err(fault)
        }
    }
}

/// Puts the lines of a member behind others.
fn add_lines(alloc: Global, member: &Member, lines: &mut Vec<u8>) -> Result<(), Memory>
    ensures { OnOk result (lines.new.items ≡ lines.old.items ++ lines_by (name_of_def (called_by member.now.inv)) member.now.inv member.now.operands.items) }
{
    let told = lines_told(
        alloc,
        name_of(&member.inv),
        &member.inv,
        member.operands.as_slice(),
    )?;
    lines.extend_from_slice(told.as_slice())?;
    Ok(())
}

/// The name of a utility: the first of its words.
fn name_of(inv: &Inv) -> &[u8]
    ensures { result.now ≡ name_of_def (called_by inv.now) }
{
    match inv.words() {
        [] => &[],
        [name, ..] => name.as_slice(),
    }
}

/// The member that words ask for in a subshell, if they ask for a utility that runs.
fn find_member<T: Tree>(
    alloc: Global,
    words: &[Word],
    shell: &Shell,
    held: &HeldPaths,
    tree: &mut T,
) -> Result<Option<Member>, WorldErr>
    ensures found { IfOk result (λ found. IfSome found (IsFound (map word_tree words.now) shell.now held.now (T.state tree.old))) }
    ensures state { T.state tree.new ≡ T.state tree.old }
    ensures cause { Counts (T.faults tree.old) (T.faults tree.new) result }
{
    let Some(inv) = find_inv(alloc, words, shell, tree)? else {
        return Ok(None);
    };
    // The invocation is let go by a call: at a way out it would be proved a variant at a time.
    match find_operands(alloc, &inv, held, tree) {
        Ok(Some(operands)) => Ok(Some(Member {
            inv,
            operands,
            tees: Vec::new(alloc),
        })),
        Ok(None) => {
            drop(inv);
            Ok(None)
        }
        Err(fault) => {
            drop(inv);
            Err(fault)
        }
    }
}

/// What the operands of a utility name, if it runs over that: it doesn't where it does nothing, or reads a path that is busy.
fn find_operands<T: Tree>(
    alloc: Global,
    inv: &Inv,
    held: &HeldPaths,
    tree: &mut T,
) -> Result<Option<Vec<Operand>>, WorldErr>
    ensures looked { IfOk result (λ found. IfSome found (λ operands. IsLooked (T.state tree.old) (operands_of inv.now) operands.items)) }
    ensures whole { IfOk result (λ found. IfSome found (λ operands. (needs_all (command_of inv.now) && some_lacks operands.items) ≡ false)) }
    ensures free { IfOk result (λ found. IfSome found (λ operands. IsFree inv.now held.now (T.state tree.old))) }
    ensures state { T.state tree.new ≡ T.state tree.old }
    ensures cause { Counts (T.faults tree.old) (T.faults tree.new) result }
{
    let operands = look_for_operands(alloc, inv, tree)?;
    if skips(inv, operands.as_slice()) || !is_free(alloc, inv, held, tree)? {
        return Ok(None);
    }
    Ok(Some(operands))
}

/// Whether no path that a utility reads is busy.
fn is_free<T: Tree>(
    alloc: Global,
    inv: &Inv,
    held: &HeldPaths,
    tree: &mut T,
) -> Result<bool, WorldErr>
    ensures free { IfOk result (λ free. free ≡ true → IsFree inv.now held.now (T.state tree.old)) }
    ensures state { T.state tree.new ≡ T.state tree.old }
    ensures cause { Counts (T.faults tree.old) (T.faults tree.new) result }
{
    let mut uses = Vec::new(alloc);
    add_operands(alloc, inv.operands(), &mut uses, tree)?;
    Ok(first_busy(held, uses.as_slice()).is_none())
}

/// The invocation that words ask for in a subshell, if it's that of a utility that can be a member.
fn find_inv<T: Tree>(
    alloc: Global,
    words: &[Word],
    shell: &Shell,
    tree: &mut T,
) -> Result<Option<Inv>, WorldErr>
    ensures asked { IfOk result (λ found. IfSome found (IsAskedBy (map word_tree words.now) shell.now (T.state tree.old))) }
    ensures can { IfOk result (λ found. IfSome found CanBeMember) }
    ensures state { T.state tree.new ≡ T.state tree.old }
    ensures cause { Counts (T.faults tree.old) (T.faults tree.new) result }
{
    let mut inner = shell.inside(alloc)?;
    let Some(fields) = find_fields(alloc, words, &mut inner, tree)? else {
        return Ok(None);
    };
    let Some(inv) = read_member(alloc, fields.as_slice())? else {
        return Ok(None);
    };
    Ok(Some(inv))
}

/// The fields of words, if these have no fault.
fn find_fields<T: Tree>(
    alloc: Global,
    words: &[Word],
    shell: &mut Shell,
    tree: &mut T,
) -> Result<Option<Vec<Vec<u8>>>, WorldErr>
    ensures fields { IfOk result (λ found. IfSome found (λ fields. GiveFields (map word_tree words.now) shell.old (T.state tree.old) (texts_of fields.items))) }
    ensures state { T.state tree.new ≡ T.state tree.old }
    ensures cause { Counts (T.faults tree.old) (T.faults tree.new) result }
{
    match fields_of(alloc, words, shell, tree) {
        Ok(fields) => Ok(Some(fields)),
        Err(ExpandFault::Failed) => Err(WorldErr::Failed),
        Err(ExpandFault::Memory) => Err(WorldErr::Memory),
        Err(_) => Ok(None),
    }
}

/// The invocation that fields are, if it's that of a utility that can be a member.
fn read_member(alloc: Global, fields: &[Vec<u8>]) -> Result<Option<Inv>, Memory>
    ensures is { IfOk result (λ found. IfSome found (IsRead (texts_of fields.now))) }
    ensures can { IfOk result (λ found. IfSome found CanBeMember) }
{
    let [_, ..] = fields else {
        return Ok(None);
    };
    match read_inv(alloc, fields) {
        Ok(inv) => keep_member(alloc, inv),
        Err(ArgFault::Memory) => Err(Memory),
        Err(_) => Ok(None),
    }
}

/// The invocation, if it's that of a utility that can be a member.
fn keep_member(alloc: Global, inv: Inv) -> Result<Option<Inv>, Memory>
    ensures is { (fields : List (List ℕ)) → IsRead fields inv → IfOk result (λ found. IfSome found (IsRead fields)) }
    ensures can { IfOk result (λ found. IfSome found CanBeMember) }
{
    match can_be_member(alloc, &inv) {
        Ok(true) => Ok(Some(inv)),
        Ok(false) => {
            drop(inv);
            Ok(None)
        }
        Err(fault) => {
            drop(inv);
            Err(fault)
        }
    }
}

/// Whether an invocation is that of a utility that runs as a graph, whatever its operands name. tee isn't, since it writes files.
fn can_be_member(alloc: Global, inv: &Inv) -> Result<bool, Memory>
    ensures { IfOk result (λ can. can ≡ true → CanBeMember inv.now) }
{
    if !is_built(inv) || is_tee(inv) || inv.operands().len() > MAX_OPERANDS {
        return Ok(false);
    }
    has_patterns(alloc, inv)
}

/// Whether the patterns of an invocation are read.
fn has_patterns(alloc: Global, inv: &Inv) -> Result<bool, Memory>
    ensures { IfOk result (λ has. has ≡ true → patterns_of (command_of inv.now) ≡ read) }
{
    match check_patterns(alloc, inv)? {
        Checked::Read => Ok(true),
        Checked::Wrong | Checked::RefersBack(_) => Ok(false),
    }
}
