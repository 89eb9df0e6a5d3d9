//! Files that are known to be closed.
ghost use Rattle.std.specs.Prelude.{◌≡◌, ◌++◌, ◌∷◌, [], false, map, true, Some, IfOk, IfSome, OnOk};
ghost use Rattle.std.specs.List.{list_all};
ghost use Rattle.ps_world.specs.Counts.{Counts};
ghost use Rattle.ps_world.specs.Files.{Files, IsFileAt, NoWriterOut, bytes_at};
ghost use Rattle.fl_segments.specs.Groups.{holds_mark, marks_hold};
ghost use Rattle.fl_segments.specs.Stages.{ins_of};
ghost use Rattle.fl_commands.specs.Inner.Marks.{AreMarkedOf, unmarked, unmarked_stage};
ghost use Rattle.fl_commands.specs.Inner.Segments.{AllThere};
ghost use Rattle.fl_commands.specs.Members.{AllNamesStand};
ghost use Rattle.fl_commands.specs.Readers.{AreThere, IsThere};

use crate::members::Member;
use crate::stages::stages_of;
use fl_graph::Seq;
use fl_segments::{Does, In, Stage};
use ps_world::{Path, Tree, WorldErr};
use std::alloc::Global;
use ut_args::Inv;

/// The stages of the members of a pipeline at this width, in their order. The files of a cat that leads them are marked where that helps.
///
/// The tree is as it was, and a fault is its.
pub(crate) fn stages_at<T: Tree>(
    alloc: Global,
    width: u32,
    members: &[Member],
    tree: &mut T,
) -> Result<Vec<Stage>, WorldErr>
    requires stand { IfSome (T.state tree.old).held (λ files. AllNamesStand files members.now) }
    requires whole { IfSome (T.state tree.old).held NoWriterOut }
    ensures stages { IfOk result (λ stages. AreMarkedOf members.now stages.items) }
    ensures marks { (files : Files) → (T.state tree.old).held ≡ Some files → IfOk result (λ stages. marks_hold (bytes_at files) stages.items ≡ true) }
    ensures state { T.state tree.new ≡ T.state tree.old }
    ensures cause { Counts (T.faults tree.old) (T.faults tree.new) result }
{
    let mut stages = stages_of(alloc, members)?;
    mark_first(alloc, width, &mut stages, tree)?;
    Ok(stages)
}

/// Marks the files of a cat that leads other stages where they may go in groups at this width: each that is empty or ends in a newline.
///
/// The tree is asked of these files alone, and is as it was. Nothing but marks changes. A fault is the tree's.
fn mark_first<T: Tree>(
    alloc: Global,
    width: u32,
    stages: &mut Vec<Stage>,
    tree: &mut T,
) -> Result<(), WorldErr>
    requires there { IfSome (T.state tree.old).held (λ files. AllThere files stages.old.items) }
    ensures same { map unmarked_stage stages.new.items ≡ map unmarked_stage stages.old.items }
    ensures marks { (files : Files) → (T.state tree.old).held ≡ Some files → marks_hold (bytes_at files) stages.old.items ≡ true
        → OnOk result (marks_hold (bytes_at files) stages.new.items ≡ true) }
    ensures state { T.state tree.new ≡ T.state tree.old }
    ensures cause { Counts (T.faults tree.old) (T.faults tree.new) result }
{
    if stages.len() < 2 || !may_group(width, &stages[0]) {
        return Ok(());
    }
    mark_files(alloc, &mut stages[0], tree)
}

/// Whether the files of a first stage may go in groups: it is a cat of files alone, one at least for each group.
fn may_group(width: u32, stage: &Stage) -> bool
    ensures { result ≡ true → ins_of stage.now ≡ stage.now.ins }
{
    match &stage.does {
        Does::Skip => false,
        Does::Util(inv) => {
            2 <= width
                && matches!(inv, Inv::Cat(_))
                && width as usize <= stage.ins.as_slice().len()
                && are_files(stage.ins.as_slice())
        }
    }
}

/// Whether all of these inputs are files.
fn are_files(ins: &[In]) -> bool {
    ins.iter().all(|it| matches!(it, In::File(_, _)))
}

/// Marks the files that a stage reads.
fn mark_files<T: Tree>(alloc: Global, stage: &mut Stage, tree: &mut T) -> Result<(), WorldErr>
    requires there { IfSome (T.state tree.old).held (λ files. AreThere files stage.old.ins) }
    ensures same { unmarked_stage stage.new ≡ unmarked_stage stage.old }
    ensures marks { (files : Files) → (T.state tree.old).held ≡ Some files → OnOk result (list_all (holds_mark (bytes_at files)) stage.new.ins ≡ true) }
    ensures state { T.state tree.new ≡ T.state tree.old }
    ensures cause { Counts (T.faults tree.old) (T.faults tree.new) result }
{
    let ins = marked(alloc, stage.ins.as_slice(), tree)?;
    stage.ins = Seq::from_vec(ins);
    Ok(())
}

/// These inputs, with each file marked that is closed.
fn marked<T: Tree>(alloc: Global, ins: &[In], tree: &mut T) -> Result<Vec<In>, WorldErr>
    requires there { IfSome (T.state tree.old).held (λ files. AreThere files ins.now) }
    ensures same { IfOk result (λ all. map unmarked all.items ≡ map unmarked ins.now) }
    ensures marks { (files : Files) → (T.state tree.old).held ≡ Some files → IfOk result (λ all. list_all (holds_mark (bytes_at files)) all.items ≡ true) }
    ensures state { T.state tree.new ≡ T.state tree.old }
    ensures cause { Counts (T.faults tree.old) (T.faults tree.new) result }
{
    let mut all = Vec::new(alloc);
    let mut left = ins;
    while let [it, rest @ ..] = left {
        add_marked(it, &mut all, tree)?;
        left = rest;
    }
    Ok(all)
}

/// Puts an input behind others, marked where it is a file that is closed.
#[tactic(auto, using(crate::proofs::MarkLemmas::mark_steps))]
fn add_marked<T: Tree>(it: &In, all: &mut Vec<In>, tree: &mut T) -> Result<(), WorldErr>
    requires there { IfSome (T.state tree.old).held (λ files. IsThere files it.now) }
    ensures same { OnOk result (map unmarked all.new.items ≡ map unmarked all.old.items ++ unmarked it.now ∷ []) }
    ensures marks { (files : Files) → (T.state tree.old).held ≡ Some files → list_all (holds_mark (bytes_at files)) all.old.items ≡ true
        → OnOk result (list_all (holds_mark (bytes_at files)) all.new.items ≡ true) }
    ensures state { T.state tree.new ≡ T.state tree.old }
    ensures cause { Counts (T.faults tree.old) (T.faults tree.new) result }
{
    let one = mark(it, tree)?;
    all.push(one)?;
    Ok(())
}

/// An input, marked where it is a file that is closed.
fn mark<T: Tree>(it: &In, tree: &mut T) -> Result<In, WorldErr>
    requires there { IfSome (T.state tree.old).held (λ files. IsThere files it.now) }
    ensures same { IfOk result (λ one. unmarked one ≡ unmarked it.now) }
    ensures marks { (files : Files) → (T.state tree.old).held ≡ Some files → IfOk result (λ one. holds_mark (bytes_at files) one ≡ true) }
    ensures state { T.state tree.new ≡ T.state tree.old }
    ensures cause { Counts (T.faults tree.old) (T.faults tree.new) result }
{
    match it {
        In::Stream => Ok(In::Stream),
        In::Empty => Ok(In::Empty),
        In::File(path, _) => mark_file(path, tree),
    }
}

/// A file as an input, marked where it is closed.
fn mark_file<T: Tree>(path: &Path, tree: &mut T) -> Result<In, WorldErr>
    requires there { IfSome (T.state tree.old).held (λ files. IsFileAt files path.now) }
    ensures same { IfOk result (λ one. unmarked one ≡ In.File path.now false) }
    ensures marks { (files : Files) → (T.state tree.old).held ≡ Some files → IfOk result (λ one. holds_mark (bytes_at files) one ≡ true) }
    ensures state { T.state tree.new ≡ T.state tree.old }
    ensures cause { Counts (T.faults tree.old) (T.faults tree.new) result }
{
    let copy = path.copy()?;
    let closed = tree.ends_line(path)?;
    Ok(In::File(copy, closed))
}
