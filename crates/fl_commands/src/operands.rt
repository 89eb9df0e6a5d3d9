//! What the operands of a utility name.
ghost use Rattle.std.specs.Prelude.{◌≡◌, ℕ, List, ◌∷◌, ◌++◌, [], false, map, Some, IfOk, IfSome, OnOk};
ghost use Rattle.ps_lines.specs.Texts.{texts_of};
ghost use Rattle.ps_world.specs.Counts.{Counts};
ghost use Rattle.ps_world.specs.Files.{Files};
ghost use Rattle.ps_world.specs.Paths.{Components};
ghost use Rattle.ut_args.specs.Inputs.{deals as deals_def, is_standard};
ghost use Rattle.ut_args.specs.Invocations.{command_of};
ghost use Rattle.fl_commands.specs.Operands.{AllStand, AreNamed, IsApart, IsEmptyMissing, Stands, in_at, in_standard, ins_from, ins_of as ins_of_def, is_readable as is_readable_def, is_stream_operand, lacks as lacks_def, named};

use fl_segments::In;
use ps_lines::Memory;
use ps_world::{Place, Tree, WorldErr, look};
use std::alloc::Global;
use ut_args::Inv;

/// What an operand of a utility names.
#[derive(Debug, Drop)]
pub enum Operand {
    /// The standard input.
    Standard,
    /// What a path leads to.
    At(Place),
}

/// Looks up what operands name, in their order.
///
/// The tree is asked nothing of `-`, the empty text and `/dev/null`. It is as it was. A fault is the tree's.
pub fn look_at<T: Tree>(
    alloc: Global,
    operands: &[Vec<u8>],
    tree: &mut T,
) -> Result<Vec<Operand>, WorldErr>
    ensures named { (files : Files) (home : Components) → (T.state tree.old).held ≡ Some files → (T.state tree.old).home ≡ home
        → IfOk result (λ found. found.items ≡ map (named files home) (texts_of operands.now)) }
    ensures stand { IfOk result (λ found. IfSome (T.state tree.old).held (λ files. AllStand files found.items)) }
    ensures are { IfOk result (λ found. AreNamed (texts_of operands.now) found.items) }
    ensures state { T.state tree.new ≡ T.state tree.old }
    ensures cause { Counts (T.faults tree.old) (T.faults tree.new) result }
{
    let mut found = Vec::new(alloc);
    let mut left = operands;
    while let [operand, rest @ ..] = left {
        add_operand(alloc, operand.as_slice(), &mut found, tree)?;
        left = rest;
    }
    Ok(found)
}

/// Looks up what an operand names, behind those that are known.
#[tactic(auto, using(crate::proofs::OperandLemmas::operand_steps))]
fn add_operand<T: Tree>(
    alloc: Global,
    text: &[u8],
    found: &mut Vec<Operand>,
    tree: &mut T,
) -> Result<(), WorldErr>
    ensures named { (files : Files) (home : Components) → (T.state tree.old).held ≡ Some files → (T.state tree.old).home ≡ home
        → OnOk result (found.new.items ≡ found.old.items ++ named files home text.now ∷ []) }
    ensures stand { (files : Files) → (T.state tree.old).held ≡ Some files → AllStand files found.old.items → OnOk result (AllStand files found.new.items) }
    ensures are { (texts : List (List ℕ)) → AreNamed texts found.old.items → OnOk result (AreNamed (texts ++ text.now ∷ []) found.new.items) }
    ensures state { T.state tree.new ≡ T.state tree.old }
    ensures cause { Counts (T.faults tree.old) (T.faults tree.new) result }
{
    let operand = look_up(alloc, text, tree)?;
    found.push(operand)?;
    Ok(())
}

/// Looks up what an operand names.
fn look_up<T: Tree>(alloc: Global, text: &[u8], tree: &mut T) -> Result<Operand, WorldErr>
    ensures named { (files : Files) (home : Components) → (T.state tree.old).held ≡ Some files → (T.state tree.old).home ≡ home
        → IfOk result (λ operand. operand ≡ named files home text.now) }
    ensures stand { IfOk result (λ operand. IfSome (T.state tree.old).held (λ files. Stands files operand)) }
    ensures empty { IfOk result (λ operand. IsEmptyMissing text.now operand) }
    ensures apart { IfOk result (λ operand. IsApart operand) }
    ensures standard { IfOk result (λ operand. is_standard text.now ≡ is_stream_operand operand) }
    ensures state { T.state tree.new ≡ T.state tree.old }
    ensures cause { Counts (T.faults tree.old) (T.faults tree.new) result }
{
    if text == b"-".as_slice() {
        return Ok(Operand::Standard);
    }
    Ok(Operand::At(look(alloc, tree, text)?))
}

/// Whether there is something to read at a place: a file, or the null device.
fn is_readable(place: &Place) -> bool
    ensures { result ≡ is_readable_def place.now }
{
    matches!(place, Place::File(_) | Place::Null)
}

/// Whether an operand has no input.
pub fn lacks(operand: &Operand) -> bool
    ensures { result ≡ lacks_def operand.now }
{
    match operand {
        Operand::Standard => false,
        Operand::At(place) => !is_readable(place),
    }
}

/// For each operand, whether it has no input.
pub fn lacking(alloc: Global, operands: &[Operand]) -> Result<Vec<bool>, Memory>
    ensures { IfOk result (λ flags. flags.items ≡ map lacks_def operands.now) }
{
    let mut flags = Vec::new(alloc);
    for operand in operands {
        flags.push(lacks(operand))?;
    }
    Ok(flags)
}

/// Whether the lines of the standard input are dealt to all operands that are `-` (XCU paste, without `-s`).
pub fn deals(inv: &Inv) -> bool
    ensures { result ≡ deals_def (command_of inv.now) }
{
    match inv {
        Inv::Paste(paste) => !paste.args.serial,
        _ => false,
    }
}

/// The inputs that operands name, in their order: the standard input where there is no operand.
///
/// The first `-` takes the standard input to its end, so each other is empty; where its lines are dealt to all `-` (`deals`), no other is an
/// input. No file is known to be closed.
pub fn ins_of(alloc: Global, operands: &[Operand], deals: bool) -> Result<Vec<In>, Memory>
    ensures { IfOk result (λ ins. ins.items ≡ ins_of_def deals operands.now) }
{
    let mut ins = Vec::new(alloc);
    let [_, ..] = operands else {
        ins.push(In::Stream)?;
        return Ok(ins);
    };
    add_ins(operands, deals, &mut ins)?;
    Ok(ins)
}

/// Puts the inputs that operands name behind others.
fn add_ins(operands: &[Operand], deals: bool, ins: &mut Vec<In>) -> Result<(), Memory>
    ensures { OnOk result (ins.new.items ≡ ins.old.items ++ ins_from deals false operands.now) }
{
    let mut is_taken = false;
    let mut left = operands;
    while let [operand, rest @ ..] = left {
        match operand {
            Operand::Standard => {
                add_standard(deals, is_taken, ins)?;
                is_taken = true;
            }
            Operand::At(place) => add_in(place, ins)?,
        }
        left = rest;
    }
    Ok(())
}

/// Puts the standard input behind other inputs. Where it was taken before, that is an empty one, or none where its lines are dealt.
fn add_standard(deals: bool, is_taken: bool, ins: &mut Vec<In>) -> Result<(), Memory>
    ensures { OnOk result (ins.new.items ≡ ins.old.items ++ in_standard deals is_taken) }
{
    if !is_taken {
        ins.push(In::Stream)?;
        return Ok(());
    }
    if !deals {
        ins.push(In::Empty)?;
    }
    Ok(())
}

/// Puts the input at a place behind others, if there is one.
fn add_in(place: &Place, ins: &mut Vec<In>) -> Result<(), Memory>
    ensures { OnOk result (ins.new.items ≡ ins.old.items ++ in_at place.now) }
{
    match place {
        Place::File(path) => ins.push(In::File(path.copy()?, false))?,
        Place::Null => ins.push(In::Empty)?,
        Place::Missing | Place::Makeable(_) | Place::Dir(_) => {}
    }
    Ok(())
}
