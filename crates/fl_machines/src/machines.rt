//! The machine of a node that runs a utility.
ghost use Rattle.std.specs.Prelude.{◌≡◌, ◌<◌, ℕ, List, true, false, IfOk, IfNone, IfSome};
ghost use Rattle.ut_args.specs.declared.invocations.Inv.TheVariants.{Paste};
ghost use Rattle.fl_graph.specs.declared.kinds.NodeKind.TheVariants.{Whole};
ghost use Rattle.fl_classes.specs.Nodes.{Begins};
ghost use Rattle.fl_machines.specs.Kinds.{copies as copies_def, copies_input as copies_input_def, finishes_as_is as finishes_as_is_def, is_utility_node, maps_as_whole as maps_as_whole_def, reads_apart as reads_apart_def, reads_at_once, stream_output, stream_selects, takes_apart, RunsApart};
ghost use Rattle.ut_sort.specs.Order.{sorted_text};

use crate::any_series::AnySeries;
use crate::any_stream::AnyStream;
use crate::at_ports::AtPorts;
use crate::copying::Copying;
use crate::in_series::InSeries;
use crate::sorting::Sorting;
use crate::through::Through;
use fl_graph::{Act, Machine, NodeKind, Piece};
use ps_lines::Memory;
use std::alloc::Global;
use ut_args::{Groups, Inv, PasteInv, SortInv};
use ut_slices::Side;
use ut_sort::Sorter;

/// The machine of a map, a whole or a finish.
#[derive(Drop)]
pub enum UtilMachine {
    /// That of what copies its input, with one in, and of what has none.
    Copying(Copying),
    /// That of a stream, with one in.
    One(Through<AnyStream>),
    /// That of a `sort`, with one in.
    Sorting(Sorting),
    /// That of a series, with any number of ins.
    InSeries(InSeries<AnySeries>),
    /// That of a stream of several inputs at once, with any number of ins.
    AtOnce(AtPorts<Side>),
}

/// The machine of a node of this kind with so many ins and outs, at its beginning.
///
/// A whole of a command that reads its inputs apart has a machine of any number of ins, also where there is one: of two operands one may
/// lack an input. Any other whole without an in writes nothing.
#[tactic(auto, using(crate::proofs::MachineLemmas::aparts))]
pub fn util_machine(
    alloc: Global,
    kind: &NodeKind,
    ins: u32,
    outs: u32,
) -> Result<UtilMachine, Memory>
    requires { is_utility_node kind.now ins outs ≡ true }
    ensures { IfOk result (λ machine. Begins kind.now ins outs (⟦<UtilMachine as Machine>⟧.state machine)) }
{
    match run_apart(kind) {
        Some(inv) => match apart_machine(alloc, inv, ins, outs) {
            Ok(machine) => Ok(machine),
            Err(memory) => Err(memory),
        },
        None => match joined_machine(alloc, kind, ins, outs) {
            Ok(machine) => Ok(machine),
            Err(memory) => Err(memory),
        },
    }
}

/// The invocation that a node runs whose machine takes its ins apart: that of a whole, or of the map of a `paste`, which is its whole for
/// one input.
fn run_apart(kind: &NodeKind) -> Option<&Inv>
    ensures runs { IfSome result (λ inv. RunsApart kind.now inv.now) }
    ensures none { IfNone result (takes_apart kind.now ≡ false) }
{
    match kind {
        NodeKind::Whole(inv) => {
            if reads_apart(inv) {
                return Some(inv);
            }
            None
        }
        NodeKind::Map(inv) => {
            if maps_as_whole(inv) {
                return Some(inv);
            }
            None
        }
        _ => None,
    }
}

/// Whether the command reads its inputs apart, and not as one text.
fn reads_apart(inv: &Inv) -> bool
    ensures { result ≡ reads_apart_def inv.now }
{
    matches!(
        inv,
        Inv::Grep(_) | Inv::Head(_) | Inv::Wc(_) | Inv::Paste(_)
    )
}

/// Whether the command reads its inputs apart, and its map is its output for one.
fn maps_as_whole(inv: &Inv) -> bool
    ensures { result ≡ maps_as_whole_def inv.now }
{
    matches!(inv, Inv::Paste(_))
}

/// The machine of the whole of an invocation that reads its inputs apart.
fn apart_machine(alloc: Global, inv: &Inv, ins: u32, outs: u32) -> Result<UtilMachine, Memory>
    requires node { is_utility_node (Whole inv.now) ins outs ≡ true }
    requires apart { reads_apart_def inv.now ≡ true }
    ensures { IfOk result (λ machine. Begins (Whole inv.now) ins outs (⟦<UtilMachine as Machine>⟧.state machine)) }
{
    match side_by_side(inv) {
        Some(paste) => match side_machine(alloc, paste, ins, outs) {
            Ok(machine) => Ok(UtilMachine::AtOnce(machine)),
            Err(memory) => Err(memory),
        },
        None => match series_machine(alloc, inv, ins, outs) {
            Ok(machine) => Ok(UtilMachine::InSeries(machine)),
            Err(memory) => Err(memory),
        },
    }
}

/// The invocation of a `paste` of lines side by side.
fn side_by_side(inv: &Inv) -> Option<&PasteInv>
    ensures some { IfSome result (λ paste. inv.now ≡ Paste paste.now) }
    ensures side { IfSome result (λ paste. paste.now.args.serial ≡ false) }
    ensures none { IfNone result (reads_at_once inv.now ≡ false) }
{
    match inv {
        Inv::Paste(paste) => {
            if paste.args.serial {
                return None;
            }
            Some(paste)
        }
        _ => None,
    }
}

/// The machine of such a `paste`.
fn side_machine(
    alloc: Global,
    paste: &PasteInv,
    ins: u32,
    outs: u32,
) -> Result<AtPorts<Side>, Memory>
    requires node { is_utility_node (Whole (Paste paste.now)) ins outs ≡ true }
    requires side { paste.now.args.serial ≡ false }
    ensures { IfOk result (λ machine. Begins (Whole (Paste paste.now)) ins outs (⟦<AtPorts<Side> as Machine>⟧.state machine)) }
{
    match Side::new(alloc, &paste.args) {
        Ok(side) => match AtPorts::new(alloc, side, ins) {
            Ok(machine) => Ok(machine),
            Err(memory) => Err(memory),
        },
        Err(memory) => Err(memory),
    }
}

/// The machine of the series of such an invocation.
fn series_machine(
    alloc: Global,
    inv: &Inv,
    ins: u32,
    outs: u32,
) -> Result<InSeries<AnySeries>, Memory>
    requires node { is_utility_node (Whole inv.now) ins outs ≡ true }
    requires apart { reads_apart_def inv.now ≡ true }
    requires in_order { reads_at_once inv.now ≡ false }
    ensures { IfOk result (λ machine. Begins (Whole inv.now) ins outs (⟦<InSeries<AnySeries> as Machine>⟧.state machine)) }
{
    let series = match AnySeries::of_inv(alloc, inv) {
        Ok(series) => series,
        Err(memory) => return Err(memory),
    };
    if ins == 0 {
        return match InSeries::of_nothing(alloc, series) {
            Ok(machine) => Ok(machine),
            Err(memory) => Err(memory),
        };
    }
    Ok(InSeries::new(alloc, series, ins))
}

/// The machine of any other node. What copies its input has one that hands its pieces on, and so has what lacks an input. A `sort` has one of its
/// own: its stream would hold the whole of its output.
fn joined_machine(
    alloc: Global,
    kind: &NodeKind,
    ins: u32,
    outs: u32,
) -> Result<UtilMachine, Memory>
    requires node { is_utility_node kind.now ins outs ≡ true }
    requires joined { takes_apart kind.now ≡ false }
    ensures { IfOk result (λ machine. Begins kind.now ins outs (⟦<UtilMachine as Machine>⟧.state machine)) }
{
    if ins == 0 || copies(kind) {
        return Ok(UtilMachine::Copying(copying_machine(kind, ins, outs)));
    }
    if let Some(sort) = sort_of(kind) {
        return match sorting_machine(alloc, kind, sort, ins, outs) {
            Ok(machine) => Ok(UtilMachine::Sorting(machine)),
            Err(memory) => Err(memory),
        };
    }
    match stream_machine(alloc, kind, ins, outs) {
        Ok(machine) => Ok(UtilMachine::One(machine)),
        Err(memory) => Err(memory),
    }
}

/// Whether what the node writes is what comes at its in.
fn copies(kind: &NodeKind) -> bool
    ensures { result ≡ copies_def kind.now }
{
    match kind {
        NodeKind::Map(inv) => copies_input(inv),
        NodeKind::Whole(inv) => copies_input(inv),
        NodeKind::Finish(inv) => finishes_as_is(inv),
        _ => true,
    }
}

/// Whether the command writes its input as it is.
fn copies_input(inv: &Inv) -> bool
    ensures { result ≡ copies_input_def inv.now }
{
    matches!(inv, Inv::Cat(_) | Inv::Tee(_))
}

/// Whether the map of the whole is the command's output.
fn finishes_as_is(inv: &Inv) -> bool
    ensures { result ≡ finishes_as_is_def inv.now }
{
    match inv {
        Inv::Wc(_) => false,
        Inv::Uniq(uniq) => matches!(uniq.args.groups, Groups::All | Groups::Counted),
        _ => true,
    }
}

/// The machine of a node that copies its input, or has none.
fn copying_machine(kind: &NodeKind, ins: u32, outs: u32) -> Copying
    requires node { is_utility_node kind.now ins outs ≡ true }
    requires joined { takes_apart kind.now ≡ false }
    requires copied { 0 < ins → copies_def kind.now ≡ true }
    ensures { Begins kind.now ins outs (⟦<Copying as Machine>⟧.state result) }
{
    Copying::new(ins > 0)
}

/// The invocation of a map or a whole of `sort`.
#[tactic(auto, using(crate::proofs::MachineLemmas::wholes))]
fn sort_of(kind: &NodeKind) -> Option<&SortInv>
    ensures output { IfSome result (λ sort. (text : List ℕ) → stream_output kind.now text ≡ sorted_text sort.now.args text) }
    ensures selects { IfSome result (λ sort. (text : List ℕ) → stream_selects kind.now text ≡ false) }
{
    match kind {
        NodeKind::Map(Inv::Sort(sort)) => Some(sort),
        NodeKind::Whole(Inv::Sort(sort)) => Some(sort),
        _ => None,
    }
}

/// The machine of a node with an in that writes its text in this order.
fn sorting_machine(
    alloc: Global,
    kind: &NodeKind,
    sort: &SortInv,
    ins: u32,
    outs: u32,
) -> Result<Sorting, Memory>
    requires node { is_utility_node kind.now ins outs ≡ true }
    requires joined { takes_apart kind.now ≡ false }
    requires some { 0 < ins }
    requires output { (text : List ℕ) → stream_output kind.now text ≡ sorted_text sort.now.args text }
    requires selects { (text : List ℕ) → stream_selects kind.now text ≡ false }
    ensures { IfOk result (λ machine. Begins kind.now ins outs (⟦<Sorting as Machine>⟧.state machine)) }
{
    match Sorter::new(alloc, sort) {
        Ok(sorter) => Ok(Sorting::new(alloc, sorter)),
        Err(memory) => Err(memory),
    }
}

/// The machine of the stream of such a node.
fn stream_machine(
    alloc: Global,
    kind: &NodeKind,
    ins: u32,
    outs: u32,
) -> Result<Through<AnyStream>, Memory>
    requires node { is_utility_node kind.now ins outs ≡ true }
    requires joined { takes_apart kind.now ≡ false }
    requires changes { copies_def kind.now ≡ false }
    requires some { 0 < ins }
    ensures { IfOk result (λ machine. Begins kind.now ins outs (⟦<Through<AnyStream> as Machine>⟧.state machine)) }
{
    match AnyStream::of_kind(alloc, kind) {
        Ok(stream) => Ok(Through::new(alloc, stream)),
        Err(memory) => Err(memory),
    }
}

impl Machine for UtilMachine {
    ghost use Rattle.fl_machines.specs.declared.machines.UtilMachine.TheVariants as variant;

    ghost state = { λ util. elim util [
      | variant.Copying machine ↦ ⟦<Copying as Machine>⟧.state machine
      | variant.One machine ↦ ⟦<Through<AnyStream> as Machine>⟧.state machine
      | variant.Sorting machine ↦ ⟦<Sorting as Machine>⟧.state machine
      | variant.InSeries machine ↦ ⟦<InSeries<AnySeries> as Machine>⟧.state machine
      | variant.AtOnce machine ↦ ⟦<AtPorts<Side> as Machine>⟧.state machine
    ] };

    fn next(&self) -> Act {
        match self {
            UtilMachine::Copying(machine) => machine.next(),
            UtilMachine::One(machine) => machine.next(),
            UtilMachine::Sorting(machine) => machine.next(),
            UtilMachine::InSeries(machine) => machine.next(),
            UtilMachine::AtOnce(machine) => machine.next(),
        }
    }

    fn take(&mut self, piece: Piece) -> Result<(), Memory> {
        match self {
            UtilMachine::Copying(machine) => machine.take(piece),
            UtilMachine::One(machine) => machine.take(piece),
            UtilMachine::Sorting(machine) => machine.take(piece),
            UtilMachine::InSeries(machine) => machine.take(piece),
            UtilMachine::AtOnce(machine) => machine.take(piece),
        }
    }

    fn put(&mut self) -> Result<Piece, Memory> {
        match self {
            UtilMachine::Copying(machine) => machine.put(),
            UtilMachine::One(machine) => machine.put(),
            UtilMachine::Sorting(machine) => machine.put(),
            UtilMachine::InSeries(machine) => machine.put(),
            UtilMachine::AtOnce(machine) => machine.put(),
        }
    }

    fn break_off(&mut self) {
        match self {
            UtilMachine::Copying(machine) => machine.break_off(),
            UtilMachine::One(machine) => machine.break_off(),
            UtilMachine::Sorting(machine) => machine.break_off(),
            UtilMachine::InSeries(machine) => machine.break_off(),
            UtilMachine::AtOnce(machine) => machine.break_off(),
        }
    }

    fn selected(&self) -> bool {
        match self {
            UtilMachine::Copying(machine) => machine.selected(),
            UtilMachine::One(machine) => machine.selected(),
            UtilMachine::Sorting(machine) => machine.selected(),
            UtilMachine::InSeries(machine) => machine.selected(),
            UtilMachine::AtOnce(machine) => machine.selected(),
        }
    }
}
