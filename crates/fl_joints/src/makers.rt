//! The joint of a node.
ghost use Rattle.std.specs.Prelude.{◌≡◌, ◌≤◌, true, IfOk};
ghost use Rattle.ut_args.specs.Built.{is_built_of, is_built_tail, is_built_uniq};
ghost use Rattle.ut_args.specs.declared.invocations.Inv.TheVariants as inv;
ghost use Rattle.fl_graph.specs.declared.kinds.NodeKind.TheVariants as kind;
ghost use Rattle.fl_graph.specs.Kinds.{may_have, runs_what_is_built};
ghost use Rattle.fl_classes.specs.Kinds.{is_from_end, run_outs};
ghost use Rattle.fl_classes.specs.Nodes.{Begins};
ghost use Rattle.fl_joints.specs.Joints.{is_joint};

use crate::fixed::Fixed;
use crate::gathered::Gathered;
use crate::in_order::InOrder;
use crate::joints::Joint;
use crate::readings::Reading;
use crate::splits::Split;
use crate::sums::CountSum;
use crate::tees::Tee;
use fl_graph::{Machine, NodeKind};
use fl_machines::{AnyStream, AtPorts};
use ps_lines::Memory;
use std::alloc::Global;
use ut_args::{HeadInv, Inv, SortInv, TailInv, TrInv, UniqInv};
use ut_bytes::Tr;
use ut_groups::{Columns, Uniq};
use ut_slices::{Head, Tail};
use ut_sort::Merger;

/// The machine of a node that joins or splits, at its beginning.
///
/// `ins` and `outs` are the numbers of the node's ins and outs; that of a node which writes a file has an out to it before those. Memory is
/// wanted for what the node holds from the start.
#[tactic(auto, using(crate::proofs::MakerLemmas::begins))]
pub fn joint(alloc: Global, kind: &NodeKind, ins: u32, outs: u32) -> Result<Joint, Memory>
    requires known { is_joint kind.now ≡ true }
    requires ports { may_have kind.now ins outs ≡ true }
    requires built { runs_what_is_built kind.now ≡ true }
    ensures { IfOk result (λ joint. Begins kind.now ins (run_outs kind.now outs) (⟦<Joint as Machine>⟧.state joint)) }
{
    match kind {
        NodeKind::Cat { close } => Ok(Joint::InOrder(InOrder::new(alloc, ins, *close))),
        NodeKind::Drain => Ok(Joint::Fixed(Fixed::draining(alloc)?)),
        NodeKind::Text(text) => Ok(Joint::Fixed(Fixed::giving(alloc, text)?)),
        NodeKind::Agg(inv) => match aggregate(alloc, inv, ins) {
            Ok(joint) => Ok(joint),
            Err(memory) => Err(memory),
        },
        NodeKind::Split => Ok(Joint::Split(Split::new(alloc, outs))),
        NodeKind::TeeFile(..) => Ok(Joint::Tee(Tee::new(alloc, outs + 1))),
        _ => unreachable!(),
    }
}

/// The machine of an aggregate.
fn aggregate(alloc: Global, inv: &Inv, ins: u32) -> Result<Joint, Memory>
    requires known { is_joint (kind.Agg inv.now) ≡ true }
    requires ports { 2 ≤ ins }
    requires built { is_built_of inv.now ≡ true }
    ensures { IfOk result (λ joint. Begins (kind.Agg inv.now) ins 1 (⟦<Joint as Machine>⟧.state joint)) }
{
    match inv {
        Inv::Wc(wc) => {
            let reading = Reading::OfWc(Columns::of(&wc.args));
            Ok(Joint::CountSum(CountSum::new(alloc, reading, ins)))
        }
        Inv::Grep(_) => Ok(Joint::CountSum(CountSum::new(alloc, Reading::OfGrep, ins))),
        Inv::Uniq(uniq) => Ok(Joint::Gathered(groups(alloc, uniq, ins))),
        Inv::Tr(tr) => match seams(alloc, tr, ins) {
            Ok(machine) => Ok(Joint::Gathered(machine)),
            Err(memory) => Err(memory),
        },
        Inv::Head(head) => Ok(Joint::Gathered(heads(alloc, head, ins))),
        Inv::Tail(tail) => match tails(alloc, tail, ins) {
            Ok(machine) => Ok(Joint::Gathered(machine)),
            Err(memory) => Err(memory),
        },
        Inv::Sort(sort) => match merge(alloc, sort, ins) {
            Ok(machine) => Ok(Joint::Merge(machine)),
            Err(memory) => Err(memory),
        },
        _ => unreachable!(),
    }
}

/// The machine of an aggregate of `uniq`: the groups of the lines of all ins.
fn groups(alloc: Global, uniq: &UniqInv, ins: u32) -> Gathered<AnyStream>
    requires ports { 2 ≤ ins }
    requires built { is_built_uniq uniq.now.args ≡ true }
    ensures { Begins (kind.Agg (inv.Uniq uniq.now)) ins 1 (⟦<Gathered<AnyStream> as Machine>⟧.state result) }
{
    let stream = AnyStream::Uniq(Uniq::of_parts(alloc, uniq));
    Gathered::new(alloc, stream, ins, true)
}

/// The machine of an aggregate of `tr`: what all ins bring, squeezed once more.
fn seams(alloc: Global, tr: &TrInv, ins: u32) -> Result<Gathered<AnyStream>, Memory>
    requires ports { 2 ≤ ins }
    ensures { IfOk result (λ machine. Begins (kind.Agg (inv.Tr tr.now)) ins 1 (⟦<Gathered<AnyStream> as Machine>⟧.state machine)) }
{
    match Tr::of_parts(alloc, tr) {
        Ok(stream) => Ok(Gathered::new(alloc, AnyStream::Tr(stream), ins, false)),
        Err(memory) => Err(memory),
    }
}

/// The machine of an aggregate of `head`: the first lines of what all ins bring.
fn heads(alloc: Global, head: &HeadInv, ins: u32) -> Gathered<AnyStream>
    requires ports { 2 ≤ ins }
    ensures { Begins (kind.Agg (inv.Head head.now)) ins 1 (⟦<Gathered<AnyStream> as Machine>⟧.state result) }
{
    let stream = AnyStream::Head(Head::of(head.args.count));
    Gathered::new(alloc, stream, ins, false)
}

/// The machine of an aggregate of `tail` from the end: the last lines or bytes of what all ins bring.
fn tails(alloc: Global, tail: &TailInv, ins: u32) -> Result<Gathered<AnyStream>, Memory>
    requires ports { 2 ≤ ins }
    requires built { is_built_tail tail.now.args ≡ true }
    requires from_end { is_from_end tail.now.args.part.origin ≡ true }
    ensures { IfOk result (λ machine. Begins (kind.Agg (inv.Tail tail.now)) ins 1 (⟦<Gathered<AnyStream> as Machine>⟧.state machine)) }
{
    match Tail::new(alloc, tail) {
        Ok(stream) => Ok(Gathered::new(alloc, AnyStream::Tail(stream), ins, false)),
        Err(memory) => Err(memory),
    }
}

/// The machine of an aggregate of `sort`: the merge of what all ins bring, from the left.
fn merge(alloc: Global, sort: &SortInv, ins: u32) -> Result<AtPorts<Merger>, Memory>
    requires ports { 2 ≤ ins }
    ensures { IfOk result (λ machine. Begins (kind.Agg (inv.Sort sort.now)) ins 1 (⟦<AtPorts<Merger> as Machine>⟧.state machine)) }
{
    let merger = Merger::new(alloc, sort, ins)?;
    let machine = AtPorts::new(alloc, merger, ins)?;
    Ok(machine)
}
