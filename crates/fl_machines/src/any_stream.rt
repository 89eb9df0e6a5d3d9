//! The stream of any utility.
ghost use Rattle.std.specs.Prelude.{◌≡◌, ℕ, List, [], ◌∷◌, false, true, IfOk};
ghost use Rattle.ut_args.specs.Built.{is_built_of};
ghost use Rattle.fl_graph.specs.Kinds.{runs_what_is_built};
ghost use Rattle.fl_classes.specs.Aggregates.{finish_of, map_of};
ghost use Rattle.fl_classes.specs.Utilities.{output_of, selects_of};
ghost use Rattle.ut_groups.specs.Uniq.{uniq_finish};
ghost use Rattle.fl_machines.specs.Kinds.{copies, copies_input, finishes_as_is, keeps_all, maps_as_whole, reads_apart, stream_output, stream_selects, takes_apart};

use fl_graph::NodeKind;
use ps_lines::Memory;
use std::alloc::Global;
use ut_args::{Groups, Inv};
use ut_bytes::Tr;
use ut_grep::Grep;
use ut_groups::{Kept, Named, Uniq, Wc};
use ut_slices::{Cut, Head, Tail};
use ut_sort::Sorter;
use ut_streams::Stream;

/// The stream of a utility, whichever it is.
#[derive(Drop)]
pub enum AnyStream {
    Grep(Grep),
    Tr(Tr),
    Cut(Cut),
    Head(Head),
    Tail(Tail),
    Wc(Wc),
    Named(Named),
    Uniq(Uniq),
    Kept(Kept),
    Sort(Sorter),
}

impl AnyStream {
    /// The stream of a node that runs a utility, at the beginning of its input; a utility's stream must be built.
    pub fn of_kind(alloc: Global, kind: &NodeKind) -> Result<AnyStream, Memory>
        requires built { runs_what_is_built kind.now ≡ true }
        requires joined { takes_apart kind.now ≡ false }
        requires changes { copies kind.now ≡ false }
        ensures due { IfOk result (λ stream. (text : List ℕ) → ⟦<AnyStream as Stream>⟧.due stream text ≡ stream_output kind.now text) }
        ensures selects { IfOk result (λ stream. (text : List ℕ) → ⟦<AnyStream as Stream>⟧.selects stream text ≡ stream_selects kind.now text) }
        ensures unspent { IfOk result (λ stream. ⟦<AnyStream as Stream>⟧.spent stream ≡ false) }
    {
        match kind {
            NodeKind::Map(inv) => AnyStream::of_map(alloc, inv),
            NodeKind::Whole(inv) => AnyStream::of_whole(alloc, inv),
            NodeKind::Finish(inv) => AnyStream::of_finish(alloc, inv),
            _ => unreachable!(),
        }
    }

    /// The stream of the map of an invocation that is built. There is none of a `grep` whose patterns can't be read, and `Memory` is told.
    fn of_map(alloc: Global, inv: &Inv) -> Result<AnyStream, Memory>
        requires built { is_built_of inv.now ≡ true }
        requires own { maps_as_whole inv.now ≡ false }
        requires changes { copies_input inv.now ≡ false }
        ensures due { IfOk result (λ stream. (text : List ℕ) → ⟦<AnyStream as Stream>⟧.due stream text ≡ map_of inv.now text) }
        ensures selects { IfOk result (λ stream. (text : List ℕ) → ⟦<AnyStream as Stream>⟧.selects stream text ≡ selects_of inv.now (text ∷ [])) }
        ensures unspent { IfOk result (λ stream. ⟦<AnyStream as Stream>⟧.spent stream ≡ false) }
    {
        match inv {
            Inv::Grep(grep) => match Grep::of_part(alloc, grep) {
                Ok(grep) => Ok(AnyStream::Grep(grep)),
                Err(memory) => Err(memory),
            },
            Inv::Tr(tr) => match Tr::new(alloc, tr) {
                Ok(tr) => Ok(AnyStream::Tr(tr)),
                Err(memory) => Err(memory),
            },
            Inv::Cut(cut) => match Cut::new(alloc, cut) {
                Ok(cut) => Ok(AnyStream::Cut(cut)),
                Err(memory) => Err(memory),
            },
            Inv::Head(head) => Ok(AnyStream::Head(Head::of(head.args.count))),
            Inv::Tail(tail) => match Tail::new(alloc, tail) {
                Ok(tail) => Ok(AnyStream::Tail(tail)),
                Err(memory) => Err(memory),
            },
            Inv::Wc(wc) => Ok(AnyStream::Wc(Wc::of_part(wc))),
            Inv::Uniq(uniq) => Ok(AnyStream::Uniq(Uniq::of_part(alloc, uniq))),
            Inv::Sort(sort) => match Sorter::new(alloc, sort) {
                Ok(sorter) => Ok(AnyStream::Sort(sorter)),
                Err(memory) => Err(memory),
            },
            Inv::Cat(_) => unreachable!(),
            Inv::Tee(_) => unreachable!(),
            Inv::Paste(_) => unreachable!(),
            _ => unreachable!(),
        }
    }

    /// The stream of an invocation that is built and whose inputs are read as one: the output of most is their map.
    #[tactic(auto, using(crate::proofs::MachineLemmas::wholes))]
    fn of_whole(alloc: Global, inv: &Inv) -> Result<AnyStream, Memory>
        requires built { is_built_of inv.now ≡ true }
        requires joined { reads_apart inv.now ≡ false }
        requires changes { copies_input inv.now ≡ false }
        ensures due { IfOk result (λ stream. (text : List ℕ) → ⟦<AnyStream as Stream>⟧.due stream text ≡ output_of inv.now (text ∷ [])) }
        ensures selects { IfOk result (λ stream. (text : List ℕ) → ⟦<AnyStream as Stream>⟧.selects stream text ≡ selects_of inv.now (text ∷ [])) }
        ensures unspent { IfOk result (λ stream. ⟦<AnyStream as Stream>⟧.spent stream ≡ false) }
    {
        match inv {
            Inv::Uniq(uniq) => Ok(AnyStream::Uniq(Uniq::new(alloc, uniq))),
            Inv::Grep(_) => unreachable!(),
            Inv::Head(_) => unreachable!(),
            Inv::Wc(_) => unreachable!(),
            Inv::Paste(_) => unreachable!(),
            _ => AnyStream::of_map(alloc, inv),
        }
    }

    /// The stream of the finish of an invocation that is built, where it changes something.
    fn of_finish(alloc: Global, inv: &Inv) -> Result<AnyStream, Memory>
        requires built { is_built_of inv.now ≡ true }
        requires changes { finishes_as_is inv.now ≡ false }
        ensures due { IfOk result (λ stream. (text : List ℕ) → ⟦<AnyStream as Stream>⟧.due stream text ≡ finish_of inv.now text) }
        ensures selects { IfOk result (λ stream. (text : List ℕ) → ⟦<AnyStream as Stream>⟧.selects stream text ≡ false) }
        ensures unspent { IfOk result (λ stream. ⟦<AnyStream as Stream>⟧.spent stream ≡ false) }
    {
        match inv {
            Inv::Wc(wc) => match Named::new(alloc, wc) {
                Ok(named) => Ok(AnyStream::Named(named)),
                Err(memory) => Err(memory),
            },
            Inv::Uniq(uniq) => Ok(AnyStream::of_groups(alloc, uniq.args.groups)),
            _ => unreachable!(),
        }
    }

    /// The stream of the finish of `uniq` that keeps groups by their counts.
    fn of_groups(alloc: Global, groups: Groups) -> AnyStream
        requires { keeps_all groups ≡ false }
        ensures due { (text : List ℕ) → ⟦<AnyStream as Stream>⟧.due result text ≡ uniq_finish groups text }
        ensures selects { (text : List ℕ) → ⟦<AnyStream as Stream>⟧.selects result text ≡ false }
        ensures unspent { ⟦<AnyStream as Stream>⟧.spent result ≡ false }
    {
        match groups {
            Groups::All | Groups::Counted => unreachable!(),
            Groups::Repeated => AnyStream::Kept(Kept::new(alloc, Groups::Repeated)),
            Groups::Single => AnyStream::Kept(Kept::new(alloc, Groups::Single)),
        }
    }
}

impl Stream for AnyStream {
    ghost use Rattle.fl_machines.specs.declared.any_stream.AnyStream.TheVariants.{Grep, Tr, Cut, Head, Tail, Wc, Named, Uniq, Kept, Sort};

    ghost due = { λ stream more. elim stream [
      | Grep grep ↦ ⟦<Grep as Stream>⟧.due grep more
      | Tr tr ↦ ⟦<Tr as Stream>⟧.due tr more
      | Cut cut ↦ ⟦<Cut as Stream>⟧.due cut more
      | Head head ↦ ⟦<Head as Stream>⟧.due head more
      | Tail tail ↦ ⟦<Tail as Stream>⟧.due tail more
      | Wc wc ↦ ⟦<Wc as Stream>⟧.due wc more
      | Named named ↦ ⟦<Named as Stream>⟧.due named more
      | Uniq uniq ↦ ⟦<Uniq as Stream>⟧.due uniq more
      | Kept kept ↦ ⟦<Kept as Stream>⟧.due kept more
      | Sort sorter ↦ ⟦<Sorter as Stream>⟧.due sorter more
    ] };

    ghost selects = { λ stream more. elim stream [
      | Grep grep ↦ ⟦<Grep as Stream>⟧.selects grep more
      | Tr tr ↦ ⟦<Tr as Stream>⟧.selects tr more
      | Cut cut ↦ ⟦<Cut as Stream>⟧.selects cut more
      | Head head ↦ ⟦<Head as Stream>⟧.selects head more
      | Tail tail ↦ ⟦<Tail as Stream>⟧.selects tail more
      | Wc wc ↦ ⟦<Wc as Stream>⟧.selects wc more
      | Named named ↦ ⟦<Named as Stream>⟧.selects named more
      | Uniq uniq ↦ ⟦<Uniq as Stream>⟧.selects uniq more
      | Kept kept ↦ ⟦<Kept as Stream>⟧.selects kept more
      | Sort sorter ↦ ⟦<Sorter as Stream>⟧.selects sorter more
    ] };

    ghost selected = { λ stream. elim stream [
      | Grep grep ↦ ⟦<Grep as Stream>⟧.selected grep
      | Tr tr ↦ ⟦<Tr as Stream>⟧.selected tr
      | Cut cut ↦ ⟦<Cut as Stream>⟧.selected cut
      | Head head ↦ ⟦<Head as Stream>⟧.selected head
      | Tail tail ↦ ⟦<Tail as Stream>⟧.selected tail
      | Wc wc ↦ ⟦<Wc as Stream>⟧.selected wc
      | Named named ↦ ⟦<Named as Stream>⟧.selected named
      | Uniq uniq ↦ ⟦<Uniq as Stream>⟧.selected uniq
      | Kept kept ↦ ⟦<Kept as Stream>⟧.selected kept
      | Sort sorter ↦ ⟦<Sorter as Stream>⟧.selected sorter
    ] };

    ghost spent = { λ stream. elim stream [
      | Grep grep ↦ ⟦<Grep as Stream>⟧.spent grep
      | Tr tr ↦ ⟦<Tr as Stream>⟧.spent tr
      | Cut cut ↦ ⟦<Cut as Stream>⟧.spent cut
      | Head head ↦ ⟦<Head as Stream>⟧.spent head
      | Tail tail ↦ ⟦<Tail as Stream>⟧.spent tail
      | Wc wc ↦ ⟦<Wc as Stream>⟧.spent wc
      | Named named ↦ ⟦<Named as Stream>⟧.spent named
      | Uniq uniq ↦ ⟦<Uniq as Stream>⟧.spent uniq
      | Kept kept ↦ ⟦<Kept as Stream>⟧.spent kept
      | Sort sorter ↦ ⟦<Sorter as Stream>⟧.spent sorter
    ] };

    fn feed(&mut self, piece: &[u8], out: &mut Vec<u8>) -> Result<(), Memory> {
        match self {
            AnyStream::Grep(grep) => grep.feed(piece, out),
            AnyStream::Tr(tr) => tr.feed(piece, out),
            AnyStream::Cut(cut) => cut.feed(piece, out),
            AnyStream::Head(head) => head.feed(piece, out),
            AnyStream::Tail(tail) => tail.feed(piece, out),
            AnyStream::Wc(wc) => wc.feed(piece, out),
            AnyStream::Named(named) => named.feed(piece, out),
            AnyStream::Uniq(uniq) => uniq.feed(piece, out),
            AnyStream::Kept(kept) => kept.feed(piece, out),
            AnyStream::Sort(sorter) => sorter.feed(piece, out),
        }
    }

    fn finish(&mut self, out: &mut Vec<u8>) -> Result<(), Memory> {
        match self {
            AnyStream::Grep(grep) => grep.finish(out),
            AnyStream::Tr(tr) => tr.finish(out),
            AnyStream::Cut(cut) => cut.finish(out),
            AnyStream::Head(head) => head.finish(out),
            AnyStream::Tail(tail) => tail.finish(out),
            AnyStream::Wc(wc) => wc.finish(out),
            AnyStream::Named(named) => named.finish(out),
            AnyStream::Uniq(uniq) => uniq.finish(out),
            AnyStream::Kept(kept) => kept.finish(out),
            AnyStream::Sort(sorter) => sorter.finish(out),
        }
    }

    fn has_selected(&self) -> bool {
        match self {
            AnyStream::Grep(grep) => grep.has_selected(),
            AnyStream::Tr(tr) => tr.has_selected(),
            AnyStream::Cut(cut) => cut.has_selected(),
            AnyStream::Head(head) => head.has_selected(),
            AnyStream::Tail(tail) => tail.has_selected(),
            AnyStream::Wc(wc) => wc.has_selected(),
            AnyStream::Named(named) => named.has_selected(),
            AnyStream::Uniq(uniq) => uniq.has_selected(),
            AnyStream::Kept(kept) => kept.has_selected(),
            AnyStream::Sort(sorter) => sorter.has_selected(),
        }
    }

    fn is_spent(&self) -> bool {
        match self {
            AnyStream::Grep(grep) => grep.is_spent(),
            AnyStream::Tr(tr) => tr.is_spent(),
            AnyStream::Cut(cut) => cut.is_spent(),
            AnyStream::Head(head) => head.is_spent(),
            AnyStream::Tail(tail) => tail.is_spent(),
            AnyStream::Wc(wc) => wc.is_spent(),
            AnyStream::Named(named) => named.is_spent(),
            AnyStream::Uniq(uniq) => uniq.is_spent(),
            AnyStream::Kept(kept) => kept.is_spent(),
            AnyStream::Sort(sorter) => sorter.is_spent(),
        }
    }
}
