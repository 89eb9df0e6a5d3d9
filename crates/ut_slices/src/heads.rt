//! The streams of an invocation of head.
ghost use Rattle.std.specs.Prelude.{◌≡◌, ◌∷◌, ◌++◌, ℕ, List, [], false, true, codes, if◌then◌else◌, IfOk};
ghost use Rattle.std.specs.List.{filter};
ghost use Rattle.std.specs.Result.{is_ok};
ghost use Rattle.ut_args.specs.Inputs.{is_named};
ghost use Rattle.ut_streams.specs.Streams.{Put, Wrote};
ghost use Rattle.ut_streams.specs.Utilities.{labelled};
ghost use Rattle.ut_slices.specs.Ends.{first_lines};
ghost use Rattle.ut_slices.specs.Head.{head_output, header, input_name as input_name_def};
ghost use Rattle.ut_slices.specs.Inner.Heads.{header_by};

use crate::ends::pass_lines;
use ps_lines::{Memory, NEWLINE};
use std::alloc::Global;
use ut_args::{HeadInv, Labels, has_at_most_one};
use ut_streams::{Series, Stream, put, put_line};

/// The first lines of one input.
#[derive(Drop)]
pub struct Head {
    /// How many lines are still to come.
    left: u64,
    spent: bool,
}

impl Head {
    /// The stream of the first lines, so many, of an input.
    pub fn of(count: u64) -> Head
        ensures due { (text : List ℕ) → ⟦<Head as Stream>⟧.due result text ≡ first_lines count text }
        ensures unspent { ⟦<Head as Stream>⟧.spent result ≡ false }
    {
        Head {
            left: count,
            spent: false,
        }
    }
}

impl Stream for Head {
    ghost due = { λ head more. first_lines head.left more };

    ghost selects = { λ _ _. false };

    ghost selected = { λ _. false };

    ghost spent = { λ head. head.spent };

    fn feed(&mut self, piece: &[u8], out: &mut Vec<u8>) -> Result<(), Memory> {
        let fed = put_first_lines(&mut self.left, piece, out);
        self.spent = fed.is_err();
        fed
    }

    /// Takes no memory, and so never answers Memory.
    #[tactic(auto, using(crate::proofs::EndLemmas::steps))]
    fn finish(&mut self, _out: &mut Vec<u8>) -> Result<(), Memory> {
        Ok(())
    }

    fn has_selected(&self) -> bool {
        false
    }

    fn is_spent(&self) -> bool {
        self.spent
    }
}

/// Appends those of the first lines of a text, so many of which are still to come, that stand in a piece of it.
#[tactic(auto, using(crate::proofs::EndLemmas::steps))]
fn put_first_lines(left: &mut u64, piece: &[u8], out: &mut Vec<u8>) -> Result<(), Memory>
    ensures { Wrote (λ more. first_lines left.old (piece.now ++ more)) (first_lines left.new) out.old.items out.new.items (is_ok result) }
{
    if *left == 0 {
        return Ok(());
    }
    let passed = pass_lines(piece, *left);
    *left = passed.left;
    put(passed.front, out)
}

/// The first lines of each of the inputs of an invocation, behind headers where it has two operands or more.
#[derive(Drop)]
pub struct HeadSeries {
    count: u64,
    has_headers: bool,
    /// The names of the inputs to come, of which the first is that of the input whose turn it is.
    labels: Labels,
    /// No input has come before it.
    is_first: bool,
    /// What stands before its lines is written.
    begun: bool,
    /// How many of its lines are still to come.
    left: u64,
    spent: bool,
}

impl HeadSeries {
    /// The series of one invocation, from the beginning of its inputs.
    #[tactic(auto, using(crate::proofs::HeadLemmas::begins))]
    pub fn new(alloc: Global, inv: &HeadInv) -> Result<HeadSeries, Memory>
        ensures due { IfOk result (λ heads. (texts : List (List ℕ)) → ⟦<HeadSeries as Series>⟧.due heads texts ≡ head_output inv.now.args (labelled (filter is_named inv.now.args.operands) texts)) }
        ensures selects { IfOk result (λ heads. (texts : List (List ℕ)) → ⟦<HeadSeries as Series>⟧.selects heads texts ≡ false) }
        ensures unspent { IfOk result (λ heads. ⟦<HeadSeries as Series>⟧.spent heads ≡ false) }
    {
        let labels = Labels::of(alloc, &inv.args.operands)?;
        Ok(HeadSeries {
            count: inv.args.count,
            has_headers: !has_at_most_one(&inv.args.operands),
            labels,
            is_first: true,
            begun: false,
            left: inv.args.count,
            spent: false,
        })
    }
    /// Feeds a piece of an input, behind the header.
    fn feed_begun(&mut self, piece: &[u8], out: &mut Vec<u8>) -> Result<(), Memory>
        ensures { (others : List (List ℕ)) → Wrote (λ more. ⟦<HeadSeries as Series>⟧.due self.old ((piece.now ++ more) ∷ others)) (λ more. ⟦<HeadSeries as Series>⟧.due self.new (more ∷ others))
            out.old.items out.new.items (is_ok result) }
    {
        let label = self.labels.first();
        match begin(self.has_headers, self.is_first, &mut self.begun, label, out) {
            Ok(()) => put_first_lines(&mut self.left, piece, out),
            Err(memory) => Err(memory),
        }
    }
}

impl Series for HeadSeries {
    ghost use Rattle.ut_slices.specs.Inner.Heads.{heads_due};

    ghost due = { λ heads texts. heads_due heads.has_headers heads.is_first heads.begun heads.count heads.left heads.labels texts };

    ghost selects = { λ _ _. false };

    ghost selected = { λ _. false };

    ghost spent = { λ heads. heads.spent };

    fn feed(&mut self, piece: &[u8], out: &mut Vec<u8>) -> Result<(), Memory> {
        let fed = self.feed_begun(piece, out);
        self.spent = fed.is_err();
        fed
    }

    /// An input without a byte has its header too.
    #[tactic(auto, using(crate::proofs::HeadLemmas::ends))]
    fn end_input(&mut self, out: &mut Vec<u8>) -> Result<(), Memory> {
        let label = self.labels.first();
        let ended = begin(self.has_headers, self.is_first, &mut self.begun, label, out);
        self.labels.pass();
        self.is_first = false;
        self.begun = false;
        self.left = self.count;
        self.spent = ended.is_err();
        ended
    }

    /// Takes no memory, and so never answers Memory.
    #[tactic(auto, using(crate::proofs::EndLemmas::steps))]
    fn finish(&mut self, _out: &mut Vec<u8>) -> Result<(), Memory> {
        Ok(())
    }

    fn has_selected(&self) -> bool {
        false
    }

    fn is_spent(&self) -> bool {
        self.spent
    }
}

/// Appends the header of an input where it has one, unless the input has begun.
#[tactic(auto, using(ut_streams::proofs::StreamLemmas::puts))]
fn begin(
    has_headers: bool,
    is_first: bool,
    begun: &mut bool,
    label: &[u8],
    out: &mut Vec<u8>,
) -> Result<(), Memory>
    ensures wrote { Put (if begun.old then [] else header_by has_headers is_first label.now) out.old.items out.new.items (is_ok result) }
    ensures begun { begun.new ≡ true }
{
    if *begun {
        return Ok(());
    }
    *begun = true;
    if !has_headers {
        return Ok(());
    }
    put_header(is_first, label, out)
}

/// Appends a header, behind a newline where it isn't the first.
#[tactic(auto, using(ut_streams::proofs::StreamLemmas::puts))]
fn put_header(is_first: bool, label: &[u8], out: &mut Vec<u8>) -> Result<(), Memory>
    ensures { Put (header is_first label.now) out.old.items out.new.items (is_ok result) }
{
    match put(if is_first { &[] } else { &[NEWLINE] }, out) {
        Ok(()) => put_header_line(input_name(label), out),
        Err(memory) => Err(memory),
    }
}

/// Appends the line of a header.
#[tactic(auto, using(ut_streams::proofs::StreamLemmas::puts))]
fn put_header_line(name: &[u8], out: &mut Vec<u8>) -> Result<(), Memory>
    ensures { Put (codes "==> " ++ (name.now ++ (codes " <==" ++ NEWLINE ∷ []))) out.old.items out.new.items (is_ok result) }
{
    match put(b"==> ", out) {
        Ok(()) => put_header_end(name, out),
        Err(memory) => Err(memory),
    }
}

/// Appends the name in a header, and what stands behind it.
#[tactic(auto, using(ut_streams::proofs::StreamLemmas::puts))]
fn put_header_end(name: &[u8], out: &mut Vec<u8>) -> Result<(), Memory>
    ensures { Put (name.now ++ (codes " <==" ++ NEWLINE ∷ [])) out.old.items out.new.items (is_ok result) }
{
    match put(name, out) {
        Ok(()) => put_line(b" <==", out),
        Err(memory) => Err(memory),
    }
}

/// The name of an input as it is written.
fn input_name(label: &[u8]) -> &[u8]
    ensures { result.now ≡ input_name_def label.now }
{
    if label == b"-".as_slice() {
        return b"standard input".as_slice();
    }
    label
}
