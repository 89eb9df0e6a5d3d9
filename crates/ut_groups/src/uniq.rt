//! The stream of `uniq`.
ghost use Rattle.std.specs.Prelude.{◌≡◌, ℕ, List, ◌∷◌, ◌++◌, true, false, OnOk};
ghost use Rattle.std.specs.Result.{is_ok};
ghost use Rattle.ps_lines.specs.Lines.{is_closed, lines as lines_def};
ghost use Rattle.ut_streams.specs.Streams.{Wrote};
ghost use Rattle.ut_groups.specs.Inner.Open.{due_of, group_at, group_held};
ghost use Rattle.ut_groups.specs.Uniq.{form_kept as form_kept_def, groups_kept as groups_kept_def, groups_of_lines, skip_of as skip_of_def, uniq_output, uniq_part};

use crate::forms::{Form, Group};
use crate::grouping::Grouping;
use crate::skips::Skip;
use ps_lines::{Memory, cut_line};
use std::alloc::Global;
use std::mem;
use ut_args::{Groups, UniqArgs, UniqInv};
use ut_streams::{LineStream, Lines, Stream};

/// The groups of equal lines of one input.
#[derive(Drop)]
pub struct Uniq {
    lines: Lines<GroupLines>,
}

impl Uniq {
    /// The stream of one invocation, from the beginning of its input.
    pub fn new(alloc: Global, inv: &UniqInv) -> Uniq
        ensures due { (text : List ℕ) → ⟦<Uniq as Stream>⟧.due result text ≡ uniq_output inv.now.args text }
        ensures unspent { ⟦<Uniq as Stream>⟧.spent result ≡ false }
    {
        Uniq::of(alloc, skip_of(&inv.args), Form::Plain, inv.args.groups)
    }

    /// The stream of its map, which keeps the counts wherever they may be wanted.
    pub fn of_part(alloc: Global, inv: &UniqInv) -> Uniq
        ensures due { (text : List ℕ) → ⟦<Uniq as Stream>⟧.due result text ≡ uniq_part inv.now.args text }
        ensures unspent { ⟦<Uniq as Stream>⟧.spent result ≡ false }
    {
        Uniq::of(
            alloc,
            skip_of(&inv.args),
            Form::Plain,
            groups_kept(inv.args.groups),
        )
    }

    /// The stream of its aggregate, which is fed the maps of parts, one after another.
    pub fn of_parts(alloc: Global, inv: &UniqInv) -> Uniq
        ensures due { (text : List ℕ) → ⟦<Uniq as Stream>⟧.due result text ≡
            groups_of_lines (skip_of_def inv.now.args) (form_kept_def inv.now.args.groups) (groups_kept_def inv.now.args.groups) (lines_def text) }
        ensures unspent { ⟦<Uniq as Stream>⟧.spent result ≡ false }
    {
        Uniq::of(
            alloc,
            skip_of(&inv.args),
            form_kept(inv.args.groups),
            groups_kept(inv.args.groups),
        )
    }

    /// The stream of the groups of lines of this form.
    fn of(alloc: Global, skip: Skip, form: Form, groups: Groups) -> Uniq
        ensures due { (text : List ℕ) → ⟦<Uniq as Stream>⟧.due result text ≡ groups_of_lines skip form groups (lines_def text) }
        ensures unspent { ⟦<Uniq as Stream>⟧.spent result ≡ false }
    {
        let grouping = Grouping { skip, form, groups };
        Uniq {
            lines: Lines::new(alloc, GroupLines::new(alloc, grouping)),
        }
    }
}

impl Stream for Uniq {
    ghost due = { λ uniq. ⟦<Lines<GroupLines> as Stream>⟧.due uniq.lines };

    ghost selects = { λ uniq. ⟦<Lines<GroupLines> as Stream>⟧.selects uniq.lines };

    ghost selected = { λ uniq. ⟦<Lines<GroupLines> as Stream>⟧.selected uniq.lines };

    ghost spent = { λ uniq. ⟦<Lines<GroupLines> as Stream>⟧.spent uniq.lines };

    fn feed(&mut self, piece: &[u8], out: &mut Vec<u8>) -> Result<(), Memory> {
        self.lines.feed(piece, out)
    }

    fn finish(&mut self, out: &mut Vec<u8>) -> Result<(), Memory> {
        self.lines.finish(out)
    }

    fn has_selected(&self) -> bool {
        self.lines.has_selected()
    }

    fn is_spent(&self) -> bool {
        self.lines.is_spent()
    }
}

/// The groups of lines.
#[derive(Drop)]
pub struct GroupLines {
    alloc: Global,
    grouping: Grouping,
    /// Whether a group is open: its first line has come, and what of it is written as that comes is written.
    is_open: bool,
    /// Its first line.
    first: Vec<u8>,
    /// How many lines of it have come.
    count: u64,
}

impl GroupLines {
    /// The groups of an input, from its beginning.
    fn new(alloc: Global, grouping: Grouping) -> GroupLines
        ensures grouping { result.grouping ≡ grouping }
        ensures none { result.is_open ≡ false }
    {
        GroupLines {
            alloc,
            grouping,
            is_open: false,
            first: Vec::new(alloc),
            count: 0,
        }
    }

    /// Takes a line where no group is open.
    fn begin(&mut self, line: &[u8], out: &mut Vec<u8>) -> Result<(), Memory>
        requires { self.old.is_open ≡ false }
        ensures wrote { Wrote (λ more. due_of self.old.grouping self.old.is_open (group_held self.old.first.items self.old.count) (line.now ∷ more))
            (λ more. due_of self.new.grouping self.new.is_open (group_held self.new.first.items self.new.count) more) out.old.items out.new.items (is_ok result) }
        ensures opened { OnOk result (self.new.is_open ≡ true) }
    {
        let group = self.grouping.form.group_of(line);
        match self.grouping.put_opening(group.first, out) {
            Ok(()) => self.keep(&group),
            Err(memory) => Err(memory),
        }
    }

    /// Takes the lines of a closed text where a group is open.
    fn go_on(&mut self, text: &[u8], out: &mut Vec<u8>) -> Result<(), Memory>
        requires opened { self.old.is_open ≡ true }
        requires closed { is_closed text.now ≡ true }
        ensures { Wrote (λ more. due_of self.old.grouping self.old.is_open (group_held self.old.first.items self.old.count) (lines_def text.now ++ more))
            (λ more. due_of self.new.grouping self.new.is_open (group_held self.new.first.items self.new.count) more) out.old.items out.new.items (is_ok result) }
    {
        let held = mem::replace(&mut self.first, Vec::new(self.alloc));
        let mut group = Group {
            first: held.as_slice(),
            count: self.count,
        };
        match self.grouping.pass_lines(&mut group, text, out) {
            Ok(()) => self.keep(&group),
            Err(memory) => Err(memory),
        }
    }

    /// Takes a line where a group is open.
    fn add(&mut self, line: &[u8], out: &mut Vec<u8>) -> Result<(), Memory>
        requires { self.old.is_open ≡ true }
        ensures { Wrote (λ more. due_of self.old.grouping self.old.is_open (group_held self.old.first.items self.old.count) (line.now ∷ more))
            (λ more. due_of self.new.grouping self.new.is_open (group_held self.new.first.items self.new.count) more) out.old.items out.new.items (is_ok result) }
    {
        let held = mem::replace(&mut self.first, Vec::new(self.alloc));
        let mut group = Group {
            first: held.as_slice(),
            count: self.count,
        };
        match self.grouping.pass(&mut group, line, out) {
            Ok(()) => self.keep(&group),
            Err(memory) => Err(memory),
        }
    }

    /// Keeps the group that is open, with a copy of its first line.
    fn keep(&mut self, group: &Group<'_>) -> Result<(), Memory>
        ensures opened { OnOk result (self.new.is_open ≡ true) }
        ensures group { OnOk result (group_held self.new.first.items self.new.count ≡ group_at group.now) }
        ensures grouping { self.new.grouping ≡ self.old.grouping }
    {
        self.is_open = true;
        self.count = group.count;
        self.first.clear();
        self.first.extend_from_slice(group.first)?;
        Ok(())
    }
}

impl LineStream for GroupLines {
    ghost line_due = { λ lines coming. due_of lines.grouping lines.is_open (group_held lines.first.items lines.count) coming };

    ghost line_selects = { λ _ _. false };

    ghost line_selected = { λ _. false };

    ghost line_test = { λ _ _. false };

    fn line(&mut self, line: &[u8], out: &mut Vec<u8>) -> Result<(), Memory> {
        if !self.is_open {
            return self.begin(line, out);
        }
        self.add(line, out)
    }

    fn whole_lines(&mut self, text: &[u8], out: &mut Vec<u8>) -> Result<(), Memory> {
        if self.is_open {
            return self.go_on(text, out);
        }
        let Some((line, rest)) = cut_line(text) else {
            return Ok(());
        };
        match self.begin(line, out) {
            Ok(()) => self.go_on(rest, out),
            Err(memory) => Err(memory),
        }
    }

    #[tactic(auto, using(crate::proofs::ColumnLemmas::puts))]
    fn end(&mut self, out: &mut Vec<u8>) -> Result<(), Memory> {
        if !self.is_open {
            return Ok(());
        }
        let group = Group {
            first: self.first.as_slice(),
            count: self.count,
        };
        self.grouping.put_ending(&group, out)
    }

    fn has_selected(&self) -> bool {
        false
    }
}

/// What a comparison skips.
pub(crate) fn skip_of(args: &UniqArgs) -> Skip
    ensures { result ≡ skip_of_def args.now }
{
    Skip {
        fields: args.fields,
        bytes: args.bytes,
    }
}

/// What the map of these groups writes.
fn groups_kept(groups: Groups) -> Groups
    ensures { result ≡ groups_kept_def groups }
{
    match groups {
        Groups::All => Groups::All,
        Groups::Counted | Groups::Repeated | Groups::Single => Groups::Counted,
    }
}

/// What the lines of that map are.
fn form_kept(groups: Groups) -> Form
    ensures { result ≡ form_kept_def groups }
{
    match groups {
        Groups::All => Form::Plain,
        Groups::Counted | Groups::Repeated | Groups::Single => Form::Counted,
    }
}
