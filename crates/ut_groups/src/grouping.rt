//! Groups of lines, one after another.
ghost use Rattle.std.specs.Prelude.{◌≡◌, ◌∷◌, ◌++◌, [], true, decimal as decimal_def, if◌then◌else◌};
ghost use Rattle.std.specs.Bool.{Decides};
ghost use Rattle.std.specs.Result.{is_ok};
ghost use Rattle.ps_lines.specs.Lines.{is_closed};
ghost use Rattle.ut_streams.specs.Streams.{Put, Wrote};
ghost use Rattle.ut_args.specs.declared.commands.Groups.TheVariants as groups;
ghost use Rattle.ut_groups.specs.Counting.{saturated};
ghost use Rattle.ut_groups.specs.Groups.{group_text, line_of};
ghost use Rattle.ut_groups.specs.Inner.Open.{PassesLines, due_behind, ending, group_at, opening};
ghost use Rattle.ut_groups.specs.Inner.Runs.{BeginsOther, IsExact};

use crate::counting::{SPACE, add_sat};
use crate::forms::{Form, Group};
use crate::runs::first_run;
use crate::skips::{Skip, is_same};
use ps_lines::{Memory, cut_line, decimal};
use ut_args::Groups;
use ut_fields::up_to;
use ut_streams::{put, put_line};

/// Which lines make a group, and what is written for it.
#[derive(Clone, Copy, Debug, PartialEq, Eq)]
pub struct Grouping {
    pub skip: Skip,
    pub form: Form,
    pub groups: Groups,
}

impl Grouping {
    /// Takes the lines of a closed text. Before them and behind them a group is open, which is told in `group`.
    pub(crate) fn pass_lines<'t>(
        self,
        group: &mut Group<'t>,
        text: &'t [u8],
        out: &mut Vec<u8>,
    ) -> Result<(), Memory>
        requires { is_closed text.now ≡ true }
        ensures { PassesLines self (group_at group.old) text.now (group_at group.new) out.old.items out.new.items (is_ok result) }
    {
        if self.is_exact() {
            return self.pass_exact(group, text, out);
        }
        self.pass_each(group, text, out)
    }

    /// The same where lines are groups of one, and the same where all of their bytes are.
    fn pass_exact<'t>(
        self,
        group: &mut Group<'t>,
        text: &'t [u8],
        out: &mut Vec<u8>,
    ) -> Result<(), Memory>
        requires exact { IsExact self }
        requires closed { is_closed text.now ≡ true }
        ensures { PassesLines self (group_at group.old) text.now (group_at group.new) out.old.items out.new.items (is_ok result) }
    {
        let Some(run) = first_run(text) else {
            return Ok(());
        };
        if is_same(self.skip, group.first, run.group.first) {
            group.count = add_sat(group.count, run.group.count);
            return self.pass_others(group, run.behind, out);
        }
        self.pass_others(group, text, out)
    }

    /// Whether lines are groups of one, and the same where all of their bytes are.
    fn is_exact(self) -> bool
        ensures { Decides result (IsExact self) }
    {
        match self.form {
            Form::Plain => self.skip.fields == 0 && self.skip.bytes == 0,
            Form::Counted => false,
        }
    }

    /// Takes the lines of a closed text that begins with another line than those of the group.
    fn pass_others<'t>(
        self,
        group: &mut Group<'t>,
        text: &'t [u8],
        out: &mut Vec<u8>,
    ) -> Result<(), Memory>
        requires exact { IsExact self }
        requires closed { is_closed text.now ≡ true }
        requires other { BeginsOther self.skip group.old.first.now text.now }
        ensures { PassesLines self (group_at group.old) text.now (group_at group.new) out.old.items out.new.items (is_ok result) }
    {
        match self.groups {
            Groups::All => self.pass_slices(group, text, out),
            Groups::Counted | Groups::Repeated | Groups::Single => self.pass_runs(group, text, out),
        }
    }

    /// The same where of each group its first line is written: lines that stand behind one another are written together.
    fn pass_slices<'t>(
        self,
        group: &mut Group<'t>,
        text: &'t [u8],
        out: &mut Vec<u8>,
    ) -> Result<(), Memory>
        requires all { self.groups ≡ groups.All }
        requires exact { IsExact self }
        requires closed { is_closed text.now ≡ true }
        requires other { BeginsOther self.skip group.old.first.now text.now }
        ensures { PassesLines self (group_at group.old) text.now (group_at group.new) out.old.items out.new.items (is_ok result) }
    {
        let mut unwritten = text;
        let mut left = text;
        while let Some(run) = first_run(left) {
            *group = run.group;
            left = run.behind;
            if run.group.count == 1 {
                continue;
            }
            let written = put(up_to(unwritten, run.behind_first), out);
            unwritten = run.behind;
            match written {
                Ok(()) => {}
                Err(memory) => return Err(memory),
            }
        }
        put(unwritten, out)
    }

    /// The same where groups are written as they end.
    fn pass_runs<'t>(
        self,
        group: &mut Group<'t>,
        text: &'t [u8],
        out: &mut Vec<u8>,
    ) -> Result<(), Memory>
        requires exact { IsExact self }
        requires closed { is_closed text.now ≡ true }
        requires other { BeginsOther self.skip group.old.first.now text.now }
        ensures { PassesLines self (group_at group.old) text.now (group_at group.new) out.old.items out.new.items (is_ok result) }
    {
        let mut left = text;
        while let Some(run) = first_run(left) {
            match self.change(group, run.group, out) {
                Ok(()) => left = run.behind,
                Err(memory) => return Err(memory),
            }
        }
        Ok(())
    }

    /// Takes the lines of a closed text one after another.
    fn pass_each<'t>(
        self,
        group: &mut Group<'t>,
        text: &'t [u8],
        out: &mut Vec<u8>,
    ) -> Result<(), Memory>
        requires { is_closed text.now ≡ true }
        ensures { PassesLines self (group_at group.old) text.now (group_at group.new) out.old.items out.new.items (is_ok result) }
    {
        let mut left = text;
        while let Some((line, rest)) = cut_line(left) {
            match self.pass(group, line, out) {
                Ok(()) => left = rest,
                Err(memory) => return Err(memory),
            }
        }
        Ok(())
    }

    /// Takes a line: the group that is open is then the one of this line.
    #[inline]
    pub(crate) fn pass<'t>(
        self,
        group: &mut Group<'t>,
        line: &'t [u8],
        out: &mut Vec<u8>,
    ) -> Result<(), Memory>
        ensures { Wrote (λ more. due_behind self (group_at group.old) (line.now ∷ more)) (due_behind self (group_at group.new))
            out.old.items out.new.items (is_ok result) }
    {
        let next = self.form.group_of(line);
        if is_same(self.skip, group.first, next.first) {
            group.count = add_sat(group.count, next.count);
            return Ok(());
        }
        self.change(group, next, out)
    }

    /// The group that is open has ended, and the next one is open.
    #[inline]
    fn change<'t>(
        self,
        group: &mut Group<'t>,
        next: Group<'t>,
        out: &mut Vec<u8>,
    ) -> Result<(), Memory>
        ensures changed { group_at group.new ≡ group_at next.entry }
        ensures wrote { Put (ending self.groups (group_at group.old) ++ opening self.groups next.entry.first.now) out.old.items out.new.items (is_ok result) }
    {
        let ended = self.put_ending(group, out);
        *group = next;
        match ended {
            Ok(()) => self.put_opening(next.first, out),
            Err(memory) => Err(memory),
        }
    }

    /// Appends what is written as the first line of a group comes.
    #[tactic(auto, using(crate::proofs::ColumnLemmas::puts))]
    pub(crate) fn put_opening(self, first: &[u8], out: &mut Vec<u8>) -> Result<(), Memory>
        ensures { Put (opening self.groups first.now) out.old.items out.new.items (is_ok result) }
    {
        match self.groups {
            Groups::All => put_line(first, out),
            Groups::Counted | Groups::Repeated | Groups::Single => Ok(()),
        }
    }

    /// Appends what is written as a group has ended.
    #[tactic(auto, using(crate::proofs::ColumnLemmas::puts))]
    pub(crate) fn put_ending(self, group: &Group<'_>, out: &mut Vec<u8>) -> Result<(), Memory>
        ensures { Put (ending self.groups (group_at group.now)) out.old.items out.new.items (is_ok result) }
    {
        match self.groups {
            Groups::All => Ok(()),
            Groups::Counted | Groups::Repeated | Groups::Single => put_group(
                self.groups,
                group,
                out,
            ),
        }
    }
}

/// Appends what is written for a group.
#[tactic(auto, using(crate::proofs::ColumnLemmas::puts))]
pub(crate) fn put_group(groups: Groups, group: &Group<'_>, out: &mut Vec<u8>) -> Result<(), Memory>
    ensures { Put (group_text groups (group_at group.now)) out.old.items out.new.items (is_ok result) }
{
    match groups {
        Groups::All => put_line(group.first, out),
        Groups::Counted => put_counted(group, out),
        Groups::Repeated => put_line_if(1 < group.count, group.first, out),
        Groups::Single => put_line_if(group.count == 1, group.first, out),
    }
}

/// Appends a group behind its count.
#[tactic(auto, using(crate::proofs::ColumnLemmas::puts))]
fn put_counted(group: &Group<'_>, out: &mut Vec<u8>) -> Result<(), Memory>
    ensures { Put (group_text groups.Counted (group_at group.now)) out.old.items out.new.items (is_ok result) }
{
    match put_count(group.count, out) {
        Ok(()) => put_line(group.first, out),
        Err(memory) => Err(memory),
    }
}

/// Appends a count and a space.
#[tactic(auto, using(crate::proofs::ColumnLemmas::puts))]
fn put_count(count: u64, out: &mut Vec<u8>) -> Result<(), Memory>
    ensures { Put (decimal_def (saturated count) ++ SPACE ∷ []) out.old.items out.new.items (is_ok result) }
{
    match decimal(count, out) {
        Ok(()) => put(&[SPACE], out),
        Err(memory) => Err(memory),
    }
}

/// Appends the line where that is wanted.
#[tactic(auto, using(crate::proofs::ColumnLemmas::puts))]
fn put_line_if(wanted: bool, line: &[u8], out: &mut Vec<u8>) -> Result<(), Memory>
    ensures { Put (if wanted then line_of line.now else []) out.old.items out.new.items (is_ok result) }
{
    if wanted {
        return put_line(line, out);
    }
    Ok(())
}
