//! Groups that are kept by their counts.
ghost use Rattle.std.specs.Prelude.{◌≡◌, ℕ, List, false};
ghost use Rattle.std.specs.Result.{is_ok};
ghost use Rattle.ut_streams.specs.Streams.{Put};
ghost use Rattle.ut_groups.specs.declared.forms.Form.TheVariants.{Counted};
ghost use Rattle.ut_groups.specs.Groups.{group_of, group_text};
ghost use Rattle.ut_groups.specs.Uniq.{each_counted};

use crate::forms::Form;
use crate::grouping::put_group;
use ps_lines::Memory;
use std::alloc::Global;
use ut_args::Groups;
use ut_streams::{EachLine, Lines, PerLine, Stream};

/// The finish of `uniq -d` and `-u`: of groups behind their counts the first lines of those that are asked for.
#[derive(Drop)]
pub struct Kept {
    lines: Lines<EachLine<KeptGroup>>,
}

/// A group behind its count.
#[derive(Drop)]
pub struct KeptGroup {
    groups: Groups,
}

impl Kept {
    /// The groups of this kind, from the beginning of the counted ones.
    pub fn new(alloc: Global, groups: Groups) -> Kept
        ensures due { (text : List ℕ) → ⟦<Kept as Stream>⟧.due result text ≡ each_counted groups text }
        ensures unspent { ⟦<Kept as Stream>⟧.spent result ≡ false }
    {
        Kept {
            lines: Lines::new(
                alloc,
                EachLine {
                    by: KeptGroup { groups },
                },
            ),
        }
    }
}

impl Stream for Kept {
    ghost due = { λ kept. ⟦<Lines<EachLine<KeptGroup>> as Stream>⟧.due kept.lines };

    ghost selects = { λ kept. ⟦<Lines<EachLine<KeptGroup>> as Stream>⟧.selects kept.lines };

    ghost selected = { λ kept. ⟦<Lines<EachLine<KeptGroup>> as Stream>⟧.selected kept.lines };

    ghost spent = { λ kept. ⟦<Lines<EachLine<KeptGroup>> as Stream>⟧.spent kept.lines };

    fn feed(&mut self, piece: &[u8], out: &mut Vec<u8>) -> Result<(), Memory> {
        self.lines.feed(piece, out)
    }

    fn finish(&mut self, out: &mut Vec<u8>) -> Result<(), Memory> {
        self.lines.finish(out)
    }

    fn has_selected(&self) -> bool {
        self.lines.has_selected()
    }

    fn is_spent(&self) -> bool {
        self.lines.is_spent()
    }
}

impl PerLine for KeptGroup {
    ghost of = { λ kept line. group_text kept.groups (group_of Counted line) };

    fn one(&self, line: &[u8], out: &mut Vec<u8>) -> Result<(), Memory> {
        put_group(self.groups, &Form::Counted.group_of(line), out)
    }
}
