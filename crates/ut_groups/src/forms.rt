//! The groups that lines are.
ghost use Rattle.std.specs.Prelude.{◌≡◌};
ghost use Rattle.ut_groups.specs.Groups.{group_of};
ghost use Rattle.ut_groups.specs.Inner.Open.{group_at};

use crate::columns::cut_number;

/// What a line of an input is.
#[derive(Clone, Copy, Debug, PartialEq, Eq)]
pub enum Form {
    /// A line, which is a group of one.
    Plain,
    /// A group, as `-c` writes it: its count, a space and its first line.
    Counted,
}

/// A group of lines: the first, and how many they are.
#[derive(Clone, Copy)]
pub(crate) struct Group<'t> {
    pub(crate) first: &'t [u8],
    pub(crate) count: u64,
}

impl Form {
    /// The group that a line is.
    pub(crate) fn group_of(self, line: &[u8]) -> Group<'_>
        ensures { group_at result ≡ group_of self line.now }
    {
        match self {
            Form::Plain => Group {
                first: line,
                count: 1,
            },
            Form::Counted => {
                let (count, first) = cut_number(line);
                Group { first, count }
            }
        }
    }
}
