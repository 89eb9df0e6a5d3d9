//! How the counts on a text are read.
ghost use Rattle.std.specs.Prelude.{◌≡◌};
ghost use Rattle.fl_joints.specs.Joints.{columns_by as columns_by_def, counts_by};

use ps_lines::read_decimal;
use ut_groups::{Columns, Counts, read_counts};

/// What wrote the counts that an aggregate adds up.
#[derive(Clone, Copy)]
pub(crate) enum Reading {
    /// `wc`, with these columns.
    OfWc(Columns),
    /// `grep -c`: one number alone.
    OfGrep,
}

/// The columns of the sum; the count of `grep` has the place of that of lines.
pub(crate) fn columns_by(reading: Reading) -> Columns
    ensures { result ≡ columns_by_def reading }
{
    match reading {
        Reading::OfWc(columns) => columns,
        Reading::OfGrep => Columns {
            lines: true,
            words: false,
            bytes: false,
        },
    }
}

/// The counts that a text has; a text that is none of the kind has no counts.
pub(crate) fn read_by(reading: Reading, text: &[u8]) -> Counts
    ensures { result ≡ counts_by reading text.now }
{
    match reading {
        Reading::OfWc(columns) => read_counts(columns, text),
        Reading::OfGrep => Counts {
            lines: read_decimal(&text[..text.len().saturating_sub(1)]).unwrap_or(0),
            words: 0,
            bytes: 0,
        },
    }
}
