//! What a comparison of two lines skips.
ghost use Rattle.std.specs.Prelude.{◌≡◌};
ghost use Rattle.ut_groups.specs.Groups.{compared as compared_def, is_same as is_same_def};

use ut_args::UniqArgs;
use ut_fields::behind_fields;

/// What is skipped of each line: fields, and then bytes.
#[derive(Clone, Copy, Debug, PartialEq, Eq)]
pub struct Skip {
    pub fields: u64,
    pub bytes: u64,
}

/// What a comparison sees of the line.
fn compared(skip: Skip, line: &[u8]) -> &[u8]
    ensures { result.now ≡ compared_def skip line.now }
{
    let behind = behind_fields(None, skip.fields, line);
    if (behind.len() as u64) < skip.bytes {
        return &[];
    }
    &behind[skip.bytes as usize..]
}

/// Whether the lines are the same behind what is skipped.
#[inline]
pub(crate) fn is_same(skip: Skip, one: &[u8], other: &[u8]) -> bool
    ensures { result ≡ is_same_def skip one.now other.now }
{
    compared(skip, one) == compared(skip, other)
}
