//! What an expansion is done over.

ghost use Rattle.std.specs.Prelude.{◌≡◌};
ghost use Rattle.sh_expand.specs.Given.{given_of};
ghost use Rattle.sh_expand.specs.Frames.{frame_given};

use crate::known::Known;
use sh_arith::Env;

/// What an expansion is done over: the variables, which it may change, and the parameters that it may not.
#[derive(Drop)]
pub struct Frame<'a> {
    /// The variables.
    pub env: &'a mut Env,
    /// `$0`.
    pub zero: &'a [u8],
    /// The arguments, `$1` first.
    pub args: &'a [Vec<u8>],
    /// `$?`.
    pub status: u8,
    /// The texts of the command substitutions of the words, in order, without the newlines at their ends.
    pub subs: &'a [Vec<u8>],
}

/// The parameters that an expansion doesn't change.
pub(crate) fn known_of<'a>(frame: &Frame<'a>) -> Known<'a>
    ensures { given_of result ≡ frame_given frame.now }
{
    Known {
        zero: frame.zero,
        args: frame.args,
        status: frame.status,
        subs: frame.subs,
    }
}
