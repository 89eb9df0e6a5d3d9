//! The invocations that are built.
ghost use Rattle.std.specs.Prelude.{◌≡◌};
ghost use Rattle.ut_args.specs.Built.{is_built_of};

use crate::invocations::Inv;
use crate::utilities::has_at_most_one;

/// Whether an invocation is built: whether its utility has a stream so far, as `cat`, `grep`, `tr`, `cut`, `head`, `tail`, `wc`, `uniq`,
/// `sort`, `paste` and `tee` have. The patterns of `grep` may be none that can be read.
pub fn is_built(inv: &Inv) -> bool
    ensures { result ≡ is_built_of inv.now }
{
    match inv {
        Inv::Cat(_) => true,
        Inv::Grep(_) => true,
        Inv::Tr(_) => true,
        Inv::Cut(_) => true,
        Inv::Head(_) => true,
        Inv::Tail(tail) => has_at_most_one(&tail.args.operands),
        Inv::Wc(_) => true,
        Inv::Uniq(uniq) => has_at_most_one(&uniq.args.operands),
        Inv::Sort(_) => true,
        Inv::Paste(_) => true,
        Inv::Tee(_) => true,
        _ => false,
    }
}
