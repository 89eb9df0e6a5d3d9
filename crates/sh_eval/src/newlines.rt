//! The newlines at the end of a text.
ghost use Rattle.std.specs.Prelude.{◌≡◌};
ghost use Rattle.sh_eval.specs.Newlines.{without_newlines as without_newlines_def};

use ps_lines::NEWLINE;

/// The text without the newlines at its end (XCU 2.6.3).
#[tactic(auto, using(crate::proofs::NewlineLemmas::newline_steps))]
pub(crate) fn without_newlines(text: &[u8]) -> &[u8]
    ensures { result.now ≡ without_newlines_def text.now }
{
    let mut left = text;
    while let Some((last, front)) = left.split_last() {
        if *last != NEWLINE {
            return left;
        }
        left = front;
    }
    left
}
