//! The answer of `test`.

ghost use Rattle.std.specs.Prelude.{◌≡◌, ℕ, List, false, IfOk, IfSome, IsOk};
ghost use Rattle.ps_lines.specs.Texts.{texts_of};
ghost use Rattle.ps_world.specs.declared.places.Place.{Place};
ghost use Rattle.ps_world.specs.Counts.{Counts};
ghost use Rattle.ps_world.specs.Places.{resolve};
ghost use Rattle.ut_test.specs.Tests.{asks_a_file, tested_by};

use crate::operators::stands;
use crate::outcomes::{Tested, answer, unless_negated};
use crate::questions::{Question, question_of};
use ps_world::{Tree, WorldErr, look};
use std::alloc::Global;

/// What `test` answers for these arguments, without its name and without the `]` of `[`.
///
/// The number of arguments decides how they are read, so an operator is one only where it stands at its place. At most one place of the
/// tree is looked at, and none where no operator asks for one.
pub fn test<T: Tree>(alloc: Global, args: &[Vec<u8>], tree: &mut T) -> Result<Tested, WorldErr>
    ensures answer { IfOk result (λ tested. IfSome (T.state tree.old).held (λ files.
        tested ≡ tested_by (resolve files (T.state tree.old).home) (texts_of args.now))) }
    ensures plain { asks_a_file (texts_of args.now) ≡ false → IfOk result (λ tested.
        (places : List ℕ → Place) → tested ≡ tested_by places (texts_of args.now)) }
    ensures told { asks_a_file (texts_of args.now) ≡ false → IsOk result }
    ensures unasked { asks_a_file (texts_of args.now) ≡ false → tree.new ≡ tree.old }
    ensures state { T.state tree.new ≡ T.state tree.old }
    ensures cause { Counts (T.faults tree.old) (T.faults tree.new) result }
{
    match question_of(args) {
        Question::Known(answer) => Ok(answer),
        Question::Look {
            asked,
            path,
            negated,
        } => {
            let place = look(alloc, tree, path)?;
            Ok(unless_negated(negated, answer(stands(asked, &place))))
        }
    }
}
