//! Files that redirections read and begin (XCU 2.7).
ghost use Rattle.std.specs.Prelude.{◌≡◌, ◌≤◌, ◌∷◌, [], IfOk, IfSome, IsErrOf, OnOk, if◌then◌else◌};
ghost use Rattle.std.specs.Option.{option_map};
ghost use Rattle.ps_world.specs.Counts.{Counts, Rose};
ghost use Rattle.ps_world.specs.Files.{CanBeMade, IsFileAt, bytes_at};
ghost use Rattle.ps_world.specs.TreeState.{Balanced, OnlyLent};
ghost use Rattle.fl_commands.specs.Writers.{ChangesOnly};
ghost use Rattle.sh_eval.specs.Leading.{begun_at, mode_of as mode_of_def};

use ps_world::{Mode, Path, Tree, WorldErr, read_all};
use std::alloc::Global;

/// Reads a file whole.
pub(crate) fn read_file<T: Tree>(
    alloc: Global,
    tree: &mut T,
    path: &Path,
) -> Result<Vec<u8>, WorldErr>
    requires there { IfSome (T.state tree.old).held (λ files. IsFileAt files path.now) }
    ensures text { IfOk result (λ text. IfSome (T.state tree.old).held (λ files. text.items ≡ bytes_at files path.now)) }
    ensures lent { OnlyLent (T.state tree.old) (T.state tree.new) }
    ensures cause { Counts (T.faults tree.old) (T.faults tree.new) result }
{
    let mut reader = tree.open(path)?;
    let text = read_all(alloc, &mut reader);
    tree.end_read(path, reader);
    text
}

/// Makes a file, or begins one that is there: anew, or behind the bytes that it has.
pub(crate) fn begin_file<T: Tree>(anew: bool, path: &Path, tree: &mut T) -> Result<(), WorldErr>
    requires made { IfSome (T.state tree.old).held (λ files. CanBeMade files path.now) }
    ensures held { OnOk result ((T.state tree.new).held ≡ option_map (begun_at anew path.now) (T.state tree.old).held) }
    ensures kept { ChangesOnly (path.now ∷ []) (T.state tree.old).held (T.state tree.new).held }
    ensures lent { Balanced (T.state tree.old) (T.state tree.new) }
    ensures later { T.faults tree.old ≤ T.faults tree.new }
    ensures ok { OnOk result (T.faults tree.new ≡ T.faults tree.old) }
    ensures failed { IsErrOf result WorldErr.Failed → Rose (T.faults tree.old) (T.faults tree.new) }
{
    let writer = tree.create(path, mode_of(anew))?;
    tree.end_write(path, writer)
}

/// How a file is opened that is begun anew, or behind the bytes that it has.
fn mode_of(anew: bool) -> Mode
    ensures { result ≡ mode_of_def anew }
{
    if anew { Mode::Fresh } else { Mode::Append }
}
