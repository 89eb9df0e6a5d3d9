//! Files by their paths.
ghost use Rattle.std.specs.Prelude.{◌≡◌, ℕ, ◌<◌, ◌≤◌, IfOk, IfSome, IsErrOf, IsTrue, MatchResult, None, OnOk, Some};
ghost use Rattle.std.specs.List.{list_all};
ghost use Rattle.ps_lines.specs.Lines.{is_closed};
ghost use Rattle.ps_lines.specs.Texts.{texts_of};
ghost use Rattle.ps_world.specs.Counts.{Counts, CountsReturn, Rose};
ghost use Rattle.ps_world.specs.Files.{begun, bytes_at, kind_at, CanBeMade, IsDirAt, IsFileAt, IsListing};
ghost use Rattle.ps_world.specs.Paths.{is_name};
ghost use Rattle.ps_world.specs.TreeState.{lend, take_back, take_out, IsFilled, TreeState};

use crate::error::WorldErr;
use crate::path::Path;
use crate::sink::Sink;
use crate::source::Source;

/// What stands at a path.
#[derive(Clone, Copy, Debug, PartialEq, Eq)]
pub enum Kind {
    Missing,
    File,
    Dir,
}

/// How a file is opened for writing.
#[derive(Clone, Copy, Debug, PartialEq, Eq)]
pub enum Mode {
    /// With nothing in it.
    Fresh,
    /// Behind what it holds.
    Append,
}

/// A tree of files and directories, and its working directory.
///
/// `state` has what it is to its callers: the working directory, the files where it tells them, and how many readers and writers
/// it has lent and been given back, which every tree tells. These two aren't counts of faults; either stays at 2^64-1 once it is there.
///
/// What a call asks of its path is what `kind` tells of it: a file whose writer is out is a file to `kind` and `list` alone.
pub trait Tree {
    /// What a file is read through.
    type Reader: Source + Send;
    /// What a file is written through.
    type Writer: Sink + Send;

    ghost state: { Self → TreeState };
    /// How many of its calls have failed.
    ghost faults: { Self → ℕ };

    /// The working directory, which never changes.
    fn home(&self) -> &Path
        ensures { result.now ≡ (state self.now).home };

    /// What stands at a path. A file whose writer is out counts as a file.
    fn kind(&mut self, path: &Path) -> Result<Kind, WorldErr>
        ensures kind { IfOk result (λ kind. IfSome (state self.old).held (λ files. kind ≡ kind_at files path.now)) }
        ensures state { state self.new ≡ state self.old }
        ensures cause { Counts (faults self.old) (faults self.new) result };

    /// The names in a directory, in any order, without `.` and `..`. A file whose writer is out has its name there too.
    fn list(&mut self, dir: &Path) -> Result<Vec<Vec<u8>>, WorldErr>
        requires { IfSome (state self.old).held (λ files. IsDirAt files dir.now) }
        ensures names { IfOk result (λ names. IfSome (state self.old).held (λ files. IsListing files dir.now (texts_of names.items))) }
        ensures each { IfOk result (λ names. IsTrue (list_all is_name (texts_of names.items))) }
        ensures state { state self.new ≡ state self.old }
        ensures cause { Counts (faults self.old) (faults self.new) result };

    /// Whether a file is empty or ends in a newline.
    fn ends_line(&mut self, path: &Path) -> Result<bool, WorldErr>
        requires { IfSome (state self.old).held (λ files. IsFileAt files path.now) }
        ensures closed { IfOk result (λ closed. IfSome (state self.old).held (λ files. closed ≡ is_closed (bytes_at files path.now))) }
        ensures state { state self.new ≡ state self.old }
        ensures cause { Counts (faults self.old) (faults self.new) result };

    /// Lends a reader of a file, at its beginning. It goes back by `end_read`.
    fn open(&mut self, path: &Path) -> Result<Self::Reader, WorldErr>
        requires { IfSome (state self.old).held (λ files. IsFileAt files path.now) }
        ensures reader { IfOk result (λ reader. IfSome (state self.old).held (λ files.
            Self.Reader.left reader ≡ Some (bytes_at files path.now))) }
        ensures fresh { IfOk result (λ reader. (Self.Reader.given reader ≡ 0) × (Self.Reader.faults reader ≡ 0)) }
        ensures state { MatchResult result (λ _. state self.new ≡ lend (state self.old)) (λ _. state self.new ≡ state self.old) }
        ensures cause { Counts (faults self.old) (faults self.new) result };

    /// Lends a writer of a file, which is made where nothing is. It goes back by `end_write`, and is out until then.
    ///
    /// What it has taken begins as nothing, or as what the file holds, by `mode`. An error leaves the files as they were.
    fn create(&mut self, path: &Path, mode: Mode) -> Result<Self::Writer, WorldErr>
        requires { IfSome (state self.old).held (λ files. CanBeMade files path.now) }
        ensures writer { IfOk result (λ writer. IfSome (state self.old).held (λ files.
            Self.Writer.taken writer ≡ Some (begun files path.now mode))) }
        ensures fresh { IfOk result (λ writer. Self.Writer.faults writer ≡ 0) }
        ensures state { MatchResult result
            (λ _. state self.new ≡ lend (take_out path.now (state self.old)))
            (λ _. state self.new ≡ state self.old) }
        ensures cause { Counts (faults self.old) (faults self.new) result };

    /// Takes a reader of `path` back. The tree's count rises exactly where the reader's is above 0.
    fn end_read(&mut self, path: &Path, reader: Self::Reader)
        ensures state { state self.new ≡ take_back (state self.old) }
        ensures later { faults self.old ≤ faults self.new }
        ensures calm { Self.Reader.faults reader ≡ 0 → faults self.new ≡ faults self.old }
        ensures cause { 0 < Self.Reader.faults reader → Rose (faults self.old) (faults self.new) };

    /// Flushes a writer of `path` and takes it back: what it has taken is the file then.
    ///
    /// Where the flush fails, the file holds some bytes that aren't told; after Memory what stands there is as it was. A writer that was
    /// lent for another path fills the one that is named here. The tree's count rises exactly where the writer's is above 0 or the
    /// answer is Failed.
    fn end_write(&mut self, path: &Path, writer: Self::Writer) -> Result<(), WorldErr>
        ensures ok { OnOk result (IsFilled path.now (Self.Writer.taken writer) (state self.old) (state self.new)) }
        ensures failed { IsErrOf result WorldErr.Failed → IsFilled path.now None (state self.old) (state self.new) }
        ensures memory { IsErrOf result WorldErr.Memory → state self.new ≡ take_back (state self.old) }
        ensures cause { CountsReturn (Self.Writer.faults writer) (faults self.old) (faults self.new) result };
}
