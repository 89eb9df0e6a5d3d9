//! Laws of files: each function's contract is the law, and no function does anything.
ghost use Rattle.std.specs.Prelude.{◌≡◌, [], ◌∷◌, ◌++◌, ◌↔◌, codes, true, ℕ, suc, List, Option, Some, IfSome, if◌then◌else◌};
ghost use Rattle.std.specs.FinMap as map;
ghost use Rattle.ps_world.specs.Files.{AreOfOneKind, AreOutWithin, Bytes, Files, IsDirAt, IsFileAt, IsSetAt, NoWriterOut, WriterOut, kind_at};
ghost use Rattle.ps_world.specs.Paths.{Components, is_name};
ghost use Rattle.ps_world.specs.Places.{is_null_text, resolve};
ghost use Rattle.ps_world.specs.TreeState.{AreOut, Balanced, IsFilled, OnlyLent, TreeState, lend, take_back, take_out};

use crate::places::Place;
use crate::tree::Kind;

/// Where a text leads hangs on the kinds of things alone.
pub fn places_hang_on_kinds()
    ensures { (files others : Files) → AreOfOneKind files others → (home : Components) (text : List ℕ)
        → resolve files home text ≡ resolve others home text }
{}

/// Where nothing is, not even the root, no text names anything but the null device, and nothing can be made.
pub fn nothing_is_named_where_nothing_is()
    ensures { (home : Components) (text : List ℕ) → resolve map.empty home text ≡ (if is_null_text text then Place.Null else Place.Missing) }
{}

/// Where home is no directory, `.` names nothing, and a name that nothing has there can't be made.
pub fn nothing_can_be_made_where_home_is_no_directory()
    ensures here { (files : Files) (home : Components) → (IsDirAt files home → ⊥) → resolve files home (codes ".") ≡ Place.Missing }
    ensures name { (files : Files) (home : Components) (name : List ℕ) → (IsDirAt files home → ⊥) → is_name name ≡ true
        → kind_at files (home ++ name ∷ []) ≡ Kind.Missing → resolve files home name ≡ Place.Missing }
{}

/// A file whose writer is out is of the kind of every file that may come of it. So all texts name the same places.
pub fn a_file_that_is_written_stays_a_file()
    ensures { (files : Files) (path : Components) (bytes : List ℕ)
        → AreOfOneKind (map.insert files path WriterOut) (map.insert files path (Bytes bytes)) }
{}

/// A file's creation, and the return of its writer, change what stands at its path and nothing else.
pub fn a_write_changes_its_path_alone()
    ensures out { (files : Files) (path : Components) → IsSetAt path WriterOut files (map.insert files path WriterOut) }
    ensures filled { (files : Files) (path : Components) (bytes : List ℕ) → IsSetAt path (Bytes bytes) files (map.insert files path (Bytes bytes)) }
    ensures kinds { (files : Files) (path : Components) → IsFileAt files path → AreOfOneKind files (map.insert files path WriterOut) }
{}

/// Where no writer was out, none is once the writer of a file that was made has come back.
pub fn no_writer_is_out_after_its_return()
    ensures { (old mid new : TreeState) (path : Components) (taken : Option (List ℕ)) → mid ≡ lend (take_out path old)
        → IsFilled path taken mid new → IfSome old.held NoWriterOut → IfSome new.held NoWriterOut }
{}

/// Writers are out at the paths for which they were lent, and at no other: there every file can be read, and made anew.
pub fn writers_are_out_at_their_paths()
    ensures none { (files : Files) → NoWriterOut files ↔ AreOutWithin [] files }
    ensures create { (files : Files) (paths : List Components) (path : Components) → AreOutWithin paths files
        → AreOutWithin (path ∷ paths) (map.insert files path WriterOut) }
    ensures filled { (files : Files) (paths : List Components) (path : Components) (bytes : List ℕ) → AreOutWithin (path ∷ paths) files
        → AreOutWithin paths (map.insert files path (Bytes bytes)) }
{}

/// Of readers and writers, as many come back as were lent, whatever was lent and came back in between.
pub fn what_is_lent_comes_back()
    ensures none { (state : TreeState) → Balanced state state }
    ensures more { (old mid new : TreeState) → Balanced old mid → Balanced mid new → Balanced old new }
    ensures readers { (old new : TreeState) → OnlyLent old new → Balanced old new }
    ensures lend { (count : ℕ) (old new : TreeState) → AreOut count old new → AreOut (suc count) old (lend new) }
    ensures back { (count : ℕ) (old new : TreeState) → AreOut (suc count) old new → AreOut count old (take_back new) }
    ensures reader { (old mid : TreeState) → Balanced (lend old) mid → Balanced old (take_back mid) }
    ensures writer { (old mid new : TreeState) (path : Components) (taken : Option (List ℕ)) → Balanced (lend (take_out path old)) mid
        → IsFilled path taken mid new → Balanced old new }
{}
