//! A tree of files in memory.
ghost use Rattle.std.specs.Prelude.{◌≡◌, ◌≤◌, [], if◌then◌else◌, Some, IfOk, OnOk, OnErr, IsTrue, IfSome, is_some, option_to_list};

use crate::listing::names_in;
use crate::plan::Plan;
use crate::reads::{ReadPlan, Reads, reads_at};
use crate::rows::copy_rows;
use crate::sink::MemSink;
use crate::source::MemSource;
use crate::standing::is_tree;
use crate::stored::{
    Content, Stored, bytes_at, file_at, folders_of, kind_at, named_path, place_all, put,
};
use ps_lines::{Memory, is_closed};
use ps_world::{Kind, Mode, Path, Sink, Source, Tree, WorldErr};
use std::alloc::{AllocError, Global};

/// A tree of the files that it was made with.
///
/// Its calls that answer a Result have numbers from 0, and those on its list fail.
#[derive(Debug, Drop)]
pub struct MemTree {
    pub(crate) home: Path,
    pub(crate) stored: Vec<Stored>,
    pub(crate) read_plans: Vec<ReadPlan>,
    pub(crate) plan: Plan,
    pub(crate) lent: u64,
    pub(crate) back: u64,
}

impl Tree for MemTree {
    ghost use Rattle.std.specs.Prelude.{MatchResult, IsErrOf, ◌↔◌, ◌<◌, ◌||◌, is_err, None};
    ghost use Rattle.std.specs.List.{list_all};
    ghost use Rattle.ps_lines.specs.Lines.{is_closed as is_closed_def};
    ghost use Rattle.ps_lines.specs.Texts.{texts_of};
    ghost use Rattle.ps_world.specs.Counts.{Counts, CountsReturn, Rose};
    ghost use Rattle.ps_world.specs.Files.{CanBeMade, IsDirAt, IsFileAt, IsListing, begun, bytes_at as bytes_at_def, kind_at as kind_at_def};
    ghost use Rattle.ps_world.specs.Paths.{is_name};
    ghost use Rattle.ps_world.specs.TreeState.{IsFilled, lend, take_back, take_out};
    ghost use Rattle.ps_fakes.specs.Plans.{CountsCall, fails_next};
    ghost use Rattle.ps_fakes.specs.Streams.{NeverFails};
    ghost use Rattle.ps_fakes.specs.Trees.{GivesAs, KeepsPlans, reads_of, state_of};

    type Reader = MemSource;

    type Writer = MemSink;

    ghost state = { state_of };

    ghost faults = { λ tree. tree.plan.faults };

    fn home(&self) -> &Path {
        &self.home
    }

    /// Fails exactly where it is planned.
    fn kind(&mut self, path: &Path) -> Result<Kind, WorldErr>
        ensures kind { IfOk result (λ kind. IfSome (state_of self.old).held (λ files. kind ≡ kind_at_def files path.now)) }
        ensures state { state_of self.new ≡ state_of self.old }
        ensures cause { Counts self.old.plan.faults self.new.plan.faults result }
        ensures planned { is_err result ≡ fails_next self.old.plan }
        ensures call { CountsCall self.old.plan self.new.plan }
        ensures plans { KeepsPlans self.old self.new }
    {
        if self.plan.fails_now() {
            return Err(WorldErr::Failed);
        }
        Ok(kind_at(self.stored.as_slice(), path))
    }

    /// Fails exactly where it is planned.
    fn list(&mut self, dir: &Path) -> Result<Vec<Vec<u8>>, WorldErr>
        requires { IfSome (state_of self.old).held (λ files. IsDirAt files dir.now) }
        ensures names { IfOk result (λ names. IfSome (state_of self.old).held (λ files. IsListing files dir.now (texts_of names.items))) }
        ensures each { IfOk result (λ names. IsTrue (list_all is_name (texts_of names.items))) }
        ensures state { state_of self.new ≡ state_of self.old }
        ensures cause { Counts self.old.plan.faults self.new.plan.faults result }
        ensures planned { IsErrOf result WorldErr.Failed ↔ IsTrue (fails_next self.old.plan) }
        ensures call { CountsCall self.old.plan self.new.plan }
        ensures plans { KeepsPlans self.old self.new }
    {
        if self.plan.fails_now() {
            return Err(WorldErr::Failed);
        }
        let alloc = *self.stored.allocator();
        let names = names_in(alloc, self.stored.as_slice(), dir)?;
        Ok(names)
    }

    /// Fails exactly where it is planned.
    fn ends_line(&mut self, path: &Path) -> Result<bool, WorldErr>
        requires { IfSome (state_of self.old).held (λ files. IsFileAt files path.now) }
        ensures closed { IfOk result (λ closed. IfSome (state_of self.old).held (λ files. closed ≡ is_closed_def (bytes_at_def files path.now))) }
        ensures state { state_of self.new ≡ state_of self.old }
        ensures cause { Counts self.old.plan.faults self.new.plan.faults result }
        ensures planned { is_err result ≡ fails_next self.old.plan }
        ensures call { CountsCall self.old.plan self.new.plan }
        ensures plans { KeepsPlans self.old self.new }
    {
        if self.plan.fails_now() {
            return Err(WorldErr::Failed);
        }
        Ok(is_closed(bytes_at(self.stored.as_slice(), path)))
    }

    /// Fails exactly where it is planned.
    fn open(&mut self, path: &Path) -> Result<MemSource, WorldErr>
        requires { IfSome (state_of self.old).held (λ files. IsFileAt files path.now) }
        ensures reader { IfOk result (λ reader. IfSome (state_of self.old).held (λ files.
            ⟦<MemSource as Source>⟧.left reader ≡ Some (bytes_at_def files path.now))) }
        ensures reads { IfOk result (λ reader. IfSome (state_of self.old).held (λ files.
            GivesAs (reads_of self.old path.now) (bytes_at_def files path.now) reader)) }
        ensures fresh { IfOk result (λ reader. (⟦<MemSource as Source>⟧.given reader ≡ 0) × (⟦<MemSource as Source>⟧.faults reader ≡ 0)) }
        ensures state { MatchResult result (λ _. state_of self.new ≡ lend (state_of self.old)) (λ _. state_of self.new ≡ state_of self.old) }
        ensures cause { Counts self.old.plan.faults self.new.plan.faults result }
        ensures planned { IsErrOf result WorldErr.Failed ↔ IsTrue (fails_next self.old.plan) }
        ensures call { CountsCall self.old.plan self.new.plan }
        ensures plans { KeepsPlans self.old self.new }
    {
        if self.plan.fails_now() {
            return Err(WorldErr::Failed);
        }
        let reader = self.reader_of(path)?;
        self.count_lent();
        Ok(reader)
    }

    /// Fails exactly where it is planned.
    fn create(&mut self, path: &Path, mode: Mode) -> Result<MemSink, WorldErr>
        requires { IfSome (state_of self.old).held (λ files. CanBeMade files path.now) }
        ensures writer { IfOk result (λ writer. IfSome (state_of self.old).held (λ files.
            ⟦<MemSink as Sink>⟧.taken writer ≡ Some (begun files path.now mode))) }
        ensures fresh { IfOk result (λ writer. ⟦<MemSink as Sink>⟧.faults writer ≡ 0) }
        ensures whole { IfOk result NeverFails }
        ensures state { MatchResult result
            (λ _. state_of self.new ≡ lend (take_out path.now (state_of self.old)))
            (λ _. state_of self.new ≡ state_of self.old) }
        ensures cause { Counts self.old.plan.faults self.new.plan.faults result }
        ensures planned { IsErrOf result WorldErr.Failed ↔ IsTrue (fails_next self.old.plan) }
        ensures call { CountsCall self.old.plan self.new.plan }
        ensures plans { KeepsPlans self.old self.new }
    {
        if self.plan.fails_now() {
            return Err(WorldErr::Failed);
        }
        let writer = self.writer_of(path, mode)?;
        put(&mut self.stored, path, Content::Out)?;
        self.count_lent();
        Ok(writer)
    }

    fn end_read(&mut self, _path: &Path, reader: MemSource)
        ensures state { state_of self.new ≡ take_back (state_of self.old) }
        ensures later { self.old.plan.faults ≤ self.new.plan.faults }
        ensures calm { ⟦<MemSource as Source>⟧.faults reader ≡ 0 → self.new.plan.faults ≡ self.old.plan.faults }
        ensures cause { 0 < ⟦<MemSource as Source>⟧.faults reader → Rose self.old.plan.faults self.new.plan.faults }
        ensures plans { KeepsPlans self.old self.new }
    {
        self.count_back();
        if reader.faults() > 0 {
            self.plan.count_fault();
        }
    }

    /// Fails where it is planned, and where the writer's flush fails; the file holds what the writer had sent then.
    fn end_write(&mut self, path: &Path, writer: MemSink) -> Result<(), WorldErr>
        ensures ok { OnOk result (IsFilled path.now (⟦<MemSink as Sink>⟧.taken writer) (state_of self.old) (state_of self.new)) }
        ensures failed { IsErrOf result WorldErr.Failed → IsFilled path.now None (state_of self.old) (state_of self.new) }
        ensures memory { IsErrOf result WorldErr.Memory → state_of self.new ≡ take_back (state_of self.old) }
        ensures cause { CountsReturn writer.plan.faults self.old.plan.faults self.new.plan.faults result }
        ensures sent { IsErrOf result WorldErr.Failed → IsFilled path.now (⟦<MemSink as Sink>⟧.sent writer) (state_of self.old) (state_of self.new) }
        ensures fails { IsErrOf result WorldErr.Failed → IsTrue (fails_next self.old.plan || fails_next writer.plan) }
        ensures planned { IsTrue (fails_next self.old.plan || fails_next writer.plan) → IsTrue (is_err result) }
        ensures call { CountsCall self.old.plan self.new.plan }
        ensures plans { KeepsPlans self.old self.new }
    {
        self.count_back();
        if writer.faults() > 0 {
            self.plan.count_fault();
        }
        let mut writer = writer;
        let is_sent = !self.plan.count_call() && writer.flush().is_ok();
        put(&mut self.stored, path, Content::File(writer.into_sent()))?;
        if !is_sent {
            self.plan.count_fault();
            return Err(WorldErr::Failed);
        }
        Ok(())
    }
}

impl MemTree {
    ghost use Rattle.std.specs.Option.{option_copied};
    ghost use Rattle.ps_world.specs.Counts.{one_more};
    ghost use Rattle.ps_world.specs.Files.{NoWriterOut, begun, bytes_at as bytes_at_def};
    ghost use Rattle.ps_world.specs.Paths.{Components};
    ghost use Rattle.ps_fakes.specs.Trees.{GivesAs, entries_of, file_of, files_of, fresh_state, names_path, reads_of, rows_of};
    ghost use Rattle.ps_fakes.specs.Standing.{is_tree as is_tree_def};
    ghost use Rattle.ps_fakes.specs.Streams.{NeverFails};

    /// A tree of files, with their bytes, and directories, whose parents it makes, and the working directory `home`; the calls
    /// with the numbers of `fails` fail.
    ///
    /// `is_tree` is the test of what the caller owes.
    pub fn new(
        alloc: Global,
        home: &[u8],
        entries: Vec<(Vec<u8>, Option<Vec<u8>>)>,
        fails: Vec<u64>,
    ) -> Result<MemTree, Memory>
        requires { IsTrue (is_tree_def home.now (entries_of entries.items)) }
        ensures state { IfOk result (λ tree. ⟦<MemTree as Tree>⟧.state tree ≡ fresh_state home.now (entries_of entries.items)) }
        ensures settled { IfOk result (λ tree. IfSome (⟦<MemTree as Tree>⟧.state tree).held NoWriterOut) }
        ensures faults { IfOk result (λ tree. ⟦<MemTree as Tree>⟧.faults tree ≡ 0) }
        ensures fails { IfOk result (λ tree. tree.plan.fails ≡ fails) }
        ensures reads { IfOk result (λ tree. tree.read_plans.items ≡ []) }
    {
        let home = named_path(alloc, home)?;
        let mut stored = place_all(alloc, entries)?;
        let mut folders = folders_of(alloc, &home, stored.as_slice())?;
        stored.append(&mut folders)?;
        Ok(MemTree {
            home,
            stored,
            read_plans: Vec::new(alloc),
            plan: Plan::new(fails),
            lent: 0,
            back: 0,
        })
    }

    /// The same from a table of rows; None where these make no tree.
    pub fn of_table(
        alloc: Global,
        home: &[u8],
        rows: &[(&[u8], Option<&[u8]>)],
        fails: Vec<u64>,
    ) -> Result<Option<MemTree>, Memory>
        ensures stands { IfOk result (λ tree. is_some tree ≡ is_tree_def home.now (rows_of rows.now)) }
        ensures state { IfOk result (λ tree. IfSome tree (λ tree.
            ⟦<MemTree as Tree>⟧.state tree ≡ fresh_state home.now (rows_of rows.now))) }
        ensures settled { IfOk result (λ tree. IfSome tree (λ tree. IfSome (⟦<MemTree as Tree>⟧.state tree).held NoWriterOut)) }
        ensures faults { IfOk result (λ tree. IfSome tree (λ tree. ⟦<MemTree as Tree>⟧.faults tree ≡ 0)) }
    {
        let entries = copy_rows(alloc, rows)?;
        if !is_tree(alloc, home, entries.as_slice())? {
            return Ok(None);
        }
        let tree = MemTree::new(alloc, home, entries, fails)?;
        Ok(Some(tree))
    }

    /// From now on readers of `path` give at most `most` bytes a read, and fail at the read `fail_at`, counted from 0.
    ///
    /// An earlier plan of the path is forgotten. A text that spells no normal absolute path has no readers.
    pub fn plan(&mut self, path: &[u8], most: usize, fail_at: Option<u64>) -> Result<(), Memory>
        requires { 1 ≤ most }
        ensures planned { OnOk result ((at : Components) → reads_of self.new at ≡ (
            if names_path path.now at then record { most = most; fail_at = fail_at } else reads_of self.old at)) }
        ensures state { ⟦<MemTree as Tree>⟧.state self.new ≡ ⟦<MemTree as Tree>⟧.state self.old }
        ensures faults { ⟦<MemTree as Tree>⟧.faults self.new ≡ ⟦<MemTree as Tree>⟧.faults self.old }
        ensures err { OnErr result ((at : Components) → reads_of self.new at ≡ reads_of self.old at) }
    {
        let alloc = *self.stored.allocator();
        let Some(path) = Path::read(alloc, path)? else {
            return Ok(());
        };
        let reads = Reads { most, fail_at };
        self.read_plans.insert(0, ReadPlan { path, reads })?;
        Ok(())
    }

    /// From now on each of its calls that answers a Result waits first, and each read of the readers that it lends, as long as this seed gives.
    pub fn delay(&mut self, seed: u64)
        ensures plan { self.new.plan ≡ record self.old.plan { seed = Some seed } }
        ensures reads { self.new.read_plans ≡ self.old.read_plans }
        ensures state { ⟦<MemTree as Tree>⟧.state self.new ≡ ⟦<MemTree as Tree>⟧.state self.old }
    {
        self.plan.delay(seed);
    }

    /// Counts a reader or writer that is lent.
    fn count_lent(&mut self)
        ensures { self.new ≡ record self.old { lent = one_more self.old.lent } }
    {
        self.lent = self.lent.saturating_add(1);
    }

    /// Counts a reader or writer that is given back.
    fn count_back(&mut self)
        ensures { self.new ≡ record self.old { back = one_more self.old.back } }
    {
        self.back = self.back.saturating_add(1);
    }

    /// How many readers and writers it has lent.
    pub fn lent(&self) -> u64
        ensures { result ≡ (⟦<MemTree as Tree>⟧.state self.now).lent }
    {
        self.lent
    }

    /// How many of them it was given back.
    pub fn back(&self) -> u64
        ensures { result ≡ (⟦<MemTree as Tree>⟧.state self.now).back }
    {
        self.back
    }

    /// How many of its calls have failed, and how many readers and writers came back of which a call had.
    pub fn faults(&self) -> u64
        ensures { result ≡ ⟦<MemTree as Tree>⟧.faults self.now }
    {
        self.plan.faults
    }

    /// The bytes of the file whose path a text spells; None where no file is, and while its writer is out.
    ///
    /// This is for a test's own look: it is no call of the tree, has no number and never fails by plan.
    pub fn file(&self, text: &[u8]) -> Result<Option<&[u8]>, Memory>
        ensures { IfOk result (λ bytes. IfSome (⟦<MemTree as Tree>⟧.state self.now).held (λ files.
            option_copied bytes ≡ file_of files text.now)) }
    {
        let alloc = *self.stored.allocator();
        match Path::read(alloc, text)? {
            Some(path) => Ok(file_at(self.stored.as_slice(), &path)),
            None => Ok(None),
        }
    }

    /// A writer of the file at a path.
    fn writer_of(&self, path: &Path, mode: Mode) -> Result<MemSink, AllocError>
        ensures taken { IfOk result (λ writer. ⟦<MemSink as Sink>⟧.taken writer ≡ Some (begun (files_of self.now.stored.items) path.now mode)) }
        ensures faults { IfOk result (λ writer. ⟦<MemSink as Sink>⟧.faults writer ≡ 0) }
        ensures whole { IfOk result NeverFails }
    {
        let alloc = *self.stored.allocator();
        let bytes = match mode {
            Mode::Fresh => Vec::new(alloc),
            Mode::Append => Vec::from_slice(alloc, bytes_at(self.stored.as_slice(), path))?,
        };
        Ok(MemSink::behind(alloc, bytes))
    }

    /// A reader of the file at a path, as it was planned.
    fn reader_of(&self, path: &Path) -> Result<MemSource, Memory>
        ensures reads { IfOk result (GivesAs (reads_of self.now path.now) (bytes_at_def (files_of self.now.stored.items) path.now)) }
        ensures faults { IfOk result (λ reader. ⟦<MemSource as Source>⟧.faults reader ≡ 0) }
    {
        let alloc = *self.stored.allocator();
        let reads = reads_at(self.read_plans.as_slice(), path);
        let bytes = Vec::from_slice(alloc, bytes_at(self.stored.as_slice(), path))?;
        let fails = listed(alloc, reads.fail_at)?;
        let mut reader = MemSource::in_pieces(bytes, reads.most, fails);
        reader.plan.seed = self.plan.lent_seed();
        Ok(reader)
    }
}

/// A list of one number or none.
fn listed(alloc: Global, number: Option<u64>) -> Result<Vec<u64>, AllocError>
    ensures { IfOk result (λ list. list.items ≡ option_to_list number) }
{
    let mut list = Vec::new(alloc);
    if let Some(number) = number {
        list.push(number)?;
    }
    Ok(list)
}
