//! Objects in memory whose calls never fail.
ghost use Rattle.std.specs.Prelude.{◌≡◌, ℕ, ◌-◌, ◌^◌, ◌≤◌, ◌&&◌, [], vec_len, is_some, IfOk, IfSome, IsTrue, Some, unwrap_or};
ghost use Rattle.std.specs.Global.{Vec};
ghost use Rattle.std.specs.Option.{option_copied, option_map};
ghost use Rattle.ps_world.specs.Files.{NoWriterOut};
ghost use Rattle.ps_fakes.specs.Bounded.{AreBounded, are_bounded as are_bounded_def, is_bounded as is_bounded_def};
ghost use Rattle.ps_fakes.specs.Standing.{is_tree as is_tree_def};
ghost use Rattle.ps_fakes.specs.Trees.{entries_of, file_of, files_of, fresh_state, rows_of, state_of};

use crate::rows::copy_rows;
use crate::sink::MemSink;
use crate::source::MemSource;
use crate::standing::is_tree;
use crate::tree::MemTree;
use ps_lines::Memory;
use ps_world::{Kind, Mode, Path, Sink, Source, Tree, WorldErr};
use std::alloc::Global;

/// The most bytes that a file has, and that a sink takes.
const MOST_BYTES: usize = 1 << 40;

/// A source of the bytes that it was made with. Its count of faults is always 0.
#[derive(Debug, Drop)]
pub struct NoFailSource {
    source: MemSource,
    ghost planned: { source.plan.fails.items ≡ [] },
    ghost whole: { source.most ≡ 2 ^ 64 - 1 },
    ghost bounded: { vec_len source.bytes ≤ 2 ^ 40 },
}

impl Source for NoFailSource {
    ghost use Rattle.ps_fakes.specs.Streams.{left_of};

    ghost left = { λ whole. left_of whole.source };

    ghost given = { λ whole. whole.source.at };

    ghost faults = { λ _. 0 };

    fn read(&mut self, buf: &mut [u8]) -> Result<usize, WorldErr> {
        self.source.read(buf)
    }
}

impl NoFailSource {
    /// A source of these bytes.
    pub fn new(bytes: Vec<u8>) -> NoFailSource
        requires { vec_len bytes ≤ 2 ^ 40 }
        ensures left { ⟦<NoFailSource as Source>⟧.left result ≡ Some bytes.items }
        ensures given { ⟦<NoFailSource as Source>⟧.given result ≡ 0 }
    {
        let alloc = *bytes.allocator();
        NoFailSource {
            source: MemSource::new(bytes, Vec::new(alloc)),
        }
    }
}

/// A sink that keeps what it takes. Its count of faults is always 0, and it answers Memory rather than to take more than 2^40
/// bytes in all.
#[derive(Debug, Drop)]
pub struct NoFailSink {
    sink: MemSink,
    ghost planned: { sink.plan.fails.items ≡ [] },
    ghost whole: { sink.most ≡ 2 ^ 64 - 1 },
    ghost bounded: { vec_len sink.bytes ≤ 2 ^ 40 },
}

impl Sink for NoFailSink {
    ghost use Rattle.ps_fakes.specs.Streams.{sent_by, taken_by};
    ghost use Rattle.ps_world.proofs.ToldLemmas.{begins-take};

    ghost taken = { λ whole. taken_by whole.sink };

    ghost sent = { λ whole. sent_by whole.sink };

    ghost faults = { λ _. 0 };

    ghost sent_first = { λ whole. begins-take whole.sink.flushed whole.sink.bytes.items };

    fn write(&mut self, bytes: &[u8]) -> Result<usize, WorldErr> {
        if bytes.len() > MOST_BYTES - self.sink.taken().len() {
            return Err(WorldErr::Memory);
        }
        self.sink.write(bytes)
    }

    fn flush(&mut self) -> Result<(), WorldErr> {
        self.sink.flush()
    }
}

impl NoFailSink {
    /// A sink with nothing in it.
    pub fn new(alloc: Global) -> NoFailSink
        ensures taken { ⟦<NoFailSink as Sink>⟧.taken result ≡ Some [] }
        ensures sent { ⟦<NoFailSink as Sink>⟧.sent result ≡ Some [] }
    {
        NoFailSink {
            sink: MemSink::new(alloc, Vec::new(alloc)),
        }
    }

    /// All that it has taken.
    pub fn taken(&self) -> &[u8]
        ensures { ⟦<NoFailSink as Sink>⟧.taken self.now ≡ Some result.now }
    {
        self.sink.taken()
    }

    /// What of it a flush has sent on.
    pub fn sent(&self) -> &[u8]
        ensures { ⟦<NoFailSink as Sink>⟧.sent self.now ≡ Some result.now }
    {
        self.sink.sent()
    }
}

/// A tree of the files that it was made with and of those that are written. Its count of faults is always 0, and its writers
/// answer Memory rather than to take more than 2^40 bytes in all.
#[derive(Debug, Drop)]
pub struct NoFailTree {
    tree: MemTree,
    ghost planned: { tree.plan.fails.items ≡ [] },
    ghost plain: { tree.read_plans.items ≡ [] },
    ghost bounded: { AreBounded (files_of tree.stored.items) },
}

impl Tree for NoFailTree {
    type Reader = NoFailSource;

    type Writer = NoFailSink;

    ghost state = { λ whole. state_of whole.tree };

    ghost faults = { λ _. 0 };

    fn home(&self) -> &Path {
        self.tree.home()
    }

    fn kind(&mut self, path: &Path) -> Result<Kind, WorldErr> {
        self.tree.kind(path)
    }

    fn list(&mut self, dir: &Path) -> Result<Vec<Vec<u8>>, WorldErr> {
        self.tree.list(dir)
    }

    fn ends_line(&mut self, path: &Path) -> Result<bool, WorldErr> {
        self.tree.ends_line(path)
    }

    fn open(&mut self, path: &Path) -> Result<NoFailSource, WorldErr> {
        let source = self.tree.open(path)?;
        Ok(NoFailSource { source })
    }

    fn create(&mut self, path: &Path, mode: Mode) -> Result<NoFailSink, WorldErr> {
        let sink = self.tree.create(path, mode)?;
        Ok(NoFailSink { sink })
    }

    fn end_read(&mut self, path: &Path, reader: NoFailSource) {
        self.tree.end_read(path, reader.source);
    }

    fn end_write(&mut self, path: &Path, writer: NoFailSink) -> Result<(), WorldErr> {
        self.tree.end_write(path, writer.sink)
    }
}

impl NoFailTree {
    /// A tree of files, with their bytes, and directories, whose parents it makes, and the working directory `home`.
    ///
    /// `is_tree` and `are_bounded` are the tests of what the caller owes.
    pub fn new(
        alloc: Global,
        home: &[u8],
        entries: Vec<(Vec<u8>, Option<Vec<u8>>)>,
    ) -> Result<NoFailTree, Memory>
        requires stands { IsTrue (is_tree_def home.now (entries_of entries.items)) }
        requires bounded { IsTrue (are_bounded_def (entries_of entries.items)) }
        ensures state { IfOk result (λ tree. ⟦<NoFailTree as Tree>⟧.state tree ≡ fresh_state home.now (entries_of entries.items)) }
        ensures settled { IfOk result (λ tree. IfSome (⟦<NoFailTree as Tree>⟧.state tree).held NoWriterOut) }
    {
        let tree = MemTree::new(alloc, home, entries, Vec::new(alloc))?;
        Ok(NoFailTree { tree })
    }

    /// The same from a table of rows; None where these make no tree, or a file has more than 2^40 bytes.
    pub fn of_table(
        alloc: Global,
        home: &[u8],
        rows: &[(&[u8], Option<&[u8]>)],
    ) -> Result<Option<NoFailTree>, Memory>
        ensures stands { IfOk result (λ tree. is_some tree ≡ (is_tree_def home.now (rows_of rows.now) && are_bounded_def (rows_of rows.now))) }
        ensures state { IfOk result (λ tree. IfSome tree (λ tree.
            ⟦<NoFailTree as Tree>⟧.state tree ≡ fresh_state home.now (rows_of rows.now))) }
        ensures settled { IfOk result (λ tree. IfSome tree (λ tree. IfSome (⟦<NoFailTree as Tree>⟧.state tree).held NoWriterOut)) }
    {
        let entries = copy_rows(alloc, rows)?;
        if !is_tree(alloc, home, entries.as_slice())? {
            return Ok(None);
        }
        if !are_bounded(entries.as_slice()) {
            return Ok(None);
        }
        let tree = NoFailTree::new(alloc, home, entries)?;
        Ok(Some(tree))
    }

    /// The bytes of the file whose path a text spells; None where no file is, and while its writer is out.
    pub fn file(&self, text: &[u8]) -> Result<Option<&[u8]>, Memory>
        ensures { IfOk result (λ bytes. IfSome (⟦<NoFailTree as Tree>⟧.state self.now).held (λ files.
            option_copied bytes ≡ file_of files text.now)) }
    {
        self.tree.file(text)
    }
}

/// Whether each file of these entries has at most 2^40 bytes.
pub fn are_bounded(entries: &[(Vec<u8>, Option<Vec<u8>>)]) -> bool
    ensures { result ≡ are_bounded_def (entries_of entries.now) }
{
    let mut left = entries;
    while let [first, rest @ ..] = left {
        if !is_bounded(&first.1) {
            return false;
        }
        left = rest;
    }
    true
}

/// Whether a file of these bytes has at most 2^40 of them.
fn is_bounded(bytes: &Option<Vec<u8>>) -> bool
    ensures { result ≡ is_bounded_def (unwrap_or (option_map (λ (bytes : Vec ℕ). bytes.items) bytes.now) []) }
{
    match bytes {
        Some(bytes) => bytes.len() <= MOST_BYTES,
        None => true,
    }
}
