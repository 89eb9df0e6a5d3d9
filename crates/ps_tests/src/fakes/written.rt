//! Files that are listed, made and written, and the objects that never fail.
ghost use Rattle.std.specs.Prelude.{◌≡◌, IfOk, IfSome, IfNone, OnOk};
ghost use Rattle.ps_world.specs.Files.{NoWriterOut};
ghost use Rattle.ps_world.specs.TreeState.{lend, take_out};

use super::read_once;
use ps_fakes::{MemSink, MemSource, MemTree, NoFailSink, NoFailSource, NoFailTree};
use ps_lines::Memory;
use ps_world::{
    Kind, Mode, Path, Sink, Source, Tree, WorldErr, read_all, read_front, read_line, write_all,
};
use std::alloc::Global;
use std::process::Abort;
use std::test::Fail;

/// The path that a text spells.
fn path_of<R: Abort + AllocGlobal>(rt: &R, text: &[u8]) -> Result<Path, Fail> {
    let path = Path::read(rt.alloc(), text)?;
    Ok(path.expect(rt, "the text spells a path"))
}

/// The names in a directory, none where no directory is.
fn names_in<T: Tree>(alloc: Global, tree: &mut T, dir: &Path) -> Result<Vec<Vec<u8>>, WorldErr>
    ensures { T.state tree.new ≡ T.state tree.old }
{
    match tree.kind(dir)? {
        Kind::Dir => tree.list(dir),
        Kind::File | Kind::Missing => Ok(Vec::new(alloc)),
    }
}

/// These are exactly the names that are wanted, in any order.
fn are_names<R: Abort>(rt: &R, names: &[Vec<u8>], wants: &[&[u8]]) {
    assert_eq!(rt; names.len(), wants.len(), "in {names:?}");
    for want in wants {
        assert!(rt;
            names.iter().any(|name| name.as_slice() == *want),
            "{want:?} in {names:?}"
        );
    }
}

/// A directory has exactly these names.
fn lists<R: Abort + AllocGlobal, T: Tree>(
    rt: &R,
    tree: &mut T,
    dir: &[u8],
    wants: &[&[u8]],
) -> Result<(), Fail>
    ensures { T.state tree.new ≡ T.state tree.old }
{
    let names = names_in(rt.alloc(), tree, &path_of(rt, dir)?)?;
    are_names(rt, names.as_slice(), wants);
    Ok(())
}

/// Lends a writer of the file at a path, where one can be made.
#[tactic(auto, using(ps_world::proofs::WritingLemmas::made_anew, ps_world::proofs::WritingLemmas::made_new))]
fn make<T: Tree>(tree: &mut T, path: &Path, mode: Mode) -> Result<Option<T::Writer>, WorldErr>
    requires whole { IfSome (T.state tree.old).held NoWriterOut }
    ensures some { IfOk result (λ writer. IfSome writer (λ _. T.state tree.new ≡ lend (take_out path.now (T.state tree.old)))) }
    ensures none { IfOk result (λ writer. IfNone writer (T.state tree.new ≡ T.state tree.old)) }
{
    match tree.kind(path)? {
        Kind::Dir => Ok(None),
        Kind::File => Ok(Some(tree.create(path, mode)?)),
        Kind::Missing => {
            let mut parent = path.copy()?;
            parent.pop();
            match tree.kind(&parent)? {
                Kind::Dir => Ok(Some(tree.create(path, mode)?)),
                Kind::File | Kind::Missing => Ok(None),
            }
        }
    }
}

/// Writes a text to a file, where one can be made; answers whether one can.
fn write_file<T: Tree>(tree: &mut T, path: &Path, mode: Mode, text: &[u8]) -> Result<bool, WorldErr>
    requires whole { IfSome (T.state tree.old).held NoWriterOut }
    ensures whole { OnOk result (IfSome (T.state tree.new).held NoWriterOut) }
{
    match make(tree, path, mode)? {
        Some(writer) => {
            let mut writer = writer;
            let written = write_all(&mut writer, text);
            tree.end_write(path, writer)?;
            written?;
            Ok(true)
        }
        None => Ok(false),
    }
}

/// A file is closed or not, and has these bytes.
fn holds<R: Abort + AllocGlobal, T: Tree>(
    rt: &R,
    tree: &mut T,
    path: &Path,
    closed: bool,
    want: &[u8],
) -> Result<(), Fail>
    requires whole { IfSome (T.state tree.old).held NoWriterOut }
    ensures whole { OnOk result (IfSome (T.state tree.new).held NoWriterOut) }
{
    let Kind::File = tree.kind(path)? else {
        return Err(Fail::from(WorldErr::Failed));
    };
    assert_eq!(rt; tree.ends_line(path)?, closed, "{want:?}");
    let mut reader = tree.open(path)?;
    let found = read_all(rt.alloc(), &mut reader);
    tree.end_read(path, reader);
    assert!(rt; found?.as_slice() == want, "{want:?}");
    Ok(())
}

/// Writes files of a tree with `/w/a`, `/w/d/b` and a directory `/w/e`.
fn writes_files<R: Abort + AllocGlobal, T: Tree>(rt: &R, tree: &mut T) -> Result<(), Fail>
    requires whole { IfSome (T.state tree.old).held NoWriterOut }
{
    lists(rt, tree, b"/w", &[b"a", b"d", b"e"])?;
    lists(rt, tree, b"/w/e", &[])?;
    let file = path_of(rt, b"/w/e/.new")?;
    assert!(rt; write_file(tree, &file, Mode::Append, b"")?);
    holds(rt, tree, &file, true, b"")?;
    assert!(rt; write_file(tree, &file, Mode::Append, b"one\n")?);
    holds(rt, tree, &file, true, b"one\n")?;
    assert!(rt; write_file(tree, &file, Mode::Append, b"two")?);
    holds(rt, tree, &file, false, b"one\ntwo")?;
    assert!(rt; write_file(tree, &file, Mode::Fresh, b"\n")?);
    holds(rt, tree, &file, true, b"\n")?;
    lists(rt, tree, b"/w/e", &[b".new"])?;
    assert!(rt; !write_file(tree, &path_of(rt, b"/w/none/c")?, Mode::Fresh, b"")?);
    assert!(rt; !write_file(tree, &path_of(rt, b"/w/a/c")?, Mode::Fresh, b"")?);
    assert!(rt; !write_file(tree, &path_of(rt, b"/w/e")?, Mode::Append, b"")?);
    is_out_while_written(rt, tree, &path_of(rt, b"/w/d")?, &path_of(rt, b"/w/d/c")?)
}

/// A file that is being made is a file, and has its name in `/w/d` beside `b`.
fn is_out_while_written<R: Abort + AllocGlobal, T: Tree>(
    rt: &R,
    tree: &mut T,
    dir: &Path,
    path: &Path,
) -> Result<(), Fail>
    requires whole { IfSome (T.state tree.old).held NoWriterOut }
{
    match make(tree, path, Mode::Fresh)? {
        Some(writer) => {
            let kind = tree.kind(path);
            let names = names_in(rt.alloc(), tree, dir);
            tree.end_write(path, writer)?;
            assert_eq!(rt; kind?, Kind::File);
            are_names(rt, names?.as_slice(), &[b"b", b"c"]);
            Ok(())
        }
        None => Err(Fail::from(WorldErr::Failed)),
    }
}

/// The files that the tests write over.
static FILES: [(&[u8], Option<&[u8]>); 3] = [
    (b"/w/a", Some(b"1")),
    (b"/w/d/b", Some(b"2\n")),
    (b"/w/e", None),
];

#[test]
fn a_tree_is_written(rt: HostRuntime) -> Result<(), Fail> {
    let alloc = rt.alloc();
    let tree = MemTree::of_table(alloc, b"/w", &FILES, Vec::new(alloc))?;
    let mut tree = tree.expect(&rt, "the files make a tree");
    writes_files(&rt, &mut tree)?;
    assert_eq!(rt; tree.lent(), tree.back());
    assert_eq!(rt; tree.faults(), 0);
    let tree = NoFailTree::of_table(alloc, b"/w", &FILES)?;
    let mut tree = tree.expect(&rt, "the files make a tree");
    writes_files(&rt, &mut tree)
}

/// Makes each call of a tree that answers a Result once, and the first twice.
fn call_each<T: Tree>(tree: &mut T, dir: &Path, file: &Path) -> Result<(), WorldErr>
    requires whole { IfSome (T.state tree.old).held NoWriterOut }
{
    let Kind::Dir = tree.kind(dir)? else {
        // No test wants this answer where no call has failed.
        return Err(WorldErr::Memory);
    };
    tree.list(dir)?;
    let Kind::File = tree.kind(file)? else {
        return Err(WorldErr::Memory);
    };
    tree.ends_line(file)?;
    let reader = tree.open(file)?;
    tree.end_read(file, reader);
    let writer = tree.create(file, Mode::Append)?;
    tree.end_write(file, writer)
}

/// Seven calls are made, and each fails where it is planned.
#[test]
fn each_call_of_a_tree_fails_where_planned(rt: HostRuntime) -> Result<(), Fail> {
    let alloc = rt.alloc();
    let dir = path_of(&rt, b"/w")?;
    let file = path_of(&rt, b"/w/a")?;
    for call in 0..8 {
        let tree = MemTree::of_table(alloc, b"/w", &FILES, vec![in alloc; call]?)?;
        let mut tree = tree.expect(&rt, "the files make a tree");
        let result = call_each(&mut tree, &dir, &file);
        assert_eq!(rt; result.is_err(), call < 7, "at {call}");
        assert_eq!(rt; tree.faults(), u64::from(call < 7), "at {call}");
        assert_eq!(rt; tree.lent(), tree.back(), "at {call}");
    }
    Ok(())
}

/// What `file` tells of a path while its writer is out, and before and after.
#[test]
fn a_test_looks_at_a_file(rt: HostRuntime) -> Result<(), Fail> {
    let alloc = rt.alloc();
    let tree = MemTree::of_table(alloc, b"/w", &FILES, vec![in alloc; 9]?)?;
    let mut tree = tree.expect(&rt, "the files make a tree");
    assert!(rt; tree.file(b"/w/a")? == Some(b"1".as_slice()));
    assert!(rt; tree.file(b"/w/e")?.is_none());
    assert!(rt; tree.file(b"/w/none")?.is_none());
    assert!(rt; tree.file(b"w/a")?.is_none());
    let path = path_of(&rt, b"/w/a")?;
    assert!(rt; write_file(&mut tree, &path, Mode::Append, b"2")?);
    assert!(rt; tree.file(b"/w/a")? == Some(b"12".as_slice()));
    let tree = NoFailTree::of_table(alloc, b"/w", &FILES)?;
    let tree = tree.expect(&rt, "the files make a tree");
    assert!(rt; tree.file(b"/w/d/b")? == Some(b"2\n".as_slice()));
    Ok(())
}

/// Of the text this line is taken, which a newline ends or not, and this is left.
fn takes_line<R: Abort + AllocGlobal>(
    rt: &R,
    text: &[u8],
    line: &[u8],
    closed: bool,
    rest: &[u8],
) -> Result<(), Fail> {
    let alloc = rt.alloc();
    let mut source = MemSource::new(Vec::from_slice(alloc, text)?, Vec::new(alloc));
    let mut found = Vec::new(alloc);
    assert_eq!(rt; read_line(&mut source, &mut found)?, closed, "{text:?}");
    assert!(rt; found.as_slice() == line, "{text:?} begins with {found:?}");
    let left = read_all(alloc, &mut source)?;
    assert!(rt; left.as_slice() == rest, "{left:?} is left of {text:?}");
    Ok(())
}

/// A line is taken with its newline, and nothing behind it (XCU read).
#[test]
fn one_line_is_taken(rt: HostRuntime) -> Result<(), Fail> {
    takes_line(&rt, b"", b"", false, b"")?;
    takes_line(&rt, b"\n", b"", true, b"")?;
    takes_line(&rt, b"a", b"a", false, b"")?;
    takes_line(&rt, b"ab\n", b"ab", true, b"")?;
    takes_line(&rt, b"ab\ncd\n", b"ab", true, b"cd\n")?;
    takes_line(&rt, b"\0\r \n\n", b"\0\r ", true, b"\n")
}

/// The bytes before a failed read stand in the line, and the next ones are still to come.
#[test]
fn a_failed_line_loses_nothing(rt: HostRuntime) -> Result<(), Fail> {
    let alloc = rt.alloc();
    let mut source = MemSource::new(Vec::from_slice(alloc, b"abc\nd")?, vec![in alloc; 2]?);
    let mut found = Vec::from_slice(alloc, b"-")?;
    assert_eq!(rt; read_line(&mut source, &mut found), Err(WorldErr::Failed));
    assert!(rt; found.as_slice() == b"-ab".as_slice());
    assert!(rt; read_line(&mut source, &mut found)?);
    assert!(rt; found.as_slice() == b"-abc".as_slice());
    Ok(())
}

#[test]
fn texts_go_through_whole(rt: HostRuntime) -> Result<(), Fail> {
    let alloc = rt.alloc();
    let mut source = NoFailSource::new(Vec::from_slice(alloc, b"hello!")?);
    let front = read_front(alloc, &mut source, 4)?;
    assert!(rt; front.as_slice() == b"hell".as_slice());
    assert_eq!(rt; source.read(&mut [])?, 0);
    let rest = read_all(alloc, &mut source)?;
    assert!(rt; rest.as_slice() == b"o!".as_slice());
    let mut sink = NoFailSink::new(alloc);
    write_all(&mut sink, b"one\n")?;
    sink.flush()?;
    write_all(&mut sink, b"two")?;
    assert!(rt; sink.taken() == b"one\ntwo".as_slice());
    assert!(rt; sink.sent() == b"one\n".as_slice());
    let mut slow = MemSink::in_pieces(alloc, 1, Vec::new(alloc));
    write_all(&mut slow, b"one")?;
    assert!(rt; slow.taken() == b"one".as_slice());
    Ok(())
}

/// A planned read at an empty buffer is counted, and answers 0.
#[test]
fn a_read_into_an_empty_buffer_does_not_fail(rt: HostRuntime) -> Result<(), Fail> {
    let alloc = rt.alloc();
    let bytes = Vec::from_slice(alloc, b"ab")?;
    let mut source = MemSource::new(bytes, Vec::from_slice(alloc, &[0, 1])?);
    assert_eq!(rt; source.read(&mut [])?, 0);
    assert_eq!(rt; source.faults(), 0);
    read_once(&rt, &mut source, None);
    read_once(&rt, &mut source, Some(b"ab"));
    Ok(())
}
