//! The machine's tree over a folder that each test makes for itself, and what the machine lets fail there.
use ps_real::RealTree;
use ps_world::{Kind, Mode, Path, Tree, WorldErr, read_all, write_all};
use std::process::Abort;
use std::test::Fail;
use std::{env, fs, io, process};

/// A new folder for the test of this name.
fn new_folder(rt: &HostRuntime, test: &str) -> io::Result<String> {
    let base = env::temp_dir(rt)?;
    let id = process::id(rt.process());
    let folder = format!(in rt.alloc(); "{}/ps_real_{test}_{id}", base.as_str())?;
    fs::create_dir(rt, folder.as_str())?;
    Ok(folder)
}

/// The path of a name in a folder.
fn path_in<R: Abort + AllocGlobal>(rt: &R, folder: &str, name: &[u8]) -> Result<Path, Fail> {
    let mut text = Vec::from_slice(rt.alloc(), folder.as_bytes())?;
    text.push(b'/')?;
    text.extend_from_slice(name)?;
    let path = Path::read(rt.alloc(), text.as_slice())?;
    Ok(path.expect(rt, "the name has no slash at its end"))
}

/// The path's text.
fn spelled(rt: &HostRuntime, path: &Path) -> Result<String, Fail> {
    Ok(String::from_utf8(path.spell(rt.alloc())?)?)
}

/// The machine's files, seen from the root.
fn real_tree(rt: &HostRuntime) -> Result<RealTree, Fail> {
    Ok(RealTree::new(rt.clone()?, Path::root(rt.alloc())))
}

/// Writes a text to a file.
fn write_file(tree: &mut RealTree, path: &Path, mode: Mode, text: &[u8]) -> Result<(), WorldErr> {
    let mut writer = tree.create(path, mode)?;
    let written = write_all(&mut writer, text);
    tree.end_write(path, writer)?;
    written
}

/// A file is closed or not, and has these bytes.
fn holds<R: Abort + AllocGlobal>(
    rt: &R,
    tree: &mut RealTree,
    path: &Path,
    closed: bool,
    want: &[u8],
) -> Result<(), Fail> {
    assert_eq!(rt; tree.kind(path)?, Kind::File);
    assert_eq!(rt; tree.ends_line(path)?, closed, "{want:?}");
    let mut reader = tree.open(path)?;
    let found = read_all(rt.alloc(), &mut reader);
    tree.end_read(path, reader);
    assert!(rt; found?.as_slice() == want, "{want:?}");
    Ok(())
}

#[test]
fn files_are_made_and_written(rt: HostRuntime) -> Result<(), Fail> {
    let folder = new_folder(&rt, "written")?;
    let file = path_in(&rt, folder.as_str(), b".new")?;
    let mut tree = real_tree(&rt)?;
    assert_eq!(rt; tree.kind(&file)?, Kind::Missing);
    write_file(&mut tree, &file, Mode::Append, b"")?;
    holds(&rt, &mut tree, &file, true, b"")?;
    write_file(&mut tree, &file, Mode::Append, b"one\n")?;
    holds(&rt, &mut tree, &file, true, b"one\n")?;
    write_file(&mut tree, &file, Mode::Append, b"two")?;
    holds(&rt, &mut tree, &file, false, b"one\ntwo")?;
    write_file(&mut tree, &file, Mode::Fresh, b"\n")?;
    holds(&rt, &mut tree, &file, true, b"\n")?;
    fs::remove_dir_all(&rt, folder.as_str())?;
    Ok(())
}

/// What is appended to a file that was removed meanwhile goes with it, and what is appended once the tree was asked for something else
/// makes it anew.
#[test]
fn a_file_stays_open_until_something_else_is_asked(rt: HostRuntime) -> Result<(), Fail> {
    let folder = new_folder(&rt, "kept")?;
    let file = path_in(&rt, folder.as_str(), b"file")?;
    let name = spelled(&rt, &file)?;
    let mut tree = real_tree(&rt)?;
    write_file(&mut tree, &file, Mode::Append, b"one\n")?;
    write_file(&mut tree, &file, Mode::Append, b"two\n")?;
    holds(&rt, &mut tree, &file, true, b"one\ntwo\n")?;
    write_file(&mut tree, &file, Mode::Append, b"three\n")?;
    fs::remove_file(&rt, name.as_str())?;
    write_file(&mut tree, &file, Mode::Append, b"four\n")?;
    assert_eq!(rt; tree.kind(&file)?, Kind::Missing);
    write_file(&mut tree, &file, Mode::Append, b"five\n")?;
    holds(&rt, &mut tree, &file, true, b"five\n")?;
    fs::remove_dir_all(&rt, folder.as_str())?;
    Ok(())
}

/// The names of a folder, in any order, without `.` and `..`.
#[test]
fn a_folder_is_listed(rt: HostRuntime) -> Result<(), Fail> {
    let folder = new_folder(&rt, "listed")?;
    let dir = path_in(&rt, folder.as_str(), b"d")?;
    let mut tree = real_tree(&rt)?;
    fs::create_dir(&rt, spelled(&rt, &dir)?.as_str())?;
    assert_eq!(rt; tree.kind(&dir)?, Kind::Dir);
    assert!(rt; tree.list(&dir)?.is_empty());
    for name in [b".h".as_slice(), b"a b", b"\xc3\xa9"] {
        let file = path_in(&rt, spelled(&rt, &dir)?.as_str(), name)?;
        write_file(&mut tree, &file, Mode::Fresh, name)?;
    }
    let names = tree.list(&dir)?;
    assert_eq!(rt; names.len(), 3);
    for name in [b".h".as_slice(), b"a b", b"\xc3\xa9"] {
        assert!(rt; names.iter().any(|one| one.as_slice() == name), "{name:?}");
    }
    fs::remove_dir_all(&rt, folder.as_str())?;
    Ok(())
}

/// The calls at this path that read fail, each counted.
fn is_not_read<R: Abort>(rt: &R, tree: &mut RealTree, path: &Path) {
    assert!(rt; matches!(tree.list(path), Err(WorldErr::Failed)));
    assert!(rt; matches!(tree.ends_line(path), Err(WorldErr::Failed)));
    assert!(rt; matches!(tree.open(path), Err(WorldErr::Failed)));
}

/// No file is made at this path.
fn is_not_made<R: Abort>(rt: &R, tree: &mut RealTree, path: &Path) {
    assert!(rt; matches!(tree.create(path, Mode::Fresh), Err(WorldErr::Failed)));
    assert!(rt; matches!(tree.create(path, Mode::Append), Err(WorldErr::Failed)));
}

/// A name that isn't UTF-8, a path through a file, a file that is missing, and a folder that is to be written.
#[test]
fn what_the_machine_refuses_is_a_failure(rt: HostRuntime) -> Result<(), Fail> {
    let folder = new_folder(&rt, "refused")?;
    let mut tree = real_tree(&rt)?;
    let bytes = path_in(&rt, folder.as_str(), b"\xff")?;
    assert!(rt; matches!(tree.kind(&bytes), Err(WorldErr::Failed)));
    is_not_read(&rt, &mut tree, &bytes);
    is_not_made(&rt, &mut tree, &bytes);
    let file = path_in(&rt, folder.as_str(), b"f")?;
    write_file(&mut tree, &file, Mode::Fresh, b"1")?;
    assert!(rt; matches!(tree.list(&file), Err(WorldErr::Failed)));
    let through = path_in(&rt, folder.as_str(), b"f/x")?;
    assert!(rt; matches!(tree.kind(&through), Err(WorldErr::Failed)));
    is_not_read(&rt, &mut tree, &through);
    is_not_made(&rt, &mut tree, &through);
    let missing = path_in(&rt, folder.as_str(), b"g")?;
    is_not_read(&rt, &mut tree, &missing);
    let dir = path_in(&rt, folder.as_str(), b"d")?;
    fs::create_dir(&rt, spelled(&rt, &dir)?.as_str())?;
    is_not_made(&rt, &mut tree, &dir);
    fs::remove_dir_all(&rt, folder.as_str())?;
    Ok(())
}

/// A device that is always full takes nothing, where the machine has one.
#[test]
fn a_full_device_takes_nothing(rt: HostRuntime) -> Result<(), Fail> {
    let mut tree = real_tree(&rt)?;
    let device = path_in(&rt, "/dev", b"full")?;
    if tree.kind(&device)? == Kind::File {
        assert_eq!(rt; tree.ends_line(&device)?, false);
        let written = write_file(&mut tree, &device, Mode::Append, b"1");
        assert_eq!(rt; written, Err(WorldErr::Failed));
    }
    Ok(())
}
