//! The machine's tree of files.
ghost use Rattle.std.specs.Prelude.{◌≡◌, ◌≤◌, None, IfOk, IfSome, IsTrue};
ghost use Rattle.std.specs.List.{list_all};
ghost use Rattle.ps_lines.specs.Texts.{texts_of};
ghost use Rattle.ps_world.specs.Counts.{Counts, one_more};
ghost use Rattle.ps_world.specs.Paths.{is_name as is_name_def};

use crate::names::is_name;
use crate::reading::Reading;
use crate::writing::Writing;
use ps_lines::is_closed;
use ps_world::{Kind, Mode, Path, Sink, Tree, WorldErr, read_all};
use std::fs::{self, DirEntry, File, OpenOptions, ReadDir};
use std::io::{self, ErrorKind, Seek, SeekFrom};

/// The machine's files, seen from a working directory.
///
/// A name that isn't UTF-8 is a counted fault, and so is every failure of the machine but that a file isn't there. A
/// file that is neither a regular one nor a directory counts as a file.
#[derive(Drop)]
pub struct RealTree {
    rt: HostRuntime,
    home: Path,
    faults: u64,
    lent: u64,
    back: u64,
    /// The path of the last writer that was lent to append, while it is out.
    appending: Option<Path>,
    kept: Option<Kept>,
}

/// A file that was appended to, and stays open until the tree is asked for something else: commands in a loop whose output goes to
/// one file append to it in turn.
#[derive(Drop)]
struct Kept {
    path: Path,
    writer: Writing<File>,
    ghost calm: { writer.faults ≡ 0 },
}

impl RealTree {
    /// The machine's files, with `home` as the working directory.
    pub fn new(rt: HostRuntime, home: Path) -> RealTree
        ensures home { result.home ≡ home }
        ensures counts { (result.faults ≡ 0) × (result.lent ≡ 0) × (result.back ≡ 0) }
    {
        RealTree {
            rt,
            home,
            faults: 0,
            lent: 0,
            back: 0,
            appending: None,
            kept: None,
        }
    }

    /// Closes the file that was kept open, if there is one.
    fn let_go(&mut self)
        ensures { self.new ≡ record self.old { kept = None } }
    {
        self.kept = None;
    }

    /// The file that was kept open, where it is the one to append to. It isn't kept then.
    fn kept_for(&mut self, path: &Path, mode: Mode) -> Option<Writing<File>>
        ensures calm { IfSome result (λ writer. writer.faults ≡ 0) }
        ensures kept { self.new ≡ record self.old { kept = None } }
    {
        match (mode, self.kept.take()) {
            (Mode::Append, Some(kept)) if kept.path == *path => Some(kept.writer),
            _ => None,
        }
    }

    /// Opens a file to write it.
    fn open_writer(&mut self, path: &Path, mode: Mode) -> Result<Writing<File>, WorldErr>
        ensures calm { IfOk result (λ writer. writer.faults ≡ 0) }
        ensures kept { self.new ≡ record self.old { faults = self.new.faults } }
        ensures cause { Counts self.old.faults self.new.faults result }
    {
        let name = self.name(path)?;
        let mut options = OpenOptions::new();
        options.create(true);
        match mode {
            Mode::Fresh => options.write(true).truncate(true),
            Mode::Append => options.append(true),
        };
        match options.open(&self.rt, name.as_str()) {
            Ok(file) => Ok(Writing::over(file)),
            Err(_) => Err(self.fail()),
        }
    }

    /// Keeps a writer open that was lent to append to this path.
    fn keep(&mut self, path: &Path, writer: Writing<File>)
        requires { writer.faults ≡ 0 }
        ensures { self.new ≡ record self.old { appending = self.new.appending; kept = self.new.kept } }
    {
        if let Some(own) = self.appending.take() {
            if own == *path {
                self.kept = Some(Kept { path: own, writer });
            }
        }
    }

    /// Counts a reader or writer that is lent.
    fn count_lent(&mut self)
        ensures { self.new ≡ record self.old { lent = one_more self.old.lent } }
    {
        self.lent = self.lent.saturating_add(1);
    }

    /// Counts a reader or writer that is given back.
    fn count_back(&mut self)
        ensures { self.new ≡ record self.old { back = one_more self.old.back } }
    {
        self.back = self.back.saturating_add(1);
    }

    /// The path's text, as the machine takes it. A name that isn't UTF-8 counts a failure.
    fn name(&mut self, path: &Path) -> Result<String, WorldErr>
        ensures kept { self.new ≡ record self.old { faults = self.new.faults } }
        ensures cause { Counts self.old.faults self.new.faults result }
    {
        let text = path.spell(self.rt.alloc())?;
        match String::from_utf8(text) {
            Ok(name) => Ok(name),
            Err(_) => Err(self.fail()),
        }
    }

    /// The names in a directory that was opened.
    fn names_of(&mut self, entries: ReadDir) -> Result<Vec<Vec<u8>>, WorldErr>
        ensures names { IfOk result (λ names. IsTrue (list_all is_name_def (texts_of names.items))) }
        ensures kept { self.new ≡ record self.old { faults = self.new.faults } }
        ensures cause { Counts self.old.faults self.new.faults result }
    {
        let mut names = Vec::new(self.rt.alloc());
        for entry in entries {
            let name = self.name_of(entry)?;
            names.push(name)?;
        }
        Ok(names)
    }

    /// The name of an entry of a directory. One that isn't UTF-8, which the machine's reader doesn't tell, counts a failure.
    fn name_of(&mut self, entry: io::Result<DirEntry>) -> Result<Vec<u8>, WorldErr>
        ensures name { IfOk result (λ name. IsTrue (is_name_def name.items)) }
        ensures kept { self.new ≡ record self.old { faults = self.new.faults } }
        ensures cause { Counts self.old.faults self.new.faults result }
    {
        match entry {
            Ok(entry) => {
                let name = Vec::from_slice(self.rt.alloc(), entry.file_name().as_bytes())?;
                if is_name(name.as_slice()) {
                    Ok(name)
                } else {
                    Err(self.fail())
                }
            }
            Err(error) => Err(self.refuse(&error)),
        }
    }

    /// What an error of the machine is: want of memory, or a failure, which is counted.
    fn refuse(&mut self, error: &io::Error) -> WorldErr
        ensures kept { self.new ≡ record self.old { faults = self.new.faults } }
        ensures later { self.old.faults ≤ self.new.faults }
        ensures failed { result ≡ WorldErr.Failed → self.new.faults ≡ one_more self.old.faults }
        ensures memory { result ≡ WorldErr.Memory → self.new.faults ≡ self.old.faults }
    {
        match error.kind() {
            ErrorKind::OutOfMemory => WorldErr::Memory,
            _ => self.fail(),
        }
    }

    /// Counts a failure.
    fn fail(&mut self) -> WorldErr
        ensures failed { result ≡ WorldErr.Failed }
        ensures counted { self.new ≡ record self.old { faults = one_more self.old.faults } }
        ensures later { self.old.faults ≤ self.new.faults }
    {
        self.faults = self.faults.saturating_add(1);
        WorldErr::Failed
    }
}

impl Tree for RealTree {
    ghost use Rattle.std.specs.Prelude.{None};

    type Reader = Reading<File>;

    type Writer = Writing<File>;

    ghost state = { λ tree. record { home = tree.home; held = None; lent = tree.lent; back = tree.back } };

    ghost faults = { λ tree. tree.faults };

    fn home(&self) -> &Path {
        &self.home
    }

    fn kind(&mut self, path: &Path) -> Result<Kind, WorldErr> {
        self.let_go();
        let name = self.name(path)?;
        match fs::metadata(&self.rt, name.as_str()) {
            Ok(found) if found.is_dir() => Ok(Kind::Dir),
            Ok(_) => Ok(Kind::File),
            Err(error) if error.kind() == ErrorKind::NotFound => Ok(Kind::Missing),
            Err(_) => Err(self.fail()),
        }
    }

    fn list(&mut self, dir: &Path) -> Result<Vec<Vec<u8>>, WorldErr> {
        self.let_go();
        let name = self.name(dir)?;
        match fs::read_dir(&self.rt, name.as_str()) {
            Ok(entries) => self.names_of(entries),
            Err(error) => Err(self.refuse(&error)),
        }
    }

    /// A file that isn't a regular one, as a pipe, isn't opened for this, and doesn't end in a newline that is known.
    fn ends_line(&mut self, path: &Path) -> Result<bool, WorldErr> {
        self.let_go();
        let name = self.name(path)?;
        let rest = match last_part(&self.rt, name.as_str()) {
            Ok(Some(rest)) => rest,
            Ok(None) => return Ok(false),
            Err(error) => return Err(self.refuse(&error)),
        };
        match read_all(self.rt.alloc(), &mut Reading::over(rest)) {
            Ok(rest) => Ok(is_closed(rest.as_slice())),
            Err(WorldErr::Failed) => Err(self.fail()),
            Err(WorldErr::Memory) => Err(WorldErr::Memory),
        }
    }

    fn open(&mut self, path: &Path) -> Result<Reading<File>, WorldErr> {
        self.let_go();
        let name = self.name(path)?;
        match File::open(&self.rt, name.as_str()) {
            Ok(file) => {
                self.count_lent();
                Ok(Reading::over(file))
            }
            Err(_) => Err(self.fail()),
        }
    }

    /// A file that is made has the mode 0666 without the bits of the process's mask, and Append is the system's.
    fn create(&mut self, path: &Path, mode: Mode) -> Result<Writing<File>, WorldErr> {
        let writer = match self.kept_for(path, mode) {
            Some(writer) => writer,
            None => self.open_writer(path, mode)?,
        };
        self.appending = match mode {
            Mode::Fresh => None,
            Mode::Append => path.copy().ok(),
        };
        self.count_lent();
        Ok(writer)
    }

    fn end_read(&mut self, _path: &Path, reader: Reading<File>) {
        self.count_back();
        if reader.has_failed() {
            self.fail();
        }
    }

    fn end_write(&mut self, path: &Path, writer: Writing<File>) -> Result<(), WorldErr> {
        self.count_back();
        let mut writer = writer;
        let flushed = writer.flush();
        if writer.has_failed() {
            self.fail();
        } else {
            self.keep(path, writer);
        }
        flushed
    }
}

/// A regular file from its last byte on, or from its beginning, where the machine tells no length; None where it isn't regular.
fn last_part(rt: &HostRuntime, name: &str) -> io::Result<Option<File>> {
    if !fs::metadata(rt, name)?.is_file() {
        return Ok(None);
    }
    let mut file = File::open(rt, name)?;
    let length = file.seek(SeekFrom::End(0))?;
    file.seek(SeekFrom::Start(length.saturating_sub(1)))?;
    Ok(Some(file))
}
