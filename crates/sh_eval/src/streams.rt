//! Where a shell's descriptors lead.
use crate::rests::Rest;
use ps_lines::Memory;
use ps_world::Path;
use std::alloc::Global;
use std::marker::Model;

/// What descriptor 0 reads.
#[derive(Debug, Drop)]
pub enum From {
    /// The standard input of the run.
    Standard,
    /// What is left of a text: a file's, or that of the stage before.
    Kept(Rest),
}

/// Where what is written to a descriptor goes (XCU 2.7).
#[derive(Debug, Drop)]
pub enum To {
    /// The standard output of the run.
    Output,
    /// The standard error of the run.
    Errors,
    /// The pipe of this number, from the outermost, which takes in the text for a next stage or a substitution.
    Pipe(u64),
    /// The end of a file.
    File(Path),
    /// `/dev/null`.
    Null,
}

/// A path that an enclosing redirection reads, or writes.
#[derive(Debug, Drop)]
pub struct Held {
    pub path: Path,
    pub writes: bool,
}

/// The paths that enclosing redirections hold. Contracts see their list.
#[derive(Debug, Drop)]
pub struct HeldPaths {
    paths: Vec<Held>,
}

impl Model for HeldPaths {
    ghost use Rattle.std.specs.Prelude.{List};
    ghost use Rattle.sh_eval.specs.declared.streams.Held.{Held as HeldPath};

    ghost Value = { List HeldPath };

    ghost view = { λ held. held.paths.items };
}

/// Where the three descriptors lead, and the paths that enclosing redirections hold.
#[derive(Debug, Drop)]
pub struct Streams {
    pub from: From,
    pub to: To,
    pub errors_to: To,
    pub held: HeldPaths,
}

impl To {
    ghost use Rattle.std.specs.Prelude.{◌≡◌, IfOk};

    /// The same place.
    pub(crate) fn copy(&self) -> Result<To, Memory>
        ensures { IfOk result (λ place. place ≡ self.now) }
    {
        match self {
            To::Output => Ok(To::Output),
            To::Errors => Ok(To::Errors),
            To::Pipe(number) => Ok(To::Pipe(*number)),
            To::File(path) => Ok(To::File(path.copy()?)),
            To::Null => Ok(To::Null),
        }
    }
}

impl HeldPaths {
    ghost use Rattle.std.specs.Prelude.{◌≡◌, [], ◌∷◌, ◌++◌, IfOk, OnOk};

    /// No path is held.
    pub(crate) fn new(alloc: Global) -> HeldPaths
        ensures { result ≡ [] }
    {
        HeldPaths {
            paths: Vec::new(alloc),
        }
    }

    /// The same paths.
    pub(crate) fn copy(&self, alloc: Global) -> Result<HeldPaths, Memory>
        ensures { IfOk result (λ held. held ≡ self.now) }
    {
        let mut paths = Vec::new(alloc);
        for held in &self.paths {
            paths.push(Held {
                path: held.path.copy()?,
                writes: held.writes,
            })?;
        }
        Ok(HeldPaths { paths })
    }

    /// Holds a path more.
    pub(crate) fn push(&mut self, path: &Path, writes: bool) -> Result<(), Memory>
        ensures { OnOk result (self.new ≡ self.old ++ record { path = path.now; writes = writes } ∷ []) }
    {
        let path = path.copy()?;
        self.paths.push(Held { path, writes })?;
        Ok(())
    }

    /// The paths.
    pub(crate) fn as_slice(&self) -> &[Held]
        ensures { result.now ≡ self.now }
    {
        self.paths.as_slice()
    }
}
