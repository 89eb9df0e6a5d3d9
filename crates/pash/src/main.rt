//! `pash` runs a shell script, whose utilities are dataflow graphs, and leaves what the script means, byte for byte; or a printed graph.
//!
//! The nodes of a graph run on threads, where two of them have work of their own (`fl_engines`). `top::pash` is the call that this program
//! makes, over the machine's files and streams, and its contract says what every run leaves: `specs/Starts.antt` is what the words of the
//! command line come to, `specs/Meaning.antt` the meaning of a command, by that of a script (`sh_eval/specs/Meaning.antt`) or of a graph, and
//! `specs/Runs.antt` how output, errors, files and answer are tied to it.
#![tactic(auto)]

mod answers;
mod command;
mod graphs;
mod lines;
mod reading;
mod run;
mod samples;
mod starts;
#[cfg(test)]
mod tests;
mod top;
mod words;

use fl_engines::OnThreads;
use ps_fakes::OpenGate;
use ps_real::{RealError, RealInput, RealOutput, RealTree};
use ps_world::Path;
use std::env;
use std::io::{self, ErrorKind};
use std::process::ExitCode;
use std::rt::Env;

/// Makes the machine's objects, does what the words ask for over them, and ends with the status.
fn main(rt: HostRuntime) -> io::Result<ExitCode> {
    let words = given_words(&rt)?;
    let home = working_directory(&rt)?;
    let input = RealInput::new(&rt);
    let out = RealOutput::new(&rt);
    let mut err = RealError::new(&rt);
    let alloc = rt.alloc();
    let threads = rt.clone()?;
    let mut tree = RealTree::new(rt, home);
    let mut engine = OnThreads::new(&threads, alloc);
    let end = top::pash(
        alloc,
        words.as_slice(),
        &mut tree,
        input,
        out,
        &mut err,
        &OpenGate,
        &mut engine,
    );
    Ok(ExitCode::from(end.status))
}

/// The words after the program's name; none, which is no command, where one isn't UTF-8.
fn given_words(rt: &(impl Env + AllocGlobal)) -> io::Result<Vec<String>> {
    match env::args(rt) {
        Ok(words) => Ok(words.skip(1).collect(rt.alloc())?),
        Err(error) if error.kind() == ErrorKind::OutOfMemory => Err(error),
        Err(_) => Ok(Vec::new(rt.alloc())),
    }
}

/// The machine's working directory.
fn working_directory(rt: &(impl Env + AllocGlobal)) -> io::Result<Path> {
    let place = env::current_dir(rt)?;
    match Path::read(rt.alloc(), place.as_str().as_bytes())? {
        Some(path) => Ok(path),
        None => Err(io::Error::from(ErrorKind::NotFound)),
    }
}
