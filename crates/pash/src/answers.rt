//! The answers of the top call, and why a run stops.
ghost use Rattle.std.specs.Prelude.{◌≡◌};
ghost use Rattle.pash.specs.Answers.{answer_of as answer_of_def, outcome_by, refusal_of as refusal_of_def, refusing};
ghost use Rattle.pash.specs.Runs.{stop_of_tree, stop_of_sink};

use fl_printed::Unfit;
use ps_lines::Text;
use ps_world::WorldErr;
use sh_eval::{Flow, Refusal};
use sh_lex::Static;

/// The refusal of a script whose text is refused so.
pub fn refusal_of(cause: Static) -> Refusal
    ensures { result ≡ refusal_of_def cause }
{
    match cause {
        Static::UnclosedQuote(offset) => Refusal::UnclosedQuote(offset),
        Static::UnclosedBrace(offset) => Refusal::UnclosedBrace(offset),
        Static::OutOfProfile(spelling, offset) => Refusal::OutOfProfile(spelling, offset),
        Static::ScriptTooLong => Refusal::ScriptTooLong,
        Static::BadSyntax => Refusal::BadSyntax,
        Static::TooDeep(offset) => Refusal::TooDeep(offset),
        Static::SubstitutionMix(offset) => Refusal::SubstitutionMix(offset),
        Static::ParameterForm(offset) => Refusal::ParameterForm(offset),
    }
}

/// How a command ended.
#[derive(Debug, PartialEq, Eq, Drop)]
pub enum Why {
    /// The script or the graph ran to its end; the status is its own.
    Finished,
    /// The script is not run, or not run further. Status 2.
    Refused(Refusal),
    /// The words are no command. Status 2.
    Usage,
    /// The path of the script or of the graph's text, as it was given, names no file. Status 2.
    NoScript(Text),
    /// The text of a graph is no JSON. Status 2.
    NotJson,
    /// It is JSON, but not that of a valid graph whose patterns can be read. Status 2.
    NotGraph,
    /// It is a JSON object of another version. Status 2.
    BadVersion,
    /// At this path, from the root, no file is that the graph reads, or none can be made that it writes. Status 2.
    NoFile(Text),
    /// The input failed in this call. Status 120.
    ReadFault,
    /// The output or the errors failed in this call. Status 121.
    WriteFault,
    /// The tree failed in this call. Status 122.
    TreeFault,
    /// Memory was wanted and refused. Status 123.
    Memory,
}

/// What the top call gives back: how it ended with which status, and the input and output that it was handed.
#[derive(Drop)]
pub struct End<I, O> {
    pub status: u8,
    pub why: Why,
    pub input: I,
    pub out: O,
}

/// The status of every answer but Finished, the faults and Memory.
pub const REFUSED: u8 = 2;

/// An answer with its status.
#[derive(Drop)]
pub struct Outcome {
    pub status: u8,
    pub why: Why,
}

/// The answer where nothing runs.
pub fn answered(why: Why) -> Outcome
    ensures { result ≡ refusing why }
{
    Outcome {
        status: REFUSED,
        why,
    }
}

/// The answer where a text isn't that of a graph that can run.
pub fn answer_of(cause: Unfit) -> Why
    ensures { result ≡ answer_of_def cause }
{
    match cause {
        Unfit::NotJson => Why::NotJson,
        Unfit::BadVersion => Why::BadVersion,
        Unfit::NotGraph => Why::NotGraph,
        Unfit::NoFile(path) => Why::NoFile(path),
    }
}

/// The answer of a script that is over, where `status` is `$?`.
pub fn ended(flow: Flow, status: u8) -> Outcome
    ensures { result ≡ outcome_by flow status }
{
    match flow {
        Flow::On | Flow::Break(_) | Flow::Continue(_) | Flow::Exit => Outcome {
            status,
            why: Why::Finished,
        },
        Flow::Refused(cause) => answered(Why::Refused(cause)),
    }
}

/// Why a run stops before its end.
#[derive(Clone, Copy, Debug, PartialEq, Eq)]
pub enum RunFault {
    /// The input failed.
    Read,
    /// The output or the errors failed.
    Write,
    /// The tree or one of its readers failed.
    Tree,
    /// Memory was wanted and refused.
    Memory,
}

impl RunFault {
    ghost use Rattle.std.specs.Prelude.{◌≡◌};
    ghost use Rattle.pash.specs.Answers.{fault_of, fault_status};

    /// The answer of a run that stopped so.
    pub fn why(self) -> Why
        ensures { result ≡ fault_of self }
    {
        match self {
            RunFault::Read => Why::ReadFault,
            RunFault::Write => Why::WriteFault,
            RunFault::Tree => Why::TreeFault,
            RunFault::Memory => Why::Memory,
        }
    }

    /// The status of a run that stopped so.
    pub fn status(self) -> u8
        ensures { result ≡ fault_status self }
    {
        match self {
            RunFault::Read => 120,
            RunFault::Write => 121,
            RunFault::Tree => 122,
            RunFault::Memory => 123,
        }
    }
}

/// Why a run stops where the tree, or a reader of it, gave this error.
pub fn of_tree(error: WorldErr) -> RunFault
    ensures { result ≡ stop_of_tree error }
{
    match error {
        WorldErr::Failed => RunFault::Tree,
        WorldErr::Memory => RunFault::Memory,
    }
}

/// Why a run stops where the output or the errors gave this error.
pub fn of_sink(error: WorldErr) -> RunFault
    ensures { result ≡ stop_of_sink error }
{
    match error {
        WorldErr::Failed => RunFault::Write,
        WorldErr::Memory => RunFault::Memory,
    }
}
