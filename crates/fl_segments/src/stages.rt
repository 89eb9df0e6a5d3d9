//! Stages of a pipeline, behind all expansion.
use fl_graph::Seq;
use ps_lines::Text;
use ps_world::{Mode, Path};
use ut_args::Inv;

/// A stage of a pipeline that is a utility, behind all expansion: what it does, what it reads, and where its output goes.
#[derive(Debug, Drop)]
pub struct Stage {
    /// What it does.
    pub does: Does,
    /// Its inputs, in the order of its operands.
    pub ins: Seq<In>,
    /// Where its output goes.
    pub out: Out,
    /// What goes there before it: diagnostics that go where the output goes.
    pub first: Text,
    /// What goes on to the next stage, or from the last one to the output, where the output itself goes elsewhere; empty where it doesn't.
    pub piped: Text,
    /// Its exit status, where no line that grep selects changes it.
    pub status: u8,
    /// The paths of the files that count as read.
    pub reads: Seq<Path>,
    /// The paths of the files that count as written.
    pub writes: Seq<Path>,
    /// The files that tee writes, in the order of its operands; none for any other utility.
    pub tees: Seq<Path>,
}

/// What a stage does.
#[derive(Debug, Drop)]
pub enum Does {
    /// It runs this invocation. In its words an operand that can't be read is the empty text.
    Util(Inv),
    /// It does nothing: its command is kept from running.
    Skip,
}

/// An input of a stage.
#[derive(Debug, Drop)]
pub enum In {
    /// The output of the stage before, or for the first one the segment's own input.
    Stream,
    /// A file, and whether it is known to be closed: empty, or with a newline at its end.
    File(Path, bool),
    /// No bytes, as `/dev/null` gives.
    Empty,
}

/// Where the output of a stage goes.
#[derive(Debug, Drop)]
pub enum Out {
    /// To the next stage, or from the last one to the output.
    Next,
    /// To a file.
    File(Path, Mode),
    /// Nowhere, as to `/dev/null`.
    Null,
}

/// What a segment begins with.
#[derive(Debug, Drop)]
pub enum First {
    /// The shell's input.
    Input,
    /// This text.
    Text(Text),
}
