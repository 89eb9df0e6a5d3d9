//! What nodes do.
use ps_lines::Text;
use ps_world::{Mode, Path};
use ut_args::Inv;

/// What a node does with the texts of its ins, and which texts its outs have.
///
/// A source has no ins, and a sink no outs. Every other node but a split has one out.
#[derive(Debug, Drop)]
pub enum NodeKind {
    /// A source: the bytes of standard input or of a file. No ins and one out.
    Source(From),
    /// This text. No ins and one out.
    Text(Text),
    /// A split: its input in as many parts as it has outs, each cut at the end of a line. One in, and one or more outs.
    Split,
    /// A map: what the invocation makes of one part of its input. One in and one out.
    Map(Inv),
    /// A stage whole: the invocation's output for all its inputs. As many ins as it reads, and one out.
    Whole(Inv),
    /// Its inputs joined in order; where it closes, each of them but the last gets a newline at its end if it lacks one. One or more ins,
    /// and one out.
    Cat { close: bool },
    /// An aggregate: the maps of neighbouring parts made into the map of the parts joined. Two or more ins, in order, and one out.
    Agg(Inv),
    /// A finish: the output of the invocation from the map of its whole input. One in and one out.
    Finish(Inv),
    /// Its input handed on, and written to a file too. One in and one out.
    TeeFile(Path, Mode),
    /// Takes its input and does nothing with it. One in and no outs.
    Drain,
    /// A sink: its input is written to standard output or to a file. One in and no outs.
    Sink(To),
}

/// Where a source has its bytes from.
#[derive(Debug, Drop)]
pub enum From {
    /// Standard input.
    Input,
    /// A file.
    File(Path),
}

/// Where a sink writes its bytes to.
#[derive(Debug, Drop)]
pub enum To {
    /// Standard output.
    Output,
    /// A file.
    File(Path, Mode),
}
