//! How invocations may be run in parallel.
/// How the output for a text comes from those for its parts (PaSh's classes of commands).
#[derive(Clone, Copy, Debug, PartialEq, Eq)]
pub enum Class {
    /// Stateless: the outputs for the parts, joined, where the text is cut so.
    S(Seam),
    /// Parallelizable: a map of each part, an aggregator that joins the maps of neighbours, and in some a finish.
    P,
    /// Not parallelizable: it has to see its inputs whole.
    N,
    /// Side-effectful: it does more than write its output.
    E,
}

/// Where the input of a stateless command may be cut.
#[derive(Clone, Copy, Debug, PartialEq, Eq)]
pub enum Seam {
    /// Between any two bytes.
    Bytes,
    /// At the ends of lines.
    Lines,
}
