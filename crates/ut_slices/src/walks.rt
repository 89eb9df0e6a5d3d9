//! How far rows of lines side by side are written.
ghost use Rattle.std.specs.Prelude.{◌≡◌, ◌∷◌, [], take, None, true};

use crate::waits::Port;

/// What rows are made of.
#[derive(Drop)]
pub struct Plan {
    /// What stands before the columns: nothing before the first, and then the delimiters, in a cycle that leaves the first out.
    pub(crate) delimiters: Vec<Option<u8>>,
    /// The port of each column.
    pub(crate) columns: Vec<u32>,
    ghost first: { take 1 delimiters.items ≡ None ∷ [] },
}

/// How far the rows are written.
#[derive(Drop)]
pub struct Walk {
    pub(crate) ports: Vec<Port>,
    /// The column whose line is next, or is being written.
    pub(crate) column: usize,
    /// The place of the delimiter before it.
    pub(crate) delimiter: usize,
    /// The delimiters before columns that had no line: they are written once some column of the row has one.
    pub(crate) front: Vec<u8>,
    /// Whether some column of the row has had a line.
    pub(crate) begun: bool,
    /// Whether the beginning of the column's line is written.
    pub(crate) within: bool,
    ghost opened: { within ≡ true → begun ≡ true },
}
