//! A command, as it was read.
ghost use Rattle.std.specs.Prelude.{◌≤◌};
ghost use Rattle.pash.specs.declared.command.TheConstants.{MOST_WIDTH};

/// The largest width.
pub const MOST_WIDTH: u32 = 16;

/// The most lines of a text that a seed gives.
pub const MOST_LINES: u32 = 1_000_000;

/// What the words of the command line ask for.
#[derive(Drop)]
pub enum Command<'a> {
    /// Runs a script: `run W SCRIPT ARG*`.
    Run(RunCommand<'a>),
    /// Runs the graph whose text stands in the file at this path, as it was given: `exec GRAPH`.
    Exec(&'a [u8]),
    /// Writes the text that a seed gives: `gen SEED LINES`.
    Gen(Sample),
    /// Runs the trial's script over this text, as a script of this name, at this width: `trial SEED LINES W`.
    Trial(Sample, RunCommand<'a>),
}

/// A command to run a script at a width.
#[derive(Drop)]
pub struct RunCommand<'a> {
    /// Over how many parts utilities are spread whose input may be cut, 1 to 16.
    pub width: u32,
    /// The script's path, as it was given.
    pub script: &'a [u8],
    /// The script's arguments, `$1` first.
    pub arguments: &'a [String],
    ghost spread: { (1 ≤ width) × (width ≤ MOST_WIDTH) },
}

/// A text that a seed gives (`samples`).
#[derive(Clone, Copy, Debug, Drop)]
pub struct Sample {
    pub seed: u32,
    /// How many lines it has.
    pub lines: u32,
}
