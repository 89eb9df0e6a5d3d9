//! The selected places of a line.
ghost use Rattle.std.specs.Prelude.{◌<◌};

/// Neighbouring places, all selected or none.
#[derive(Clone, Copy)]
pub struct Run {
    pub selected: bool,
    /// How many they are.
    pub count: u64,
    ghost some: { 0 < count },
}

/// The places of a line in runs, from its beginning on.
#[derive(Drop)]
pub struct Runs {
    pub runs: Vec<Run>,
    /// Whether the places behind the runs are selected.
    pub rest: bool,
}
