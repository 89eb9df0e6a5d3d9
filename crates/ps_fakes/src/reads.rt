//! How readers give their bytes.
ghost use Rattle.std.specs.Prelude.{◌≡◌};
ghost use Rattle.ps_fakes.specs.Reads.{reads_at as reads_at_def};

use ps_world::Path;

/// The most bytes that a reader gives a read, at least 1, and the read, counted from 0, that fails.
#[derive(Clone, Copy, Debug)]
pub struct Reads {
    pub most: usize,
    pub fail_at: Option<u64>,
}

/// How the readers of one path give their bytes.
#[derive(Debug, Drop)]
pub struct ReadPlan {
    pub path: Path,
    pub reads: Reads,
}

/// How the readers of a path give their bytes, by the first plan of it.
pub fn reads_at(plans: &[ReadPlan], path: &Path) -> Reads
    ensures { result ≡ reads_at_def plans.now path.now }
{
    let mut left = plans;
    while let [first, rest @ ..] = left {
        if *path == first.path {
            return first.reads;
        }
        left = rest;
    }
    Reads {
        most: usize::MAX,
        fail_at: None,
    }
}
