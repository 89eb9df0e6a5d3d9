//! The members of a pipeline.
use crate::operands::Operand;
use ps_world::Path;
use ut_args::Inv;

/// A member of a pipeline: a utility, with what its operands name (`look_at`).
#[derive(Debug, Drop)]
pub struct Member {
    pub inv: Inv,
    pub operands: Vec<Operand>,
    /// The files that it writes: those of `tee`, which are there already. They get its input behind what they hold.
    pub tees: Vec<Path>,
}
