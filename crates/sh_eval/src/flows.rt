//! How a command goes on.
use crate::refusals::Refusal;

/// How a command goes on when it has ended.
#[derive(Debug, Drop)]
pub enum Flow {
    /// With the next command.
    On,
    /// Behind so many enclosing loops, 1 or more (XCU break).
    Break(u64),
    /// With the next round of the loop so many out, 1 or more (XCU continue).
    Continue(u64),
    /// Not at all: this shell ends (XCU exit).
    Exit,
    /// Not at all: the run ends.
    Refused(Refusal),
}
