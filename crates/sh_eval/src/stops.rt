//! Why a redirection isn't done.
use ps_lines::Text;

/// Why a redirection isn't done (XCU 2.8.1).
#[derive(Debug, Drop)]
pub enum RedirectionError {
    /// This line tells why.
    Line(Text),
    /// The tree failed.
    Tree,
    /// Memory was wanted and refused.
    Memory,
}
