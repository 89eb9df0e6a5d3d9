//! Redirections whose words are expanded.
use ps_lines::Text;
use sh_tree::How;

/// A redirection (XCU 2.7) whose word is expanded.
#[derive(Debug, Drop)]
pub struct Target {
    /// The descriptor that is redirected.
    pub number: u8,
    /// How.
    pub how: How,
    /// The path of the file, as written, or with `Copy` the descriptor that is copied.
    pub text: Text,
}
