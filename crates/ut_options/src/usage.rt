//! Why words are no invocation of their command.

/// Why words are no invocation of their command.
#[derive(Clone, Copy, Debug, PartialEq, Eq)]
pub enum Usage {
    /// The command has no option of this letter. Of several it is the first from the left.
    UnsupportedFlag(u8),
    /// Every other fault.
    BadUsage,
}
