//! What waits at one port of a utility that reads several inputs at once.
ghost use Rattle.std.specs.Prelude.{◌≤◌, vec_len};

/// One port.
#[derive(Drop)]
pub struct Port {
    /// The last piece that came.
    pub(crate) held: Vec<u8>,
    /// How many of its bytes were passed on.
    pub(crate) passed: usize,
    pub(crate) has_ended: bool,
    ghost within: { passed ≤ vec_len held },
}
