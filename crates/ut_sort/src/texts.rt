//! What is held of the text at one port of a merge.
ghost use Rattle.std.specs.Prelude.{◌≡◌, ◌≤◌, drop, false, true, vec_len};
ghost use Rattle.ps_lines.specs.Lines.{is_closed};

/// The text at one port of a merge. One that has ended is closed.
#[derive(Drop)]
pub struct Side {
    pub(crate) text: Vec<u8>,
    /// Where what is left of it begins.
    pub(crate) at: usize,
    /// Whether more of it may come.
    pub(crate) is_open: bool,
    ghost within: { at ≤ vec_len text },
    ghost closed: { is_open ≡ false → is_closed (drop at text.items) ≡ true },
}
