//! Names in the machine's directories.
ghost use Rattle.std.specs.Prelude.{◌≡◌};
ghost use Rattle.ps_world.specs.Paths.{is_name as is_name_def, stays};

/// Whether a text is a name that a path may have: not empty, not `.` or `..`, and without a slash.
#[tactic(auto, unfolding(ps_world::specs::Paths::stays, ps_world::specs::Paths::goes_up))]
pub fn is_name(text: &[u8]) -> bool
    ensures { result ≡ is_name_def text.now }
{
    !is_dot(text) && text != b"..".as_slice() && !text.contains(&b'/')
}

/// Whether a text is empty or `.`, which leave a directory as it is.
#[tactic(auto, unfolding(ps_world::specs::Paths::stays))]
fn is_dot(text: &[u8]) -> bool
    ensures { result ≡ stays text.now }
{
    text.is_empty() || text == b".".as_slice()
}
