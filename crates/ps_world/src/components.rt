//! A path's components, as they stand in its text.
ghost use Rattle.std.specs.Prelude.{◌≡◌, ◌<◌, length, position, IfSome, IfNone};
ghost use Rattle.ps_world.specs.Paths.{is_slash, stays, goes_up, is_name};
ghost use Rattle.ps_world.specs.Places.{IsLastComponent, BeginsWithComponent};

const CURRENT: &[u8] = b".";

const PARENT: &[u8] = b"..";

/// The first component of a text and what comes after its slash; None where no slash is left.
pub fn split_component(text: &[u8]) -> Option<(&[u8], &[u8])>
    ensures last { IfNone result (IsLastComponent text.now) }
    ensures first { IfSome result (λ parts. BeginsWithComponent text.now parts.0.now parts.1.now) }
{
    match first_slash(text) {
        Some(end) => Some((&text[..end], &text[end + 1..])),
        None => None,
    }
}

/// The place of the first slash.
fn first_slash(text: &[u8]) -> Option<usize>
    ensures value { result ≡ position is_slash text.now }
    ensures within { IfSome result (λ place. place < length text.now) }
{
    text.iter().position(|byte| *byte == b'/')
}

/// Whether a component leaves the directory as it is: `.`, and the empty one.
#[tactic(auto, unfolding(crate::specs::Paths::stays))]
pub fn is_staying(component: &[u8]) -> bool
    ensures { result ≡ stays component.now }
{
    component.is_empty() || component == CURRENT
}

/// Whether a component leads to the parent: `..`.
#[tactic(auto, unfolding(crate::specs::Paths::goes_up))]
pub fn is_going_up(component: &[u8]) -> bool
    ensures { result ≡ goes_up component.now }
{
    component == PARENT
}

/// Whether a component is a name that may stand in a directory.
pub fn is_plain_name(component: &[u8]) -> bool
    ensures { result ≡ is_name component.now }
{
    !is_staying(component) && !is_going_up(component) && !component.contains(&b'/')
}
