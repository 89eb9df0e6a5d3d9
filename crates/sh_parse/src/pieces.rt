//! Where the pieces of a command stand, and what a word is there.
ghost use Rattle.std.specs.Prelude.{◌≡◌};
ghost use Rattle.sh_parse.specs.Places.{used, redirects, is_name};

use crate::items::{Reserved, WordKind};

/// Where a piece of a command may stand.
#[derive(Clone, Copy, Debug, PartialEq, Eq)]
pub enum Slot {
    /// Where a command begins.
    First,
    /// Before the name of a simple command.
    BeforeName,
    /// Behind its name.
    BehindName,
    /// Behind a compound command.
    Tail,
    /// Behind the `in` of a `for`.
    Loop,
}

/// What a word is at a place.
#[derive(Clone, Copy, Debug, PartialEq, Eq)]
pub enum Use {
    /// An assignment.
    Assigned,
    /// A command's name, an argument or a word of a `for`. The next piece stands at this place.
    Given(Slot),
    /// No piece.
    Unused,
}

/// What a word is at a place: a command's first word isn't reserved, and assignments stand before the name alone.
pub fn used(place: Slot, kind: WordKind) -> Use
    ensures { result ≡ used place kind }
{
    match place {
        Slot::First => match kind {
            WordKind::Reserved(_) => Use::Unused,
            WordKind::Assign => Use::Assigned,
            _ => Use::Given(Slot::BehindName),
        },
        Slot::BeforeName => match kind {
            WordKind::Assign => Use::Assigned,
            _ => Use::Given(Slot::BehindName),
        },
        Slot::BehindName => Use::Given(Slot::BehindName),
        Slot::Tail => Use::Unused,
        Slot::Loop => Use::Given(Slot::Loop),
    }
}

/// The place behind a redirection, where one may stand.
pub fn redirects(place: Slot) -> Option<Slot>
    ensures { result ≡ redirects place }
{
    match place {
        Slot::First | Slot::BeforeName => Some(Slot::BeforeName),
        Slot::BehindName => Some(Slot::BehindName),
        Slot::Tail => Some(Slot::Tail),
        Slot::Loop => None,
    }
}

/// Whether a word may name a variable (XBD 3.216).
pub fn is_name(kind: WordKind) -> bool
    ensures { result ≡ is_name kind }
{
    match kind {
        WordKind::Reserved(Reserved::Bang | Reserved::OpenBrace | Reserved::CloseBrace) => false,
        WordKind::Reserved(_) | WordKind::In | WordKind::Name => true,
        WordKind::Assign | WordKind::Other => false,
    }
}
