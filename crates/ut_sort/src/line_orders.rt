//! The order of lines that is kept for one invocation.
ghost use Rattle.std.specs.Prelude.{◌≡◌};
ghost use Rattle.ut_sort.specs.Prefixes.{begins_whole, first_letters};

use ut_args::{Key, Ordering as Letters};

/// The order of the lines of one invocation, which is read from it once.
#[derive(Drop)]
pub(crate) struct LineOrder {
    /// The keys with the letters that count for them; one at least.
    pub(crate) keys: Vec<Key>,
    pub(crate) separator: Option<u8>,
    /// Equal lines are one, and what no key tells apart is equal.
    pub(crate) unique: bool,
    pub(crate) reverse: bool,
    /// The letters of the first key.
    pub(crate) letters: Letters,
    /// The first key is the line as it stands.
    pub(crate) whole: bool,
    ghost known_letters: { letters ≡ first_letters keys.items },
    ghost known_whole: { whole ≡ begins_whole keys.items },
}
