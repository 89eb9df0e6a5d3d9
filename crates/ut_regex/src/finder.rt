//! What a matcher is made of.
ghost use Rattle.std.specs.Option.{ForSome};
ghost use Rattle.ut_regex.specs.Inner.Caches.{Serves};
ghost use Rattle.ut_regex.specs.Inner.Finders.{IsFinder};

use crate::cache::Cache;
use crate::machine::Machine;
use crate::search::Search;
use crate::table::Table;

/// Seeks one expression in lines. A line without the bytes that the expression needs or begins with lacks it. Of the others a table of the
/// machine's states answers where they are few, and else one that is filled with the states to which the lines lead; where that has no
/// more room, the machine itself.
#[derive(Drop)]
pub struct Matcher {
    pub(crate) machine: Machine,
    pub(crate) table: Option<Table>,
    pub(crate) cache: Option<Cache>,
    pub(crate) literal: Option<Search>,
    ghost serves: { ForSome cache (λ cache. Serves machine cache) },
    ghost made: { ∥ IsFinder machine table literal ∥₁ },
}
