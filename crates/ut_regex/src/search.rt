//! Searches for what every line with an expression has.
ghost use Rattle.std.specs.Prelude.{◌≡◌, ◌<◌, ◌≤◌, Bool, true, length, IfOk, IfSome};
ghost use Rattle.memchr.specs.Find.{Nowhere};
ghost use Rattle.ut_regex.specs.Inner.Fronts.{IsFront};
ghost use Rattle.ut_regex.specs.Inner.Literals.{IsLiteral, Requires};
ghost use Rattle.ut_regex.specs.Inner.Searches.{IsSoughtAt, Looks, tells};
ghost use Rattle.ut_regex.specs.Tree.{Tree};

use crate::folded::Folded;
use crate::front::Front;
use crate::front_search::FrontSearch;
use crate::literals::{Required, longer};
use memchr::memmem::Finder;
use std::alloc::{AllocError, Global};

/// A search for something that every line with an expression has.
#[derive(Drop)]
pub(crate) enum Search {
    /// For bytes as they are.
    Exact(Finder<'static>),
    /// For bytes with letters in either case.
    Folded(Folded),
    /// For what the expression begins with.
    Front(FrontSearch),
}

impl Search {
    /// A search for what is required of an expression: for bytes in a row, where there are any, and else for what it begins with.
    pub(crate) fn of(
        alloc: Global,
        required: Required,
        fold: bool,
    ) -> Result<Option<Search>, AllocError>
        ensures { IfOk result (λ made. IfSome made (λ search. (re : Tree) → Requires fold re required → Looks search fold re)) }
    {
        let front = required.front;
        let literal = longer(required.inner, required.suffix);
        if literal.is_empty() {
            return Ok(Search::of_front(front, fold));
        }
        Ok(Some(Search::of_literal(alloc, literal, fold)?))
    }

    /// A search for what an expression begins with.
    fn of_front(front: Front, fold: bool) -> Option<Search>
        ensures { IfSome result (λ search. (re : Tree) → IsFront fold re front → Looks search fold re) }
    {
        match FrontSearch::of(front, fold) {
            Some(search) => Some(Search::Front(search)),
            None => None,
        }
    }

    /// A search for these bytes.
    fn of_literal(alloc: Global, bytes: Vec<u8>, fold: bool) -> Result<Search, AllocError>
        requires { 0 < length bytes.items }
        ensures { IfOk result (λ search. (re : Tree) → IsLiteral fold re bytes.items → Looks search fold re) }
    {
        if fold {
            return Ok(Search::Folded(Folded::of(bytes)));
        }
        Ok(Search::Exact(Finder::new(&bytes).into_owned(alloc)?))
    }

    /// A place in the text before which what is searched for stands nowhere.
    pub(crate) fn first_place(&self, text: &[u8]) -> usize
        ensures within { result ≤ length text.now }
        ensures first { Nowhere (IsSoughtAt self.now text.now) 0 result }
        ensures stands { tells self.now ≡ true → result < length text.now → IsSoughtAt self.now text.now result }
    {
        match self {
            Search::Exact(finder) => match finder.find(text) {
                Some(place) => place,
                None => text.len(),
            },
            Search::Folded(folded) => folded.first_place(text),
            Search::Front(search) => search.first_place(text),
        }
    }
}
