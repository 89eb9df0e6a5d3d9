//! The matcher.
ghost use Rattle.std.specs.Prelude.{◌<◌, ◌≤◌, true, length, IfOk, IfSome, MatchOption};
ghost use Rattle.memchr.specs.Find.{Nowhere};
ghost use Rattle.std.specs.Prelude.{◌≡◌, ℕ, List};
ghost use Rattle.ut_regex.specs.Answers.{answers, is_had};
ghost use Rattle.ut_regex.specs.Finds.{Finds};
ghost use Rattle.ut_regex.specs.Inner.Caches.{Serves};
ghost use Rattle.ut_regex.specs.declared.machine.Machine.{Machine};
ghost use Rattle.ut_regex.specs.Inner.Searches.{IsSoughtAt};
ghost use Rattle.ut_regex.specs.Several.{any_of, trees_of};
ghost use Rattle.ut_regex.specs.Tree.{tree};

use crate::cache::Cache;
use crate::cuts::{Cut, cut_around};
use crate::expansion::{program_of, program_of_any};
use crate::finder::Matcher;
use crate::literals::{required_of, required_of_any};
use crate::machine::Machine;
use crate::search::Search;
use crate::table::Table;
use crate::tree::Regex;
use ps_lines::Memory;
use std::alloc::{AllocError, Global};

/// A matcher for an expression: with `fold` letters are compared in both cases, and with `whole` the expression has to be
/// the whole line.
pub fn compile(alloc: Global, re: &Regex, fold: bool, whole: bool) -> Result<Matcher, Memory>
    ensures finds { IfOk result (λ matcher. Finds matcher fold whole (tree re.now)) }
    ensures answers { IfOk result (λ matcher. (line : List ℕ) → answers matcher line ≡ is_had fold whole (tree re.now) line) }
{
    let steps = program_of(alloc, &re.nodes)?;
    let mut machine = Machine::running(alloc, steps, fold, whole)?;
    let table = Table::of(alloc, &mut machine)?;
    let cache = cache_beside(alloc, &table, machine.steps.len())?;
    let required = required_of(alloc, &re.nodes)?;
    let literal = Search::of(alloc, required, fold)?;
    Ok(Matcher {
        machine,
        table,
        cache,
        literal,
    })
}

/// A matcher for lines that have one of several expressions.
///
/// They are sought together, as the sides of one alternative. Without an expression no line has one.
pub fn compile_any(
    alloc: Global,
    expressions: &[Regex],
    fold: bool,
    whole: bool,
) -> Result<Matcher, Memory>
    ensures finds { IfOk result (λ matcher. Finds matcher fold whole (any_of (trees_of expressions.now))) }
    ensures answers { IfOk result (λ matcher. (line : List ℕ) → answers matcher line ≡ is_had fold whole (any_of (trees_of expressions.now)) line) }
{
    if let [re] = expressions {
        return compile(alloc, re, fold, whole);
    }
    let steps = program_of_any(alloc, expressions)?;
    let mut machine = Machine::running(alloc, steps, fold, whole)?;
    let table = Table::of(alloc, &mut machine)?;
    let cache = cache_beside(alloc, &table, machine.steps.len())?;
    let required = required_of_any(alloc, expressions)?;
    let literal = Search::of(alloc, required, fold)?;
    Ok(Matcher {
        machine,
        table,
        cache,
        literal,
    })
}

/// A table to be filled, where there is no whole one.
fn cache_beside(
    alloc: Global,
    table: &Option<Table>,
    steps: usize,
) -> Result<Option<Cache>, AllocError>
    ensures { IfOk result (λ made. (machine : Machine) → IfSome made (λ cache. Serves machine cache)) }
{
    match table {
        Some(_) => Ok(None),
        None => Ok(Some(Cache::of(alloc, steps)?)),
    }
}

/// Whether the line is known to lack what is searched for.
fn lacks(literal: &Option<Search>, line: &[u8]) -> bool
    ensures { result ≡ true → MatchOption literal.now ⊥ (λ search. Nowhere (IsSoughtAt search line.now) 0 (length line.now)) }
{
    match literal {
        Some(search) => search.first_place(line) == line.len(),
        None => false,
    }
}

/// How many failures a search for the literal may have beside one for each stretch of so many bytes.
const SPARE_FAILURES: usize = 16;

/// The bytes in which one failure of a search for the literal costs no more than the table.
const FAILURE_STRETCH: usize = 128;

impl Matcher {
    ghost use Rattle.std.specs.Prelude.{◌↔◌, Bool, false, IsTrue, IfNone};
    ghost use Rattle.std.specs.List.{list_any};
    ghost use Rattle.ps_lines.specs.Lines.{is_closed, lines};
    ghost use Rattle.ut_regex.specs.Answers.{answers};
    ghost use Rattle.ut_regex.specs.Finds.{Finds, Stays};
    ghost use Rattle.ut_regex.specs.Having.{CutsOut, IsFirst, Lack};
    ghost use Rattle.ut_regex.specs.Inner.Passed.{IsPassed};
    ghost use Rattle.ut_regex.specs.Spans.{Has};
    ghost use Rattle.ut_regex.specs.Tree.{Tree};

    /// Whether the line has the expression. It takes no memory, and ends at the first place where the answer is known.
    #[tactic(auto, using(crate::proofs::AnswerLemmas::kept))]
    pub fn has(&mut self, line: &[u8]) -> bool
        ensures has { (fold whole : Bool) (re : Tree) → Finds self.old fold whole re → (IsTrue result ↔ Has fold whole line.now re) }
        ensures answer { result ≡ answers self.old line.now }
        ensures stays { Stays self.old self.new }
        ensures same { (line : List ℕ) → answers self.new line ≡ answers self.old line }
    {
        if lacks(&self.literal, line) {
            return false;
        }
        self.runs_over(line)
    }

    /// Whether the line has the expression, with no look for its literal.
    fn runs_over(&mut self, line: &[u8]) -> bool
        ensures has { (fold whole : Bool) (re : Tree) → Finds self.old fold whole re → (IsTrue result ↔ Has fold whole line.now re) }
        ensures stays { Stays self.old self.new }
    {
        match &self.table {
            Some(table) => table.has(line),
            None => match self.told_by_cache(line) {
                Some(has) => has,
                None => self.machine.has(line),
            },
        }
    }

    /// Whether the line has the expression, where the table that is filled tells it.
    fn told_by_cache(&mut self, line: &[u8]) -> Option<bool>
        ensures has { IfSome result (λ has. has ≡ answers self.old line.now) }
        ensures stays { Stays self.old self.new }
    {
        match &mut self.cache {
            Some(cache) => cache.has(&mut self.machine, line),
            None => None,
        }
    }

    /// The first line of a closed text that has the expression. It takes no memory.
    #[tactic(auto, using(crate::proofs::AnswerLemmas::kept))]
    pub fn first_having<'t>(&mut self, text: &'t [u8]) -> Option<Cut<'t>>
        requires closed { is_closed text.now ≡ true }
        ensures found { (fold whole : Bool) (re : Tree) → Finds self.old fold whole re
            → IfSome result (λ cut. IsFirst (λ line. Has fold whole line re) text.now cut.before.now cut.line.now cut.rest.now) }
        ensures none { (fold whole : Bool) (re : Tree) → Finds self.old fold whole re → IfNone result (Lack fold whole re (lines text.now)) }
        ensures first { IfSome result (λ cut. IsFirst (λ line. answers self.old line ≡ true) text.now cut.before.now cut.line.now cut.rest.now) }
        ensures no_line { IfNone result (list_any (answers self.old) (lines text.now) ≡ false) }
        ensures shorter { IfSome result (λ cut. length cut.rest.now < length text.now) }
        ensures rest { IfSome result (λ cut. is_closed cut.rest.now ≡ true) }
        ensures stays { Stays self.old self.new }
        ensures same { (line : List ℕ) → answers self.new line ≡ answers self.old line }
    {
        let mut from = 0;
        let mut failures = 0;
        loop {
            let left = &text[from..];
            let place = self.passed(left, failures <= from / FAILURE_STRETCH + SPARE_FAILURES);
            let Some(cut) = cut_around(left, place) else {
                return None;
            };
            if self.runs_over(cut.line) {
                return Some(Cut {
                    before: &text[..from + cut.before.len()],
                    line: cut.line,
                    rest: cut.rest,
                });
            }
            from = text.len() - cut.rest.len();
            failures += 1;
        }
    }

    /// A place of a closed text such that no line that ends before it has the expression, or the text's length where no line has it.
    fn passed(&mut self, text: &[u8], by_literal: bool) -> usize
        requires closed { is_closed text.now ≡ true }
        ensures within { result ≤ length text.now }
        ensures passed { (fold whole : Bool) (re : Tree) → Finds self.old fold whole re → IsPassed fold whole re text.now result }
        ensures stays { Stays self.old self.new }
    {
        match &self.literal {
            Some(search) if by_literal => search.first_place(text),
            Some(_) | None => match &self.table {
                Some(table) => match table.texts.left_at_found(text) {
                    Some(left) => text.len() - left,
                    None => text.len(),
                },
                None => self.passed_by_cache(text),
            },
        }
    }

    /// The same by the table that is filled.
    fn passed_by_cache(&mut self, text: &[u8]) -> usize
        ensures within { result ≤ length text.now }
        ensures passed { (fold whole : Bool) (re : Tree) → Finds self.old fold whole re → IsPassed fold whole re text.now result }
        ensures stays { Stays self.old self.new }
    {
        match &mut self.cache {
            Some(cache) => cache.passed(&mut self.machine, text),
            None => 0,
        }
    }
}
