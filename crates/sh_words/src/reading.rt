//! Words read into their parts.
ghost use Rattle.std.specs.Prelude.{◌≡◌, ◌-◌, ◌&&◌, None, Some, [], not, ℕ, List, IfOk, length, true};
ghost use Rattle.std.specs.Option.{option_map};
ghost use Rattle.sh_tree.specs.Trees as tree;
ghost use Rattle.sh_tree.specs.Views.{word_tree, part_tree, form_tree};
ghost use Rattle.sh_lex.specs.Heads.{trims};
ghost use Rattle.sh_words.specs.Parameters as form;
ghost use Rattle.sh_words.specs.Words.{made, Passes, in_commands, in_braces, behind_byte, ReadsPieces, ReadsExpansion, ReadsBehind, ReadsWord, assigned_name, ReadsAssign};
ghost use Rattle.sh_words.specs.Built.{outcome_of};
ghost use Rattle.sh_words.specs.Inner.Built.{trees_onto, open_in, is_found, done_of, made_of};

use crate::building::Building;
use crate::expansions::{Expansion, bare_form, find_expansion, form_with, name};
use crate::steps::{Mode, Owner, Step, next_step};
use crate::substitutions::Substitutions;
use ps_lines::{Memory, Text};
use sh_lex::{Class, Nest, Operator, Spot, behind_run, front, past_construct};
use sh_tree::{Form, Param, Part, Word};
use std::alloc::Global;

/// The levels of `${` with a word and of `$((` that may be open at once in a word. A `${` or `$((` that opens one more is told as
/// one without a form; what the tokens of a script allow has no more (own).
pub const MAX_LEVELS: u32 = 64;

/// A word that is read.
#[derive(Debug, Drop)]
pub struct ReadWord {
    /// The word. A `${` that has none of the forms of an expansion leaves no part in it.
    pub word: Word,
    /// How many command substitutions it has.
    pub subs: u32,
    /// The offset in bytes of the first `${` without a form; None: each has one.
    pub fault: Option<usize>,
}

/// The parts of a text up to the end of what it stands in.
#[derive(Drop)]
pub struct Reading<'a> {
    /// The parts.
    parts: Vec<Part>,
    /// How many bytes are left at the first `${` without a form.
    fault: Option<usize>,
    /// The number of the next command substitution.
    number: u32,
    /// What is left behind.
    rest: &'a [u8],
}

/// What an expansion gives.
#[derive(Drop)]
pub struct Made<'a> {
    /// The part; None: the expansion has no form.
    part: Option<Part>,
    /// How many bytes are left at the first `${` without a form.
    fault: Option<usize>,
    /// The number of the next command substitution.
    number: u32,
    /// What is left behind.
    rest: &'a [u8],
}

/// Reads a word. `first` is the number of its first command substitution.
///
/// Every list of bytes is read: what isn't closed ends with the text, and blanks and operators are bytes of the word. Memory is told
/// also where a command substitution would have no number below 2^32.
pub fn read_word(alloc: Global, bytes: &[u8], first: u32) -> Result<ReadWord, Memory>
    ensures { IfOk result (λ read. ReadsWord first bytes.now (outcome_of read)) }
{
    read_word_in(
        alloc,
        &Substitutions::none(alloc),
        bytes.len(),
        bytes,
        first,
    )
}

/// Reads a word of a text whose command substitutions are known, so that they aren't read again.
///
/// `end` is the offset in bytes at which the word ends in that text. Where it is another one, only the time is lost.
pub fn read_word_in(
    alloc: Global,
    among: &Substitutions<'_>,
    end: usize,
    bytes: &[u8],
    first: u32,
) -> Result<ReadWord, Memory>
    ensures { IfOk result (λ read. ReadsWord first bytes.now (outcome_of read)) }
{
    read_behind(alloc, Known { among, end }, bytes, bytes, first)
}

/// Reads an assignment `NAME=value` (XCU 2.9.1) into its name and the word of its value.
///
/// The name is the longest at the beginning, and the value is what stands behind the byte behind it, which is `=` in an assignment.
/// The offset of a fault counts from the first byte of the name.
pub fn read_assign(alloc: Global, bytes: &[u8], first: u32) -> Result<(Text, ReadWord), Memory>
    ensures name { IfOk result (λ read. read.0 ≡ assigned_name bytes.now) }
    ensures value { IfOk result (λ read. ReadsAssign first bytes.now (outcome_of read.1)) }
{
    read_assign_in(
        alloc,
        &Substitutions::none(alloc),
        bytes.len(),
        bytes,
        first,
    )
}

/// Reads an assignment of a text whose command substitutions are known, as `read_word_in` reads a word.
pub fn read_assign_in(
    alloc: Global,
    among: &Substitutions<'_>,
    end: usize,
    bytes: &[u8],
    first: u32,
) -> Result<(Text, ReadWord), Memory>
    ensures name { IfOk result (λ read. read.0 ≡ assigned_name bytes.now) }
    ensures value { IfOk result (λ read. ReadsAssign first bytes.now (outcome_of read.1)) }
{
    let name = name(alloc, bytes)?;
    let rest = behind_run(Class::Name, bytes);
    let value = read_behind(alloc, Known { among, end }, bytes, behind_byte(rest), first)?;
    Ok((name, value))
}

/// What is known of the text in which a word stands.
#[derive(Clone, Copy, Debug)]
struct Known<'a> {
    /// Its command substitutions.
    among: &'a Substitutions<'a>,
    /// The offset at which the word ends in it.
    end: usize,
}

/// What is left behind the first byte.
fn behind_byte(text: &[u8]) -> &[u8]
    ensures { result.now ≡ behind_byte text.now }
{
    match front(text) {
        Some((_, rest)) => rest,
        None => &[],
    }
}

/// Reads the word at the end of these bytes.
#[tactic(auto, using(crate::proofs::ReadLemmas::behind_read))]
fn read_behind(
    alloc: Global,
    known: Known<'_>,
    bytes: &[u8],
    text: &[u8],
    first: u32,
) -> Result<ReadWord, Memory>
    ensures { IfOk result (λ read. ReadsBehind first (length bytes.now) text.now (outcome_of read)) }
{
    let Reading {
        parts,
        fault,
        number,
        ..
    } = pieces(
        alloc,
        known,
        MAX_LEVELS,
        Mode::Word(Owner::Token),
        first,
        text,
    )?;
    Ok(ReadWord {
        word: word_of(parts),
        subs: number.saturating_sub(first),
        fault: offset(bytes.len(), fault),
    })
}

/// The offset in so many bytes of the place at which so many are left.
fn offset(total: usize, left: Option<usize>) -> Option<usize>
    ensures { result ≡ option_map (λ left. total - left) left }
{
    match left {
        Some(left) => Some(total.saturating_sub(left)),
        None => None,
    }
}

/// Reads the pieces of a text, with the number of its first command substitution; so many levels may still open.
#[cycle(words)]
fn pieces<'a>(
    alloc: Global,
    known: Known<'_>,
    most: u32,
    mode: Mode,
    number: u32,
    text: &'a [u8],
) -> Result<Reading<'a>, Memory>
    requires { open_in mode ≡ 0 }
    ensures { IfOk result (λ read. ReadsPieces most mode number text.now (done_of read)) }
{
    let mut building = Building::start(alloc);
    let mut fault = None;
    let mut at = mode;
    let mut next = number;
    let mut rest = text;
    loop {
        match next_step(at, rest) {
            Step::Ends(after) => {
                let parts = building.finish(alloc)?;
                return Ok(Reading {
                    parts,
                    fault,
                    number: next,
                    rest: after,
                });
            }
            Step::Passes(inside, after) => {
                at = inside;
                rest = after;
            }
            Step::Byte(quoted, byte, inside, after) => {
                building.push_byte(alloc, quoted, byte)?;
                at = inside;
                rest = after;
            }
            Step::Empty(inside, after) => {
                building.push_empty(alloc)?;
                at = inside;
                rest = after;
            }
            Step::Expands(quoted, left, after) => {
                let Made {
                    part,
                    fault: later,
                    number,
                    rest: behind,
                } = expanded(alloc, known, most, quoted, left, next, after)?;
                building.push_found(alloc, part)?;
                fault = fault.or(later);
                next = number;
                rest = behind;
            }
        }
    }
}

/// Reads an expansion at whose `$` so many bytes are left, by the text behind that.
#[cycle(words)]
fn expanded<'a>(
    alloc: Global,
    known: Known<'_>,
    most: u32,
    quoted: bool,
    left: usize,
    number: u32,
    text: &'a [u8],
) -> Result<Made<'a>, Memory>
    ensures read { IfOk result (λ found. ReadsExpansion most quoted left number text.now (made_of found)) }
    ensures part { IfOk result (λ found. is_found (option_map part_tree found.part) ≡ true) }
{
    match find_expansion(alloc, text)? {
        Expansion::Whole(what, measured, rest) => Ok(Made {
            part: Some(parameter_part(what, bare_form(measured), quoted)),
            fault: None,
            number,
            rest,
        }),
        Expansion::WithWord(what, operator, rest) => {
            with_word(
                alloc, known, most, quoted, left, number, what, operator, rest,
            )
        }
        Expansion::Commands(inner) => substitution(alloc, known, quoted, number, inner),
        Expansion::Arithmetic(inner) => {
            arithmetic(alloc, known, most, quoted, left, number, inner)
        }
        Expansion::NoForm => without_form(alloc, quoted, left, number, text),
    }
}

/// Reads the word of a `${ }`.
#[cycle(words)]
fn with_word<'a>(
    alloc: Global,
    known: Known<'_>,
    most: u32,
    quoted: bool,
    left: usize,
    number: u32,
    what: Param,
    operator: Operator,
    text: &'a [u8],
) -> Result<Made<'a>, Memory>
    ensures read { IfOk result (λ found. (whole : List ℕ) → form.expansion whole ≡ form.with_word what operator text.now
        → ReadsExpansion most quoted left number whole (made_of found)) }
    ensures part { IfOk result (λ found. is_found (option_map part_tree found.part) ≡ true) }
{
    if most == 0 {
        return Ok(no_part(left, number, &[]));
    }
    let owner = word_owner(quoted, operator);
    let Reading {
        parts,
        fault,
        number,
        rest,
    } = pieces(alloc, known, most - 1, Mode::Word(owner), number, text)?;
    Ok(Made {
        part: Some(parameter_part(what, form_with(operator, word_of(parts)), quoted)),
        fault,
        number,
        rest,
    })
}

/// What a `${` without a form gives, or what opens one level too many.
fn no_part(left: usize, number: u32, rest: &[u8]) -> Made<'_>
    ensures made { made_of result ≡ made None (Some left) number rest.now }
    ensures part { is_found (option_map part_tree result.part) ≡ true }
{
    Made {
        part: None,
        fault: Some(left),
        number,
        rest,
    }
}

/// The owner of the word of an expansion that is quoted or not: outer quotes don't quote a pattern that is removed (XCU 2.6.2).
fn word_owner(quoted: bool, operator: Operator) -> Owner
    ensures { result ≡ Owner.Braces (quoted && not (trims operator)) }
{
    Owner::Braces(quoted && !operator.trims())
}

/// The word of these parts.
#[tactic(auto, using(sh_tree::specs::declared::words::Form::the_lemmas))]
fn word_of(parts: Vec<Part>) -> Word
    ensures { word_tree result ≡ trees_onto parts.items tree.no_part }
{
    Word { parts }
}

/// A parameter expansion.
#[tactic(auto, using(sh_tree::specs::declared::words::Form::the_lemmas))]
fn parameter_part(what: Param, form: Form, quoted: bool) -> Part
    ensures { part_tree result ≡ tree.parameter what (form_tree form) quoted }
{
    Part::Param { what, form, quoted }
}

/// An arithmetic expansion.
#[tactic(auto, using(sh_tree::specs::declared::words::Form::the_lemmas))]
fn arithmetic_part(parts: Vec<Part>, quoted: bool) -> Part
    ensures { part_tree result ≡ tree.arithmetic (trees_onto parts.items tree.no_part) quoted }
{
    Part::Arith { parts, quoted }
}

/// Reads the text of a `$(( ))`.
#[cycle(words)]
fn arithmetic<'a>(
    alloc: Global,
    known: Known<'_>,
    most: u32,
    quoted: bool,
    left: usize,
    number: u32,
    text: &'a [u8],
) -> Result<Made<'a>, Memory>
    ensures read { IfOk result (λ found. (whole : List ℕ) → form.expansion whole ≡ form.arithmetic_text text.now
        → ReadsExpansion most quoted left number whole (made_of found)) }
    ensures part { IfOk result (λ found. is_found (option_map part_tree found.part) ≡ true) }
{
    if most == 0 {
        return Ok(no_part(left, number, &[]));
    }
    let Reading {
        parts,
        fault,
        number,
        rest,
    } = pieces(alloc, known, most - 1, Mode::Arithmetic(0), number, text)?;
    Ok(Made {
        part: Some(arithmetic_part(parts, quoted)),
        fault,
        number,
        rest,
    })
}

/// Passes over the tokens of a `$( )`.
fn substitution<'a>(
    alloc: Global,
    known: Known<'_>,
    quoted: bool,
    number: u32,
    text: &'a [u8],
) -> Result<Made<'a>, Memory>
    ensures read { IfOk result (λ found. (most left : ℕ) (whole : List ℕ) → form.expansion whole ≡ form.commands text.now
        → ReadsExpansion most quoted left number whole (made_of found)) }
    ensures part { IfOk result (λ found. is_found (option_map part_tree found.part) ≡ true) }
{
    let rest = behind_tokens(alloc, known, text)?;
    let Some(next) = number.checked_add(1) else {
        return Err(Memory);
    };
    Ok(Made {
        part: Some(substitution_part(number, quoted)),
        fault: None,
        number: next,
        rest,
    })
}

/// What is left behind the tokens of a `$( )`. They are read only where it isn't known where they end.
fn behind_tokens<'a>(alloc: Global, known: Known<'_>, text: &'a [u8]) -> Result<&'a [u8], Memory>
    ensures { IfOk result (λ rest. Passes in_commands text.now rest.now) }
{
    let from = known.end.saturating_sub(text.len());
    if let Some(rest) = known.among.behind(from, text) {
        return Ok(rest);
    }
    let nest = Nest {
        levels: 0,
        in_braces: false,
    };
    let tokens = sh_lex::Construct::Commands(nest, Some(0), Spot::Between);
    past(alloc, tokens, text)
}

/// A command substitution.
#[tactic(auto, using(sh_tree::specs::declared::words::Form::the_lemmas))]
fn substitution_part(number: u32, quoted: bool) -> Part
    ensures { part_tree result ≡ tree.substitution number quoted }
{
    Part::Sub { number, quoted }
}

/// Passes over a `${ }` that has none of the forms, at whose `$` so many bytes are left, by the text behind that.
fn without_form(
    alloc: Global,
    quoted: bool,
    left: usize,
    number: u32,
    text: &[u8],
) -> Result<Made<'_>, Memory>
    ensures read { IfOk result (λ found. (most : ℕ) → form.expansion text.now ≡ form.no_form
        → ReadsExpansion most quoted left number text.now (made_of found)) }
    ensures part { IfOk result (λ found. is_found (option_map part_tree found.part) ≡ true) }
{
    let nest = Nest {
        levels: 0,
        in_braces: true,
    };
    let head = sh_lex::Construct::BraceHead(nest, left, quoted);
    let rest = past(alloc, head, behind_byte(text))?;
    Ok(no_part(left, number, rest))
}

/// What is left behind a construct that opens before the text; nothing, where it isn't closed.
fn past(alloc: Global, construct: sh_lex::Construct, text: &[u8]) -> Result<&[u8], Memory>
    ensures { IfOk result (λ rest. Passes construct text.now rest.now) }
{
    match past_construct(alloc, construct, text) {
        Ok(rest) => Ok(rest),
        Err(sh_lex::ScanStop::Refused(_)) => Ok(&[]),
        Err(sh_lex::ScanStop::Memory) => Err(Memory),
    }
}
