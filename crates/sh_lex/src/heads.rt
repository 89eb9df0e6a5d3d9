//! The beginning of a `${ }`: its parameter, and which form it has (XCU 2.5, 2.6.2, narrowed).
ghost use Rattle.std.specs.Prelude.{◌≡◌, ◌∷◌, [], ◌++◌, ℕ, List, true};
ghost use Rattle.std.specs.Char.{is_ascii_digit};
ghost use Rattle.std.specs.Option.{option_map};
ghost use Rattle.sh_lex.specs.Texts.{unspliced, run, behind_run};
ghost use Rattle.sh_lex.specs.Heads.{param_of, head_of, trims, closing_brace, operator_at, colon_at, suffix_at, prefix_at, form_at, place_value, placed, hash_at, brace_head};
ghost use Rattle.sh_lex.specs.Inner.Heads.{parameter_in};

use crate::bytes::{
    AT, CLOSE_BRACE, COLON, DASH, EQUALS, HASH, PERCENT, PLUS, QUESTION, STAR, ZERO,
};
use crate::runs::{Class, behind_run};
use crate::texts::front;
use ps_lines::is_name_start;

/// The operator before the word of a `${ }`.
#[derive(Clone, Copy, Debug)]
pub enum Operator {
    /// `-`, with whether there is a colon.
    Default(bool),
    /// `=`, the same.
    Assign(bool),
    /// `?`, the same.
    Check(bool),
    /// `+`, the same.
    Alternate(bool),
    /// `%`, with whether it is there twice.
    CutSuffix(bool),
    /// `#`, the same.
    CutPrefix(bool),
}

impl Operator {
    /// Whether the word is a pattern that is removed.
    pub fn trims(self) -> bool
        ensures { result ≡ trims self }
    {
        match self {
            Operator::CutSuffix(_) | Operator::CutPrefix(_) => true,
            Operator::Default(_)
            | Operator::Assign(_)
            | Operator::Check(_)
            | Operator::Alternate(_) => false,
        }
    }
}

/// A parameter, as a text has it (XCU 2.5, narrowed).
#[derive(Clone, Copy, Debug)]
pub enum Parameter<'a> {
    /// A variable, whose name is the longest at the beginning of this text.
    Name(&'a [u8]),
    /// An argument, counted from 1; 0 is `$0`.
    Place(u32),
    /// `@`
    At,
    /// `*`
    Star,
    /// `#`
    Count,
    /// `?`
    Status,
}

/// The beginning of a `${ }`. The slice is what is left behind it.
#[derive(Clone, Copy, Debug)]
pub enum Head<'a> {
    /// A parameter without a word, with whether its length is meant, and the `}`.
    Whole(Parameter<'a>, bool, &'a [u8]),
    /// A parameter and an operator, up to the word.
    WithWord(Parameter<'a>, Operator, &'a [u8]),
    /// None of the forms.
    NoForm,
}

/// What a text behind `${` begins with.
pub fn brace_head(text: &[u8]) -> Head<'_>
    ensures { head_of result ≡ brace_head text.now }
{
    let Some((byte, rest)) = front(text) else {
        return Head::NoForm;
    };
    match byte {
        HASH => hash(rest),
        AT => closing_brace(Parameter::At, false, rest),
        STAR => closing_brace(Parameter::Star, false, rest),
        _ => match read_parameter(text) {
            Some((what, assigns, behind)) => form(assigns, what, behind),
            None => Head::NoForm,
        },
    }
}

/// Behind `${#`.
fn hash(text: &[u8]) -> Head<'_>
    ensures { head_of result ≡ hash_at (unspliced text.now) }
{
    let Some((byte, rest)) = front(text) else {
        return Head::NoForm;
    };
    if byte == CLOSE_BRACE {
        return Head::Whole(Parameter::Count, false, rest);
    }
    match read_parameter(text) {
        Some((what, _, behind)) => closing_brace(what, true, behind),
        None => Head::NoForm,
    }
}

/// A parameter that can have each form, with whether it can be assigned and what is left behind it.
#[tactic(auto, using(crate::proofs::Fronts::names))]
fn read_parameter(text: &[u8]) -> Option<(Parameter<'_>, bool, &[u8])>
    ensures { option_map (λ found. (param_of found.0, found.1, found.2.now)) result ≡ parameter_in (unspliced text.now) }
{
    let (byte, rest) = front(text)?;
    if is_name_start(byte) {
        return Some((Parameter::Name(text), true, behind_run(Class::Name, rest)));
    }
    if byte.is_ascii_digit() {
        return placed(byte, rest);
    }
    if byte == QUESTION {
        return Some((Parameter::Status, false, rest));
    }
    None
}

/// The place whose digits begin with this one.
fn placed(first: u8, text: &[u8]) -> Option<(Parameter<'_>, bool, &[u8])>
    requires { is_ascii_digit first ≡ true }
    ensures { option_map (λ found. (param_of found.0, found.1, found.2.now)) result ≡ placed (place_value (first ∷ run is_ascii_digit text.now)) (behind_run is_ascii_digit text.now) }
{
    let (value, rest) = place(first, text);
    match value {
        Some(number) => Some((Parameter::Place(number), false, rest)),
        None => None,
    }
}

/// The value of the digits that begin with this one, and what is left behind them; None: it is no number below 2^32.
#[tactic(auto, using(crate::proofs::Fronts::runs, crate::proofs::PlaceLemmas::values))]
fn place(first: u8, text: &[u8]) -> (Option<u32>, &[u8])
    requires { is_ascii_digit first ≡ true }
    ensures value { result.0 ≡ place_value (first ∷ run is_ascii_digit text.now) }
    ensures behind { result.1.now ≡ behind_run is_ascii_digit text.now }
{
    let mut value = Some(u32::from(first - ZERO));
    let mut rest = text;
    while let Some((byte, after)) = front(rest) {
        if !byte.is_ascii_digit() {
            return (value, rest);
        }
        value = with_digit(value, byte);
        rest = after;
    }
    (value, rest)
}

/// The value with one more digit.
#[tactic(auto, using(crate::proofs::PlaceLemmas::values))]
fn with_digit(value: Option<u32>, digit: u8) -> Option<u32>
    requires { is_ascii_digit digit ≡ true }
    ensures { (digits : List ℕ) → value ≡ place_value digits → result ≡ place_value (digits ++ digit ∷ []) }
{
    value?.checked_mul(10)?.checked_add(u32::from(digit - ZERO))
}

/// At the `}` that ends an expansion.
fn closing_brace<'a>(what: Parameter<'a>, measured: bool, text: &'a [u8]) -> Head<'a>
    ensures { head_of result ≡ closing_brace (param_of what.entry) measured (unspliced text.now) }
{
    match front(text) {
        Some((CLOSE_BRACE, rest)) => Head::Whole(what, measured, rest),
        _ => Head::NoForm,
    }
}

/// Behind the parameter; `assigns`: it can be assigned.
fn form<'a>(assigns: bool, what: Parameter<'a>, text: &'a [u8]) -> Head<'a>
    ensures { head_of result ≡ form_at assigns (param_of what.entry) (unspliced text.now) }
{
    let Some((byte, rest)) = front(text) else {
        return Head::NoForm;
    };
    match byte {
        CLOSE_BRACE => Head::Whole(what, false, rest),
        COLON => colon(assigns, what, rest),
        PERCENT => suffix(what, rest),
        HASH => prefix(what, rest),
        _ => read_operator(assigns, false, what, byte, rest),
    }
}

/// Behind the `:` of an operator.
fn colon<'a>(assigns: bool, what: Parameter<'a>, text: &'a [u8]) -> Head<'a>
    ensures { head_of result ≡ colon_at assigns (param_of what.entry) (unspliced text.now) }
{
    match front(text) {
        Some((byte, rest)) => read_operator(assigns, true, what, byte, rest),
        None => Head::NoForm,
    }
}

/// At an operator that assigns, tests or replaces.
fn read_operator<'a>(
    assigns: bool,
    colon: bool,
    what: Parameter<'a>,
    byte: u8,
    rest: &'a [u8],
) -> Head<'a>
    ensures { head_of result ≡ operator_at assigns colon (param_of what.entry) byte rest.now }
{
    match byte {
        DASH => Head::WithWord(what, Operator::Default(colon), rest),
        QUESTION => Head::WithWord(what, Operator::Check(colon), rest),
        PLUS => Head::WithWord(what, Operator::Alternate(colon), rest),
        EQUALS if assigns => Head::WithWord(what, Operator::Assign(colon), rest),
        _ => Head::NoForm,
    }
}

/// Behind the first `%` of an operator.
fn suffix<'a>(what: Parameter<'a>, text: &'a [u8]) -> Head<'a>
    ensures { head_of result ≡ suffix_at (param_of what.entry) text.now (unspliced text.now) }
{
    match front(text) {
        Some((PERCENT, rest)) => Head::WithWord(what, Operator::CutSuffix(true), rest),
        _ => Head::WithWord(what, Operator::CutSuffix(false), text),
    }
}

/// Behind the first `#` of an operator.
fn prefix<'a>(what: Parameter<'a>, text: &'a [u8]) -> Head<'a>
    ensures { head_of result ≡ prefix_at (param_of what.entry) text.now (unspliced text.now) }
{
    match front(text) {
        Some((HASH, rest)) => Head::WithWord(what, Operator::CutPrefix(true), rest),
        _ => Head::WithWord(what, Operator::CutPrefix(false), text),
    }
}
