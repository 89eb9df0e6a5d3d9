//! The tokens of a script (XCU 2.3).
//!
//! A script is a list of bytes, in the C locale: one byte is one character. `lex` gives its tokens in order, each with the
//! offsets at which it begins and ends, or the one refusal that is met at the least place. Quoting and expansions are
//! parts of words here: their inner form is read later. `read_marks` gives them with the tokens of command substitutions at
//! their place.
//!
//! `specs/` says what a token is: `Lexes` and `Offence` in `Lexes.antt`, marks in `Marks.antt`, and each construct in a file of its
//! own; how tokens stand in a text, in words of its own, is in `Laws.antt`. `specs/Inner/` has words that only
//! proofs and private functions need. `brace_head`, `introduced_by`, `behind_run`, `run`, `front` and `past_construct` are for whoever
//! reads the inside of words.
#![tactic(auto)]

mod acts;
mod arithmetic;
mod braces;
mod bytes;
mod dollars;
mod heads;
pub mod laws;
mod lexing;
mod numbers;
mod operators;
mod parts;
mod quotes;
mod reading;
mod refusals;
mod runs;
mod texts;
mod tokens;
mod words;

pub use acts::Step;
pub use bytes::is_quoted_escape;
pub use dollars::{Introduced, introduced_by};
pub use heads::{Head, Operator, Parameter, brace_head};
pub use lexing::{MAX_SCRIPT, Mark, lex, read_marks};
pub use parts::{Construct, Fault, Nest, Spelling, Spot};
pub use reading::{ScanStop, past_construct, step};
pub use refusals::{LexRefusal, Static};
pub use runs::{Class, behind_run, run};
pub use texts::front;
pub use tokens::{Op, Token, TokenKind};
