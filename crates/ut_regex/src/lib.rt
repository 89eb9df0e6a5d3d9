//! Regular expressions of POSIX, and a matcher whose time is linear in the line (XBD 9).
//!
//! `read_bre` and `read_ere` read a text as a basic or an extended expression, or tell its first fault. `compile` makes a
//! matcher of an expression, and `Matcher::has` answers whether a line has it. The matcher carries a set of places along the
//! line, so no expression makes it go back, and it takes no memory for a line. Which set follows which at a byte stands in a table, which
//! is made whole where it is small, and else filled as lines are run over. `Matcher::first_having` finds the first line of a
//! text that has it, and looks for the ends of lines only where a line may: where bytes stand that each match has in a row, or else bytes
//! with which a match may begin, of which up to four are told at 64 places at a time, so that many words are sought together. Where
//! these are frequent, a table looks for the next byte at which a match may begin, and leaves a line that can't have one for its end.
//!
//! `specs/Spans.antt` says which places of a line an expression spans, and which lines have it; `specs/Having.antt` says which
//! line of a text is the first that has it; `specs/Reading.antt` says which texts are expressions, of which tree, and what the
//! first fault of the others is; `specs/Sizes.antt` says which expressions are too large. What a matcher is made of (programs,
//! tables, literals) and how a tree is built stand in `specs/Inner/`: a caller has a matcher from `compile`, and nothing of these is
//! to be trusted.
#![tactic(auto)]

mod bits;
mod brackets;
mod building;
mod cache;
mod cuts;
mod expansion;
mod fault;
mod finder;
mod fixed;
mod folded;
mod front;
mod front_search;
mod idle;
mod intervals;
mod lanes;
pub mod laws;
mod literals;
mod machine;
mod matcher;
mod needed;
mod pieces;
pub mod plain;
mod program;
mod reading;
mod search;
mod sizes;
mod starts;
mod stuck;
mod sweep;
mod table;
mod texts;
mod tree;
mod twins;

pub use cuts::Cut;
pub use fault::ReFault;
pub use finder::Matcher;
pub use matcher::{compile, compile_any};
pub use reading::{read_bre, read_ere};
pub use sizes::{MAX_NESTING, MAX_PLACES};
pub use tree::Regex;
