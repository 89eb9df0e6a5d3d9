//! Scripts (XCU 2.10.2, narrowed): `parse` gives the script that a text is, or why it is none.
//!
//! The grammar reads a list of items: the tokens of a script, with those of its command substitutions at their place. It
//! doesn't look into words: what a word is, by where it stands, is the definitions' parameter, and a `WordReader` of the code.
//! `read_items` gives the items of a text, `check` tells whether items are a script, and if not at which of them they end to be
//! one, `first_misuse` what else is refused of a script, and `parse_items` gives its tree.
//!
//! `specs/` has what a text is (`Outcomes.antt`), the grammar (`Grammar.antt`), by cases on its rules, where a list of items
//! stops to be the beginning of a script (`Stops.antt`), and what is misused in one (`Misuses.antt`). `specs/Inner/` has words that
//! only proofs and private functions need.
#![tactic(auto)]

mod building;
mod checking;
mod items;
mod kinds;
pub mod laws;
mod levels;
mod misuses;
mod parsing;
mod parts;
mod pieces;
mod readers;
mod refusals;
mod scripts;
mod text_words;
mod texts;

pub use checking::check;
pub use items::{Item, MAX_LEVELS, Reserved, Span, WordKind};
pub use kinds::word_kind;
pub use misuses::{Misuse, first_misuse};
pub use parsing::parse_items;
pub use readers::{Look, WordReader};
pub use refusals::{GrammarRefusal, SyntaxRefusal};
pub use scripts::{ParseRefusal, parse};
pub use texts::{items_of, read_items};
