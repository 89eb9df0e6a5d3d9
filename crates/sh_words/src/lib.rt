//! The parts of a word (XCU 2.2, 2.6).
//!
//! A word is a list of bytes, as the script has it. `read_word` gives its parts: plain bytes, quoted bytes, and expansions, whose
//! own words are read too; and the offset of the first `${` that has none of the forms of an expansion. Such a `${ }` leaves no part,
//! and the reading goes on behind it. `read_assign` does so for the value of an assignment. The text of a `$( )` is passed over: its
//! tokens are words of their own. `assigns_in` tells whether a word that is read assigns a variable.
//!
//! `read_word_in` and `read_assign_in` read words of a text whose command substitutions are known (`Substitutions`), and so pass over
//! each of them at once, however many others stand in it.
//!
//! All calls are total. What isn't closed ends with the text.
//!
//! `specs/` says what a word is: `Pieces.antt` how its parts are joined, `Steps.antt` quoting, `Parameters.antt` what a `$`
//! begins, `Words.antt` what is read, and `Assigning.antt` what assigns.
#![tactic(auto)]

mod assigning;
mod building;
mod expansions;
pub mod laws;
mod reading;
mod steps;
mod substitutions;

pub use assigning::assigns_in;
pub use reading::{MAX_LEVELS, ReadWord, read_assign, read_assign_in, read_word, read_word_in};
pub use substitutions::Substitutions;
