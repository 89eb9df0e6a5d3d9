//! The words behind a command's name, read as options and operands.
//!
//! Options come before operands; letters may be grouped, an argument follows in the same word or is the next word, `--` ends the
//! options, and `-` alone is an operand (XBD 12.2). A command is a row of letters, each with or without an argument, and one
//! call reads the words of them all.
//!
//! `specs/Scanning.antt` says what words give, `specs/Given.antt` what the options say, and `specs/Numbers.antt` what numbers are.
#![tactic(auto)]

mod given;
mod letters;
mod numbers;
mod scanning;
mod texts;
mod usage;

pub use given::{Given, Options};
pub use letters::Letters;
pub use numbers::{digits_up_to, number_of, read_number};
pub use scanning::{Scanned, scan};
pub use texts::Texts;
pub use usage::Usage;
