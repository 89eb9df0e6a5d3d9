//! Patterns of the shell (XCU 2.13): read from a word whose quotes are known, matched against a text, and expanded to paths.
//!
//! A text is a list of bytes, in the C locale: one byte is one character. Reading takes time and memory that grow as the
//! text does; matching takes no memory, and costs the text's length times the pattern's at worst. So does cutting off a beginning or an
//! ending that fits, with memory for the pattern's length.
//!
//! Path expansion asks a tree for the names in its directories, and keeps what it has found so far.
//!
//! `specs/Fits.antt` says which texts a pattern fits, `specs/Trims.antt` what is left of a text of which it fits a beginning or an ending,
//! `specs/Reading.antt` which pattern a marked text reads as, and `specs/PathExpansion.antt` for which paths it stands. `laws` tells what
//! this means.
#![tactic(auto)]

mod brackets;
mod classes;
mod closings;
mod elements;
mod expansion;
pub mod laws;
mod marks;
mod matching;
mod reading;
mod trims;
pub mod trying;

pub use elements::{Element, Item, Items, Pattern};
pub use expansion::expand_paths;
pub use marks::Mark;
pub use matching::matches;
pub use reading::read_pattern;
pub use trims::{Side, trimmed};
