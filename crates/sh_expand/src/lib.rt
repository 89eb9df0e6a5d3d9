//! Expansion of words to fields (XCU 2.6).
//!
//! A word is expanded in four steps: its parts give marked bytes, these are cut into fields, a field with a pattern in it gives the
//! names that fit, and the marks are removed. Words go one after another, from the left, and each sees the variables that the words
//! before it assigned.
//!
//! `expand` gives the fields of words, `expand_one` the text of a word of which nothing is split, and `has_pattern` tells whether a
//! pattern byte is left before path expansion. A tree is asked only for fields with such a byte. `ifs_of` gives the bytes that separate
//! fields, for `read` too.
//!
//! `specs/Fields.antt` says which fields words have, and how they stop. It puts together `Values.antt` (what the parts of a word give),
//! `Splitting.antt` (how marks are cut into fields), path expansion, and `Marks.antt` (what marked bytes are, and how marks are removed).
//! `Parameters.antt` has the parameters and their forms, whose texts `sh_pattern` cuts. `Outcomes.antt` has what words mean as a function.
//! `laws` tells what this means.
#![tactic(auto)]

mod beginning;
mod ending;
mod faults;
mod fields;
mod frames;
mod known;
pub mod laws;
mod marks;
mod parameters;
mod separators;
mod splitting;
mod texts;
mod values;

pub use faults::ExpandFault;
pub use fields::{MAX_FIELDS, expand, has_pattern};
pub use frames::Frame;
pub use separators::ifs_of;
pub use texts::expand_one;
