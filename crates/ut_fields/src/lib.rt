//! The fields of a line, as `sort -k` and `uniq -f` count them (XCU sort, uniq).
//!
//! A place in a line is told as what is left of the line from there on. `specs/Fields.antt` says where fields end and begin.
#![tactic(auto)]

mod fields;

pub use fields::{behind_blanks, behind_fields, field_end, up_to};
