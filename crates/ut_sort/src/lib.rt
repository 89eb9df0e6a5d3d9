//! `sort` (XCU sort): the order of two lines, lines in order, and the merge of two texts that are in order.
//!
//! Where no key tells two lines apart, all their bytes do; with `-u` the first of each set of equal lines is kept.
//!
//! `specs/Order.antt` says the order and what is written for a text, `specs/Sorted.antt` what a list in order is. Neither names a way to
//! sort.
#![tactic(auto)]

mod arranging;
mod choices;
mod keys;
pub mod laws;
mod line_orders;
mod mergers;
mod merging;
mod numbers;
mod orders;
mod places;
mod prefixes;
mod sides;
mod sorter;
mod texts;
mod writing;

pub use mergers::Merger;
pub use merging::{merge, merge_some};
pub use orders::order;
pub use sorter::Sorter;
pub use writing::SortedLines;
