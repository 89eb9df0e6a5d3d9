//! Utilities that count and group lines, as streams: `wc` and `uniq` (XCU wc, uniq), with what joins their work on the parts of an
//! input. `WcSeries` is `wc` over several inputs.
//!
//! `specs/Counting.antt` and `specs/Groups.antt` say what a count and a group of lines are, and `specs/Wc.antt` and `specs/Uniq.antt`
//! what that makes of the utilities. `specs/Inner` has words that only streams need.
#![tactic(auto)]

mod columns;
mod counting;
mod forms;
mod grouping;
mod kept;
mod named;
mod runs;
mod skips;
mod uniq;
mod wc;

pub use columns::{Columns, MOST_BYTES, put_counts, read_counts};
pub use counting::{Counts, add_counts, add_sat};
pub use forms::Form;
pub use kept::Kept;
pub use named::Named;
pub use uniq::Uniq;
pub use wc::{Wc, WcSeries};
