//! `head`, `tail`, `cut` and `paste`: utilities that write slices of their inputs (XCU head, tail, cut, paste).
//!
//! `specs/Ends.antt` says where a text begins and ends, and `specs/Head.antt`, `specs/Tail.antt`, `specs/Cut.antt` and `specs/Paste.antt`
//! what the utilities write. `HeadSeries` is `head` over several inputs. The streams look for newlines and delimiters in whole pieces and
//! lines. A `head` that has its lines only takes what comes, and a `tail` that begins at some line only passes it on then; a `tail` from the
//! end holds that end, and at most as much again before it drops what is too much. The ranges of a `cut` are made into runs once. A `paste`
//! of lines side by side (`Side`) writes a row as its lines come, and holds what of the last piece of each input belongs to later lines; that of
//! `paste -s` (`Serial`) writes what comes at once, and puts a delimiter in the place of a newline once something stands behind it.
#![tactic(auto)]

mod behinds;
mod columns;
mod cuts;
mod delimiters;
mod ends;
mod fields;
mod heads;
mod lasts;
pub mod laws;
mod ports;
mod rows;
mod runs;
mod selections;
mod serials;
mod sides;
mod tails;
mod waits;
mod walks;

pub use cuts::Cut;
pub use heads::{Head, HeadSeries};
pub use serials::Serial;
pub use sides::Side;
pub use tails::Tail;
