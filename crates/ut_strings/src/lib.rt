//! The strings of `tr` (XCU tr): the bytes that each stands for.
//!
//! A string is read as marked bytes first, where a mark says that a backslash made the byte ordinary, and then as items: bytes,
//! ranges, classes, and in the second string repetitions. `specs/Marked.antt`, `Items.antt` and `Strings.antt` say so, in this order.
#![tactic(auto)]

mod expanding;
mod items;
mod marked;

pub use expanding::{expand_first, expand_second};
