//! Texts, their lines, classes of bytes, and numbers in decimal: the ground of every other crate.
//!
//! A text is a list of bytes, in the C locale: one byte is one character, and a byte is a number below 256. A line
//! ends in a newline, and a last line without one still counts.
//! No call reaches outside its arguments; those that take memory take the allocator first.
//!
//! `specs/` has the words that callers' contracts cite.
#![tactic(auto)]

mod byte_set;
mod bytes;
mod class;
pub mod laws;
mod memory;
mod newlines;
mod numbers;
mod seek;
mod text;

pub use byte_set::ByteSet;
pub use bytes::{is_name_byte, is_name_start, is_white_space};
pub use class::Class;
pub use memory::Memory;
pub use newlines::{NEWLINE, closing, cut_line, is_closed, lines, next_line};
pub use numbers::{decimal, read_decimal};
pub use text::Text;
