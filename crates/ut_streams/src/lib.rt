//! Streams: utilities that are fed their input in pieces, cut anywhere, and write their output as they go.
//!
//! A stream's contract has no pieces in it. It speaks of what is still due: the text that the stream would write if some bytes and no
//! others came. Feeding it a piece writes some of what is due, and what was due of the piece and any further bytes is then what
//! was written and what is due of these. So over every cutting, what a stream has written is a front of its output for the whole
//! input, and all of it after `finish`; a stream says only what is due at its beginning.
//!
//! `Stream` is over bytes. A utility that works line by line is a `LineStream`, which `Lines` makes a `Stream`, and one that does
//! each line by itself a `PerLine`, which `EachLine` makes a `LineStream`. One that reads several inputs, one after another, is a
//! `Series`, and one that reads them at once a `PortStream`.
//!
//! `specs/Streams.antt` has the words, and `specs/Utilities.antt` what a utility means for whole inputs.
#![tactic(auto)]

mod cuttings;
mod line_streams;
mod port_streams;
mod puts;
mod series;
mod streams;

pub use cuttings::cut_behind;
pub use line_streams::{EachLine, LineStream, Lines, PerLine, cut_last_line};
pub use port_streams::PortStream;
pub use puts::{put, put_line};
pub use series::{Series, feed_inputs};
pub use streams::{Stream, feed_all};
