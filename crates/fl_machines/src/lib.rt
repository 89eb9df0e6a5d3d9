//! The machines of nodes that run a utility: maps, wholes and finishes.
//!
//! Each utility is a stream, a series where it reads its inputs one after another, or a stream of several inputs at once: `Through`, `InSeries`
//! and `AtPorts` make machines of any of these. That of `sort` is `Sorting`, which writes its output in pieces, and what copies its input is
//! `Copying`, which puts the pieces that it takes. `util_machine` takes the one that a node's kind asks for; what it owes at its beginning is the
//! node's equation, `fl_classes`' word. `Waiting` is what a machine has written and has still to put, with the buffers that it lies in, and says
//! when it is so much that it is put before more is taken.
#![tactic(auto)]

mod any_series;
mod any_stream;
mod at_ports;
mod copying;
mod in_series;
mod kinds;
mod machines;
mod sorting;
mod through;
mod waiting;

pub use any_series::AnySeries;
pub use any_stream::AnyStream;
pub use at_ports::AtPorts;
pub use copying::Copying;
pub use in_series::InSeries;
pub use kinds::is_utility_node;
pub use machines::{UtilMachine, util_machine};
pub use sorting::Sorting;
pub use through::Through;
pub use waiting::Waiting;
