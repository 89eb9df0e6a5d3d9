//! Jobs beside each other, each on a thread of its own.
//!
//! All threads are started before any does anything: each waits for a start word on a relay of its own. Where one can't be started, the
//! others are told to stand down, and every job comes back unused. Where all were started they are told to go, and joined in their order.
//! Who waits sleeps.
//!
//! What a job is and what may come of it is a trait, `Job`. `specs/Threads.antt` has the words that callers' contracts cite.
#![tactic(auto)]

mod begun;
mod jobs;
mod lines;
mod rooms;
mod runs;
mod seats;
#[cfg(test)]
mod tests;

pub use jobs::{Beside, Job};
pub use runs::run_beside;
