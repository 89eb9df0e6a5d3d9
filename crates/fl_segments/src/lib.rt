//! Segments of pipelines as graphs.
//!
//! A segment is a list of stages that are utilities, behind all expansion: each says what it reads, where its output goes, and what was told
//! of it. `chain` makes the graph of a segment, with one node for each utility: what each stage writes is the stream of the next one. `compile`
//! spreads the utilities whose input may be cut over so many parts of it.
//!
//! `specs/Stages.antt` says which stages there may be, and which files they read and write; `specs/Chains.antt` what a segment means;
//! `specs/Groups.antt` when the files of a cat go in groups; `specs/Noted.antt` which utilities run, and how often.
//! `specs/Inner/` has words that only proofs need.
#![tactic(auto)]

mod chains;
mod commands;
mod drawing;
mod groups;
mod inputs;
mod nodes;
mod outputs;
mod parts;
mod spread;
mod stages;

pub use chains::{MAX_STAGES, chain, compile};
pub use stages::{Does, First, In, Out, Stage};
