//! Utilities over what their operands name.
//!
//! `look_at` tells what the operands of a utility name. `run_command` runs it over that, and `run_pipeline` several utilities, each over the
//! output of the one before: as one graph on an engine, whose output is written to any sink. The files that `tee` writes are there before.
//! `run_graph` runs any valid graph so, and `execute` one that begins the files that it writes.
//!
//! `specs/Operands.antt` says what operands name, and which inputs they are; `specs/Inputs.antt` what a utility makes of its inputs,
//! `specs/Members.antt` what the members of a pipeline make of theirs, `specs/Writers.antt` what files hold that are written, and
//! `specs/Runs.antt` what comes of a run, and `specs/Graphs.antt` what comes of a graph as it is. `specs/Inner/Stages.antt` has words that these stand on, and the rest of `specs/Inner/` words that
//! only proofs need.
#![tactic(auto)]

mod graphs;
mod lending;
mod marks;
mod members;
mod operands;
mod readers;
mod runs;
mod stages;
mod writers;

pub use graphs::{execute, first_lacking, read_all_patterns};
pub use members::Member;
pub use operands::{Operand, deals, ins_of, lacking, lacks, look_at};
pub use runs::{Commanded, Ended, run_command, run_graph, run_pipeline};
