//! Invocations: what the words of a command ask for.
//!
//! An invocation is read from a command's words, after expansion, and is determined by them. Contracts see it as plain data, so
//! that a copy equals its original. A command is a row of option letters; the words of all are scanned by `ut_options`.
//!
//! `specs/Reading.antt` says which invocation words are, `specs/Classes.antt` how each may be run in parallel, and `specs/Built.antt` which
//! of them have a stream so far.
#![tactic(auto)]

mod built;
mod class_table;
mod classes;
mod columns;
mod commands;
mod faults;
mod inputs;
mod invocations;
mod keys;
mod labels;
pub mod laws;
mod lists;
mod names;
mod operators;
mod pieces;
mod reading;
mod rows;
mod shell;
mod strings;
mod utilities;
mod values;

pub use built::is_built;
pub use class_table::{class, keeps_closed};
pub use classes::{Class, Seam};
pub use commands::{
    CatArgs, Command, CutArgs, EchoArgs, ExitArgs, GrepArgs, Groups, HeadArgs, LoopArgs, NamesArgs,
    Origin, Parts, PasteArgs, Report, SetArgs, ShiftArgs, SortArgs, Syntax, Tail, TailArgs,
    TeeArgs, TestArgs, TrArgs, UniqArgs, Unit, WcArgs,
};
pub use faults::ArgFault;
pub use invocations::{
    BracketInv, BreakInv, CatInv, ColonInv, ContinueInv, CutInv, EchoInv, ExitInv, FalseInv,
    GrepInv, HeadInv, Inv, PasteInv, ReadInv, SetInv, ShiftInv, SortInv, TailInv, TeeInv, TestInv,
    TrInv, TrueInv, UniqInv, UnsetInv, WcInv,
};
pub use labels::{Labels, first_name};
pub use lists::{Delimiters, Key, KeyEnd, Keys, Ordering, Range, Ranges};
pub use names::Name;
pub use operators::{Asked, Binary, Relation, Unary, binary_of, is_not, unary_of};
pub use reading::read_inv;
pub use utilities::has_at_most_one;
