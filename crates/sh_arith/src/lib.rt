//! Variables, and arithmetic expansion over them (XCU 2.5, 2.6.4).
//!
//! A name and a text are lists of bytes. Variables are a finite map from names to texts; a name that isn't in it is unset.
//!
//! `arith` gives the value of a text, or its fault, and leaves the variables with the assignments made: `specs/Arithmetic.antt`
//! says which outcome a text has, and `laws::one_outcome` that it has exactly one.
//!
//! `specs/Variables.antt` says which map an environment is, `specs/Tokens.antt` which tokens a text is made of,
//! `specs/Trees.antt` which expression tokens are, `specs/Levels.antt` how deep it nests, `specs/Values.antt` its value,
//! `specs/Constants.antt` which numbers words and texts write, and `specs/Operators.antt` what the operators compute.
#![tactic(auto)]

mod arithmetic;
mod constants;
mod evaluation;
mod faults;
pub mod laws;
mod levels;
mod operators;
mod parsing;
mod syntax;
mod tokens;
mod variables;

pub use arithmetic::arith;
pub use faults::ArithFault;
pub use levels::MAX_LEVELS;
pub use variables::Env;
