//! The rows of evaluation: small scripts over objects in memory.
#![tactic(auto)]

#[cfg(test)]
mod greps;
#[cfg(test)]
mod scripts;
