//! The rows of the outside: lines of texts, objects in memory, and the machine's own files.
#![tactic(auto)]

#[cfg(test)]
mod fakes;
#[cfg(test)]
mod lines;
#[cfg(test)]
mod real;
