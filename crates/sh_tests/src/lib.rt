//! The rows of the shell up to expansion: texts with their tokens, words, scripts, values and fields, or the refusal or fault that they
//! have, and patterns with what they fit.
#![tactic(auto)]

#[cfg(test)]
mod arith;
#[cfg(test)]
mod expand;
#[cfg(test)]
mod lex;
#[cfg(test)]
mod parse;
#[cfg(test)]
mod pattern;
#[cfg(test)]
mod words;
