//! The rows of graph texts: which graph each text is, or why it is none.
#![tactic(auto)]

#[cfg(test)]
mod texts;
