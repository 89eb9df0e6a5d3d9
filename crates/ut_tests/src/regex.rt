//! Expressions: lines of which it is answered whether they have one, and the lines of texts that have one.
mod lines;
mod texts;
