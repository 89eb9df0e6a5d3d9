//! The order of lines and what is written for texts, in tables: `rows` says how these are written.
mod merged;
mod mergers;
mod order;
mod rows;
mod texts;
