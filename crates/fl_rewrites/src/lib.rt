//! What every rewrite of a graph shares.
//!
//! A rewrite takes a graph and answers another one, in which other nodes stand in the place of one; the edges are then numbered anew, in the
//! order in which they are given. It keeps the flow: where the texts of the sources suit the graph, they suit the new one, which leaves the
//! same.
//!
//! `specs/Keeps.antt` says what a rewrite keeps and answers, `specs/Suits.antt` which texts suit a graph, and `specs/Numbering.antt` how edges
//! are numbered. The lemmas in `proofs/` are for the crates of the rewrites: a rewrite is shown over any values of edges that meet the equation
//! of each node, node by node and in no order.
#![tactic(auto)]

mod answers;
mod joined;
mod known;
mod numbers;
mod places;
mod replacing;
mod rows;

pub use answers::Rewritten;
pub use joined::{JoinedNodes, Unjoined, exchange, joined_at, map_nodes};
pub use known::{are_files, is_known, joins_plainly};
pub use numbers::number;
pub use places::{edge_count, giver_of, taker_of};
pub use replacing::{replace, with_nodes};
pub use rows::row;
