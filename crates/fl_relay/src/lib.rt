//! Relays: an edge between two threads. One puts pieces into it, the other takes them out, in order and each once.
//!
//! A relay has two halves, a `Giver` and a `Taker`, and room for so many pieces. A half that has to wait sleeps. Each half knows what it
//! has given or taken; at every moment what was taken is a front of what was given (`specs/Rule.antt`, a rule of the kit's bounded
//! channel, which each of its atomic steps keeps), and `laws::settle` says of the two halves of an ended relay that it is all of it.
//!
//! `unbounded` makes a relay in which any number of pieces may wait, under the same rule, and an `EdgeGiver` and an `EdgeTaker` are the
//! halves of either.
//!
//! `specs/Relays.antt`, `specs/Eager.antt` and `specs/Edges.antt` have the words that callers' contracts cite. Neither half may be let go
//! before the other has ended: what waits for a half that is gone waits for good.
#![tactic(auto)]

mod calls;
mod eager;
mod eager_calls;
mod eager_rule;
mod edges;
mod halves;
pub mod laws;
mod rule;
#[cfg(test)]
mod tests;

pub use calls::bounded;
pub use eager::{EagerGiver, EagerTaker};
pub use eager_calls::unbounded;
pub use edges::{EdgeGiver, EdgeTaker};
pub use halves::{Giver, Taker};
pub use rule::{InOrder, View};
