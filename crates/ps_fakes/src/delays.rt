//! Delays that a seed gives, so that the threads of a run come to their acts in another order with each seed.
use ps_world::{Gate, Reach};
use std::thread;

/// A delay has less turns than these.
const MOST_TURNS: u64 = 16;

/// A gate at which each node waits before its first act and after its last one, as long as the seed and the node's number give.
#[derive(Clone, Copy, Debug)]
pub struct DelayGate {
    seed: u64,
}

impl Gate for DelayGate {
    fn reach(&self, node: u32, at: Reach) {
        let seed = self.seed.wrapping_add(u64::from(node));
        match at {
            Reach::First => wait(seed, 0),
            Reach::Last => wait(seed, 1),
        }
    }
}

impl DelayGate {
    /// The gate with the delays of this seed.
    pub fn new(seed: u64) -> DelayGate {
        DelayGate { seed }
    }
}

/// Waits for so many turns as a seed gives for an act, by the act's number; in each of them others may run.
pub fn wait(seed: u64, act: u64) {
    let mixed = seed.wrapping_mul(6_364_136_223_846_793_005) ^ act;
    let mixed = (mixed ^ (mixed >> 32)).wrapping_mul(6_364_136_223_846_793_005);
    // The upper bits differ most from one number to the next.
    for _ in 0..(mixed >> 32) % MOST_TURNS {
        thread::yield_now();
    }
}
