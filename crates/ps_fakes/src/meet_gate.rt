//! The gate at which two nodes meet.
use ps_world::{Gate, Reach};
use std::sync::atomic::{AtomicBool, Ordering};
use std::thread;

/// How often a node looks for the other one before it goes on without it.
const MOST_TURNS: u32 = 1_000_000;

/// The gate at which two nodes wait for each other before their first act; every other node passes at once.
///
/// A node that is there lets others run until the other node is there too, for at most 1,000,000 turns, and goes on then. So no run waits for
/// good at this gate: it only finds out whether two nodes are at work at the same time, which no contract can say.
#[derive(Debug, Drop)]
pub struct MeetGate {
    one: Guest,
    other: Guest,
    met: AtomicBool,
}

/// A node, and whether it waits at the gate.
#[derive(Debug, Drop)]
struct Guest {
    node: u32,
    waits: AtomicBool,
}

impl Gate for MeetGate {
    fn reach(&self, node: u32, at: Reach) {
        if at == Reach::Last {
            return;
        }
        if node == self.one.node {
            self.wait_for(&self.one, &self.other);
        } else if node == self.other.node {
            self.wait_for(&self.other, &self.one);
        }
    }
}

impl MeetGate {
    /// The gate of the nodes with these numbers, counted from 0, which haven't met.
    pub fn new(one: u32, other: u32) -> MeetGate {
        MeetGate {
            one: Guest::new(one),
            other: Guest::new(other),
            met: AtomicBool::new(false),
        }
    }

    /// Whether both nodes have been at the gate at the same time.
    pub fn met(&self) -> bool {
        self.met.load(Ordering::SeqCst)
    }

    /// Waits as `guest` until the nodes have met, or its turns are used up.
    fn wait_for(&self, guest: &Guest, other: &Guest) {
        guest.waits.store(true, Ordering::SeqCst);
        for _ in 0..MOST_TURNS {
            if self.met() {
                break;
            }
            if other.waits.load(Ordering::SeqCst) {
                self.met.store(true, Ordering::SeqCst);
                break;
            }
            thread::yield_now();
        }
        // Who comes later doesn't meet a node that has gone.
        guest.waits.store(false, Ordering::SeqCst);
    }
}

impl Guest {
    /// A node that isn't there yet.
    fn new(node: u32) -> Guest {
        Guest {
            node,
            waits: AtomicBool::new(false),
        }
    }
}
