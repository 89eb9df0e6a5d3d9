//! Which calls of an object fail, and how long they wait.
ghost use Rattle.std.specs.Prelude.{◌≡◌, ◌≤◌, if◌then◌else◌, is_some, None, Some};
ghost use Rattle.ps_world.specs.Counts.{one_more};
ghost use Rattle.ps_fakes.specs.Plans.{is_planned};

use crate::delays::wait;

/// The calls of one object that fail, by their numbers from 0, with how many were made and how many have failed, and the seed of the delays
/// that each call begins with; None where none waits.
///
/// Both counts stand still at 2^64-1.
#[derive(Debug, Drop)]
pub struct Plan {
    pub calls: u64,
    pub fails: Vec<u64>,
    pub faults: u64,
    pub seed: Option<u64>,
}

impl Plan {
    /// A plan before its first call, without delays.
    pub fn new(fails: Vec<u64>) -> Plan
        ensures calls { result.calls ≡ 0 }
        ensures fails { result.fails ≡ fails }
        ensures faults { result.faults ≡ 0 }
        ensures seed { result.seed ≡ None }
    {
        Plan {
            calls: 0,
            fails,
            faults: 0,
            seed: None,
        }
    }

    /// From now on each call waits first, as long as this seed gives.
    pub fn delay(&mut self, seed: u64)
        ensures { self.new ≡ record self.old { seed = Some seed } }
    {
        self.seed = Some(seed);
    }

    /// The seed for an object that this one lends: another one behind each call, and None where no call waits.
    pub fn lent_seed(&self) -> Option<u64>
        ensures { is_some result ≡ is_some self.now.seed }
    {
        match self.seed {
            Some(seed) => Some(seed.wrapping_add(self.calls)),
            None => None,
        }
    }

    /// Waits where a seed is there, counts a call, and answers whether it is one of those that fail.
    pub fn count_call(&mut self) -> bool
        ensures planned { result ≡ is_planned self.old.fails.items self.old.calls }
        ensures kept { self.new ≡ record self.old { calls = one_more self.old.calls } }
    {
        if let Some(seed) = self.seed {
            wait(seed, self.calls);
        }
        let is_planned = self.fails.contains(&self.calls);
        self.calls = self.calls.saturating_add(1);
        is_planned
    }

    /// Waits and counts likewise, and answers whether the call fails; then it is counted as a fault too.
    pub fn fails_now(&mut self) -> bool
        ensures planned { result ≡ is_planned self.old.fails.items self.old.calls }
        ensures calls { self.new.calls ≡ one_more self.old.calls }
        ensures fails { self.new.fails ≡ self.old.fails }
        ensures seed { self.new.seed ≡ self.old.seed }
        ensures faults { self.new.faults ≡ (if result then one_more self.old.faults else self.old.faults) }
        ensures later { self.old.faults ≤ self.new.faults }
    {
        let is_planned = self.count_call();
        if is_planned {
            self.count_fault();
        }
        is_planned
    }

    /// Counts a fault.
    pub fn count_fault(&mut self)
        ensures calls { self.new.calls ≡ self.old.calls }
        ensures fails { self.new.fails ≡ self.old.fails }
        ensures seed { self.new.seed ≡ self.old.seed }
        ensures faults { self.new.faults ≡ one_more self.old.faults }
        ensures later { self.old.faults ≤ self.new.faults }
    {
        self.faults = self.faults.saturating_add(1);
    }
}
