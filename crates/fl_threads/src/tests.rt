//! Jobs that meet.
ghost use Rattle.std.specs.Prelude.{◌≡◌, false};
ghost use Rattle.fl_graph.specs.Runs.{are_closed};
ghost use Rattle.fl_relay.specs.Relays.{given, taken};

use crate::{Beside, Job, run_beside};
use fl_graph::Piece;
use fl_relay::{Giver, Taker, bounded};
use ps_lines::Memory;
use std::alloc::Global;
use std::sync::Wait;
use std::test::Fail;
use std::thread::Threads;

/// Tells another job that this one runs, and waits until that one has told the same.
#[derive(Drop)]
struct Meeting {
    number: u32,
    to: Giver,
    from: Taker,
    ghost gives: { are_closed (given to) ≡ false },
    ghost takes: { are_closed (taken from) ≡ false },
}

/// What came of a meeting. It keeps the halves, since neither may go before the other one has ended.
#[derive(Drop)]
struct Met {
    number: u32,
    has_met: bool,
    to: Giver,
    from: Taker,
}

impl Job for Meeting {
    type Shared = ();

    type Done = Met;

    ghost comes = { λ meeting met. met.number ≡ meeting.number };

    fn run<H: Wait>(self, rt: &H, _shared: &()) -> Met {
        let Meeting {
            number,
            mut to,
            mut from,
        } = self;
        to.put(rt, Piece::End);
        let has_met = matches!(from.take(rt), Piece::End);
        Met {
            number,
            has_met,
            to,
            from,
        }
    }
}

/// The numbers of two jobs that wait for each other, in the order in which they are told; none where they haven't met.
fn meet<H: Threads + Wait + Sync>(rt: &H, alloc: Global) -> Result<Vec<u32>, Memory> {
    let (to_second, from_first) = bounded(alloc, 1)?;
    let (to_first, from_second) = bounded(alloc, 1)?;
    let mut jobs = Vec::with_capacity(alloc, 2)?;
    jobs.push(Meeting {
        number: 1,
        to: to_second,
        from: from_second,
    })?;
    jobs.push(Meeting {
        number: 2,
        to: to_first,
        from: from_first,
    })?;
    let mut numbers = Vec::new(alloc);
    if let Beside::Ran(all) = run_beside(rt, alloc, &(), jobs) {
        for met in &all {
            if met.has_met {
                numbers.push(met.number)?;
            }
        }
    }
    Ok(numbers)
}

#[test]
fn two_jobs_meet(rt: HostRuntime) -> Result<(), Fail> {
    let numbers = meet(&rt, rt.alloc())?;
    assert_eq!(rt; numbers.as_slice(), [1, 2].as_slice());
    Ok(())
}
