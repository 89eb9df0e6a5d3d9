//! Jobs beside each other.
ghost use Rattle.std.specs.Prelude.{◌≡◌, ◌+◌, ◌≤◌, [], ◌∷◌, ◌++◌, true, false, vec_len, vec_capacity, MatchResult};
ghost use Rattle.fl_graph.specs.Runs.{are_closed, has_end};
ghost use Rattle.fl_relay.specs.Relays.{gives_on, takes_on, given, taken};
ghost use Rattle.fl_threads.specs.Seats.{RepliesTo};
ghost use Rattle.fl_threads.specs.Threads.{AreGiven, BesideIs, EachOf, begun_jobs, seat_of, start_word};

use crate::begun::Begun;
use crate::jobs::{Beside, Job};
use crate::lines::Line;
use crate::rooms::{Room, make_room};
use crate::seats::{Reply, Seat, SeatOf, Went};
use fl_graph::Piece;
use fl_relay::Taker;
use fl_relay::laws::settle;
use std::alloc::Global;
use std::snapshot::Snapshot;
use std::sync::Wait;
use std::thread;
use std::thread::{Scope, Threads};

/// Runs each job on a thread of its own, over what they share. All threads are started before any job runs; where a thread or memory is
/// refused none has run, and all come back.
pub fn run_beside<J: Job + Send, H: Threads + Wait + Sync>(
    rt: &H,
    alloc: Global,
    shared: &J::Shared,
    jobs: Vec<J>,
) -> Beside<J, J::Done>
    ensures { BesideIs J.comes jobs.items result }
{
    thread::scope(
        thread::scope_env(),
        rt,
        move |scope| -> Beside<J, J::Done>
            ensures { BesideIs J.comes jobs.items result }
        { run_in(rt, scope, alloc, shared, jobs) },
    )
}

/// In the scope: all threads are started, told and joined.
fn run_in<'s, E, J: Job + Send + 's, H: Threads + Wait + Sync>(
    rt: &'s H,
    scope: &Scope<'s, E>,
    alloc: Global,
    shared: &'s J::Shared,
    jobs: Vec<J>,
) -> Beside<J, J::Done>
    ensures { BesideIs J.comes jobs.items result }
{
    let Ok(room) = make_room::<J>(alloc, jobs.len()) else {
        return Beside::NotRun(jobs);
    };
    let Room {
        lines,
        mut begun,
        mut told,
        mut done,
        mut back,
        mut here,
    } = room;
    begin_all(rt, scope, shared, jobs, lines, &mut begun, &mut here);
    let goes = here.len() == 0;
    tell(rt, begun, goes, &mut told);
    join_all(rt, told, goes, &mut done, &mut back);
    if goes {
        return Beside::Ran(done);
    }
    put_behind(&mut back, here);
    Beside::NotRun(back)
}

/// Starts a thread for each job, until one is refused; the jobs from that one on come back.
fn begin_all<'s, E, J: Job + Send + 's, H: Wait + Sync>(
    rt: &'s H,
    scope: &Scope<'s, E>,
    shared: &'s J::Shared,
    jobs: Vec<J>,
    lines: Vec<Line>,
    begun: &mut Vec<Begun<J>>,
    here: &mut Vec<J>,
)
    requires lines { vec_len jobs ≤ vec_len lines }
    requires begun { begun.old.items ≡ [] }
    requires here { here.old.items ≡ [] }
    requires begun_room { vec_len jobs ≤ vec_capacity begun.old }
    requires here_room { vec_len jobs ≤ vec_capacity here.old }
    ensures jobs { begun_jobs begun.new.items ++ here.new.items ≡ jobs.items }
    ensures given { AreGiven [] begun.new.items }
{
    let mut lines = lines;
    for job in jobs {
        let Some(line) = lines.pop() else {
            unreachable!()
        };
        if here.len() > 0 {
            here.push_reserved(job);
            continue;
        }
        match begin(rt, scope, shared, line, job) {
            Ok(one) => begun.push_reserved(one),
            Err(job) => here.push_reserved(job),
        }
    }
}

/// Starts a thread, which waits for its start word, or gives its job back.
fn begin<'s, E, J: Job + Send + 's, H: Wait + Sync>(
    rt: &'s H,
    scope: &Scope<'s, E>,
    shared: &'s J::Shared,
    line: Line,
    job: J,
) -> Result<Begun<J>, J>
    ensures { MatchResult result (λ begun. (given begun.go ≡ []) × ((seat_of begun).job ≡ job)) (λ back. back ≡ job) }
{
    let Line { mut go, start } = line;
    let seat = Seat { job, start };
    let promise = SeatOf(Snapshot::of(&seat));
    match scope.spawn_with(
        promise,
        move || -> Reply<J, J::Done>
            requires { taken seat.start ≡ [] }
            ensures { RepliesTo J.comes seat result }
        { work(rt, shared, seat) },
    ) {
        Ok(handle) => Ok(Begun { go, handle }),
        Err(refused) => {
            // told to stand down, it gives its job back here
            go.put(rt, Piece::Broken);
            let Reply { start, went } = (refused.value)();
            settle(go, start);
            match went {
                Went::StoodDown(job) => Err(job),
                Went::Ran(_) => unreachable!(),
            }
        }
    }
}

/// What a thread does: it waits for its start word, and then does its job or stands down.
fn work<J: Job, H: Wait>(rt: &H, shared: &J::Shared, seat: Seat<J>) -> Reply<J, J::Done>
    requires { taken seat.start ≡ [] }
    ensures { RepliesTo J.comes seat result }
{
    let Seat { job, mut start } = seat;
    if is_to_go(rt, &mut start) {
        let done = job.run(rt, shared);
        return Reply {
            start,
            went: Went::Ran(done),
        };
    }
    Reply {
        start,
        went: Went::StoodDown(job),
    }
}

/// Waits for the start word, and tells whether it is to go.
#[tactic(auto, using(crate::proofs::Rows::ended_by))]
fn is_to_go<H: Wait>(rt: &H, start: &mut Taker) -> bool
    requires { taken start.old ≡ [] }
    ensures same { takes_on start.new ≡ takes_on start.old }
    ensures closed { are_closed (taken start.new) ≡ true }
    ensures word { result ≡ has_end (taken start.new) }
{
    for _ in rt.forever() {
        match start.take(rt) {
            Piece::End => return true,
            Piece::Broken => return false,
            _ => {}
        }
    }
    unreachable!()
}

/// The word to go, or to stand down.
fn word(goes: bool) -> Piece
    ensures { result ≡ start_word goes }
{
    if goes { Piece::End } else { Piece::Broken }
}

/// Tells all threads to go, or to stand down.
fn tell<J: Job, H: Wait>(rt: &H, begun: Vec<Begun<J>>, goes: bool, told: &mut Vec<Begun<J>>)
    requires given { AreGiven [] begun.items }
    requires told { told.old.items ≡ [] }
    requires room { vec_len begun ≤ vec_capacity told.old }
    ensures jobs { begun_jobs told.new.items ≡ begun_jobs begun.items }
    ensures told { AreGiven (start_word goes ∷ []) told.new.items }
    ensures len { vec_len told.new ≡ vec_len begun }
{
    for one in begun {
        let Begun { mut go, handle } = one;
        go.put(rt, word(goes));
        told.push_reserved(Begun { go, handle });
    }
}

/// Joins all threads, in their order: what came of each job where they were told to go, and else the jobs.
fn join_all<J: Job, H: Threads>(
    rt: &H,
    told: Vec<Begun<J>>,
    goes: bool,
    done: &mut Vec<J::Done>,
    back: &mut Vec<J>,
)
    requires told { AreGiven (start_word goes ∷ []) told.items }
    requires done { done.old.items ≡ [] }
    requires back { back.old.items ≡ [] }
    requires done_room { vec_len told ≤ vec_capacity done.old }
    requires back_room { vec_len told ≤ vec_capacity back.old }
    ensures ran { goes ≡ true → EachOf J.comes (begun_jobs told.items) done.new.items }
    ensures back { goes ≡ false → back.new.items ≡ begun_jobs told.items }
    ensures room { vec_capacity back.new ≡ vec_capacity back.old }
{
    for one in told {
        let Begun { go, handle } = one;
        let Reply { start, went } = handle.join(rt);
        settle(go, start);
        match went {
            Went::Ran(one) => done.push_reserved(one),
            Went::StoodDown(job) => back.push_reserved(job),
        }
    }
}

/// Puts the rest behind the front.
fn put_behind<J: Job>(front: &mut Vec<J>, rest: Vec<J>)
    requires { vec_len front.old + vec_len rest ≤ vec_capacity front.old }
    ensures { front.new.items ≡ front.old.items ++ rest.items }
{
    for job in rest {
        front.push_reserved(job);
    }
}
