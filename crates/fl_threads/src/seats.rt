//! What a thread gets and what it gives back.
use crate::jobs::Job;
use fl_relay::Taker;
use std::snapshot::Snapshot;
use std::thread::Promise;

/// A job, and the half of the relay on which its start word comes.
#[derive(Drop)]
pub struct Seat<J> {
    pub job: J,
    pub start: Taker,
}

/// What came of a job, or the job that was told to stand down.
#[derive(Drop)]
pub enum Went<J, D> {
    Ran(D),
    StoodDown(J),
}

/// What a thread gives back.
#[derive(Drop)]
pub struct Reply<J, D> {
    pub start: Taker,
    pub went: Went<J, D>,
}

/// The promise of the thread that has this seat.
#[derive(Drop)]
pub struct SeatOf<J>(pub Snapshot<Seat<J>>);

impl<J: Job> Promise<Reply<J, J::Done>> for SeatOf<J> {
    ghost use Rattle.fl_threads.specs.Seats.{RepliesTo};

    ghost kept_by = { λ promise reply. RepliesTo J.comes promise.0.value reply };
}
