//! A thread that was started.
ghost use Rattle.std.specs.Prelude.{◌≡◌};
ghost use Rattle.fl_relay.specs.Relays.{gives_on, takes_on};

use crate::jobs::Job;
use crate::seats::{Reply, SeatOf};
use fl_relay::Giver;
use std::thread::PromisedHandle;

/// A thread that waits for its start word, or has had it.
#[derive(Drop)]
pub struct Begun<J: Job> {
    pub go: Giver,
    pub handle: PromisedHandle<Reply<J, J::Done>, SeatOf<J>>,
    ghost same: { takes_on handle.promise.0.value.start ≡ gives_on go },
}
