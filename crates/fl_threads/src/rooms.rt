//! What is made before the first thread starts.
ghost use Rattle.std.specs.Prelude.{◌≡◌, IfOk, vec_len};
ghost use Rattle.fl_threads.specs.Threads.{IsReady};

use crate::begun::Begun;
use crate::jobs::Job;
use crate::lines::{Line, make_line};
use ps_lines::Memory;
use std::alloc::Global;

/// The relays of start words, and room for all that comes of threads. It is made before the first one starts, so that nothing is lost to
/// want of memory.
#[derive(Drop)]
pub struct Room<J: Job> {
    pub lines: Vec<Line>,
    pub begun: Vec<Begun<J>>,
    pub told: Vec<Begun<J>>,
    pub done: Vec<J::Done>,
    pub back: Vec<J>,
    pub here: Vec<J>,
}

/// So many relays of start words.
fn make_lines(alloc: Global, count: usize) -> Result<Vec<Line>, Memory>
    ensures { IfOk result (λ lines. vec_len lines ≡ count) }
{
    let mut lines = Vec::with_capacity(alloc, count)?;
    for _ in 0..count {
        lines.push_reserved(make_line(alloc)?);
    }
    Ok(lines)
}

/// Room for so many threads.
pub fn make_room<J: Job>(alloc: Global, count: usize) -> Result<Room<J>, Memory>
    ensures { IfOk result (λ room. IsReady count room) }
{
    let lines = make_lines(alloc, count)?;
    let begun = Vec::with_capacity(alloc, count)?;
    let told = Vec::with_capacity(alloc, count)?;
    let done = Vec::with_capacity(alloc, count)?;
    let back = Vec::with_capacity(alloc, count)?;
    let here = Vec::with_capacity(alloc, count)?;
    Ok(Room {
        lines,
        begun,
        told,
        done,
        back,
        here,
    })
}
