//! A relay between two threads.
ghost use Rattle.std.specs.Prelude.{◌≡◌, ◌<◌, [], true, false, IfOk};
ghost use Rattle.fl_graph.specs.Machines.{closes};
ghost use Rattle.fl_graph.specs.Runs.{are_closed};
ghost use Rattle.fl_relay.specs.Eager.{eager_gives_on, eager_takes_on, eager_given, eager_taken};
ghost use Rattle.fl_relay.specs.Edges.{gives_over, takes_over, put_on, taken_from};
ghost use Rattle.fl_relay.specs.Relays.{gives_on, takes_on, given, taken};

use crate::laws::{settle, settle_edge};
use crate::{EagerGiver, EagerTaker, EdgeGiver, EdgeTaker, Giver, Taker, bounded, unbounded};
use fl_graph::{Bytes, Piece};
use ps_lines::Memory;
use std::alloc::Global;
use std::sync::Wait;
use std::test::Fail;
use std::thread;
use std::thread::Threads;
use std::time::{Clock, CpuClock, Duration};

/// How many pieces go through a relay, besides its end.
const PIECES: u32 = 10_000;

/// A piece with the bytes of its number.
fn numbered(alloc: Global, number: u32) -> Result<Piece, Memory>
    ensures { IfOk result (λ piece. closes piece ≡ false) }
{
    let bytes = Vec::from_slice(alloc, number.to_be_bytes().as_slice())?;
    Ok(Piece::Bytes(Bytes::new(bytes)))
}

/// Puts the pieces of all numbers, and the end behind them; or Broken, where memory is refused.
fn put_all<R: Wait>(rt: &R, alloc: Global, mut giver: Giver) -> Giver
    requires { given giver ≡ [] }
    ensures { gives_on result ≡ gives_on giver }
{
    for number in 0..PIECES {
        let Ok(piece) = numbered(alloc, number) else {
            giver.put(rt, Piece::Broken);
            return giver;
        };
        giver.put(rt, piece);
    }
    giver.put(rt, Piece::End);
    giver
}

/// Takes all pieces up to the end, and counts those that come in their numbers' order.
fn take_all<R: Wait>(rt: &R, mut taker: Taker) -> (Taker, u32)
    requires { taken taker ≡ [] }
    ensures { takes_on result.0 ≡ takes_on taker }
{
    let mut in_order = 0u32;
    for _ in rt.forever() {
        match taker.take(rt) {
            Piece::Bytes(bytes) => {
                if bytes.as_slice() == in_order.to_be_bytes().as_slice() {
                    in_order = in_order.wrapping_add(1);
                }
            }
            Piece::Mark => {}
            Piece::End => return (taker, in_order),
            Piece::Broken => return (taker, 0),
        }
    }
    unreachable!()
}

/// How many pieces come in order through a relay that holds so many, from one thread to another.
fn count_through<R: Threads + Wait + Sync>(
    rt: &R,
    alloc: Global,
    capacity: u32,
) -> Result<u32, Memory>
    requires { 0 < capacity }
{
    let (giver, taker) = bounded(alloc, capacity)?;
    let (giver, (taker, in_order)) = thread::join(
        rt,
        move ||
            requires { given giver ≡ [] }
            ensures { gives_on result ≡ gives_on giver }
        { put_all(rt, alloc, giver) },
        move ||
            requires { taken taker ≡ [] }
            ensures { takes_on result.0 ≡ takes_on taker }
        { take_all(rt, taker) },
    );
    settle(giver, taker);
    Ok(in_order)
}

#[test]
fn all_pieces_come_in_order(rt: HostRuntime) -> Result<(), Fail> {
    for capacity in [1, 2, 8, 100] {
        assert_eq!(rt;
            count_through(&rt, rt.alloc(), capacity)?,
            PIECES,
            "at {capacity}"
        );
    }
    Ok(())
}

/// Lets the other half wait.
fn wait_half_a_second<R: Clock>(rt: &R) {
    thread::sleep(rt, Duration::from_millis(500));
}

/// The processor time that this thread has used since then; none where the clock can't be read.
fn used_since<R: CpuClock>(rt: &R, before: Option<Duration>) -> Option<Duration> {
    rt.thread_cpu_time().ok()?.checked_sub(before?)
}

/// Fills a relay of one place, and puts an end, which has to wait; tells the processor time that this took.
fn put_timed<R: Wait + CpuClock>(rt: &R, mut giver: Giver) -> (Giver, Option<Duration>)
    requires { given giver ≡ [] }
    ensures { gives_on result.0 ≡ gives_on giver }
{
    let before = rt.thread_cpu_time().ok();
    giver.put(rt, Piece::Mark);
    giver.put(rt, Piece::End);
    (giver, used_since(rt, before))
}

/// Takes a piece, but not at once, and tells whether it is a mark.
fn take_late<R: Wait + Clock>(rt: &R, mut taker: Taker) -> (Taker, bool)
    requires { taken taker ≡ [] }
    ensures { takes_on result.0 ≡ takes_on taker }
{
    wait_half_a_second(rt);
    let is_mark = matches!(taker.take(rt), Piece::Mark);
    (taker, is_mark)
}

/// Puts an end, but not at once.
fn put_late<R: Wait + Clock>(rt: &R, mut giver: Giver) -> Giver
    requires { given giver ≡ [] }
    ensures { gives_on result ≡ gives_on giver }
{
    wait_half_a_second(rt);
    giver.put(rt, Piece::End);
    giver
}

/// Takes a piece, which has to come first; tells the processor time that this took.
fn take_timed<R: Wait + CpuClock>(rt: &R, mut taker: Taker) -> (Taker, Option<Duration>)
    requires { taken taker ≡ [] }
    ensures { takes_on result.0 ≡ takes_on taker }
{
    let before = rt.thread_cpu_time().ok();
    taker.take(rt);
    (taker, used_since(rt, before))
}

/// What a taker uses of the processor that waits half a second for a piece.
fn used_by_taker<R: Threads + Wait + Clock + CpuClock + Sync>(
    rt: &R,
    alloc: Global,
) -> Result<Option<Duration>, Memory> {
    let (giver, taker) = bounded(alloc, 1)?;
    let (giver, (taker, used)) = thread::join(
        rt,
        move ||
            requires { given giver ≡ [] }
            ensures { gives_on result ≡ gives_on giver }
        { put_late(rt, giver) },
        move ||
            requires { taken taker ≡ [] }
            ensures { takes_on result.0 ≡ takes_on taker }
        { take_timed(rt, taker) },
    );
    settle(giver, taker);
    Ok(used)
}

/// What a giver uses of the processor that waits half a second for room.
fn used_by_giver<R: Threads + Wait + Clock + CpuClock + Sync>(
    rt: &R,
    alloc: Global,
) -> Result<Option<Duration>, Memory> {
    let (giver, taker) = bounded(alloc, 1)?;
    let ((giver, used), (taker, is_mark)) = thread::join(
        rt,
        move ||
            requires { given giver ≡ [] }
            ensures { gives_on result.0 ≡ gives_on giver }
        { put_timed(rt, giver) },
        move ||
            requires { taken taker ≡ [] }
            ensures { takes_on result.0 ≡ takes_on taker }
        { take_late(rt, taker) },
    );
    settle(giver, taker);
    Ok(if is_mark { used } else { None })
}

#[test]
fn a_half_that_waits_sleeps(rt: HostRuntime) -> Result<(), Fail> {
    let little = Some(Duration::from_millis(100));
    for used in [
        used_by_taker(&rt, rt.alloc())?,
        used_by_giver(&rt, rt.alloc())?,
    ] {
        assert!(rt; used.is_some() && used < little, "{used:?}");
    }
    Ok(())
}

/// Puts so many pieces, and then this one, on a relay without bound; whether memory was never refused.
fn put_eagerly<R: Wait>(
    rt: &R,
    mut giver: EagerGiver,
    count: u32,
    last: Piece,
) -> (EagerGiver, bool)
    requires { eager_given giver ≡ [] }
    ensures { eager_gives_on result.0 ≡ eager_gives_on giver }
{
    for _ in 0..count {
        if giver.put(rt, Piece::Mark).is_err() {
            giver.put_at_last(rt, last);
            return (giver, false);
        }
    }
    giver.put_at_last(rt, last);
    (giver, true)
}

/// Takes all pieces up to the one that closes: how many marks came before it, and whether it is an end.
fn take_eagerly<R: Wait>(rt: &R, mut taker: EagerTaker) -> (EagerTaker, u32, bool)
    requires { eager_taken taker ≡ [] }
    ensures { eager_takes_on result.0 ≡ eager_takes_on taker }
{
    let mut marks = 0u32;
    for _ in rt.forever() {
        match taker.take(rt) {
            Piece::Bytes(_) => {}
            Piece::Mark => marks = marks.wrapping_add(1),
            Piece::End => return (taker, marks, true),
            Piece::Broken => return (taker, marks, false),
        }
    }
    unreachable!()
}

/// How many pieces come before the last one through a relay without bound, all put before the first is taken, and whether that is an end.
fn count_behind<R: Wait>(
    rt: &R,
    alloc: Global,
    count: u32,
    last: Piece,
) -> Result<(u32, bool), Memory> {
    let (giver, taker) = unbounded(alloc)?;
    let (giver, all) = put_eagerly(rt, giver, count, last);
    let (taker, marks, ended) = take_eagerly(rt, taker);
    settle_edge(rt, EdgeGiver::Unbounded(giver), EdgeTaker::Unbounded(taker));
    if all { Ok((marks, ended)) } else { Err(Memory) }
}

#[test]
fn a_relay_without_bound_holds_all_that_is_put(rt: HostRuntime) -> Result<(), Fail> {
    let whole = count_behind(&rt, rt.alloc(), 1_000, Piece::End)?;
    assert_eq!(rt; whole, (1_000, true));
    let broken = count_behind(&rt, rt.alloc(), 3, Piece::Broken)?;
    assert_eq!(rt; broken, (3, false));
    Ok(())
}

/// How many pieces come through a relay without bound, from one thread to another.
fn count_beside<R: Threads + Wait + Sync>(
    rt: &R,
    alloc: Global,
    count: u32,
) -> Result<(u32, bool), Memory> {
    let (giver, taker) = unbounded(alloc)?;
    let ((giver, all), (taker, marks, ended)) = thread::join(
        rt,
        move ||
            requires { eager_given giver ≡ [] }
            ensures { eager_gives_on result.0 ≡ eager_gives_on giver }
        { put_eagerly(rt, giver, count, Piece::End) },
        move ||
            requires { eager_taken taker ≡ [] }
            ensures { eager_takes_on result.0 ≡ eager_takes_on taker }
        { take_eagerly(rt, taker) },
    );
    settle_edge(rt, EdgeGiver::Unbounded(giver), EdgeTaker::Unbounded(taker));
    if all { Ok((marks, ended)) } else { Err(Memory) }
}

#[test]
fn all_pieces_come_through_a_relay_without_bound(rt: HostRuntime) -> Result<(), Fail> {
    let through = count_beside(&rt, rt.alloc(), PIECES)?;
    assert_eq!(rt; through, (PIECES, true));
    Ok(())
}

/// Whether the pieces of two numbers, and the end behind them, come over an edge that has room for them.
fn hands_on<R: Wait>(
    rt: &R,
    alloc: Global,
    mut giver: EdgeGiver,
    mut taker: EdgeTaker,
) -> Result<bool, Memory>
    requires same { takes_over taker ≡ gives_over giver }
    requires given { put_on giver ≡ [] }
    requires taken { taken_from taker ≡ [] }
{
    giver.put(rt, numbered(alloc, 1)?)?;
    giver.put(rt, numbered(alloc, 2)?)?;
    giver.put(rt, Piece::End)?;
    let Piece::Bytes(first) = taker.take(rt) else {
        return Ok(false);
    };
    let Piece::Bytes(second) = taker.take(rt) else {
        return Ok(false);
    };
    let last = taker.take(rt);
    settle_edge(rt, giver, taker);
    Ok(
        first.as_slice() == 1u32.to_be_bytes().as_slice()
            && second.as_slice() == 2u32.to_be_bytes().as_slice()
            && matches!(last, Piece::End),
    )
}

#[test]
fn edges_of_either_sort_hand_pieces_on(rt: HostRuntime) -> Result<(), Fail> {
    let alloc = rt.alloc();
    let (giver, taker) = bounded(alloc, 3)?;
    let is_bounded = hands_on(
        &rt,
        alloc,
        EdgeGiver::Bounded(giver),
        EdgeTaker::Bounded(taker),
    )?;
    let (giver, taker) = unbounded(alloc)?;
    let is_unbounded = hands_on(
        &rt,
        alloc,
        EdgeGiver::Unbounded(giver),
        EdgeTaker::Unbounded(taker),
    )?;
    assert_eq!(rt; (is_bounded, is_unbounded), (true, true));
    Ok(())
}
