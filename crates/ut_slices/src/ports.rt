//! What came at the ports of a utility that reads several inputs at once, and wasn't passed on yet.
ghost use Rattle.std.specs.Prelude.{◌≡◌, ◌≤◌, ◌+◌, ◌∷◌, ◌++◌, ◌==◌, ℕ, List, [], length, drop, nat_lt, false, true, IfOk, OnOk, if◌then◌else◌};
ghost use Rattle.ut_slices.specs.Inner.Ports.{is_open_at, total_waiting, waiting_at, waits};

use crate::waits::Port;
use ps_lines::Memory;
use std::alloc::Global;

/// So many ports, open, at which nothing waits.
#[tactic(auto, using(crate::proofs::PortLemmas::fresh))]
pub(crate) fn open_ports(alloc: Global, count: u32) -> Result<Vec<Port>, Memory>
    ensures empty { IfOk result (λ ports. (port : ℕ) → waiting_at ports.items port ≡ []) }
    ensures all_open { IfOk result (λ ports. (port : ℕ) → is_open_at ports.items port ≡ nat_lt port count) }
{
    let mut ports = Vec::new(alloc);
    let mut left = count;
    while left > 0 {
        ports.push(Port {
            held: Vec::new(alloc),
            passed: 0,
            has_ended: false,
        })?;
        left -= 1;
    }
    Ok(ports)
}

/// The bytes that wait at a port.
pub(crate) fn waiting(ports: &[Port], number: u32) -> &[u8]
    ensures { result.now ≡ waiting_at ports.now number }
{
    match ports.get(number as usize) {
        Some(port) => &port.held[port.passed..],
        None => &[],
    }
}

/// Whether a port hasn't ended.
pub(crate) fn is_open(ports: &[Port], number: u32) -> bool
    ensures { result ≡ is_open_at ports.now number }
{
    match ports.get(number as usize) {
        Some(port) => !port.has_ended,
        None => false,
    }
}

/// Passes on the first bytes, so many, that wait at a port.
pub(crate) fn pass(ports: &mut Vec<Port>, number: u32, count: usize)
    requires { count ≤ length (waiting_at ports.old.items number) }
    ensures waiting { (other : ℕ) → waiting_at ports.new.items other ≡ (if other == number then drop count (waiting_at ports.old.items number) else waiting_at ports.old.items other) }
    ensures open { (other : ℕ) → is_open_at ports.new.items other ≡ is_open_at ports.old.items other }
    ensures total { total_waiting ports.new.items + count ≡ total_waiting ports.old.items }
{
    let place = number as usize;
    if place < ports.len() {
        let port = &mut ports[place];
        port.passed += count;
    }
}

/// Holds the next piece of a port that hasn't ended.
pub(crate) fn hold(ports: &mut Vec<Port>, number: u32, piece: &[u8]) -> Result<(), Memory>
    requires open { is_open_at ports.old.items number ≡ true }
    ensures waiting { OnOk result ((other : ℕ) → waiting_at ports.new.items other ≡ (if other == number then waiting_at ports.old.items number ++ piece.now else waiting_at ports.old.items other)) }
    ensures open { (other : ℕ) → is_open_at ports.new.items other ≡ is_open_at ports.old.items other }
{
    let place = number as usize;
    if place < ports.len() {
        return take_in(&mut ports[place], piece);
    }
    Ok(())
}

/// Puts a piece behind what waits.
fn take_in(port: &mut Port, piece: &[u8]) -> Result<(), Memory>
    ensures waits { OnOk result (waits port.new ≡ waits port.old ++ piece.now) }
    ensures ended { port.new.has_ended ≡ port.old.has_ended }
{
    make_room(port);
    port.held.extend_from_slice(piece)?;
    Ok(())
}

/// Lets go of a piece that was passed on.
fn make_room(port: &mut Port)
    ensures waits { waits port.new ≡ waits port.old }
    ensures ended { port.new.has_ended ≡ port.old.has_ended }
{
    if port.passed == port.held.len() {
        port.held.clear();
        port.passed = 0;
    }
}

/// Ends a port.
pub(crate) fn end(ports: &mut Vec<Port>, number: u32)
    ensures waiting { (other : ℕ) → waiting_at ports.new.items other ≡ waiting_at ports.old.items other }
    ensures open { (other : ℕ) → is_open_at ports.new.items other ≡ (if other == number then false else is_open_at ports.old.items other) }
{
    let place = number as usize;
    if place < ports.len() {
        let port = &mut ports[place];
        port.has_ended = true;
    }
}
