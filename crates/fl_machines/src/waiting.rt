//! What a machine has written, and hasn't put yet.
ghost use Rattle.std.specs.Prelude.{◌≡◌, ◌<◌, ◌≤◌, ◌++◌, [], drop, length, vec_len, false, true, IfOk};
ghost use Rattle.ps_lines.specs.Lines.{is_empty as is_empty_def};
ghost use Rattle.fl_machines.specs.Waiting.{is_worth_putting as is_worth_putting_def};

use fl_graph::{Bytes, MAX_PIECE, first_piece};
use ps_lines::Memory;
use std::alloc::Global;
use std::marker::Model;
use std::mem;

/// From so many bytes on, half of what a piece can have, what waits is put before more is taken. Each piece is handed from thread to thread and
/// takes a turn of each node behind, and from half a piece on this costs no more than twice what it costs for full ones.
pub const HALF_PIECE: usize = MAX_PIECE / 2;

/// Bytes that a machine has written, and has still to put. Contracts see the list of them.
///
/// They are put in the buffer that they were written to, and the buffer of a piece that was taken is the next one: a machine that writes about
/// as much as it takes wants no memory at each piece.
#[derive(Drop)]
pub struct Waiting {
    alloc: Global,
    /// What waits is what this has from `given` on.
    out: Vec<u8>,
    given: usize,
    /// An empty buffer, the next one.
    spare: Vec<u8>,
}

impl Model for Waiting {
    ghost use Rattle.std.specs.Prelude.{◌≡◌, ◌≤◌, ℕ, List, [], drop, vec_len};

    ghost Value = { List ℕ };

    ghost view = { λ waiting. drop waiting.given waiting.out.items };

    ghost invariant = { λ waiting. (waiting.given ≤ vec_len waiting.out) × (waiting.spare.items ≡ []) };
}

impl Waiting {
    /// Nothing waits.
    pub fn nothing(alloc: Global) -> Waiting
        ensures { result ≡ [] }
    {
        Waiting {
            alloc,
            out: Vec::new(alloc),
            given: 0,
            spare: Vec::new(alloc),
        }
    }

    /// Whether nothing waits.
    #[tactic(auto, using(crate::proofs::WaitingLemmas::buffers))]
    pub fn is_empty(&self) -> bool
        ensures empty { result ≡ is_empty_def self.now }
        ensures none { result ≡ true → self.now ≡ [] }
    {
        self.given == self.out.len()
    }

    /// Whether so much waits that it is put before more is taken. Less is kept until more is written behind it, or nothing more comes.
    #[tactic(auto, using(crate::proofs::WaitingLemmas::buffers))]
    pub fn is_worth_putting(&self) -> bool
        ensures worth { result ≡ is_worth_putting_def self.now }
    {
        self.out.len() - self.given >= HALF_PIECE
    }

    /// What waits, in a buffer to write more behind it. Nothing waits until it is held again.
    pub fn buffer(&mut self) -> Vec<u8>
        ensures waited { result.items ≡ self.old }
        ensures none { self.new ≡ [] }
    {
        let mut out = mem::replace(&mut self.out, Vec::new(self.alloc));
        drop_front(&mut out, self.given);
        self.given = 0;
        out
    }

    /// What the buffer has waits from now on, and nothing else does.
    pub fn hold(&mut self, out: Vec<u8>)
        ensures { self.new ≡ out.items }
    {
        self.out = out;
        self.given = 0;
    }

    /// Keeps the buffer of a piece that was taken.
    pub fn keep(&mut self, piece: Bytes)
        ensures { self.new ≡ self.old }
    {
        let mut spare = piece.into_vec();
        spare.clear();
        self.spare = spare;
    }

    /// The front of what waits, as long as a piece can be; it waits no more.
    #[tactic(auto, using(crate::proofs::WaitingLemmas::buffers))]
    pub fn next(&mut self) -> Result<Bytes, Memory>
        requires { is_empty_def self.old ≡ false }
        ensures { IfOk result (λ piece. self.old ≡ piece ++ self.new) }
    {
        if self.given == 0 && is_given_whole(&self.out) {
            return give_buffer(self.alloc, &mut self.out, &mut self.spare);
        }
        copy_front(self.alloc, self.out.as_slice(), &mut self.given)
    }
}

/// Drops the bytes before a place, those that were given.
fn drop_front(out: &mut Vec<u8>, given: usize)
    requires { given ≤ length out.old.items }
    ensures { out.new.items ≡ drop given out.old.items }
{
    if given == 0 {
        return;
    }
    let left = out.len() - given;
    out.as_mut_slice().copy_within(given.., 0);
    out.truncate(left);
}

/// Whether the buffer itself is put. One that is half empty isn't: pieces may wait on an edge in any number, and would hold it all. Nor is one with more
/// than two pieces: with each of them what is left would be moved.
fn is_given_whole(out: &Vec<u8>) -> bool {
    out.len() <= 2 * MAX_PIECE && out.capacity() - out.len() <= out.len()
}

/// The front of what waits in `out` from `given` on, in a buffer of its own; it waits no more.
pub(crate) fn copy_front(alloc: Global, out: &[u8], given: &mut usize) -> Result<Bytes, Memory>
    requires { given.old < length out.now }
    ensures given { IfOk result (λ bytes. drop given.old out.now ≡ bytes ++ drop given.new out.now) }
    ensures within { given.new ≤ length out.now }
{
    let bytes = first_piece(alloc, &out[*given..])?;
    *given += bytes.as_slice().len();
    Ok(bytes)
}

/// The front of `out`, in the buffer that it lies in. What a piece can't have of it goes to the next buffer.
fn give_buffer(alloc: Global, out: &mut Vec<u8>, spare: &mut Vec<u8>) -> Result<Bytes, Memory>
    requires some { 0 < vec_len out.old }
    requires empty { spare.old.items ≡ [] }
    ensures given { IfOk result (λ bytes. out.old.items ≡ bytes ++ out.new.items) }
    ensures empty { spare.new.items ≡ [] }
{
    let end = out.len().min(MAX_PIECE);
    let mut rest = mem::replace(spare, Vec::new(alloc));
    rest.extend_from_slice(&out[end..])?;
    out.truncate(end);
    Ok(Bytes::new(mem::replace(out, rest)))
}
