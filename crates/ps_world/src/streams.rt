//! Whole texts through sources and sinks.
ghost use Rattle.std.specs.Prelude.{◌≡◌, ◌+◌, ◌^◌, ◌<◌, ◌≤◌, length, vec_len, Ok, IfOk, OnOk, OnErr};
ghost use Rattle.ps_world.specs.Counts.{Counts};
ghost use Rattle.ps_world.specs.Told.{then_bytes, GrewByPrefix, IsFront, IsLeftOf, IsWhole, IsEnded, HandsOn};

use crate::error::WorldErr;
use crate::sink::Sink;
use crate::source::Source;
use std::alloc::{AllocError, Global};

/// The bytes that are asked of a source at a time.
const PIECE: usize = 65_536;

/// Writes all of `bytes`. On an error the sink has taken a front of them.
pub fn write_all<S: Sink>(sink: &mut S, bytes: &[u8]) -> Result<(), WorldErr>
    ensures ok { OnOk result (S.taken sink.new ≡ then_bytes (S.taken sink.old) bytes.now) }
    ensures err { OnErr result (GrewByPrefix (S.taken sink.old) (S.taken sink.new) bytes.now) }
    ensures sent { S.sent sink.new ≡ S.sent sink.old }
    ensures cause { Counts (S.faults sink.old) (S.faults sink.new) result }
{
    let mut left = bytes;
    while !left.is_empty() {
        let count = sink.write(left)?;
        left = &left[count..];
    }
    Ok(())
}

/// Reads a source to its end. On an error what is left is the end of what was left before.
pub fn read_all<S: Source>(alloc: Global, source: &mut S) -> Result<Vec<u8>, WorldErr>
    ensures ok { IfOk result (λ text. IsWhole (S.left source.old) (S.left source.new) text.items) }
    ensures err { OnErr result (IsLeftOf (S.left source.old) (S.left source.new)) }
    ensures cause { Counts (S.faults source.old) (S.faults source.new) result }
{
    read_front(alloc, source, usize::MAX)
}

/// Reads `most` bytes of a source, or all that it has where these are fewer.
///
/// On an error what is left is the end of what was left before.
pub fn read_front<S: Source>(
    alloc: Global,
    source: &mut S,
    most: usize,
) -> Result<Vec<u8>, WorldErr>
    ensures ok { IfOk result (λ text. IsFront (S.left source.old) (S.left source.new) text.items most) }
    ensures err { OnErr result (IsLeftOf (S.left source.old) (S.left source.new)) }
    ensures cause { Counts (S.faults source.old) (S.faults source.new) result }
{
    let mut buffer = piece_buffer(alloc)?;
    read_through(alloc, source, &mut buffer, most)
}

/// Room for one piece.
fn piece_buffer(alloc: Global) -> Result<Vec<u8>, AllocError>
    ensures { IfOk result (λ buffer. 0 < vec_len buffer) }
{
    vec![in alloc; 0; PIECE]
}

/// Reads `most` bytes of a source, or all that it has, through a buffer.
fn read_through<S: Source>(
    alloc: Global,
    source: &mut S,
    buffer: &mut [u8],
    most: usize,
) -> Result<Vec<u8>, WorldErr>
    requires { 0 < length buffer.old }
    ensures ok { IfOk result (λ text. IsFront (S.left source.old) (S.left source.new) text.items most) }
    ensures err { OnErr result (IsLeftOf (S.left source.old) (S.left source.new)) }
    ensures cause { Counts (S.faults source.old) (S.faults source.new) result }
{
    let mut text = Vec::new(alloc);
    while text.len() < most {
        let room = buffer.len().min(most - text.len());
        let count = append_piece(source, &mut buffer[..room], &mut text)?;
        if count == 0 {
            break;
        }
    }
    Ok(text)
}

/// Reads once into `piece`, and appends what came to `text`; answers how many bytes these are, 0 at the end.
fn append_piece<S: Source>(
    source: &mut S,
    piece: &mut [u8],
    text: &mut Vec<u8>,
) -> Result<usize, WorldErr>
    requires { 0 < length piece.old }
    ensures ok { IfOk result (λ count. HandsOn (S.left source.old) (S.left source.new) text.old.items text.new.items count) }
    ensures bound { IfOk result (λ count. count ≤ length piece.old) }
    ensures end { result ≡ Ok 0 → IsEnded (S.left source.new) }
    ensures err { OnErr result (IsLeftOf (S.left source.old) (S.left source.new)) }
    ensures given { IfOk result (λ count. S.given source.new ≡ S.given source.old + count) }
    ensures within { S.given source.new ≤ 2 ^ 40 }
    ensures cause { Counts (S.faults source.old) (S.faults source.new) result }
{
    let count = source.read(piece)?;
    text.extend_from_slice(&piece[..count])?;
    Ok(count)
}
