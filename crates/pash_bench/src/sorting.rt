//! `sort` over the pieces of a file, between two looks at the clock.
ghost use Rattle.std.specs.Prelude.{◌≡◌, false};

use crate::clock::Timed;
use ps_lines::Memory;
use std::alloc::Global;
use std::io;
use std::io::{ErrorKind, Read};
use std::rt::Clock;
use std::time::Instant;
use ut_args::{ArgFault, Inv, SortInv, read_inv};
use ut_sort::{SortedLines, Sorter};
use ut_streams::Stream;

/// The bytes that are read at a time.
const PIECE: usize = 65_536;

/// `sort` with these options, which finds bytes of output; they are made piece by piece, and dropped.
pub fn time_sort<R: Read + Drop>(
    rt: &(impl AllocGlobal + Clock),
    mut reader: R,
    options: &[String],
) -> io::Result<Timed> {
    let Some(inv) = read_sort(rt.alloc(), options)? else {
        return Err(io::Error::from(ErrorKind::InvalidInput));
    };
    let start = Instant::now(rt)?;
    let Some(count) = sort_reader(rt.alloc(), &inv, &mut reader)? else {
        return Err(io::Error::from(ErrorKind::OutOfMemory));
    };
    let nanoseconds = start.elapsed(rt)?.as_nanos();
    Ok(Timed { count, nanoseconds })
}

/// The invocation of `sort` with these options, if it is one.
fn read_sort(alloc: Global, options: &[String]) -> io::Result<Option<SortInv>> {
    let mut words = Vec::new(alloc);
    words.push(Vec::from_slice(alloc, b"sort")?)?;
    for option in options {
        words.push(Vec::from_slice(alloc, option.as_bytes())?)?;
    }
    match read_inv(alloc, words.as_slice()) {
        Ok(Inv::Sort(inv)) => Ok(Some(inv)),
        Ok(_) => Ok(None),
        Err(ArgFault::Memory) => Err(io::Error::from(ErrorKind::OutOfMemory)),
        Err(_) => Ok(None),
    }
}

/// Sorts the lines that a reader gives; the number of bytes that are written, or None where memory is wanted.
fn sort_reader<R: Read>(alloc: Global, inv: &SortInv, reader: &mut R) -> io::Result<Option<usize>> {
    let Ok(mut sorter) = Sorter::new(alloc, inv) else {
        return Ok(None);
    };
    let mut piece = vec![in alloc; 0; PIECE]?;
    let mut out = Vec::new(alloc);
    if !gather(reader, &mut sorter, &mut piece, &mut out)? {
        return Ok(None);
    }
    match sorter.sort() {
        Ok(mut lines) => Ok(count_pieces(&mut lines, &mut out)),
        Err(Memory) => Ok(None),
    }
}

/// Feeds the sorter all that a reader gives; false where memory is wanted.
fn gather<R: Read>(
    reader: &mut R,
    sorter: &mut Sorter,
    piece: &mut [u8],
    out: &mut Vec<u8>,
) -> io::Result<bool>
    requires { ⟦<Sorter as Stream>⟧.spent sorter.old ≡ false }
{
    for _ in 0..u64::MAX {
        let size = reader.read(piece)?;
        if size == 0 {
            break;
        }
        match sorter.feed(&piece[..size], out) {
            Ok(()) => {}
            Err(Memory) => return Ok(false),
        }
    }
    Ok(true)
}

/// The number of bytes of sorted lines, which are written piece by piece; None where memory is wanted.
fn count_pieces(lines: &mut SortedLines, out: &mut Vec<u8>) -> Option<usize> {
    let mut count: usize = 0;
    for _ in 0..u64::MAX {
        if lines.is_done() {
            break;
        }
        out.clear();
        match lines.put_piece(out) {
            Ok(()) => count = count.saturating_add(out.len()),
            Err(Memory) => return None,
        }
    }
    Some(count)
}
