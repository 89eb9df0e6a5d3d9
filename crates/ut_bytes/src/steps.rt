//! The steps of tr on a piece, in place, behind what the output had before.
ghost use Rattle.std.specs.Prelude.{◌≡◌, ◌≤◌, ◌++◌, ◌&&◌, ◌==◌, true, length, take, drop, OnOk, OnErr};
ghost use Rattle.ut_streams.specs.Streams.{Wrote};
ghost use Rattle.ut_bytes.specs.Inner.Before.{before_of};
ghost use Rattle.ut_bytes.specs.Inner.Tables.{image_at, marked};
ghost use Rattle.ut_bytes.specs.Steps.{deleted, squeezed_behind, translated};

use crate::tables::{Images, Marks};
use ps_lines::Memory;

/// No byte: what stands before the first.
pub(crate) const NO_BYTE: u16 = 256;

/// Appends the piece, with its bytes that aren't in the set.
pub(crate) fn put_deleted(set: &Marks, piece: &[u8], out: &mut Vec<u8>) -> Result<(), Memory>
    ensures ok { OnOk result (out.new.items ≡ out.old.items ++ deleted (marked set.now) piece.now) }
    ensures err { OnErr result (out.new.items ≡ out.old.items) }
{
    let from = out.len();
    append(piece, out)?;
    let left = delete(set, from, out.as_mut_slice());
    out.truncate(left);
    Ok(())
}

/// Appends the piece, each byte as its image.
pub(crate) fn put_translated(images: &Images, piece: &[u8], out: &mut Vec<u8>) -> Result<(), Memory>
    ensures ok { OnOk result (out.new.items ≡ out.old.items ++ translated (image_at images.now) piece.now) }
    ensures err { OnErr result (out.new.items ≡ out.old.items) }
{
    let from = out.len();
    append(piece, out)?;
    translate(images, from, out.as_mut_slice());
    Ok(())
}

/// Appends the piece.
pub(crate) fn append(piece: &[u8], out: &mut Vec<u8>) -> Result<(), Memory>
    ensures ok { OnOk result (out.new.items ≡ out.old.items ++ piece.now) }
    ensures err { OnErr result (out.new.items ≡ out.old.items) }
{
    out.extend_from_slice(piece)?;
    Ok(())
}

/// Squeezes what stands from the place `from` on, and answers the byte that is then the one before.
pub(crate) fn squeeze_behind(set: &Marks, last: u16, from: usize, out: &mut Vec<u8>) -> u16
    requires { from ≤ length out.old.items }
    ensures { Wrote (λ more. squeezed_behind (before_of last) (marked set.now) (drop from out.old.items ++ more)) (squeezed_behind (before_of result) (marked set.now))
        (take from out.old.items) out.new.items true }
{
    let (left, last) = squeeze(set, last, from, out.as_mut_slice());
    out.truncate(left);
    last
}

/// Moves the bytes that aren't in the set together, from the place `from` on, and answers where they end.
fn delete(set: &Marks, from: usize, bytes: &mut [u8]) -> usize
    requires { from ≤ length bytes.old }
    ensures left { take result bytes.new ≡ take from bytes.old ++ deleted (marked set.now) (drop from bytes.old) }
    ensures long { length bytes.new ≡ length bytes.old }
{
    let mut left = from;
    for place in from..bytes.len() {
        let byte = bytes[place];
        bytes[left] = byte;
        left += usize::from(!set.has(byte));
    }
    left
}

/// Puts its image in the place of each byte, from the place `from` on.
fn translate(images: &Images, from: usize, bytes: &mut [u8])
    requires { from ≤ length bytes.old }
    ensures { bytes.new ≡ take from bytes.old ++ translated (image_at images.now) (drop from bytes.old) }
{
    for place in from..bytes.len() {
        bytes[place] = images.at(bytes[place]);
    }
}

/// Moves the bytes that squeezing keeps together, from the place `from` on, and answers where they end, and the byte that is then
/// the one before.
fn squeeze(set: &Marks, last: u16, from: usize, bytes: &mut [u8]) -> (usize, u16)
    requires { from ≤ length bytes.old }
    ensures left { Wrote (λ more. squeezed_behind (before_of last) (marked set.now) (drop from bytes.old ++ more)) (squeezed_behind (before_of result.1) (marked set.now))
        (take from bytes.old) (take result.0 bytes.new) true }
    ensures long { length bytes.new ≡ length bytes.old }
{
    let mut left = from;
    let mut before = last;
    for place in from..bytes.len() {
        let byte = bytes[place];
        bytes[left] = byte;
        left += usize::from(!is_repeat(set, before, byte));
        before = u16::from(byte);
    }
    (left, before)
}

/// Whether the byte is in the set and is the one before.
fn is_repeat(set: &Marks, before: u16, byte: u8) -> bool
    ensures { result ≡ (marked set.now byte && byte == before) }
{
    set.has(byte) & (u16::from(byte) == before)
}
