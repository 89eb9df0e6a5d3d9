//! Streams over cuttings of a text, or of three.
ghost use Rattle.std.specs.Prelude.{◌≡◌, false};

use ps_lines::Memory;
use std::alloc::Global;
use ut_streams::{PortStream, Stream, cut_behind, feed_all};

/// Whether a stream writes this of a text that is cut so, selects a line where it says so, and has wanted no memory.
pub(super) fn gives<S: Stream>(
    alloc: Global,
    stream: &mut S,
    text: &[u8],
    cuts: u64,
    wanted: &[u8],
    selects: bool,
) -> Result<bool, Memory>
    requires { S.spent stream.old ≡ false }
{
    let pieces = cut_behind(alloc, text, cuts)?;
    let mut out = Vec::new(alloc);
    feed_all(stream, pieces.as_slice(), &mut out)?;
    Ok(out.as_slice() == wanted && !stream.is_spent() && stream.has_selected() == selects)
}

/// The cuttings of three texts.
pub(super) static CUTS: [u64; 9] = [0, 1, 2, 4, 5, 10, 21, 42, 127];

/// Whether a stream of at most three ports writes this of their texts, cut so, and has wanted no memory.
pub(super) fn gives_at_ports<S: PortStream>(
    alloc: Global,
    stream: &mut S,
    texts: &[&str; 3],
    cuts: u64,
    wanted: &str,
) -> Result<bool, Memory> {
    let [one, two, three] = texts;
    let pieces = [
        cut_behind(alloc, one.as_bytes(), cuts)?,
        cut_behind(alloc, two.as_bytes(), cuts / 2)?,
        cut_behind(alloc, three.as_bytes(), cuts / 4)?,
    ];
    let mut out = Vec::new(alloc);
    feed_ports(stream, &pieces, &mut out)?;
    Ok(out.as_slice() == wanted.as_bytes() && !stream.is_spent())
}

/// Feeds each port its pieces as they are needed, and ends it.
fn feed_ports<S: PortStream>(
    stream: &mut S,
    pieces: &[Vec<Vec<u8>>; 3],
    out: &mut Vec<u8>,
) -> Result<(), Memory> {
    let mut fed = [0_usize; 3];
    for _ in 0..64 {
        if stream.is_spent() {
            return Err(Memory);
        }
        let Some(port) = stream.needs() else {
            return Ok(());
        };
        let place = port as usize;
        if place >= 3 {
            return Ok(());
        }
        match pieces[place].get(fed[place]) {
            Some(piece) => {
                stream.feed_port(port, piece.as_slice(), out)?;
                fed[place] = fed[place].saturating_add(1);
            }
            None => stream.end_port(port, out)?,
        }
    }
    Ok(())
}
