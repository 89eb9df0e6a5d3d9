//! Where a piece's first lines end, and where a text's last ones begin.
ghost use Rattle.std.specs.Prelude.{◌≡◌, ◌-◌, List, ℕ, length, drop};
ghost use Rattle.ut_slices.specs.Ends.{last, last_lines};
ghost use Rattle.ut_slices.specs.Inner.Cuts.{BeginsLast, PassesLines};

use ps_lines::cut_line;
use ut_args::Unit;
use ut_streams::cut_last_line;

/// A piece, cut behind its first lines.
#[derive(Drop)]
pub(crate) struct Passed<'text> {
    /// The lines; the whole piece where it has too few.
    pub front: &'text [u8],
    /// What stands behind them.
    pub rest: &'text [u8],
    /// How many lines are still to come.
    pub left: u64,
}

/// Cuts a piece behind so many lines.
pub(crate) fn pass_lines(piece: &[u8], count: u64) -> Passed<'_>
    ensures { PassesLines piece.now count result.front.now result.rest.now result.left }
{
    let mut rest = piece;
    let mut left = count;
    while left > 0 {
        match cut_line(rest) {
            Some((_, after)) => {
                rest = after;
                left -= 1;
            }
            None => {
                return Passed {
                    front: piece,
                    rest: &[],
                    left,
                };
            }
        }
    }
    let at = piece.len() - rest.len();
    Passed {
        front: &piece[..at],
        rest: &piece[at..],
        left: 0,
    }
}

/// The place at which the last lines, or bytes, begin: so many or all.
pub(crate) fn last_at(unit: Unit, count: u64, text: &[u8]) -> usize
    ensures { BeginsLast (last unit count) text.now result }
{
    match unit {
        Unit::Lines => last_lines_at(count, text),
        Unit::Bytes => last_bytes_at(count, text),
    }
}

fn last_lines_at(count: u64, text: &[u8]) -> usize
    ensures { BeginsLast (last_lines count) text.now result }
{
    let mut front = text;
    let mut left = count;
    while left > 0 {
        match front.split_last() {
            Some((_, body)) => {
                front = cut_last_line(body).0;
                left -= 1;
            }
            None => return 0,
        }
    }
    front.len()
}

fn last_bytes_at(count: u64, text: &[u8]) -> usize
    ensures { BeginsLast (λ text. drop (length text - count) text) text.now result }
{
    (text.len() as u64).saturating_sub(count) as usize
}
