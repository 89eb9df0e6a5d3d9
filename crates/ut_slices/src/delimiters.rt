//! The delimiters of a paste, behind one that is empty: nothing stands before the first line of a row, and then they come in a cycle that
//! leaves the first out.
ghost use Rattle.std.specs.Prelude.{◌≡◌, ◌∷◌, ℕ, List, drop, None, IfOk};
ghost use Rattle.std.specs.Result.{is_ok};
ghost use Rattle.ut_slices.specs.Paste.{first_delimiter, following};
ghost use Rattle.ut_streams.specs.Streams.{Put};

use ps_lines::Memory;
use std::alloc::Global;
use ut_streams::put;

/// The delimiters behind one that is empty.
pub(crate) fn behind_none(
    alloc: Global,
    delimiters: &[Option<u8>],
) -> Result<Vec<Option<u8>>, Memory>
    ensures { IfOk result (λ all. all.items ≡ None ∷ delimiters.now) }
{
    let mut all = Vec::new(alloc);
    all.push(None)?;
    let mut left = delimiters;
    while let [delimiter, rest @ ..] = left {
        all.push(*delimiter)?;
        left = rest;
    }
    Ok(all)
}

/// Appends the delimiter at a place.
#[tactic(auto, using(crate::proofs::PutLemmas::puts))]
pub(crate) fn put_delimiter(
    delimiters: &[Option<u8>],
    place: usize,
    out: &mut Vec<u8>,
) -> Result<(), Memory>
    ensures { Put (first_delimiter (drop place delimiters.now)) out.old.items out.new.items (is_ok result) }
{
    match delimiters.get(place) {
        Some(Some(delimiter)) => put(&[*delimiter], out),
        Some(None) => Ok(()),
        None => Ok(()),
    }
}

/// The place of the delimiter behind that at a place.
#[tactic(auto, using(crate::proofs::WalkLemmas::nexts))]
pub(crate) fn next_place(delimiters: &[Option<u8>], place: usize) -> usize
    ensures { drop result delimiters.now ≡ following (drop 1 delimiters.now) (drop place delimiters.now) }
{
    if place < delimiters.len().saturating_sub(1) {
        place + 1
    } else {
        1
    }
}
