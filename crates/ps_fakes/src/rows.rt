//! Entries of a tree as a table has them.
ghost use Rattle.std.specs.Prelude.{◌≡◌, ℕ, List, IfOk};
ghost use Rattle.std.specs.Borrow.{Bor};
ghost use Rattle.std.specs.Global.{Vec};
ghost use Rattle.std.specs.Option.{option_map};
ghost use Rattle.ps_fakes.specs.Trees.{entries_of, rows_of};

use std::alloc::{AllocError, Global};

/// Copies of rows.
pub fn copy_rows(
    alloc: Global,
    rows: &[(&[u8], Option<&[u8]>)],
) -> Result<Vec<(Vec<u8>, Option<Vec<u8>>)>, AllocError>
    ensures { IfOk result (λ entries. entries_of entries.items ≡ rows_of rows.now) }
{
    let mut entries = Vec::new(alloc);
    let mut left = rows;
    while let [(text, bytes), rest @ ..] = left {
        let text = Vec::from_slice(alloc, text)?;
        let bytes = copy_bytes(alloc, *bytes)?;
        entries.push((text, bytes))?;
        left = rest;
    }
    Ok(entries)
}

/// A copy of a file's bytes.
fn copy_bytes(alloc: Global, bytes: Option<&[u8]>) -> Result<Option<Vec<u8>>, AllocError>
    ensures { IfOk result (λ copy. option_map (λ (bytes : Vec ℕ). bytes.items) copy ≡ option_map (λ (bytes : Bor (List ℕ)). bytes.now) bytes.entry) }
{
    match bytes {
        Some(bytes) => Ok(Some(Vec::from_slice(alloc, bytes)?)),
        None => Ok(None),
    }
}
