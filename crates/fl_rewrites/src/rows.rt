//! Numbers in a row.
ghost use Rattle.std.specs.Prelude.{◌≡◌, ◌+◌, ◌<◌, ◌^◌, IfOk};
ghost use Rattle.std.specs.List.{range_with_len};

use ps_lines::Memory;
use std::alloc::Global;

/// So many numbers from this one on.
pub fn row(alloc: Global, from: u32, count: u32) -> Result<Vec<u32>, Memory>
    requires { from + count < 2 ^ 32 }
    ensures { IfOk result (λ row. row.items ≡ range_with_len from count) }
{
    let mut row = Vec::new(alloc);
    for number in from..from + count {
        row.push(number)?;
    }
    Ok(row)
}
