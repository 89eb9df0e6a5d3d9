//! The relays of start words.
ghost use Rattle.std.specs.Prelude.{◌≡◌, []};
ghost use Rattle.fl_relay.specs.Relays.{gives_on, takes_on, given, taken};

use fl_relay::{Giver, Taker, bounded};
use ps_lines::Memory;
use std::alloc::Global;

/// A relay on which a start word is to come.
#[derive(Drop)]
pub struct Line {
    pub go: Giver,
    pub start: Taker,
    ghost same: { takes_on start ≡ gives_on go },
    ghost given: { given go ≡ [] },
    ghost taken: { taken start ≡ [] },
}

/// A relay for one start word.
pub fn make_line(alloc: Global) -> Result<Line, Memory> {
    let (go, start) = bounded(alloc, 1)?;
    Ok(Line { go, start })
}
