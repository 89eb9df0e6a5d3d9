//! The command substitutions of a text, and where they end: so each is read once, however many others it stands in.
ghost use Rattle.std.specs.Prelude.{◌≡◌, IfSome};
ghost use Rattle.sh_lex.specs.Reads.{Reads, past};
ghost use Rattle.sh_words.specs.Words.{Passes, in_commands};
ghost use Rattle.sh_words.specs.Inner.Extents.{EndsItself};

use ps_lines::Memory;
use sh_lex::{Construct, Nest, Spot, Step, step};
use std::alloc::Global;

/// The tokens of a command substitution, with its `)`.
#[derive(Clone, Copy, Debug)]
struct Extent<'a> {
    /// Where they begin: an offset of the text, in bytes.
    from: usize,
    /// Their bytes.
    bytes: &'a [u8],
    ghost ends: { EndsItself bytes.now },
}

/// Command substitutions of a text, by where they stand.
#[derive(Debug, Drop)]
pub struct Substitutions<'a> {
    /// They, in the order of their offsets.
    extents: Vec<Extent<'a>>,
}

/// A construct that is open in another one.
#[derive(Clone, Copy, Debug)]
struct Opened<'a> {
    /// The other one, as it goes on.
    outer: Construct,
    /// The construct.
    inner: Construct,
    /// What is left of the text where it opened.
    text: &'a [u8],
}

/// The tokens of a text, as those of a command substitution that doesn't end.
const TOKENS: Construct = Construct::Commands(
    Nest {
        levels: 0,
        in_braces: false,
    },
    Some(0),
    Spot::Between,
);

impl<'a> Substitutions<'a> {
    /// No command substitution: whoever reads by these reads each.
    pub fn none(alloc: Global) -> Substitutions<'a> {
        Substitutions {
            extents: Vec::new(alloc),
        }
    }

    /// Those of a text, up to where it can't be read any more. The text is gone over once.
    pub fn of(alloc: Global, text: &'a [u8]) -> Result<Substitutions<'a>, Memory> {
        let mut extents = extents_of(alloc, text)?;
        extents.sort_by_key(|extent| extent.from)?;
        Ok(Substitutions { extents })
    }

    /// What is left behind the tokens of a command substitution that begin here, at this offset of the text that is known; None where
    /// no known one has them.
    ///
    /// The bytes are compared: an offset alone says nothing of another text.
    pub(crate) fn behind<'b>(&self, from: usize, here: &'b [u8]) -> Option<&'b [u8]>
        ensures { IfSome result (λ rest. Passes in_commands here.now rest.now) }
    {
        let extents = self.extents.as_slice();
        match extents.binary_search_by_key(&from, |extent| extent.from) {
            Ok(place) => match extents.get(place) {
                Some(extent) => here.strip_prefix(extent.bytes),
                None => None,
            },
            Err(_) => None,
        }
    }
}

/// The command substitutions of a text, in the order in which they end.
fn extents_of(alloc: Global, text: &[u8]) -> Result<Vec<Extent<'_>>, Memory> {
    let mut extents = Vec::new(alloc);
    let mut open: Vec<Opened<'_>> = Vec::new(alloc);
    let mut part = TOKENS;
    let mut rest = text;
    loop {
        match step(part, rest) {
            Step::Goes(next, after) => {
                part = next;
                rest = after;
            }
            Step::Enters(inner, outer, after) => {
                open.push(Opened {
                    outer,
                    inner,
                    text: after,
                })?;
                part = inner;
                rest = after;
            }
            Step::Ends(after) => {
                let Some(opened) = open.pop() else {
                    return Ok(extents);
                };
                if let Some(extent) = extent_of(text.len(), opened, after) {
                    extents.push(extent)?;
                }
                part = opened.outer;
                rest = after;
            }
            Step::Offends(_) => return Ok(extents),
        }
    }
}

/// The command substitution that has ended here, if it is one and no subshell in another. The text has `total` bytes.
fn extent_of<'a>(total: usize, opened: Opened<'a>, behind: &[u8]) -> Option<Extent<'a>>
    requires { Reads opened.inner opened.text.now (past behind.now) }
{
    match opened.outer {
        Construct::Commands(_, _, Spot::Between) => None,
        _ => match opened.inner {
            Construct::Commands(_, Some(_), Spot::Between) => {
                let count = opened.text.len().saturating_sub(behind.len());
                Some(Extent {
                    from: total.saturating_sub(opened.text.len()),
                    bytes: &opened.text[..count],
                })
            }
            _ => None,
        },
    }
}
