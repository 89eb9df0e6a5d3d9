//! The invocations of rows.
ghost use Rattle.std.specs.Prelude.{◌≡◌, true, IfOk, IfSome};
ghost use Rattle.ut_args.specs.Built.{is_built_of};

use ps_lines::Memory;
use std::alloc::Global;
use ut_args::{ArgFault, Inv, is_built, read_inv};

/// The invocation that these words are, if they are one.
pub(super) fn invocation_of(alloc: Global, words: &[Vec<u8>]) -> Result<Option<Inv>, Memory> {
    if words.is_empty() {
        return Ok(None);
    }
    match read_inv(alloc, words) {
        Ok(inv) => Ok(Some(inv)),
        Err(ArgFault::Memory) => Err(Memory),
        Err(_) => Ok(None),
    }
}

/// The invocation that these words are, if they are one that is built.
pub(super) fn built_of(alloc: Global, words: &[Vec<u8>]) -> Result<Option<Inv>, Memory>
    ensures { IfOk result (λ read. IfSome read (λ inv. is_built_of inv ≡ true)) }
{
    match invocation_of(alloc, words)? {
        Some(inv) => {
            if is_built(&inv) {
                return Ok(Some(inv));
            }
            // An invocation is let go by a call: going out of scope is proved a command at a time.
            drop(inv);
            Ok(None)
        }
        None => Ok(None),
    }
}

/// Words, one by one.
pub(super) fn words_of(alloc: Global, words: &[&[u8]]) -> Result<Vec<Vec<u8>>, Memory> {
    let mut texts = Vec::new(alloc);
    for word in words {
        texts.push(Vec::from_slice(alloc, word)?)?;
    }
    Ok(texts)
}

/// The invocation of these words, if they are one.
pub(super) fn read_words(alloc: Global, words: &[&[u8]]) -> Result<Option<Inv>, Memory> {
    let texts = words_of(alloc, words)?;
    invocation_of(alloc, texts.as_slice())
}
