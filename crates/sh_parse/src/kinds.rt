//! What the bytes of a word allow it to be.
ghost use Rattle.std.specs.Prelude.{◌≡◌, ◌++◌, take, IfOk, OnOk};
ghost use Rattle.sh_parse.specs.Kinds.{spelled, reserved_by, are_name_bytes, is_name_text, goes_to_value, is_assign, other_kind, kind_of};
ghost use Rattle.sh_parse.specs.Inner.Kinds.{deciding};

use crate::items::{Reserved, WordKind};
use ps_lines::{Memory, is_name_byte, is_name_start};
use sh_lex::front;
use std::alloc::Global;

/// The spelling of each reserved word (XCU 2.4).
const BANG: &[u8] = b"!";

const OPEN_BRACE: &[u8] = b"{";

const CLOSE_BRACE: &[u8] = b"}";

const IF: &[u8] = b"if";

const THEN: &[u8] = b"then";

const ELIF: &[u8] = b"elif";

const ELSE: &[u8] = b"else";

const FI: &[u8] = b"fi";

const WHILE: &[u8] = b"while";

const UNTIL: &[u8] = b"until";

const DO: &[u8] = b"do";

const DONE: &[u8] = b"done";

const FOR: &[u8] = b"for";

const CASE: &[u8] = b"case";

const ESAC: &[u8] = b"esac";

const IN: &[u8] = b"in";

/// What a word is, by its bytes in the script. Only those that decide it are read and copied: a word may have many others, among them
/// those of the words inside it.
#[tactic(auto, using(crate::proofs::KindLemmas::decided))]
pub fn word_kind(alloc: Global, word: &[u8]) -> Result<WordKind, Memory>
    ensures { IfOk result (λ kind. kind ≡ kind_of (spelled word.now)) }
{
    let bytes = deciding(alloc, word)?;
    Ok(kind_of(bytes.as_slice()))
}

/// The bytes of a word that decide what it is: up to the first that no name has, and one more.
fn deciding(alloc: Global, word: &[u8]) -> Result<Vec<u8>, Memory>
    ensures { IfOk result (λ bytes. bytes.items ≡ deciding (spelled word.now)) }
{
    let mut bytes = Vec::new(alloc);
    let mut rest = word;
    while let Some((byte, after)) = front(rest) {
        bytes.push(byte)?;
        if !is_name_byte(byte) {
            push_first(&mut bytes, after)?;
            return Ok(bytes);
        }
        rest = after;
    }
    Ok(bytes)
}

/// Appends the first byte of what is left of a word, where there is one.
fn push_first(bytes: &mut Vec<u8>, text: &[u8]) -> Result<(), Memory>
    ensures { OnOk result (bytes.new.items ≡ bytes.old.items ++ take 1 (spelled text.now)) }
{
    if let Some((byte, _)) = front(text) {
        bytes.push(byte)?;
    }
    Ok(())
}

/// A word without backslash-newlines (XCU 2.2.1).
pub fn spelled(alloc: Global, word: &[u8]) -> Result<Vec<u8>, Memory>
    ensures { IfOk result (λ bytes. bytes.items ≡ spelled word.now) }
{
    let mut bytes = Vec::new(alloc);
    let mut rest = word;
    while let Some((byte, after)) = front(rest) {
        bytes.push(byte)?;
        rest = after;
    }
    Ok(bytes)
}

/// What a word without backslash-newlines is.
fn kind_of(bytes: &[u8]) -> WordKind
    ensures { result ≡ kind_of bytes.now }
{
    match reserved_by(bytes) {
        Some(name) => WordKind::Reserved(name),
        None => other_kind(bytes),
    }
}

/// What a word is that isn't reserved.
#[tactic(auto, unfolding(crate::specs::Kinds::other_kind))]
fn other_kind(bytes: &[u8]) -> WordKind
    ensures { result ≡ other_kind bytes.now }
{
    if bytes == IN {
        WordKind::In
    } else if is_name_text(bytes) {
        WordKind::Name
    } else if is_assign(bytes) {
        WordKind::Assign
    } else {
        WordKind::Other
    }
}

/// The reserved word with these bytes.
#[tactic(auto, unfolding(crate::specs::Kinds::reserved_by))]
fn reserved_by(bytes: &[u8]) -> Option<Reserved>
    ensures { result ≡ reserved_by bytes.now }
{
    if bytes == BANG {
        Some(Reserved::Bang)
    } else if bytes == OPEN_BRACE {
        Some(Reserved::OpenBrace)
    } else if bytes == CLOSE_BRACE {
        Some(Reserved::CloseBrace)
    } else if bytes == IF {
        Some(Reserved::If)
    } else if bytes == THEN {
        Some(Reserved::Then)
    } else if bytes == ELIF {
        Some(Reserved::Elif)
    } else if bytes == ELSE {
        Some(Reserved::Else)
    } else if bytes == FI {
        Some(Reserved::Fi)
    } else if bytes == WHILE {
        Some(Reserved::While)
    } else if bytes == UNTIL {
        Some(Reserved::Until)
    } else if bytes == DO {
        Some(Reserved::Do)
    } else if bytes == DONE {
        Some(Reserved::Done)
    } else if bytes == FOR {
        Some(Reserved::For)
    } else if bytes == CASE {
        Some(Reserved::Case)
    } else if bytes == ESAC {
        Some(Reserved::Esac)
    } else {
        None
    }
}

/// Whether the bytes are a name (XBD 3.235).
fn is_name_text(bytes: &[u8]) -> bool
    ensures { result ≡ is_name_text bytes.now }
{
    match bytes.split_first() {
        Some((first, rest)) => is_name_start(*first) && are_name_bytes(rest),
        None => false,
    }
}

/// Whether all the bytes may stand in a name.
fn are_name_bytes(bytes: &[u8]) -> bool
    ensures { result ≡ are_name_bytes bytes.now }
{
    let mut rest = bytes;
    while let Some((byte, after)) = rest.split_first() {
        if !is_name_byte(*byte) {
            return false;
        }
        rest = after;
    }
    true
}

/// Whether a name and a `=` begin the bytes.
fn is_assign(bytes: &[u8]) -> bool
    ensures { result ≡ is_assign bytes.now }
{
    match bytes.split_first() {
        Some((first, rest)) => is_name_start(*first) && goes_to_value(rest),
        None => false,
    }
}

/// Whether the bytes of a name go on up to a `=`.
fn goes_to_value(bytes: &[u8]) -> bool
    ensures { result ≡ goes_to_value bytes.now }
{
    let mut rest = bytes;
    while let Some((byte, after)) = rest.split_first() {
        if *byte == b'=' {
            return true;
        }
        if !is_name_byte(*byte) {
            return false;
        }
        rest = after;
    }
    false
}
