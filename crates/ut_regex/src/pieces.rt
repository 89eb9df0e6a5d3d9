//! The pieces of a text: what each byte is where it stands.
ghost use Rattle.std.specs.Prelude.{◌≡◌, ◌<◌, ◌≤◌, Bool, true, false, IfOk, MatchResult, length};
ghost use Rattle.ut_regex.specs.Pieces.{sign_of, escaped_of, is_part, is_start, is_side, basic_escape, basic_next, extended_escape, extended_next, next, bracketed, counted, IsPiece, IsNoPiece};

use crate::brackets::bracket;
use crate::fault::ReFault;
use crate::intervals::read_interval;
use crate::tree::{Bounds, Leaf};

/// What a text is made of.
#[derive(Clone, Copy, Debug, PartialEq, Eq)]
pub(crate) enum Piece {
    /// One byte of the line.
    One(Leaf),
    /// The line's beginning.
    Begin,
    /// The line's end.
    End,
    /// A group opens.
    Open,
    /// A group closes.
    Close,
    /// A side of an alternative ends.
    Bar,
    /// The part before it is repeated.
    Repeat(Bounds),
}

/// What stands before a piece.
#[derive(Clone, Copy, Debug, PartialEq, Eq)]
pub(crate) enum Before {
    /// Nothing.
    Start,
    /// The opening of a group.
    Opened,
    /// The end of a side.
    Barred,
    /// An anchor.
    Anchor,
    /// A part that may be repeated.
    Part,
}

/// What a byte may be a sign of.
#[derive(Clone, Copy, Debug, PartialEq, Eq)]
pub(crate) enum Sign {
    Dot,
    Bracket,
    Backslash,
    Star,
    Caret,
    Dollar,
    Open,
    Close,
    Bar,
    Plus,
    Question,
    Brace,
    Other,
}

/// What a byte behind a backslash may be.
#[derive(Clone, Copy, Debug, PartialEq, Eq)]
pub(crate) enum Escaped {
    Open,
    Close,
    Brace,
    Reference,
    Refused,
    Plain,
}

/// Reads the piece that stands next.
pub(crate) fn next_piece(
    basic: bool,
    before: Before,
    nested: bool,
    text: &[u8],
) -> Result<(Piece, &[u8]), ReFault>
    ensures piece { MatchResult result (λ r. IsPiece basic (next basic before nested text.now) r.0 r.1.now) (IsNoPiece basic (next basic before nested text.now)) }
    ensures shorter { IfOk result (λ r. length r.1.now < length text.now) }
{
    let Some((byte, rest)) = text.split_first() else {
        return Err(ReFault::NotARegex);
    };
    if basic {
        basic_piece(before, nested, read_sign(*byte), *byte, rest)
    } else {
        extended_piece(before, nested, read_sign(*byte), *byte, rest)
    }
}

/// Reads a piece of a basic expression from its sign on.
fn basic_piece(
    before: Before,
    nested: bool,
    sign: Sign,
    byte: u8,
    rest: &[u8],
) -> Result<(Piece, &[u8]), ReFault>
    ensures piece { MatchResult result (λ r. IsPiece true (basic_next before nested sign byte rest.now) r.0 r.1.now) (IsNoPiece true (basic_next before nested sign byte rest.now)) }
    ensures shorter { IfOk result (λ r. length r.1.now ≤ length rest.now) }
{
    match sign {
        Sign::Dot => Ok((Piece::One(Leaf::Any), rest)),
        Sign::Bracket => bracket_piece(true, rest),
        Sign::Backslash => basic_escape(before, nested, rest),
        Sign::Star if before == Before::Part => Ok((
            Piece::Repeat(Bounds { low: 0, high: None }),
            rest,
        )),
        Sign::Caret if before == Before::Start => Ok((Piece::Begin, rest)),
        Sign::Dollar if rest.is_empty() => Ok((Piece::End, rest)),
        _ => Ok((Piece::One(Leaf::Byte(byte)), rest)),
    }
}

/// Reads a piece of a basic expression from behind a backslash on.
fn basic_escape(before: Before, nested: bool, text: &[u8]) -> Result<(Piece, &[u8]), ReFault>
    ensures piece { MatchResult result (λ r. IsPiece true (basic_escape before nested text.now) r.0 r.1.now) (IsNoPiece true (basic_escape before nested text.now)) }
    ensures shorter { IfOk result (λ r. length r.1.now ≤ length text.now) }
{
    let Some((byte, rest)) = text.split_first() else {
        return Err(ReFault::NotARegex);
    };
    match read_escaped(*byte) {
        Escaped::Open => Ok((Piece::Open, rest)),
        Escaped::Close => if_there(nested, Piece::Close, rest),
        Escaped::Brace => {
            if before == Before::Part {
                interval_piece(true, rest)
            } else {
                Err(ReFault::NotARegex)
            }
        }
        Escaped::Reference => Err(ReFault::BackReference),
        Escaped::Refused => Err(ReFault::NotARegex),
        Escaped::Plain => Ok((Piece::One(Leaf::Byte(*byte)), rest)),
    }
}

/// Reads a piece of an extended expression from its sign on.
fn extended_piece(
    before: Before,
    nested: bool,
    sign: Sign,
    byte: u8,
    rest: &[u8],
) -> Result<(Piece, &[u8]), ReFault>
    ensures piece { MatchResult result (λ r. IsPiece false (extended_next before nested sign byte rest.now) r.0 r.1.now) (IsNoPiece false (extended_next before nested sign byte rest.now)) }
    ensures shorter { IfOk result (λ r. length r.1.now ≤ length rest.now) }
{
    let repeats = before == Before::Part;
    let sided = repeats || before == Before::Anchor;
    match sign {
        Sign::Dot => Ok((Piece::One(Leaf::Any), rest)),
        Sign::Bracket => bracket_piece(false, rest),
        Sign::Backslash => extended_escape(rest),
        Sign::Caret => Ok((Piece::Begin, rest)),
        Sign::Dollar => Ok((Piece::End, rest)),
        Sign::Open => Ok((Piece::Open, rest)),
        Sign::Close => if_there(nested && sided, Piece::Close, rest),
        Sign::Bar => if_there(sided, Piece::Bar, rest),
        Sign::Star => if_there(repeats, Piece::Repeat(Bounds { low: 0, high: None }), rest),
        Sign::Plus => if_there(repeats, Piece::Repeat(Bounds { low: 1, high: None }), rest),
        Sign::Question => if_there(
            repeats,
            Piece::Repeat(Bounds {
                low: 0,
                high: Some(1),
            }),
            rest,
        ),
        Sign::Brace => {
            if repeats {
                interval_piece(false, rest)
            } else {
                Err(ReFault::NotARegex)
            }
        }
        Sign::Other => Ok((Piece::One(Leaf::Byte(byte)), rest)),
    }
}

/// Reads a piece of an extended expression from behind a backslash on.
fn extended_escape(text: &[u8]) -> Result<(Piece, &[u8]), ReFault>
    ensures piece { MatchResult result (λ r. IsPiece false (extended_escape text.now) r.0 r.1.now) (IsNoPiece false (extended_escape text.now)) }
    ensures shorter { IfOk result (λ r. length r.1.now ≤ length text.now) }
{
    let Some((byte, rest)) = text.split_first() else {
        return Err(ReFault::NotARegex);
    };
    match read_escaped(*byte) {
        Escaped::Reference => Err(ReFault::BackReference),
        Escaped::Refused => Err(ReFault::NotARegex),
        Escaped::Open | Escaped::Close | Escaped::Brace | Escaped::Plain => Ok((
            Piece::One(Leaf::Byte(*byte)),
            rest,
        )),
    }
}

/// A piece that may stand where it stands, or not.
fn if_there(may: bool, piece: Piece, rest: &[u8]) -> Result<(Piece, &[u8]), ReFault>
    ensures piece { MatchResult result (λ r. (may ≡ true) × (r.0 ≡ piece) × (r.1.now ≡ rest.now)) (λ fault. (may ≡ false) × (fault ≡ ReFault.NotARegex)) }
{
    if may {
        Ok((piece, rest))
    } else {
        Err(ReFault::NotARegex)
    }
}

/// Reads a bracket expression behind its opening.
fn bracket_piece(basic: bool, text: &[u8]) -> Result<(Piece, &[u8]), ReFault>
    ensures piece { MatchResult result (λ r. IsPiece basic (bracketed text.now) r.0 r.1.now) (IsNoPiece basic (bracketed text.now)) }
    ensures shorter { IfOk result (λ r. length r.1.now ≤ length text.now) }
{
    match bracket(text) {
        Some((leaf, rest)) => Ok((Piece::One(leaf), rest)),
        None => Err(ReFault::NotARegex),
    }
}

/// Reads an interval behind its opening brace.
fn interval_piece(basic: bool, text: &[u8]) -> Result<(Piece, &[u8]), ReFault>
    ensures piece { MatchResult result (λ r. IsPiece basic (counted text.now) r.0 r.1.now) (IsNoPiece basic (counted text.now)) }
    ensures shorter { IfOk result (λ r. length r.1.now ≤ length text.now) }
{
    match read_interval(basic, text) {
        Ok((bounds, rest)) => Ok((Piece::Repeat(bounds), rest)),
        Err(fault) => Err(fault),
    }
}

/// What a byte may be a sign of.
#[tactic(auto, unfolding(crate::specs::Pieces::sign_of))]
fn read_sign(byte: u8) -> Sign
    ensures { result ≡ sign_of byte }
{
    match byte {
        b'.' => Sign::Dot,
        b'[' => Sign::Bracket,
        b'\\' => Sign::Backslash,
        b'*' => Sign::Star,
        b'^' => Sign::Caret,
        b'$' => Sign::Dollar,
        b'(' => Sign::Open,
        b')' => Sign::Close,
        b'|' => Sign::Bar,
        b'+' => Sign::Plus,
        b'?' => Sign::Question,
        b'{' => Sign::Brace,
        _ => Sign::Other,
    }
}

/// What a byte behind a backslash may be.
#[tactic(auto, using(std::proofs::lemmas::Bool::Decides::nat_tests), unfolding(crate::specs::Pieces::escaped_of, crate::specs::Spans::is_from))]
fn read_escaped(byte: u8) -> Escaped
    ensures { result ≡ escaped_of byte }
{
    match byte {
        b'(' => Escaped::Open,
        b')' => Escaped::Close,
        b'{' => Escaped::Brace,
        b'1'..=b'9' => Escaped::Reference,
        b'0' | b'A'..=b'Z' | b'a'..=b'z' => Escaped::Refused,
        _ => Escaped::Plain,
    }
}
