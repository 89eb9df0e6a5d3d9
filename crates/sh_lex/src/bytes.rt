//! The bytes that the shell's language gives a meaning to, and the classes of bytes.
ghost use Rattle.std.specs.Prelude.{◌≡◌};
ghost use Rattle.sh_lex.specs.Bytes.{is_blank, ends_word, is_quoted_escape, is_parameter};

pub const TAB: u8 = b'\t';

pub const NEWLINE: u8 = b'\n';

pub const SPACE: u8 = b' ';

pub const BANG: u8 = b'!';

pub const DOUBLE_QUOTE: u8 = b'"';

pub const HASH: u8 = b'#';

pub const DOLLAR: u8 = b'$';

pub const PERCENT: u8 = b'%';

pub const AND: u8 = b'&';

pub const QUOTE: u8 = b'\'';

pub const OPEN: u8 = b'(';

pub const CLOSE: u8 = b')';

pub const STAR: u8 = b'*';

pub const PLUS: u8 = b'+';

pub const DASH: u8 = b'-';

pub const ZERO: u8 = b'0';

pub const ONE: u8 = b'1';

pub const TWO: u8 = b'2';

pub const COLON: u8 = b':';

pub const SEMI: u8 = b';';

pub const LESS: u8 = b'<';

pub const EQUALS: u8 = b'=';

pub const GREAT: u8 = b'>';

pub const QUESTION: u8 = b'?';

pub const AT: u8 = b'@';

pub const BACKSLASH: u8 = b'\\';

pub const BACKQUOTE: u8 = b'`';

pub const OPEN_BRACE: u8 = b'{';

pub const PIPE: u8 = b'|';

pub const CLOSE_BRACE: u8 = b'}';

pub const TILDE: u8 = b'~';

/// A space or a tab (XBD 3.74, in the C locale).
#[inline]
pub fn is_blank(byte: u8) -> bool
    ensures { result ≡ is_blank byte }
{
    byte == SPACE || byte == TAB
}

/// A byte that, unquoted, is no part of a word: a blank, a newline or the first byte of an operator (XCU 2.3).
#[inline]
#[tactic(auto, unfolding(crate::specs::Bytes::ends_word))]
pub fn ends_word(byte: u8) -> bool
    ensures { result ≡ ends_word byte }
{
    is_blank(byte)
        || byte == NEWLINE
        || byte == AND
        || byte == PIPE
        || byte == SEMI
        || byte == OPEN
        || byte == CLOSE
        || byte == LESS
        || byte == GREAT
}

/// A byte before which a backslash is special in double quotes (XCU 2.2.3).
#[inline]
#[tactic(auto, unfolding(crate::specs::Bytes::is_quoted_escape))]
pub fn is_quoted_escape(byte: u8) -> bool
    ensures { result ≡ is_quoted_escape byte }
{
    byte == DOLLAR || byte == BACKQUOTE || byte == DOUBLE_QUOTE || byte == BACKSLASH
}

/// A byte that, after a `$`, is a whole parameter: a digit, `@`, `*`, `#` or `?` (XCU 2.5, narrowed).
#[inline]
#[tactic(auto, unfolding(crate::specs::Bytes::is_parameter))]
pub fn is_parameter(byte: u8) -> bool
    ensures { result ≡ is_parameter byte }
{
    byte.is_ascii_digit() || byte == AT || byte == STAR || byte == HASH || byte == QUESTION
}
