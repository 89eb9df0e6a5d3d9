//! Classes of bytes that the shell and its utilities tell apart, in the C locale.
ghost use Rattle.std.specs.Prelude.{◌≡◌};
ghost use Rattle.ps_lines.specs.Bytes.{is_name_byte, is_name_start, is_white_space};

/// A space, a tab or a newline: the white space of IFS (XCU 2.6.5), and what stands between the tokens of arithmetic.
#[inline]
pub fn is_white_space(byte: u8) -> bool
    ensures { result ≡ is_white_space byte }
{
    byte == b' ' || byte == b'\t' || byte == b'\n'
}

/// A byte that begins a name: a letter or an underscore (XBD 3.235).
#[inline]
pub fn is_name_start(byte: u8) -> bool
    ensures { result ≡ is_name_start byte }
{
    byte.is_ascii_alphabetic() || byte == b'_'
}

/// A byte that goes on a name: a letter, an underscore or a digit (XBD 3.235).
#[inline]
pub fn is_name_byte(byte: u8) -> bool
    ensures { result ≡ is_name_byte byte }
{
    is_name_start(byte) || byte.is_ascii_digit()
}
