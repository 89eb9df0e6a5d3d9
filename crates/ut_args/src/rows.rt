//! The option letters of each command.
ghost use Rattle.std.specs.Prelude.{◌≡◌};
ghost use Rattle.ut_options.specs.Rows.{row_of};
ghost use Rattle.ut_args.specs.Table.{counting as counting_def, letters as letters_def, row};

use crate::names::Name;
use ut_options::Letters;

/// The option letters of a command (the page of each utility in XCU, narrowed).
pub(crate) fn letters_of(name: Name) -> Letters
    ensures { row_of result ≡ row name }
{
    match name {
        Name::Cat => letters(b"u", b""),
        Name::Grep => letters(b"EFcilnqsvx", b"e"),
        Name::Tr => letters(b"cCds", b""),
        Name::Cut => letters(b"s", b"bcdf"),
        Name::Head => counting(b"", b"n"),
        Name::Tail => counting(b"", b"cn"),
        Name::Wc => letters(b"clmw", b""),
        Name::Uniq => letters(b"cdu", b"fs"),
        Name::Sort => letters(b"bfnru", b"kt"),
        Name::Paste => letters(b"s", b"d"),
        Name::Tee => letters(b"a", b""),
        Name::Unset => letters(b"v", b""),
        Name::Read => letters(b"r", b""),
        Name::True => letters(b"", b""),
        Name::False => letters(b"", b""),
        Name::Colon => letters(b"", b""),
        Name::Break => letters(b"", b""),
        Name::Continue => letters(b"", b""),
        Name::Exit => letters(b"", b""),
        Name::Set => letters(b"", b""),
        Name::Shift => letters(b"", b""),
        Name::Test => letters(b"", b""),
        Name::Bracket => letters(b"", b""),
        Name::Echo => letters(b"", b""),
    }
}

/// Letters without an argument and with one.
fn letters(plain: &'static [u8], valued: &'static [u8]) -> Letters
    ensures { row_of result ≡ letters_def plain.now valued.now }
{
    Letters {
        plain,
        valued,
        counts: false,
    }
}

/// Letters of a command whose `-N` is a count.
fn counting(plain: &'static [u8], valued: &'static [u8]) -> Letters
    ensures { row_of result ≡ counting_def plain.now valued.now }
{
    Letters {
        plain,
        valued,
        counts: true,
    }
}
