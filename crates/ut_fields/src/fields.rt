//! The fields of a line. A place in a line is told as what is left of the line from there on.
ghost use Rattle.std.specs.Prelude.{◌≡◌};
ghost use Rattle.ut_fields.specs.Fields.{behind_blanks as behind_blanks_def, behind_fields as behind_fields_def, behind_separator as behind_separator_def, field_end as field_end_def, from_blank as from_blank_def, from_byte as from_byte_def, next_field as next_field_def, up_to as up_to_def};

use ps_lines::Class;

/// Behind the blanks that the text begins with.
pub fn behind_blanks(text: &[u8]) -> &[u8]
    ensures { result.now ≡ behind_blanks_def text.now }
{
    let mut left = text;
    while let [byte, rest @ ..] = left {
        if !Class::Blank.has(*byte) {
            break;
        }
        left = rest;
    }
    left
}

/// From the first blank on.
fn from_blank(text: &[u8]) -> &[u8]
    ensures { result.now ≡ from_blank_def text.now }
{
    let mut left = text;
    while let [byte, rest @ ..] = left {
        if Class::Blank.has(*byte) {
            break;
        }
        left = rest;
    }
    left
}

/// From the first of these bytes on.
fn from_byte(separator: u8, text: &[u8]) -> &[u8]
    ensures { result.now ≡ from_byte_def separator text.now }
{
    let mut left = text;
    while let [byte, rest @ ..] = left {
        if *byte == separator {
            break;
        }
        left = rest;
    }
    left
}

/// Where the first field ends.
pub fn field_end(separator: Option<u8>, line: &[u8]) -> &[u8]
    ensures { result.now ≡ field_end_def separator line.now }
{
    match separator {
        None => from_blank(behind_blanks(line)),
        Some(separator) => from_byte(separator, line),
    }
}

/// Where the next field begins, from the end of the one before it on.
fn behind_separator(separator: Option<u8>, rest: &[u8]) -> &[u8]
    ensures { result.now ≡ behind_separator_def separator rest.now }
{
    match (separator, rest) {
        (Some(_), [_, behind @ ..]) => behind,
        _ => rest,
    }
}

/// Where the next field begins.
fn next_field(separator: Option<u8>, line: &[u8]) -> &[u8]
    ensures { result.now ≡ next_field_def separator line.now }
{
    behind_separator(separator, field_end(separator, line))
}

/// Where the field behind `count` others begins: the line's end where there is none.
pub fn behind_fields(separator: Option<u8>, count: u64, line: &[u8]) -> &[u8]
    ensures { result.now ≡ behind_fields_def separator count line.now }
{
    let mut left = line;
    let mut more = count;
    while more > 0 {
        if left.is_empty() {
            break;
        }
        left = next_field(separator, left);
        more -= 1;
    }
    left
}

/// The text from one place up to another; none where that stands before it.
pub fn up_to<'t>(start: &'t [u8], end: &[u8]) -> &'t [u8]
    ensures { result.now ≡ up_to_def start.now end.now }
{
    &start[..start.len().saturating_sub(end.len())]
}
