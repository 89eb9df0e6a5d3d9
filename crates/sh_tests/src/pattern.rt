//! Marked texts, the texts that they are matched against, and whether they fit: by the standard's text, and as `dash`
//! answers where the rule isn't our own.

mod paths;
mod trims;

use ps_lines::Memory;
use sh_pattern::{Mark, matches, read_pattern};
use std::alloc::{AllocError, Global};
use std::test::Fail;

/// The bytes of `pattern`, each quoted where `marks` has a `q` at its place.
fn marked(alloc: Global, pattern: &[u8], marks: &[u8]) -> Result<Vec<Mark>, AllocError> {
    let mut text = Vec::new(alloc);
    for (byte, mark) in pattern.iter().zip(marks) {
        text.push(Mark {
            byte: *byte,
            quoted: *mark == b'q',
        })?;
    }
    Ok(text)
}

fn fits(alloc: Global, pattern: &[u8], marks: &[u8], text: &[u8]) -> Result<bool, Memory> {
    let marked = marked(alloc, pattern, marks)?;
    let pattern = read_pattern(alloc, marked.as_slice())?;
    Ok(matches(&pattern, text))
}

/// Whether the text of a row fits where it says so.
fn holds(alloc: Global, row: &str) -> Result<bool, Memory> {
    let mut columns = row.as_bytes().split(|byte| *byte == b';');
    let pattern = columns.next().unwrap_or(&[]);
    let marks = columns.next().unwrap_or(&[]);
    let text = columns.next().unwrap_or(&[]);
    let told: &[u8] = if fits(alloc, pattern, marks, text)? {
        b"yes"
    } else {
        b"no"
    };
    Ok(columns.next() == Some(told))
}

/// A row a line: a pattern, its marks (`q` quoted, `u` unquoted), a text, and whether it fits, with `;` between them.
static CASES: &str = r";;;yes
;;a;no
a;u;a;yes
a;u;b;no
a;u;A;no
a;u;;no
a;u;aa;no
abc;uuu;abc;yes
abc;uuu;ab;no
abc;qqq;abc;yes
a.c;uuu;abc;no
a.c;uuu;a.c;yes
a b;uuu;a b;yes
^a$;uuu;^a$;yes
^a$;uuu;a;no
a+;uu;aa;no
(a|b);uuuuu;a;no
(a|b);uuuuu;(a|b);yes
{a};uuu;{a};yes
?;u;;no
?;u;a;yes
?;u;ab;no
??;uu;ab;yes
??;uu;a;no
a?c;uuu;abc;yes
a?c;uuu;ac;no
?;u;/;yes
?;u;.;yes
?;u;?;yes
*;u;;yes
*;u;a;yes
*;u;abc;yes
*;u;a/b;yes
*;u;.a;yes
a*;uu;a;yes
a*;uu;abc;yes
a*;uu;ba;no
*a;uu;a;yes
*a;uu;bca;yes
*a;uu;ab;no
a*b;uuu;ab;yes
a*b;uuu;axxb;yes
a*b;uuu;axxbc;no
a*b;uuu;abab;yes
*a*;uuu;bab;yes
*a*;uuu;bb;no
**;uu;;yes
**;uu;abc;yes
***;uuu;a;yes
*?;uu;;no
*?;uu;a;yes
?*;uu;abc;yes
?*?;uuu;a;no
?*?;uuu;ab;yes
*ab*ab;uuuuuu;abab;yes
*ab*ab;uuuuuu;xabyabzab;yes
*ab*ab;uuuuuu;abb;no
a*a*a*b;uuuuuuu;aaaaaaab;yes
a*a*a*b;uuuuuuu;aaaaaaaa;no
*.txt;uuuuu;a.txt;yes
*.txt;uuuuu;.txt;yes
*.txt;uuuuu;a.txtx;no
*aab;uuuu;aaab;yes
*;q;*;yes
*;q;a;no
?;q;?;yes
?;q;a;no
[a];qqq;[a];yes
[a];qqq;a;no
[a];quu;[a];yes
[a];quu;a;no
**;uq;a*;yes
**;uq;a;no
**;qu;*a;yes
**;qu;a*;no
a*?;uqq;a*?;yes
a*?;uqq;axx;no
a*?;uuq;axx?;yes
\;q;\;yes
\;u;\;yes
\*;qu;\abc;yes
\*;uu;\abc;yes
\*;uu;*;no
\*;qq;\*;yes
\a;uu;\a;yes
\a;uu;a;no
[\a];uuuu;\;yes
[\a];uqqu;\;yes
[\]];uuuu;\];yes
[\]];uuuu;];no
[a];uuu;a;yes
[a];uuu;b;no
[a];uuu;;no
[a];uuu;aa;no
[abc];uuuuu;a;yes
[abc];uuuuu;c;yes
[abc];uuuuu;d;no
x[ab]y;uuuuuu;xby;yes
[ab][cd];uuuuuuuu;bc;yes
[*];uuu;*;yes
[*];uuu;a;no
[?];uuu;?;yes
[?];uuu;a;no
[[];uuu;[;yes
[.];uuu;.;yes
[/];uuu;/;yes
[aa];uuuu;a;yes
[a]*;uuuu;abc;yes
[ ];uuu; ;yes
[!a];uuuu;b;yes
[!a];uuuu;a;no
[!a];uuuu;;no
[!a];uuuu;/;yes
[!a];uuuu;!;yes
[!ab];uuuuu;b;no
[!!];uuuu;!;no
[!!];uuuu;a;yes
[a!];uuuu;!;yes
[!a];uquu;!;yes
[!a];uquu;b;no
[!a];uquu;a;yes
[!a-c];uuuuuu;b;no
[!a-c];uuuuuu;d;yes
[!];uuu;!;no
[!];uuu;[!];yes
[!];uuu;a;no
[^a];uuuu;^;yes
[^a];uuuu;a;yes
[^a];uuuu;b;no
[!^];uuuu;^;no
[!^];uuuu;a;yes
[]];uuu;];yes
[]];uuu;a;no
[]a];uuuu;];yes
[]a];uuuu;a;yes
[!]];uuuu;];no
[!]];uuuu;a;yes
[!]a];uuuuu;a;no
[a]];uuuu;a];yes
[a]];uuuu;];no
[];uu;[];yes
[];uu;[;no
[]];uqu;];yes
[a]b];uuquu;];yes
[a]b];uuquu;b;yes
[a]b];uuquu;ab];no
[a-c];uuuuu;a;yes
[a-c];uuuuu;b;yes
[a-c];uuuuu;c;yes
[a-c];uuuuu;d;no
[a-c];uuuuu;-;no
[a-a];uuuuu;a;yes
[a-cx-z];uuuuuuuu;y;yes
[a-cx];uuuuuu;x;yes
[0-9];uuuuu;5;yes
[0-9];uuuuu;a;no
[A-z];uuuuu;_;yes
[-a];uuuu;-;yes
[a-];uuuu;-;yes
[a-];uuuu;a;yes
[!-a];uuuuu;-;no
[!-a];uuuuu;b;yes
[-];uuu;-;yes
[--a];uuuuu;.;yes
[--a];uuuuu;a;yes
[%--];uuuuu;(;yes
[%--];uuuuu;.;no
[--];uuuu;-;yes
[---];uuuuu;-;yes
[]-a];uuuuu;^;yes
[]-a];uuuuu;-;no
[a-c];uuquu;-;yes
[a-c];uuquu;b;no
[a-c];uquqq;b;no
[c-a];uuuuu;b;no
[c-a];uuuuu;a;no
[c-a];uuuuu;c;no
[c-a];uuuuu;-;no
[c-ax];uuuuuu;x;yes
[!c-a];uuuuuu;b;yes
[a-c-e];uuuuuuu;b;yes
[a-c-e];uuuuuuu;d;no
[a-c-e];uuuuuuu;e;yes
[a-c-e];uuuuuuu;-;yes
[[:digit:]-z];uuuuuuuuuuuuu;5;yes
[[:digit:]-z];uuuuuuuuuuuuu;-;yes
[[:digit:]-z];uuuuuuuuuuuuu;a;no
[a-[:alpha:]];uuuuuuuuuuuuu;b;no
[a-[:alpha:]];uuuuuuuuuuuuu;p];yes
[a-[:alpha:]];uuuuuuuuuuuuu;:];yes
[[:alnum:]];uuuuuuuuuuu;z;yes
[[:alnum:]];uuuuuuuuuuu;0;yes
[[:alnum:]];uuuuuuuuuuu;_;no
[[:alpha:]];uuuuuuuuuuu;A;yes
[[:alpha:]];uuuuuuuuuuu;0;no
[[:cntrl:]];uuuuuuuuuuu; ;no
[[:digit:]];uuuuuuuuuuu;9;yes
[[:digit:]];uuuuuuuuuuu;a;no
[[:graph:]];uuuuuuuuuuu;!;yes
[[:graph:]];uuuuuuuuuuu; ;no
[[:lower:]];uuuuuuuuuuu;a;yes
[[:lower:]];uuuuuuuuuuu;A;no
[[:print:]];uuuuuuuuuuu; ;yes
[[:punct:]];uuuuuuuuuuu;~;yes
[[:punct:]];uuuuuuuuuuu;a;no
[[:space:]];uuuuuuuuuuu;a;no
[[:upper:]];uuuuuuuuuuu;Z;yes
[[:upper:]];uuuuuuuuuuu;z;no
[[:xdigit:]];uuuuuuuuuuuu;f;yes
[[:xdigit:]];uuuuuuuuuuuu;g;no
[![:digit:]];uuuuuuuuuuuu;a;yes
[![:digit:]];uuuuuuuuuuuu;1;no
[[:digit:][:upper:]_];uuuuuuuuuuuuuuuuuuuuu;_;yes
[[:digit:][:upper:]_];uuuuuuuuuuuuuuuuuuuuu;a;no
[a[:digit:]];uuuuuuuuuuuu;a;yes
[[:digit:]]*;uuuuuuuuuuuu;1a;yes
[[:foo:]];uuuuuuuuu;f];yes
[[:foo:]];uuuuuuuuu;:];yes
[[:foo:]];uuuuuuuuu;[;no
[[:foo:]];uuuuuuuuu;f;no
[[:alpha];uuuuuuuuu;p;yes
[[:alpha];uuuuuuuuu;[;yes
[[:alpha];uuuuuuuuu;z;no
[:alpha:];uuuuuuuuu;p;yes
[:alpha:];uuuuuuuuu;:;yes
[:alpha:];uuuuuuuuu;z;no
[[:digit:];uuuuuuuuuu;5;no
[[:digit:];uuuuuuuuuu;[;no
[[:];uuuu;:;yes
[[:]];uuuuu;[;no
[[:]];uuuuu;[:;no
[[:]];uuuuu;:];yes
[[:digit:]];uqqqqqqqqqu;5;no
[[:digit:]];uqqqqqqqqqu;d;yes
[;u;[;yes
[;u;a;no
[a;uu;[a;yes
[a;uu;a;no
a[;uu;a[;yes
[a*;uuu;[abc;yes
[a?;uuu;[ab;yes
[[a];uuuu;[;yes
[[a];uuuu;a;yes
[a[b];uuuuu;b;yes
[!a;uuu;[!a;yes
[a];uuq;[a];yes
[a];uuq;a;no
[[.a.]];uuuuuuu;a;no
[[.a.]];uuuuuuu;[[.a.]];no
[[.a.]];uuuuuuu;[.];yes
[[=a=]];uuuuuuu;a;no
[[=a=]];uuuuuuu;[=];yes
[x[.a.]];uuuuuuuu;x;no
[[.];uuuu;[.;yes
[[=];uuuu;[=;yes
[.a];uuuu;.;yes
[=a];uuuu;=;yes
[a[.];uuuuu;a;no
[a[.];uuuuu;[a.;yes
[a-[.];uuuuuu;[a-.;yes
[[.];uquu;.;yes
[[[a;uuuu;[[[a;yes
[[[a;uuuu;[a;no
[[a];uuuq;[[a];yes
[[[:alpha:];uuuuuuuuuuu;[[p;yes
[[[:alpha:];uuuuuuuuuuu;[[z;no
[-[-x[:alpha:];uuuuuuuuuuuuuu;[-[-xp;yes
[-[-x[:alpha:];uuuuuuuuuuuuuu;y;no
[[:alpha:][[:alpha:];uuuuuuuuuuuuuuuuuuuu;[p[p;yes
[[:alpha:][[:alpha:];uuuuuuuuuuuuuuuuuuuu;[p[z;no
[a[.[b];uuuuuuu;[a.;yes
[a[.[b];uuuuuuu;a;no";

/// The same of bytes that a line of text can't have.
static OTHER_CASES: [&str; 10] = [
    "\n;u;\n;yes",
    "?;u;\n;yes",
    "*;u;\n;yes",
    "[\n];uuu;\n;yes",
    "[!a];uuuu;\n;yes",
    "[[:blank:]];uuuuuuuuuuu;\t;yes",
    "[[:blank:]];uuuuuuuuuuu;\n;no",
    "[[:cntrl:]];uuuuuuuuuuu;\x7f;yes",
    "[[:print:]];uuuuuuuuuuu;\t;no",
    "[[:space:]];uuuuuuuuuuu;\x0b;yes",
];

#[test]
fn fits_as_the_standard_says(rt: HostRuntime) -> Result<(), Fail> {
    for row in CASES.lines() {
        assert!(rt; holds(rt.alloc(), row)?, "{row}");
    }
    Ok(())
}

#[test]
fn any_byte_fits_as_the_standard_says(rt: HostRuntime) -> Result<(), Fail> {
    for row in OTHER_CASES.iter() {
        assert!(rt; holds(rt.alloc(), row)?, "{row}");
    }
    Ok(())
}

/// Whether the set of the bytes from 0x80 up has the one byte of a text.
fn is_high(alloc: Global, text: &[u8]) -> Result<bool, Memory> {
    fits(alloc, b"[\x80-\xff]", b"uuuuu", text)
}

#[test]
fn a_byte_is_one_character(rt: HostRuntime) -> Result<(), Fail> {
    assert!(rt; is_high(rt.alloc(), b"\xc3")?);
    assert!(rt; !is_high(rt.alloc(), b"\xc3\xa9")?);
    assert!(rt; !is_high(rt.alloc(), b"\x7f")?);
    Ok(())
}
