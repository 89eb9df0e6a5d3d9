//! Path expansion: files, marked texts, and the names for which they stand, as `dash` answers where the rule isn't our own.
//!
//! A row is a line of a table: the files below `/w` and elsewhere with a `|` between them, a directory with a `/` behind it; the text,
//! its marks (`q` quoted, `u` unquoted) and its names with a `|` between them. A `;` stands between the four.
use super::marked;
use ps_fakes::MemTree;
use ps_lines::Memory;
use sh_pattern::expand_paths;
use std::alloc::Global;
use std::test::Fail;

/// A tree of these files, which are empty, with the working directory `/w`.
fn tree_of(alloc: Global, list: &[u8]) -> Result<Option<MemTree>, Memory> {
    let mut files = Vec::new(alloc);
    for item in list.split(|byte| *byte == b'|') {
        match item {
            [] => {}
            [dir @ .., b'/'] => files.push((dir, None))?,
            file => files.push((file, Some(b"".as_slice())))?,
        }
    }
    MemTree::of_table(alloc, b"/w", files.as_slice(), Vec::new(alloc))
}

/// Whether these are the names of a list.
fn are_listed(names: &[Vec<u8>], list: &[u8]) -> bool {
    let mut left = names;
    for item in list.split(|byte| *byte == b'|') {
        match left {
            [name, rest @ ..] if name.as_slice() == item => left = rest,
            _ => return false,
        }
    }
    left.is_empty()
}

/// Whether the text stands for the names of the list.
fn gives(
    alloc: Global,
    tree: &mut MemTree,
    text: &[u8],
    marks: &[u8],
    list: &[u8],
) -> Result<bool, Fail> {
    let marked = marked(alloc, text, marks)?;
    let names = expand_paths(alloc, tree, marked.as_slice())?;
    Ok(are_listed(names.as_slice(), list))
}

/// Whether a text stands for its names in a tree of these files, from `/w`; the row has the three.
fn expands(alloc: Global, files: &[u8], row: &[u8]) -> Result<bool, Fail> {
    let mut columns = row.split(|byte| *byte == b';');
    let text = columns.next().unwrap_or(&[]);
    let marks = columns.next().unwrap_or(&[]);
    let list = columns.next().unwrap_or(&[]);
    match tree_of(alloc, files)? {
        Some(mut tree) => gives(alloc, &mut tree, text, marks, list),
        None => Ok(false),
    }
}

/// Whether a row's text stands for its names in a tree of its files.
fn holds(alloc: Global, row: &str) -> Result<bool, Fail> {
    let (files, rest) = row.split_once(';').unwrap_or((row, ""));
    expands(alloc, files.as_bytes(), rest.as_bytes())
}

static NAMES: &str = r#";a;u;a
;*;u;*
;*/;uu;*/
/w/a|/w/b;a;u;a
/w/a;;;
/w/a;*;q;*
/w/a;?;q;?
/w/a;[a];qqq;[a]
/w/a;a];uu;a]
/w/a;b*;uu;b*
/w/a;*.log;uuuuu;*.log
/w/a;[b];uuu;[b]
/w/a;[b;uu;[b
/w/a;b*c;uqu;b*c
/w/a;"*";uuu;"*"
/w/a;x*?;uuq;x*?
/w/a;.*;uu;.*
/w/a;..;uu;..
/w/a;.?;uu;.?
/w/a|/w/b|/w/c;*;u;a|b|c
/w/a|/w/b|/w/c;[ac];uuuu;a|c
/w/a|/w/b|/w/c;[!ac];uuuuu;b
/w/a|/w/b|/w/c;[b-c];uuuuu;b|c
/w/b|/w/B|/w/a|/w/_|/w/9;*;u;9|B|_|a|b
/w/a|/w/aa|/w/a-|/w/a.|/w/aB;a*;uu;a|a-|a.|aB|aa
/w/a|/w/ab|/w/b;?;u;a|b
/w/x1|/w/x2|/w/x10;x?;uu;x1|x2
/w/x1|/w/x2|/w/x10;x*;uu;x1|x10|x2
/w/a.txt|/w/b.txt|/w/c.log;*.txt;uuuuu;a.txt|b.txt
/w/a b|/w/ab;a*;uu;a b|ab
/w/a1|/w/a2|/w/ab;a[[:digit:]];uuuuuuuuuuuu;a1|a2
/w/a|/w/ab|/w/abc;a*c;uuu;abc
/w/a*|/w/ab;a*;uq;a*
/w/a*|/w/ab|/w/a*b;a**;uqu;a*|a*b
/w/a*b|/w/acb;a?b;uuu;a*b|acb
/w/a*b|/w/acb;a*b;uqu;a*b
/w/\a|/w/a;\*;uu;\a
/w/\a|/w/a;\*;qu;\a
/w/[b;[b;uu;[b
/w/[b|/w/[c;[?;uu;[b|[c
/w/a.b;a*b;uuu;a.b
/w/a.b;a?b;uuu;a.b"#;

/// Results stand in the order of their bytes; without one the text stays.
#[test]
fn gives_the_names_that_fit(rt: HostRuntime) -> Result<(), Fail> {
    for row in NAMES.lines() {
        assert!(rt; holds(rt.alloc(), row)?, "{row}");
    }
    Ok(())
}

/// The same of bytes that a line of text can't have, with the files apart.
static OTHER_NAMES: [(&[u8], &[u8]); 2] = [
    (b"/w/a|/w/\xff|/w/\x80", b"*;u;a|\x80|\xff"),
    (b"/w/a\nb|/w/a\tb", b"a*b;uuu;a\tb|a\nb"),
];

#[test]
fn any_byte_stands_in_names(rt: HostRuntime) -> Result<(), Fail> {
    for &(files, row) in OTHER_NAMES.iter() {
        assert!(rt; expands(rt.alloc(), files, row)?, "{row:?} in {files:?}");
    }
    Ok(())
}

static STARS: &str = "/w/x1.txt|/w/x2.txt|/w/.x3.txt;*.txt;uuuuu;x1.txt|x2.txt
/w/x1.txt|/w/x2.txt|/w/.x3.txt;*.log;uuuuu;*.log";

/// `*` leaves out the names that a period begins, and a pattern that fits no name stays as it is written.
#[test]
fn star_txt_gives_the_names_without_a_leading_period_and_star_log_stays(
    rt: HostRuntime,
) -> Result<(), Fail> {
    for row in STARS.lines() {
        assert!(rt; holds(rt.alloc(), row)?, "{row}");
    }
    Ok(())
}

static PERIODS: &str = "/w/.a;*;u;*
/w/.a;.?;uu;.a
/w/.a;.*;uu;.a
/w/.a|/w/a;*;u;a
/w/.a|/w/a;.*;uu;.a
/w/.a|/w/a;.*;qu;.a
/w/.a|/w/a;?a;uu;?a
/w/.a|/w/a;[.]a;uuuu;[.]a
/w/.a|/w/a;[!b]a;uuuuu;[!b]a
/w/.a|/w/.b|/w/a;.[ab];uuuuu;.a|.b
/w/..a|/w/.b;.*;uu;..a|.b
/w/..a|/w/.b;..*;uuu;..a";

/// A period that begins a component fits only a period; `.` and `..` are never found.
#[test]
fn a_leading_period_stands_for_itself(rt: HostRuntime) -> Result<(), Fail> {
    for row in PERIODS.lines() {
        assert!(rt; holds(rt.alloc(), row)?, "{row}");
    }
    Ok(())
}

static SLASHES: &str = "/w/d/a;d/a;uuu;d/a
/w/d/a;d/.*;uuuu;d/.*
/w/d/a;*;u;d
/w/d/a;*/*;uuu;d/a
/w/d/a;d?a;uuu;d?a
/w/d/a;d*a;uuu;d*a
/w/d/a;d[/]a;uuuuu;d[/]a
/w/d/;*;u;d
/w/d/|/w/a;*;u;a|d
/w/d/|/w/dd/;d*;uu;d|dd
/w/d/.a|/w/d/a;d/*;uuu;d/a
/w/d/.a|/w/d/a;d/.*;uuuu;d/.a
/w/.d/a|/w/e/a;*/a;uuu;e/a
/w/.d/a|/w/e/a;.*/a;uuuu;.d/a
/w/.d/.a;.?/.?;uuuuu;.d/.a
/w/d/.a;.*/d/.a;uuuuuuu;.*/d/.a
/w/d[|/w/d/a;d[/]a;uuuuu;d[/]a
/w/d/a|/w/d/b|/w/e/a;*/a;uuu;d/a|e/a
/w/d/a|/w/d/b|/w/e/a;d/*;uuu;d/a|d/b
/w/d/a|/w/d/b|/w/e/a;?/?;uuu;d/a|d/b|e/a
/w/d/a|/w/d/b|/w/e/a;[de]/b;uuuuuu;d/b
/w/d/a|/w/f;*/;uu;d/
/w/d/a|/w/f;d*/;uuu;d/
/w/d/a|/w/f;f*/;uuu;f*/
/w/d/a|/w/f;*/a;uuu;d/a
/w/d/a|/w/f;f/*;uuu;f/*
/w/d/a|/w/f;x/*;uuu;x/*
/w/d/e/a|/w/d/f/a|/w/d/b;*/*/*;uuuuu;d/e/a|d/f/a
/w/d/e/a|/w/d/f/a|/w/d/b;d/*/a;uuuuu;d/e/a|d/f/a
/w/d/e/a|/w/d/f/a|/w/d/b;*/[ef]/a;uuuuuuuu;d/e/a|d/f/a
/w/d/a|/w/dd/a;d*/a;uuuu;d/a|dd/a";

/// A slash is fitted only by a slash, and stays as it is written; a file has no names below it.
#[test]
fn a_slash_stands_for_itself(rt: HostRuntime) -> Result<(), Fail> {
    for row in SLASHES.lines() {
        assert!(rt; holds(rt.alloc(), row)?, "{row}");
    }
    Ok(())
}

static COMPONENTS: &str = "/w/d/a|/w/d-/a;d*/a;uuuu;d-/a|d/a
/w/d/ab|/w/d/a.b;d/a?b;uuuuu;d/a.b
/w/d/a|/w/d/b;./d/*;uuuuu;./d/a|./d/b
/w/d/a|/w/d/b;d//*;uuuu;d//a|d//b
/w/d/a|/w/d/b;d/./*;uuuuu;d/./a|d/./b
/w/d/a|/w/d/b;d/*;quq;d/*
/w/d/a|/w/e/b;d/../*;uuuuuu;d/../d|d/../e
/w/d/a|/w/e/b;*/../e;uuuuuu;d/../e|e/../e
/w/d/*|/w/d/a;d/*;uuq;d/*
/w/d/*|/w/d/a|/w/e/*;*/*;uuq;d/*|e/*
/w/d/a|/w/e;*/.;uuu;d/.
/w/d/a|/w/e;*/..;uuuu;d/..
/w/d/a|/w/e;[de]/;uuuuu;d/
/w/[/a|/w/x/a;[/*;uuu;[/a
/w/[a/b]|/w/x;[a/b];uuuuu;[a/b]
/w/a/b];[a/b];uuuuu;[a/b]
/w/d/a|/w/a;*//a;uuuu;d//a
/w/a|/x/b;/*;uu;/w|/x
/w/a|/x/b;/x/*;uuuu;/x/b
/w/a|/x/b;/*/?;uuuu;/w/a|/x/b
/w/a|/x/b;../x/*;uuuuuu;../x/b
/w/a|/x/b;../*/b;uuuuuu;../x/b
/w/a|/x/b;//*;uuu;//w|//x
/w/a|/x/b;/y*;uuu;/y*
/w/a|/dev/x;/dev/*;uuuuuu;/dev/x
/w/a|/dev/x;/*/null;uuuuuuu;/*/null
/w/a|/dev/x;/dev/n*;uuuuuuu;/dev/n*
/w/a|/dev/null;/*/null;uuuuuuu;/dev/null";

/// Components that are written out are looked up too, from the root where a slash comes first.
#[test]
fn every_component_has_to_be_there(rt: HostRuntime) -> Result<(), Fail> {
    for row in COMPONENTS.lines() {
        assert!(rt; holds(rt.alloc(), row)?, "{row}");
    }
    Ok(())
}

static MANY: &[u8] = b"/w/a|/w/ab|/w/b.c|/w/.h|/w/d/a|/w/d/.h|/w/d/bc|/w/e/a|/w/[x|/w/a*";

/// Rows without their files.
static MIXED: &str = "[[d?;uuuu;[[d?
a*c.;uuuq;a*c.
[[;qu;[[
*d*;uuu;d
[?]!;uquq;[?]!
c[bd;uuuu;c[bd
dd[ae;uuuqu;dd[ae
.*[]!;uuuuu;.*[]!
a?[e/;uuuuu;a?[e/
a*ca?;uuuuu;a*ca?
d?c;uuu;d?c
]c?b*;uuuuu;]c?b*
[d;qu;[d
]![;uqu;]![
[]a;uuu;[]a
a*[/*;uququ;a*[/*
acc[c;uuuuu;acc[c
*b/[/;uuuuu;*b/[/
.?a;uuu;.?a
!/*;uuu;!/*
**;uu;[x|a|a*|ab|b.c|d|e
da.?.;uuuuu;da.?.
*c;uu;b.c
?e*a.;uuquu;?e*a.
*a!b?;uuuuu;*a!b?
ad?!d;uuuuu;ad?!d
b*;qq;b*
.?d;qqu;.?d
aaa*e;uuuuu;aaa*e
a[/a;uuuu;a[/a
e*?;quu;e*?
*b;uu;ab
**cb;uquq;**cb
a[;uu;a[
da*?.;uuuqu;da*?.
*c[;uqu;*c[
a[]?;ququ;a[]?
a[bdd;uuuuu;a[bdd
cd?!;uuuu;cd?!
e?d;uuu;e?d
b/d*;uuuu;b/d*
d*;uu;d
*a!;uuu;*a!
]dc.*;uuqqu;]dc.*
d?];uqq;d?]
cb?;quu;cb?
c*;uq;c*
c!e*;uquu;c!e*
a??;uuu;a??
b*/;uqu;b*/
[*b?c;uququ;[*b?c
?]a;quq;?]a
.a*c;uuuu;.a*c
!]*;uuu;!]*
e]*;uuq;e]*
[]ac;uuuu;[]ac
de]*b;uquuu;de]*b
bb!a*;quuqu;bb!a*
**;uq;a*
b*]*;uuuu;b*]*";

/// All rules together.
#[test]
fn expands_among_many_files(rt: HostRuntime) -> Result<(), Fail> {
    for row in MIXED.lines() {
        assert!(rt; expands(rt.alloc(), MANY, row.as_bytes())?, "{row}");
    }
    Ok(())
}
