//! What paths name in small trees, as XBD 4.13 has it and `test -f` and `test -d` tell, and each object's calls once.
ghost use Rattle.std.specs.Prelude.{IfSome};
ghost use Rattle.ps_world.specs.Files.{NoWriterOut};

mod written;

use ps_fakes::{MemSink, MemSource, MemTree, OpenGate};
use ps_lines::Memory;
use ps_world::{Gate, Place, Reach, Sink, Source, Tree, WorldErr, look};
use std::alloc::{AllocError, Global};
use std::process::Abort;
use std::test::Fail;

/// What a place is, as the rows have it.
fn described(alloc: Global, place: &Place) -> Result<Vec<u8>, AllocError> {
    let (kind, path) = match place {
        Place::Missing => return Vec::from_slice(alloc, b"Missing"),
        Place::Null => return Vec::from_slice(alloc, b"Null"),
        Place::Makeable(path) => (b"Makeable ".as_slice(), path),
        Place::Dir(path) => (b"Dir ".as_slice(), path),
        Place::File(path) => (b"File ".as_slice(), path),
    };
    let mut text = Vec::from_slice(alloc, kind)?;
    text.extend_from_slice(path.spell(alloc)?.as_slice())?;
    Ok(text)
}

/// What stands before the first `=`, and behind it.
fn parted(item: &[u8]) -> (&[u8], &[u8]) {
    match item.iter().position(|byte| *byte == b'=') {
        Some(place) => (&item[..place], &item[place + 1..]),
        None => (item, b""),
    }
}

/// A tree of the files of a list, if they make one: `path=bytes`, or a directory with a `/` behind it, with a `|` between them.
fn tree_of(alloc: Global, home: &[u8], list: &[u8]) -> Result<Option<MemTree>, Memory> {
    let mut files = Vec::new(alloc);
    for item in list.split(|byte| *byte == b'|') {
        match item {
            [] => {}
            [dir @ .., b'/'] => files.push((dir, None))?,
            file => {
                let (path, bytes) = parted(file);
                files.push((path, Some(bytes)))?;
            }
        }
    }
    MemTree::of_table(alloc, home, files.as_slice(), Vec::new(alloc))
}

/// Whether the text names this place: its kind, and after a space its path.
fn names(alloc: Global, tree: &mut MemTree, text: &[u8], wanted: &[u8]) -> Result<bool, Fail> {
    let place = look(alloc, tree, text)?;
    let told = described(alloc, &place);
    drop(place);
    Ok(told?.as_slice() == wanted)
}

/// The same in a tree of these files, from this working directory.
fn names_in(
    alloc: Global,
    home: &[u8],
    list: &[u8],
    text: &[u8],
    wanted: &[u8],
) -> Result<bool, Fail> {
    match tree_of(alloc, home, list)? {
        Some(mut tree) => {
            let told = names(alloc, &mut tree, text, wanted);
            drop(tree);
            told
        }
        None => Ok(false),
    }
}

/// The same of a row: the working directory, the files, the text, and what it names, with `;` between them.
fn looks(alloc: Global, row: &[u8]) -> Result<bool, Fail> {
    let mut columns = row.split(|byte| *byte == b';');
    let home = columns.next().unwrap_or(&[]);
    let list = columns.next().unwrap_or(&[]);
    let text = columns.next().unwrap_or(&[]);
    let wanted = columns.next().unwrap_or(&[]);
    names_in(alloc, home, list, text, wanted)
}

static NAMES: &str = "/w;;;Missing
/w;;*;Makeable /w/*
/w;;-;Makeable /w/-
/w;;...;Makeable /w/...
/w;/w/a=1;a;File /w/a
/w;/w/a=1;b;Makeable /w/b
/w;/w/a=1;A;Makeable /w/A
/w;/w/a=1;/;Dir /
/w;/w/a=1;/w;Dir /w
/w;/w/a=1;/w/a;File /w/a
/w;/w/a=1;/a;Makeable /a
/w;/w/a=1;/w/b;Makeable /w/b
/w;/w/a=1;/x/b;Missing
/w;/w/a=1;w/a;Missing
/w;/w/a=1;/..;Dir /
/w;/w/a=1;/../w/a;File /w/a
/w;/w/a=1;../..;Dir /
/w;/w/a=1;../../../w/a;File /w/a
/w;/w/a=1;/.;Dir /
/w;/w/a=1;/./..;Dir /
/w;/w/a=1;/dev/null;Null
/w;/w/a=1;../dev/null;Missing
/w;/w/a=1;//dev/null;Missing
/w;/w/a=1;/dev//null;Missing
/w;/w/a=1;dev/null;Missing
/w;/w/d/;d;Dir /w/d
/w;/w/a b=1;a b;File /w/a b
/w;/w/*=1;*;File /w/*
/w;/x/f=1;/x/f;File /x/f
/w;/x/f=1;x/f;Missing
/x;/x/f=1;f;File /x/f
/;/x/f=1;x/f;File /x/f
/;/x/f=1;.;Dir /
/;/x/f=1;g;Makeable /g
/w;/a=1;/a;File /a
/w/v;/a=1;../../a;File /a
/w;/w/.a=1;.a;File /w/.a";

static OTHER_NAMES: [&[u8]; 1] = [b"/w;;\xff;Makeable /w/\xff"];

/// A text that begins with a slash starts at the root, another at the working directory.
#[test]
fn looks_up_names(rt: HostRuntime) -> Result<(), Fail> {
    for row in NAMES.lines() {
        assert!(rt; looks(rt.alloc(), row.as_bytes())?, "{row}");
    }
    for &row in OTHER_NAMES.iter() {
        assert!(rt; looks(rt.alloc(), row)?, "{row:?}");
    }
    Ok(())
}

static COMPONENTS: &str = "/w;/w/d/a=1;d/a;File /w/d/a
/w;/w/d/a=1;d/b;Makeable /w/d/b
/w;/w/d/a=1;e/b;Missing
/w;/w/d/a=1;d/e/b;Missing
/w;/w/d/a=1;.;Dir /w
/w;/w/d/a=1;..;Dir /
/w;/w/d/a=1;./d;Dir /w/d
/w;/w/d/a=1;./d/./a;File /w/d/a
/w;/w/d/a=1;d/.;Dir /w/d
/w;/w/d/a=1;d/..;Dir /w
/w;/w/d/a=1;d/../d/a;File /w/d/a
/w;/w/d/a=1;d/../b;Makeable /w/b
/w;/w/d/a=1;../w/d/a;File /w/d/a
/w;/w/d/a=1;../x;Makeable /x
/w;/w/d/a=1;d/a/.;Missing
/w;/w/d/a=1;d/a/..;Missing
/w;/w/d/a=1;d/a/b;Missing
/w;/w/d/a=1;e/..;Missing
/w;/w/d/a=1;e/../d;Missing
/w;/w/d/a=1;e/.;Missing
/w;/w/d/a=1;..a;Makeable /w/..a
/w;/w/d/a=1;.a;Makeable /w/.a
/w;/w/d/a=1;//;Dir /
/w;/w/d/a=1;//w//d//a;File /w/d/a
/w;/w/d/a=1;d//a;File /w/d/a
/w;/w/d/a=1;d/;Dir /w/d
/w;/w/d/a=1;d//;Dir /w/d
/w;/w/d/a=1;./;Dir /w
/w;/w/d/a=1;../;Dir /
/w;/w/d/a=1;d/a/;Missing
/w;/w/d/a=1;d/a//;Missing
/w;/w/d/a=1;d/b/;Missing
/w;/w/d/a=1;b/;Missing
/w;/w/d/a=1;b/c;Missing
/w;/w/d/a=1;d/./;Dir /w/d
/w;/w/d/a=1;/w/;Dir /w";

/// `.` stays, `..` goes up and stays at the root, slashes may follow one another, and all but the last component are directories.
#[test]
fn looks_up_components(rt: HostRuntime) -> Result<(), Fail> {
    for row in COMPONENTS.lines() {
        assert!(rt; looks(rt.alloc(), row.as_bytes())?, "{row}");
    }
    Ok(())
}

static NULL: &str = "/w;/dev/x;/dev/null;Null
/w;/dev/x;/dev//null;Null
/w;/dev/x;/dev/./null;Null
/w;/dev/x;//dev/null;Null
/w;/dev/x;/dev/../dev/null;Null
/w;/dev/x;../dev/null;Null
/w;/dev/x;/dev/null/;Missing
/w;/dev/x;/dev/null/.;Missing
/w;/dev/x;/dev/null/x;Missing
/w;/dev/x;/dev/nul;Makeable /dev/nul
/dev;/dev/x;null;Null
/dev;/dev/x;./null;Null
/w;/dev/null=1;/dev/null;Null
/w;/dev/null=1;../dev/null;Null
/w;/dev/null=1;../dev/null/;Missing
/w;/dev/null/;/dev/null;Null
/w;/dev/null/;../dev/null;Null
/w;/dev/null/;../dev/null/;Null
/w;/dev/null/x;/dev/null/x;File /dev/null/x
/w;/dev/null/x;/dev/null/..;Dir /dev
/w;/w/dev/null=1;dev/null;File /w/dev/null";

/// The text `/dev/null` and every text that leads there, whatever stands there.
#[test]
fn knows_the_null_device(rt: HostRuntime) -> Result<(), Fail> {
    for row in NULL.lines() {
        assert!(rt; looks(rt.alloc(), row.as_bytes())?, "{row}");
    }
    Ok(())
}

static MIXED: &str = "/w;/w/f=1|/w/d/g=2|/w/d/e/|/x/h=3|/dev/;..;Dir /
/w;/w/f=1|/w/d/g=2|/w/d/e/|/x/h=3|/dev/;/w/null/dev/../;Missing
/w;/w/f=1|/w/d/g=2|/w/d/e/|/x/h=3|/dev/;/e;Makeable /e
/w;/w/f=1|/w/d/g=2|/w/d/e/|/x/h=3|/dev/;d/;Dir /w/d
/w;/w/f=1|/w/d/g=2|/w/d/e/|/x/h=3|/dev/;null/../x/.//;Missing
/w;/w/f=1|/w/d/g=2|/w/d/e/|/x/h=3|/dev/;d/e/x;Makeable /w/d/e/x
/w;/w/f=1|/w/d/g=2|/w/d/e/|/x/h=3|/dev/;//./../h/;Missing
/w;/w/f=1|/w/d/g=2|/w/d/e/|/x/h=3|/dev/;null/d/x;Missing
/w;/w/f=1|/w/d/g=2|/w/d/e/|/x/h=3|/dev/;/w/../f/../f/;Missing
/w;/w/f=1|/w/d/g=2|/w/d/e/|/x/h=3|/dev/;//new;Makeable /new
/w;/w/f=1|/w/d/g=2|/w/d/e/|/x/h=3|/dev/;new/./..;Missing
/w;/w/f=1|/w/d/g=2|/w/d/e/|/x/h=3|/dev/;//h/f;Missing
/w;/w/f=1|/w/d/g=2|/w/d/e/|/x/h=3|/dev/;/new/d/./w//;Missing
/w;/w/f=1|/w/d/g=2|/w/d/e/|/x/h=3|/dev/;null/dev/;Missing
/w;/w/f=1|/w/d/g=2|/w/d/e/|/x/h=3|/dev/;..//;Dir /
/w;/w/f=1|/w/d/g=2|/w/d/e/|/x/h=3|/dev/;dev;Makeable /w/dev
/w;/w/f=1|/w/d/g=2|/w/d/e/|/x/h=3|/dev/;//w/;Dir /w
/w;/w/f=1|/w/d/g=2|/w/d/e/|/x/h=3|/dev/;null/g/h/w//;Missing
/w;/w/f=1|/w/d/g=2|/w/d/e/|/x/h=3|/dev/;/f/dev//;Missing
/w;/w/f=1|/w/d/g=2|/w/d/e/|/x/h=3|/dev/;/w/.././null//;Missing
/w;/w/f=1|/w/d/g=2|/w/d/e/|/x/h=3|/dev/;/w/e;Makeable /w/e
/w;/w/f=1|/w/d/g=2|/w/d/e/|/x/h=3|/dev/;../dev//;Dir /dev
/w;/w/f=1|/w/d/g=2|/w/d/e/|/x/h=3|/dev/;/h/./h;Missing
/w;/w/f=1|/w/d/g=2|/w/d/e/|/x/h=3|/dev/;e/dev/null/e//;Missing
/w;/w/f=1|/w/d/g=2|/w/d/e/|/x/h=3|/dev/;/w/w//;Missing
/w;/w/f=1|/w/d/g=2|/w/d/e/|/x/h=3|/dev/;./dev/../;Missing
/w;/w/f=1|/w/d/g=2|/w/d/e/|/x/h=3|/dev/;/./null;Makeable /null
/w;/w/f=1|/w/d/g=2|/w/d/e/|/x/h=3|/dev/;/d/f//;Missing
/w;/w/f=1|/w/d/g=2|/w/d/e/|/x/h=3|/dev/;../h;Makeable /h
/w;/w/f=1|/w/d/g=2|/w/d/e/|/x/h=3|/dev/;../x/..//;Dir /
/w;/w/f=1|/w/d/g=2|/w/d/e/|/x/h=3|/dev/;w//;Missing
/w;/w/f=1|/w/d/g=2|/w/d/e/|/x/h=3|/dev/;/new/..;Missing
/w;/w/f=1|/w/d/g=2|/w/d/e/|/x/h=3|/dev/;h/new/g/dev;Missing
/w;/w/f=1|/w/d/g=2|/w/d/e/|/x/h=3|/dev/;//f/../dev/h//;Missing
/w/d;/w/f=1|/w/d/g=2|/w/d/e/|/x/h=3|/dev/;f;Makeable /w/d/f
/w/d;/w/f=1|/w/d/g=2|/w/d/e/|/x/h=3|/dev/;h/;Missing
/w/d;/w/f=1|/w/d/g=2|/w/d/e/|/x/h=3|/dev/;x/h/e/e;Missing
/w/d;/w/f=1|/w/d/g=2|/w/d/e/|/x/h=3|/dev/;/w/e/w/w/new/;Missing
/w/d;/w/f=1|/w/d/g=2|/w/d/e/|/x/h=3|/dev/;../..;Dir /
/w/d;/w/f=1|/w/d/g=2|/w/d/e/|/x/h=3|/dev/;../h/f//;Missing
/w/d;/w/f=1|/w/d/g=2|/w/d/e/|/x/h=3|/dev/;//h/g/h/d;Missing
/w/d;/w/f=1|/w/d/g=2|/w/d/e/|/x/h=3|/dev/;//new/..//;Missing
/w/d;/w/f=1|/w/d/g=2|/w/d/e/|/x/h=3|/dev/;/w/f/x/h/g;Missing
/w/d;/w/f=1|/w/d/g=2|/w/d/e/|/x/h=3|/dev/;/w/./d/;Dir /w/d
/w/d;/w/f=1|/w/d/g=2|/w/d/e/|/x/h=3|/dev/;/dev/f/;Missing
/w/d;/w/f=1|/w/d/g=2|/w/d/e/|/x/h=3|/dev/;/w/../f/h/../;Missing
/w/d;/w/f=1|/w/d/g=2|/w/d/e/|/x/h=3|/dev/;/w/dev/d/null/.;Missing
/w/d;/w/f=1|/w/d/g=2|/w/d/e/|/x/h=3|/dev/;/g/x/.;Missing
/w/d;/w/f=1|/w/d/g=2|/w/d/e/|/x/h=3|/dev/;//x/g//;Missing
/w/d;/w/f=1|/w/d/g=2|/w/d/e/|/x/h=3|/dev/;//null/w/../w;Missing
/w/d;/w/f=1|/w/d/g=2|/w/d/e/|/x/h=3|/dev/;x/e/e/;Missing
/w/d;/w/f=1|/w/d/g=2|/w/d/e/|/x/h=3|/dev/;/e/w/;Missing
/w/d;/w/f=1|/w/d/g=2|/w/d/e/|/x/h=3|/dev/;../..//;Dir /
/w/d;/w/f=1|/w/d/g=2|/w/d/e/|/x/h=3|/dev/;e;Dir /w/d/e
/w/d;/w/f=1|/w/d/g=2|/w/d/e/|/x/h=3|/dev/;/../x/new//;Missing
/w/d;/w/f=1|/w/d/g=2|/w/d/e/|/x/h=3|/dev/;null/new/../w/;Missing
/w/d;/w/f=1|/w/d/g=2|/w/d/e/|/x/h=3|/dev/;/h/w/w;Missing
/w/d;/w/f=1|/w/d/g=2|/w/d/e/|/x/h=3|/dev/;null/;Missing
/w/d;/w/f=1|/w/d/g=2|/w/d/e/|/x/h=3|/dev/;e/d;Makeable /w/d/e/d
/w/d;/w/f=1|/w/d/g=2|/w/d/e/|/x/h=3|/dev/;e/g//;Missing
/;/w/f=1|/w/d/g=2|/w/d/e/|/x/h=3|/dev/;null/../.;Missing
/;/w/f=1|/w/d/g=2|/w/d/e/|/x/h=3|/dev/;/d/../new/w;Missing
/;/w/f=1|/w/d/g=2|/w/d/e/|/x/h=3|/dev/;/w/x//;Missing
/;/w/f=1|/w/d/g=2|/w/d/e/|/x/h=3|/dev/;g/d/dev/../;Missing
/;/w/f=1|/w/d/g=2|/w/d/e/|/x/h=3|/dev/;/x;Dir /x
/;/w/f=1|/w/d/g=2|/w/d/e/|/x/h=3|/dev/;./h/f/new;Missing
/;/w/f=1|/w/d/g=2|/w/d/e/|/x/h=3|/dev/;w/;Dir /w
/;/w/f=1|/w/d/g=2|/w/d/e/|/x/h=3|/dev/;e/../dev/..;Missing
/;/w/f=1|/w/d/g=2|/w/d/e/|/x/h=3|/dev/;/w/null/dev;Missing
/;/w/f=1|/w/d/g=2|/w/d/e/|/x/h=3|/dev/;g/new/f;Missing
/;/w/f=1|/w/d/g=2|/w/d/e/|/x/h=3|/dev/;/w/../../;Dir /
/;/w/f=1|/w/d/g=2|/w/d/e/|/x/h=3|/dev/;../../h//;Missing
/;/w/f=1|/w/d/g=2|/w/d/e/|/x/h=3|/dev/;../d/dev/e;Missing
/;/w/f=1|/w/d/g=2|/w/d/e/|/x/h=3|/dev/;/new/x/;Missing
/;/w/f=1|/w/d/g=2|/w/d/e/|/x/h=3|/dev/;/g;Makeable /g
/;/w/f=1|/w/d/g=2|/w/d/e/|/x/h=3|/dev/;/null/g;Missing
/;/w/f=1|/w/d/g=2|/w/d/e/|/x/h=3|/dev/;null/.;Missing
/;/w/f=1|/w/d/g=2|/w/d/e/|/x/h=3|/dev/;e;Makeable /e
/;/w/f=1|/w/d/g=2|/w/d/e/|/x/h=3|/dev/;x/dev/d/new//;Missing
/;/w/f=1|/w/d/g=2|/w/d/e/|/x/h=3|/dev/;w;Dir /w";

/// All of these together.
#[test]
fn looks_up_mixed_texts(rt: HostRuntime) -> Result<(), Fail> {
    for row in MIXED.lines() {
        assert!(rt; looks(rt.alloc(), row.as_bytes())?, "{row}");
    }
    Ok(())
}

/// Whether a file whose name has 255 bytes is found.
fn finds_a_long_name(alloc: Global) -> Result<bool, Fail> {
    let mut name = Vec::new(alloc);
    for _ in 0..255 {
        name.push(b'n')?;
    }
    let mut path = Vec::from_slice(alloc, b"/w/")?;
    path.extend_from_slice(name.as_slice())?;
    let mut wanted = Vec::from_slice(alloc, b"File ")?;
    wanted.extend_from_slice(path.as_slice())?;
    names_in(
        alloc,
        b"/w",
        path.as_slice(),
        name.as_slice(),
        wanted.as_slice(),
    )
}

static HIGH: [&[u8]; 5] = [
    b"/w;/w/\x80\xff|/\xfe/;\x80\xff;File /w/\x80\xff",
    b"/w;/w/\x80\xff|/\xfe/;../\xfe/.;Dir /\xfe",
    b"/w;/w/\x80\xff|/\xfe/;\x80\xff/;Missing",
    b"/w;/w/\x80\xff|/\xfe/;\x80\xff/\x80;Missing",
    b"/w;/w/\x80\xff|/\xfe/;\x80;Makeable /w/\x80",
];

/// Names of bytes above 127 and of 255 bytes are names like others, and a file's name with a slash behind it leads nowhere.
#[test]
fn looks_up_long_names(rt: HostRuntime) -> Result<(), Fail> {
    assert!(rt; finds_a_long_name(rt.alloc())?);
    for &row in HIGH.iter() {
        assert!(rt; looks(rt.alloc(), row)?, "{row:?}");
    }
    Ok(())
}

/// Whether a look at the text ends well where this call of the tree fails, from 0.
fn ends_before(alloc: Global, text: &[u8], failing: u64) -> Result<bool, Fail> {
    let files: [(&[u8], Option<&[u8]>); 1] = [(b"/w/d/a", Some(b"1"))];
    let fails = vec![in alloc; failing]?;
    match MemTree::of_table(alloc, b"/w", &files, fails)? {
        Some(mut tree) => {
            let ends = look(alloc, &mut tree, text).is_ok();
            drop(tree);
            Ok(ends)
        }
        None => Err(Fail::new("the files make a tree")),
    }
}

/// Texts, and how many calls of the tree a look at them makes.
static CALLS: [(&[u8], u64); 19] = [
    (b"", 0),
    (b"/dev/null", 0),
    (b".", 1),
    (b"..", 1),
    (b"/", 1),
    (b"d", 1),
    (b"d/", 1),
    (b"d/.", 1),
    (b"d/..", 2),
    (b"d/a", 2),
    (b"d/a/", 2),
    (b"d/nope", 2),
    (b"d/./nope", 2),
    (b"d/../nope", 3),
    (b"nope", 2),
    (b"./nope", 2),
    (b"../nope", 2),
    (b"/nope", 2),
    (b"nope/a", 1),
];

/// The last place is asked for, and where nothing is there the directory above it; each place once: not one call fewer is made, and
/// none that comes behind them.
#[test]
fn a_look_asks_for_each_place_once(rt: HostRuntime) -> Result<(), Fail> {
    for &(text, calls) in CALLS.iter() {
        assert!(rt; ends_before(rt.alloc(), text, calls)?, "{text:?}");
        let fewer = ends_before(rt.alloc(), text, calls.saturating_sub(1))?;
        assert!(rt; fewer == (calls == 0), "{text:?}");
    }
    Ok(())
}

/// Whether these files make a tree with this home.
fn stands(alloc: Global, home: &[u8], list: &[u8]) -> Result<bool, Memory> {
    let tree = tree_of(alloc, home, list)?;
    let stands = tree.is_some();
    drop(tree);
    Ok(stands)
}

/// A working directory, files, and whether they make a tree.
static TREES: [(&[u8], &[u8], bool); 10] = [
    (b"/", b"", true),
    (b"/w", b"/w/|/a/b|/a/", true),
    (b"/w", b"/ab|/a", true),
    (b"w", b"", false),
    (b"/w", b"/a//", false),
    (b"/w", b"/a/|/a", false),
    (b"/w", b"/a|/a/b/c/", false),
    (b"/w", b"/a/b|/a", false),
    (b"/w/v", b"/w", false),
    (b"/w", b"/w", false),
];

/// Entries that make no tree: a text that spells no path, a path that stands twice, and a file above another path or home.
#[test]
fn tells_what_makes_a_tree(rt: HostRuntime) -> Result<(), Fail> {
    for &(home, list, wanted) in TREES.iter() {
        assert!(rt;
            stands(rt.alloc(), home, list)? == wanted,
            "{home:?} {list:?}"
        );
    }
    Ok(())
}

/// Reads once, and tells what came.
fn read_once<R: Abort>(rt: &R, source: &mut MemSource, want: Option<&[u8]>) {
    let mut buffer = [b'-'; 4];
    let found = match source.read(&mut buffer) {
        Ok(count) => buffer.get(..count),
        Err(_) => None,
    };
    assert!(rt; found == want, "{found:?}, not {want:?}");
}

#[test]
fn a_source_gives_its_bytes(rt: HostRuntime) -> Result<(), Fail> {
    let alloc = rt.alloc();
    let bytes = Vec::from_slice(alloc, b"hello!")?;
    let mut source = MemSource::new(bytes, vec![in alloc; 1, 9]?);
    read_once(&rt, &mut source, Some(b"hell"));
    read_once(&rt, &mut source, None);
    read_once(&rt, &mut source, Some(b"o!"));
    read_once(&rt, &mut source, Some(b""));
    assert_eq!(rt; source.faults(), 1);
    let bytes = Vec::from_slice(alloc, b"abc")?;
    let mut slow = MemSource::in_pieces(bytes, 2, Vec::new(alloc));
    slow.delay(7);
    read_once(&rt, &mut slow, Some(b"ab"));
    read_once(&rt, &mut slow, Some(b"c"));
    let mut stuck = MemSource::in_pieces(Vec::from_slice(alloc, b"a")?, 0, Vec::new(alloc));
    read_once(&rt, &mut stuck, None);
    assert_eq!(rt; stuck.faults(), 1);
    Ok(())
}

#[test]
fn a_sink_keeps_what_it_takes(rt: HostRuntime) -> Result<(), Fail> {
    let alloc = rt.alloc();
    let mut sink = MemSink::new(alloc, vec![in alloc; 1, 3]?);
    assert_eq!(rt; sink.write(b"one")?, 3);
    assert_eq!(rt; sink.flush(), Err(WorldErr::Failed));
    assert!(rt; sink.sent().is_empty());
    sink.flush()?;
    assert_eq!(rt; sink.write(b"two"), Err(WorldErr::Failed));
    assert_eq!(rt; sink.write(b"2")?, 1);
    assert!(rt; sink.taken() == b"one2".as_slice());
    assert!(rt; sink.sent() == b"one".as_slice());
    assert_eq!(rt; sink.faults(), 2);
    let mut slow = MemSink::in_pieces(alloc, 2, Vec::new(alloc));
    assert_eq!(rt; slow.write(b"one")?, 2);
    let mut stuck = MemSink::in_pieces(alloc, 0, Vec::new(alloc));
    assert_eq!(rt; stuck.write(b"")?, 0);
    assert_eq!(rt; stuck.write(b"one"), Err(WorldErr::Failed));
    assert_eq!(rt; stuck.faults(), 1);
    OpenGate.reach(0, Reach::First);
    Ok(())
}

/// Opens the file that a text leads to, reads it as often as is wanted, and gives the reader back.
fn read_file<R: Abort + AllocGlobal>(
    rt: &R,
    tree: &mut MemTree,
    text: &[u8],
    wants: &[Option<&[u8]>],
) -> Result<(), WorldErr>
    requires whole { IfSome (⟦<MemTree as Tree>⟧.state tree.old).held NoWriterOut }
    ensures whole { IfSome (⟦<MemTree as Tree>⟧.state tree.new).held NoWriterOut }
{
    let Place::File(path) = look(rt.alloc(), tree, text)? else {
        // No test wants this answer.
        return Err(WorldErr::Memory);
    };
    let mut reader = tree.open(&path)?;
    for want in wants {
        read_once(rt, &mut reader, *want);
    }
    tree.end_read(&path, reader);
    Ok(())
}

/// The calls of a tree that answer a Result are counted: a look at `a` is one, and the reader's opening the next.
#[test]
fn a_tree_fails_where_planned(rt: HostRuntime) -> Result<(), Fail> {
    let alloc = rt.alloc();
    let files: [(&[u8], Option<&[u8]>); 1] = [(b"/w/a", Some(b"one\ntwo\n"))];
    let tree = MemTree::of_table(alloc, b"/w", &files, vec![in alloc; 3, 4, 99]?)?;
    let mut tree = tree.expect(&rt, "the file makes a tree");
    assert!(rt; tree.home().spell(alloc)?.as_slice() == b"/w".as_slice());
    tree.plan(b"/w/a", 3, Some(1))?;
    tree.plan(b"/w", 1, None)?;
    read_file(&rt, &mut tree, b"a", &[Some(b"one"), None, Some(b"\ntw")])?;
    assert_eq!(rt; (tree.lent(), tree.back(), tree.faults()), (1, 1, 1));
    assert_eq!(rt; read_file(&rt, &mut tree, b"a", &[]), Err(WorldErr::Failed));
    assert_eq!(rt; (tree.lent(), tree.back(), tree.faults()), (1, 1, 2));
    assert!(rt; look(alloc, &mut tree, b"a").is_err());
    tree.plan(b"/w/a", 9, None)?;
    tree.delay(7);
    read_file(
        &rt,
        &mut tree,
        b"a",
        &[Some(b"one\n"), Some(b"two\n"), Some(b"")],
    )?;
    assert_eq!(rt; (tree.lent(), tree.back(), tree.faults()), (2, 2, 3));
    Ok(())
}
