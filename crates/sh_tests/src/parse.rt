//! Items and whether they are a script, as `dash -n` has it, and the trees of a dozen scripts, written by hand.
ghost use Rattle.std.specs.Prelude.{◌≡◌, IfOk, false};
ghost use Rattle.sh_tree.specs.Trees.{part, substitution, no_part};
ghost use Rattle.sh_tree.specs.Views.{word_tree};

mod misuses;
mod parse_commands;
mod parse_compounds;
mod parse_levels;
mod parse_misuses;
mod parse_words;
mod rows;
mod shown;
mod texts;

use ps_lines::{Memory, Text};
use sh_parse::{
    GrammarRefusal, Item, Look, Reserved, Span, SyntaxRefusal, WordKind, WordReader, check,
    parse_items, word_kind,
};
use sh_tree::{How, Join, Part, Word};
use shown::shown;
use std::alloc::{AllocError, Global};
use std::process::Abort;
use std::test::Fail;

/// Reserved words, by their spelling.
static RESERVED: [(&str, Reserved); 15] = [
    ("!", Reserved::Bang),
    ("{", Reserved::OpenBrace),
    ("}", Reserved::CloseBrace),
    ("if", Reserved::If),
    ("then", Reserved::Then),
    ("elif", Reserved::Elif),
    ("else", Reserved::Else),
    ("fi", Reserved::Fi),
    ("while", Reserved::While),
    ("until", Reserved::Until),
    ("do", Reserved::Do),
    ("done", Reserved::Done),
    ("for", Reserved::For),
    ("case", Reserved::Case),
    ("esac", Reserved::Esac),
];

/// Other items, by how the rows below spell them.
static OTHERS: [(&str, Item); 12] = [
    ("NL", Item::Newline),
    (";", Item::Semi),
    ("&&", Item::Join(Join::And)),
    ("||", Item::Join(Join::Or)),
    ("|", Item::Pipe),
    (")", Item::Close),
    ("$)", Item::SubClose),
    ("<", Item::Redirect(How::Read, 0)),
    (">", Item::Redirect(How::Write, 0)),
    (">>", Item::Redirect(How::Append, 0)),
    (">&", Item::Redirect(How::Copy, 0)),
    ("#2", Item::IoNumber(2, 0)),
];

/// The items of a row, which stand apart by blanks: `NL` is a newline, `$(` and `$)` are the ends of a command
/// substitution that is a word, and `#2` is the number 2 before a redirection. A word stands at the number of its item.
fn items_of(alloc: Global, row: &[u8]) -> Result<Vec<Item>, AllocError> {
    let mut items = Vec::new(alloc);
    for piece in row.split(|byte| *byte == b' ') {
        let place = u32::try_from(items.len()).unwrap_or(0);
        if piece == b"$(".as_slice() {
            items.push(Item::Word(WordKind::Other, span_of(place)))?;
            items.push(Item::SubOpen(0))?;
        } else if !piece.is_empty() {
            items.push(item_of(piece, span_of(place)))?;
        }
    }
    Ok(items)
}

const NOWHERE: Span = Span { from: 0, to: 0 };

fn span_of(place: u32) -> Span {
    Span {
        from: place,
        to: place,
    }
}

fn item_of(piece: &[u8], at: Span) -> Item {
    for &(spelling, name) in RESERVED.iter() {
        if spelling.as_bytes() == piece {
            return Item::Word(WordKind::Reserved(name), at);
        }
    }
    for &(spelling, item) in OTHERS.iter() {
        if spelling.as_bytes() == piece {
            return item;
        }
    }
    if piece == b"(".as_slice() {
        return Item::Open(0);
    }
    Item::Word(piece_kind(piece), at)
}

fn piece_kind(piece: &[u8]) -> WordKind {
    if piece == b"in".as_slice() {
        WordKind::In
    } else if piece.contains(&b'=') {
        WordKind::Assign
    } else if piece == b"1".as_slice() {
        WordKind::Other
    } else {
        WordKind::Name
    }
}

/// Scripts, one a line; `dash -n` takes each.
static SCRIPTS: &[u8] = b"\
    a\n\
    a b c\n\
    NL a\n\
    a ;\n\
    a NL\n\
    x=1\n\
    x=1 y=2 a b\n\
    a x=1\n\
    x=1 if\n\
    > f if\n\
    > f\n\
    a < f > g\n\
    > f x=1 a\n\
    #2 > f a\n\
    a #2 >& 1 > f\n\
    a > f b < g\n\
    a ; b\n\
    a NL b\n\
    a ; NL NL b\n\
    a NL NL b NL\n\
    a && b\n\
    a || b && c || d\n\
    a && NL b\n\
    a || NL NL b\n\
    a | b | c\n\
    a | NL b\n\
    ! a\n\
    ! a && ! b | c\n\
    a !\n\
    a && b ; c || d NL e\n\
    { a ; }\n\
    { a NL }\n\
    { NL a ; NL }\n\
    { a ; b ; }\n\
    { a ; } > f #2 >& 1\n\
    { a ; } | b\n\
    { { a ; } }\n\
    { ( a ) }\n\
    ( a )\n\
    ( NL a NL )\n\
    ( a ; b ) < f\n\
    ( ( a ) )\n\
    ( a ) ; ( b )\n\
    a { b }\n\
    a }\n\
    ! { a ; }\n\
    ! ( a )\n\
    if a ; then b ; fi\n\
    if a NL then b NL fi\n\
    if a ; b ; then c ; d ; fi\n\
    if a ; then b ; else c ; fi\n\
    if a ; then b ; elif c ; then d ; fi\n\
    if a ; then b ; elif c ; then d ; elif e ; then f ; else g ; fi\n\
    if a ; then b ; fi > f\n\
    if a ; then b ; fi | c\n\
    if ! a ; then b ; fi\n\
    if ( a ) then ( b ) fi\n\
    if { a ; } then { b ; } else { c ; } fi\n\
    if if a ; then b ; fi then c ; fi\n\
    if a ; then if b ; then c ; fi ; fi\n\
    echo if then else elif fi while until do done for case esac in { } !\n\
    while a ; do b ; done\n\
    until a ; do b ; done\n\
    while a NL do b NL done\n\
    while a ; do b ; done < f\n\
    until ! a ; do b ; done | c\n\
    while ( a ) do ( b ) done\n\
    while a ; do until b ; do c ; done done\n\
    a | while b ; do c ; done\n\
    echo do done\n\
    for i in a b ; do c ; done\n\
    for i in ; do a ; done\n\
    for i in NL do a ; done\n\
    for i in a ; NL NL do b ; done\n\
    for i NL in a ; do b ; done\n\
    for i do a ; done\n\
    for i ; do a ; done\n\
    for i NL NL do a ; done\n\
    for i in do done x=1 if in ; do a ; done\n\
    for in in a ; do b ; done\n\
    for if in a ; do b ; done\n\
    for i in a ; do b ; done > f\n\
    for i in a ; do for j in b ; do c ; done ; done\n\
    $( a $)\n\
    $( $)\n\
    $( NL $)\n\
    a $( b ; c $) $( d $)\n\
    x=1 $( a | b $) > f $( c $)\n\
    a $( b $( c $) $) d\n\
    a $( if b ; then c ; fi $)\n\
    a $( ( b ) $)\n\
    for i in a $( b $) ; do c ; done > $( d $)\n\
    { a ; } > $( b $)\n\
    a | if b ; then c ; fi\n\
    a && while b ; do c ; done";

/// No scripts, one a line; `dash -n` takes none.
static NO_SCRIPTS: &[u8] = b"\
    ;\n\
    ; a\n\
    a NL ; b\n\
    a ; ;\n\
    && a\n\
    a &&\n\
    a && ; b\n\
    a && && b\n\
    a || | b\n\
    | a\n\
    a | | b\n\
    a | ; b\n\
    a NL && b\n\
    a ; && b\n\
    a && NL\n\
    !\n\
    ! ;\n\
    ! ! a\n\
    a | ! b\n\
    a >\n\
    a > ;\n\
    a > > f\n\
    a #2 > NL\n\
    { a }\n\
    { a\n\
    { a ;\n\
    {\n\
    { }\n\
    { ; }\n\
    { NL }\n\
    }\n\
    ( )\n\
    ( ; )\n\
    ( a\n\
    )\n\
    a )\n\
    ( a ) )\n\
    ( a ) b\n\
    { a ; } b\n\
    { a ; } }\n\
    { a ; } { b ; }\n\
    ( a ) x=1\n\
    a ( b )\n\
    a ( )\n\
    x=1 ( a )\n\
    x=1 { a ; }\n\
    > f { a ; }\n\
    > f ( a )\n\
    if true\n\
    if a then b ; fi\n\
    if a ; then b\n\
    if a ; then b fi\n\
    if a ; then fi\n\
    if a ; then b ; else fi\n\
    if a ; then b ; elif c ; fi\n\
    if a ; then b ; else c ; elif d ; then e ; fi\n\
    if a ; else b ; fi\n\
    if a ; fi\n\
    if ; then a ; fi\n\
    if then a ; fi\n\
    if a ; then ; b ; fi\n\
    if a ; then b ; fi c\n\
    fi\n\
    else\n\
    elif a\n\
    then a\n\
    a ; then\n\
    a ; fi\n\
    while\n\
    while a\n\
    while a ; do\n\
    while a ; do b done\n\
    while a ; do done\n\
    while do a ; done\n\
    while a ; done\n\
    while a do b ; done\n\
    while a ; do ; b ; done\n\
    do a ; done\n\
    done\n\
    a ; done\n\
    a ; do\n\
    while a ; then b ; done\n\
    for\n\
    for i\n\
    for i in a\n\
    for i in a b do c ; done\n\
    for i in a ; b ; done\n\
    for i in a | b ; do c ; done\n\
    for i in a > f ; do b ; done\n\
    for i a ; do b ; done\n\
    for i ; in a ; do b ; done\n\
    for 1 in a ; do b ; done\n\
    for x=1 in a ; do b ; done\n\
    for { in a ; do b ; done\n\
    for ; do a ; done\n\
    for i in a ; do done\n\
    for i in ( a ) ; do b ; done\n\
    for i in a ; do b ; done c\n\
    $( a && $)\n\
    $( ; $)\n\
    $( fi $)\n\
    a $( b | $)\n\
    a $( b $) )\n\
    x=1 if a ; then b ; fi\n\
    ! fi\n\
    a | then\n\
    { fi ; }\n\
    ( fi )";

/// Scripts that `dash` doesn't take: redirections before a `}` (own), and `in` as a command's name (own).
static OWN_SCRIPTS: &[u8] = b"\
    { { a ; } > f }\n\
    in\n\
    in a b";

/// No scripts here (own): `case` isn't in the profile, and a `;` behind a newline isn't a separator of a `for`.
static OWN_NO_SCRIPTS: &[u8] = b"\
    case a\n\
    esac\n\
    for i NL ; do a ; done";

/// Sees that each row of the table is a script, or that none is.
fn expect_all(rt: &impl Abort, alloc: Global, rows: &[u8], scripts: bool) -> Result<(), Fail> {
    for row in rows.split(|byte| *byte == b'\n') {
        let items = items_of(alloc, row)?;
        assert!(rt; are_judged(alloc, items.as_slice(), scripts), "{row:?}");
    }
    Ok(())
}

/// Whether items are a script or not, and are parsed or refused as `check` says.
fn are_judged(alloc: Global, items: &[Item], scripts: bool) -> bool {
    let found = check(alloc, items);
    let parsed = parse_items(alloc, &Places, items).err();
    (found.is_ok() == scripts) & (parsed == found.err())
}

#[test]
fn rows_are_scripts_or_not(rt: HostRuntime) -> Result<(), Fail> {
    expect_all(&rt, rt.alloc(), SCRIPTS, true)?;
    expect_all(&rt, rt.alloc(), NO_SCRIPTS, false)?;
    expect_all(&rt, rt.alloc(), OWN_SCRIPTS, true)?;
    expect_all(&rt, rt.alloc(), OWN_NO_SCRIPTS, false)?;
    Ok(())
}

#[test]
fn sixty_four_levels_are_allowed(rt: HostRuntime) -> Result<(), Fail> {
    for (levels, expected) in [
        (64, Ok(())),
        (
            65,
            Err(GrammarRefusal::Refused(SyntaxRefusal::TooDeep(128))),
        ),
    ] {
        let mut items = Vec::new(rt.alloc());
        for level in 0..levels {
            items.push(Item::Open(2 * level))?;
        }
        items.push(Item::Word(WordKind::Name, NOWHERE))?;
        for _ in 0..levels {
            items.push(Item::Close)?;
        }
        assert_eq!(rt; check(rt.alloc(), items.as_slice()), expected);
    }
    Ok(())
}

/// A reader whose words tell where they stand and the number of their first substitution.
struct Places;

impl WordReader for Places {
    ghost use Rattle.std.specs.Prelude.{◌≡◌, ◌∷◌, [], IfOk, false, None};
    ghost use Rattle.sh_tree.specs.Trees.{part, substitution, no_part};
    ghost use Rattle.sh_tree.specs.Views.{word_tree};

    ghost views = { λ _. record {
      word = λ at first. part (substitution at.from false) (part (substitution first false) no_part);
      assign = λ at first. ([], part (substitution at.from false) (part (substitution first false) no_part));
      name = λ _. [];
      fault = λ _. None;
      assigns = λ _. false;
    } };

    fn word(&self, alloc: Global, at: Span, first: usize) -> Result<Word, Memory> {
        word(alloc, at.from, first)
    }

    fn assign(&self, alloc: Global, at: Span, first: usize) -> Result<(Text, Word), Memory> {
        Ok((Text::copy_of(alloc, &[])?, word(alloc, at.from, first)?))
    }

    fn name(&self, alloc: Global, at: Span) -> Result<Text, Memory> {
        let _ = at;
        Text::copy_of(alloc, &[])
    }

    fn look(&self, alloc: Global, at: Span) -> Result<Look, Memory> {
        let _ = (alloc, at);
        Ok(Look {
            fault: None,
            assigns: false,
        })
    }
}

/// The word at a place.
fn word(alloc: Global, place: u32, first: usize) -> Result<Word, Memory>
    ensures { IfOk result (λ word. word_tree word ≡ part (substitution place false) (part (substitution first false) no_part)) }
{
    let Ok(first) = u32::try_from(first) else {
        return Err(Memory);
    };
    let mut parts = Vec::new(alloc);
    parts.push(Part::Sub {
        number: place,
        quoted: false,
    })?;
    parts.push(Part::Sub {
        number: first,
        quoted: false,
    })?;
    Ok(Word { parts })
}

/// Sees that the items of each row are the script whose tree, as `shown` writes it, stands behind ` => `.
fn expect_trees(rt: &impl Abort, alloc: Global, rows: &str) -> Result<(), Fail> {
    for row in rows.lines() {
        let (items, tree) = row.split_once(" => ").unwrap_or((row, ""));
        assert!(rt;
            have_tree(alloc, items.as_bytes(), tree.as_bytes())?,
            "{row}"
        );
    }
    Ok(())
}

fn have_tree(alloc: Global, row: &[u8], tree: &[u8]) -> Result<bool, Fail> {
    let items = items_of(alloc, row)?;
    match parse_items(alloc, &Places, items.as_slice()) {
        Ok(script) => {
            let answer = shown(alloc, &script);
            drop(script);
            Ok(answer?.as_slice() == tree)
        }
        Err(_) => Ok(false),
    }
}

/// Lists and pipelines, and scripts of nothing. `(w (s PLACE) (s NUMBER))` is a word, with the number of its first substitution.
static LISTS: &str = " => none
NL NL => none
NL a => (list (simple (w (s 1) (s 0))))
a b ; c NL => (list (simple (w (s 0) (s 0)) (w (s 1) (s 0))) (simple (w (s 3) (s 0))))
a && b || NL c => (list (andor (simple (w (s 0) (s 0))) and (simple (w (s 2) (s 0))) or (simple (w (s 5) (s 0)))))
! a | b | c => (list (not (simple (w (s 1) (s 0))) (simple (w (s 3) (s 0))) (simple (w (s 5) (s 0)))))";

#[test]
fn lists_and_pipelines_have_their_trees(rt: HostRuntime) -> Result<(), Fail> {
    expect_trees(&rt, rt.alloc(), LISTS)
}

/// Simple commands.
static SIMPLE: &str =
    r"x=1 a > f #2 >& 1 y=2 < g => (list (simple (= \e (s 0) (s 0)) (w (s 1) (s 0)) (w (s 7) (s 0)) (> 1 (w (s 3) (s 0))) (>& 2 (w (s 6) (s 0))) (< 0 (w (s 9) (s 0)))))
a $( b NL $) > $( c $) d => (list (simple (w (s 0) (s 0)) (w (s 1) (s 0)) (w (s 11) (s 2)) (> 1 (w (s 7) (s 1))) (list (simple (w (s 3) (s 0)))) (list (simple (w (s 9) (s 0))))))";

#[test]
fn simple_commands_have_their_trees(rt: HostRuntime) -> Result<(), Fail> {
    expect_trees(&rt, rt.alloc(), SIMPLE)
}

/// Compound commands.
static COMPOUNDS: &str =
    "{ a ; } >> f => (list (group (list (simple (w (s 1) (s 0)))) (>> 1 (w (s 5) (s 0)))))
( ( a ) ) => (list (subshell (list (subshell (list (simple (w (s 2) (s 0))))))))
if a ; then b ; elif c ; then d ; else e ; fi => (list (if ((list (simple (w (s 1) (s 0)))) (list (simple (w (s 4) (s 0))))) ((list (simple (w (s 7) (s 0)))) (list (simple (w (s 10) (s 0))))) else (list (simple (w (s 13) (s 0))))))
if a ; then b ; fi => (list (if ((list (simple (w (s 1) (s 0)))) (list (simple (w (s 4) (s 0)))))))
while a ; do b ; done => (list (while (list (simple (w (s 1) (s 0)))) (list (simple (w (s 4) (s 0))))))
until a ; do b ; done => (list (until (list (simple (w (s 1) (s 0)))) (list (simple (w (s 4) (s 0))))))";

#[test]
fn compound_commands_have_their_trees(rt: HostRuntime) -> Result<(), Fail> {
    expect_trees(&rt, rt.alloc(), COMPOUNDS)
}

/// Loops over words.
static LOOPS: &str =
    r"for i in a b ; do c ; done => (list (for \e (in (w (s 3) (s 0)) (w (s 4) (s 0))) (list (simple (w (s 7) (s 0))))))
for i in ; do a ; done => (list (for \e (in) (list (simple (w (s 5) (s 0))))))
for i NL do a ; done => (list (for \e args (list (simple (w (s 4) (s 0))))))";

#[test]
fn loops_over_words_have_their_trees(rt: HostRuntime) -> Result<(), Fail> {
    expect_trees(&rt, rt.alloc(), LOOPS)
}

/// Words by their bytes, and what they are.
static WORDS: [(&str, WordKind); 18] = [
    ("!", WordKind::Reserved(Reserved::Bang)),
    ("if", WordKind::Reserved(Reserved::If)),
    ("i\\\nf", WordKind::Reserved(Reserved::If)),
    ("esac", WordKind::Reserved(Reserved::Esac)),
    ("'if'", WordKind::Other),
    ("i\\f", WordKind::Other),
    ("in", WordKind::In),
    ("\\\nin", WordKind::In),
    ("iff", WordKind::Name),
    ("_a1", WordKind::Name),
    ("a\\\nb", WordKind::Name),
    ("1a", WordKind::Other),
    ("a=", WordKind::Assign),
    ("a1=$b", WordKind::Assign),
    ("a\\\n=b", WordKind::Assign),
    ("'a'=b", WordKind::Other),
    ("a-b=c", WordKind::Other),
    ("=a", WordKind::Other),
];

#[test]
fn words_are_what_their_bytes_allow(rt: HostRuntime) -> Result<(), Fail> {
    for &(word, expected) in WORDS.iter() {
        let kind = word_kind(rt.alloc(), word.as_bytes())?;
        assert_eq!(rt; kind, expected, "{word:?}");
    }
    Ok(())
}
