//! Texts with their items, and whether they are scripts, as `dash -n` has it.
use sh_lex::LexRefusal;
use sh_parse::{GrammarRefusal, Item, SyntaxRefusal, check, read_items};
use std::alloc::{AllocError, Global};
use std::process::Abort;
use std::test::Fail;

/// The items of a text, in words: of a word its kind and where it stands.
fn shown(alloc: Global, text: &[u8]) -> Result<String, AllocError> {
    match read_items(alloc, text) {
        Ok(items) => {
            let mut words = String::new(alloc);
            for item in &items {
                if !words.is_empty() {
                    words.push_str(" ")?;
                }
                words.push_str(item_shown(alloc, *item)?.as_str())?;
            }
            Ok(words)
        }
        Err(LexRefusal::Refused(_)) => String::from_str(alloc, "refused"),
        Err(LexRefusal::Memory) => String::from_str(alloc, "Memory"),
    }
}

fn item_shown(alloc: Global, item: Item) -> Result<String, AllocError> {
    match item {
        Item::Word(kind, at) => {
            let (from, to) = (at.from, at.to);
            format!(in alloc; "{kind:?}:{from}:{to}")
        }
        other => format!(in alloc; "{other:?}"),
    }
}

fn expect_items(rt: &impl Abort, alloc: Global, cases: &[(&str, &str)]) -> Result<(), Fail> {
    for (text, expected) in cases {
        assert_eq!(rt;
            shown(alloc, text.as_bytes())?.as_str(),
            *expected,
            "at {text:?}"
        );
    }
    Ok(())
}

#[test]
fn texts_have_their_items(rt: HostRuntime) -> Result<(), Fail> {
    expect_items(&rt, rt.alloc(), tokens())?;
    expect_items(&rt, rt.alloc(), kinds_of_words())?;
    expect_items(&rt, rt.alloc(), substitutions())?;
    Ok(())
}

/// Words, operators and IO numbers (XCU 2.10).
fn tokens() -> &'static [(&'static str, &'static str)] {
    &[
        ("", ""),
        ("a b\n", "Name:0:1 Name:2:3 Newline"),
        ("a;b|c", "Name:0:1 Semi Name:2:3 Pipe Name:4:5"),
        ("a&&b||c", "Name:0:1 Join(And) Name:3:4 Join(Or) Name:6:7"),
        (" (a)", "Open(1) Name:2:3 Close"),
        (
            "a <f >g",
            "Name:0:1 Redirect(Read, 2) Name:3:4 Redirect(Write, 5) Name:6:7",
        ),
        ("0<f", "IoNumber(0, 0) Redirect(Read, 1) Name:2:3"),
        ("1>>f", "IoNumber(1, 0) Redirect(Append, 1) Name:3:4"),
        ("2>f", "IoNumber(2, 0) Redirect(Write, 1) Name:2:3"),
        (">&1", "Redirect(Copy, 0) Other:2:3"),
        ("2>&1", "IoNumber(2, 0) Redirect(Copy, 1) Other:3:4"),
        (
            "a \\\n2\\\n>f",
            "Name:0:1 IoNumber(2, 4) Redirect(Write, 7) Name:8:9",
        ),
        ("a #b\nc", "Name:0:1 Newline Name:5:6"),
        ("'a", "refused"),
        ("a & b", "refused"),
    ]
}

/// What words are, by their bytes (XCU 2.4, 2.10.2).
fn kinds_of_words() -> &'static [(&'static str, &'static str)] {
    &[
        ("if", "Reserved(If):0:2"),
        ("a if", "Name:0:1 Reserved(If):2:4"),
        (
            "! { }",
            "Reserved(Bang):0:1 Reserved(OpenBrace):2:3 Reserved(CloseBrace):4:5",
        ),
        ("for i in", "Reserved(For):0:3 Name:4:5 In:6:8"),
        ("'if'", "Other:0:4"),
        ("i\"f\"", "Other:0:4"),
        ("i\\f", "Other:0:3"),
        ("i\\\nf", "Reserved(If):0:4"),
        ("\\\nif", "Reserved(If):2:4"),
        ("a\\\nb", "Name:0:4"),
        ("iff", "Name:0:3"),
        ("a-b", "Other:0:3"),
        ("x=1", "Assign:0:3"),
        ("x\\\n=1", "Assign:0:5"),
        ("'x'=1", "Other:0:5"),
        ("$x", "Other:0:2"),
    ]
}

/// Words with command substitutions (XCU 2.6.3): the word, and then the items of each.
fn substitutions() -> &'static [(&'static str, &'static str)] {
    &[
        ("$()", "Other:0:3 SubOpen(0) SubClose"),
        (
            "a $(b) c",
            "Name:0:1 Other:2:6 SubOpen(2) Name:4:5 SubClose Name:7:8",
        ),
        (
            "a$(b)c$(d) e",
            "Other:0:10 SubOpen(1) Name:3:4 SubClose SubOpen(6) Name:8:9 SubClose Name:11:12",
        ),
        ("x=$(a)", "Assign:0:6 SubOpen(2) Name:4:5 SubClose"),
        (
            "x=\"$(if)\"",
            "Assign:0:9 SubOpen(3) Reserved(If):5:7 SubClose",
        ),
        ("$((1+$(a)))", "Other:0:11 SubOpen(5) Name:7:8 SubClose"),
        (
            "$(a $(b) c)d",
            "Other:0:12 SubOpen(0) Name:2:3 Other:4:8 SubOpen(4) Name:6:7 SubClose Name:9:10 SubClose",
        ),
        (
            "$(a;(b))",
            "Other:0:8 SubOpen(0) Name:2:3 Semi Open(4) Name:5:6 Close SubClose",
        ),
        (
            "$( ( ( a ) ) )",
            "Other:0:14 SubOpen(0) Open(3) Open(5) Name:7:8 Close Close SubClose",
        ),
        (
            "(a $( (b) ))",
            "Open(0) Name:1:2 Other:3:11 SubOpen(3) Open(6) Name:7:8 Close SubClose Close",
        ),
        (
            "$(a>$(b)1 2>c)",
            "Other:0:14 SubOpen(0) Name:2:3 Redirect(Write, 3) Other:4:9 SubOpen(4) Name:6:7 SubClose IoNumber(2, 10) Redirect(Write, 11) Name:12:13 SubClose",
        ),
        ("$(a", "refused"),
    ]
}

/// What is said of a text.
#[derive(Clone, Copy, Debug, PartialEq, Eq)]
enum Verdict {
    /// It is a script.
    Script,
    /// Its items are refused.
    Refused(SyntaxRefusal),
    /// It has no items.
    NoItems,
    /// Memory was wanted and refused.
    Memory,
}

const BAD_SYNTAX: Verdict = Verdict::Refused(SyntaxRefusal::BadSyntax);

fn judged(alloc: Global, text: &[u8]) -> Verdict {
    match read_items(alloc, text) {
        Ok(items) => match check(alloc, items.as_slice()) {
            Ok(()) => Verdict::Script,
            Err(GrammarRefusal::Refused(refusal)) => Verdict::Refused(refusal),
            Err(GrammarRefusal::Memory) => Verdict::Memory,
        },
        Err(_) => Verdict::NoItems,
    }
}

/// Sees that each text, one a line, is so.
fn expect_rows(rt: &impl Abort, alloc: Global, rows: &[u8], expected: Verdict) -> Result<(), Fail> {
    for text in rows.split(|byte| *byte == b'\n') {
        assert_eq!(rt; judged(alloc, text), expected, "{text:?}");
    }
    Ok(())
}

#[test]
fn texts_are_scripts(rt: HostRuntime) -> Result<(), Fail> {
    for rows in [
        COMMANDS,
        LISTS,
        GROUPS,
        CONDITIONS,
        LOOPS,
        WORD_LOOPS,
        RESERVED,
        SUBSTITUTIONS,
        OPAQUE,
        OWN,
    ] {
        expect_rows(&rt, rt.alloc(), rows, Verdict::Script)?;
    }
    for text in LINES.iter() {
        assert_eq!(rt;
            judged(rt.alloc(), text.as_bytes()),
            Verdict::Script,
            "{text:?}"
        );
    }
    Ok(())
}

#[test]
fn texts_are_no_scripts(rt: HostRuntime) -> Result<(), Fail> {
    for rows in [
        NO_LISTS,
        NO_GROUPS,
        NO_CONDITIONS,
        NO_LOOPS,
        NO_WORD_LOOPS,
        NO_RESERVED,
        NO_SUBSTITUTIONS,
        NO_OWN,
    ] {
        expect_rows(&rt, rt.alloc(), rows, BAD_SYNTAX)?;
    }
    for text in NO_LINES.iter() {
        assert_eq!(rt; judged(rt.alloc(), text.as_bytes()), BAD_SYNTAX, "{text:?}");
    }
    Ok(())
}

/// What opens at each level, what stands inside, what closes each level, and the number of levels: 64 are open at most.
static SCRIPTS: [(&str, &str, &str, u32); 5] = [
    ("( ", "true", " )", 64),
    ("{ ", "a", "; }", 64),
    ("{ ", "a $(b)", "; }", 63),
    ("{ ", "a $( (b) )", "; }", 62),
    ("for i in $(a); do ", "b", "; done", 63),
];

/// The same, and the offset at which the 65th opens.
static TOO_DEEP: [(&str, &str, &str, u32, u32); 9] = [
    ("( ", "true", " )", 65, 128),
    ("{ ", "a", "; }", 65, 128),
    ("if ", "a", "; then b; fi", 65, 192),
    ("while ", "a", "; do b; done", 65, 384),
    ("for i do ", "a", "; done", 65, 576),
    ("{ ", "a $(b)", "; }", 64, 130),
    ("{ ", "a $( (b) )", "; }", 63, 131),
    ("( ", "", "", 65, 128),
    ("( ", "$(b) fi", "", 64, 128),
];

/// The same, where something is refused before the 65th.
static NO_SCRIPTS: [(&str, &str, &str, u32); 2] = [
    ("( ", "fi $(b)", "", 64),
    ("( ", ") (", "", 64),
];

fn nested(
    alloc: Global,
    opening: &str,
    inner: &str,
    closing: &str,
    levels: u32,
) -> Result<String, AllocError> {
    let mut text = String::new(alloc);
    for _ in 0..levels {
        text.push_str(opening)?;
    }
    text.push_str(inner)?;
    for _ in 0..levels {
        text.push_str(closing)?;
    }
    Ok(text)
}

#[test]
fn sixty_four_levels_of_a_text_are_allowed(rt: HostRuntime) -> Result<(), Fail> {
    let alloc = rt.alloc();
    for &(opening, inner, closing, levels) in SCRIPTS.iter() {
        let text = nested(alloc, opening, inner, closing, levels)?;
        assert_eq!(rt;
            judged(alloc, text.as_bytes()),
            Verdict::Script,
            "{levels} {opening}"
        );
    }
    for &(opening, inner, closing, levels, offset) in TOO_DEEP.iter() {
        let text = nested(alloc, opening, inner, closing, levels)?;
        let expected = Verdict::Refused(SyntaxRefusal::TooDeep(offset));
        assert_eq!(rt;
            judged(alloc, text.as_bytes()),
            expected,
            "{levels} {opening}"
        );
    }
    for &(opening, inner, closing, levels) in NO_SCRIPTS.iter() {
        let text = nested(alloc, opening, inner, closing, levels)?;
        assert_eq!(rt;
            judged(alloc, text.as_bytes()),
            BAD_SYNTAX,
            "{levels} {opening}"
        );
    }
    Ok(())
}

/// Simple commands: words, assignments and redirections (XCU 2.9.1, 2.7).
static COMMANDS: &[u8] = b"\
    a\n\
    a b c\n\
    a;\n\
    a #b\n\
    'a' \"b\" \\c\n\
    a'b'\"c\"\\d\n\
    a\"\"\n\
    ''\n\
    \"a b\"$x\n\
    x=1\n\
    x=\n\
    x=1 y=2\n\
    x=1 a\n\
    x=1 y=2 a b\n\
    a x=1\n\
    x=1 a y=2\n\
    x=a=b\n\
    _=1\n\
    x1_=2\n\
    1x=2\n\
    \"x\"=1\n\
    x\"y\"=1\n\
    \\x=1\n\
    =1\n\
    x=$y$z\n\
    x=\"a b\"\n\
    x=a'b'\n\
    x+=1\n\
    x.y=1\n\
    $x=1\n\
    x=1 >f\n\
    x=1 >f y=2\n\
    >f x=1 a\n\
    x=1 y\"=\"2\n\
    >f\n\
    <f\n\
    >&1\n\
    0<f\n\
    1>f\n\
    2>>f\n\
    2>&1\n\
    a <f\n\
    >f a\n\
    <f >g a b\n\
    a 2>&1 >f\n\
    a >f 2>&1\n\
    a >\"f g\"\n\
    a >$x\n\
    a >& 2\n\
    a > f;b<g";

/// Lists and pipelines (XCU 2.9.2, 2.9.3).
static LISTS: &[u8] = b"\
    a;b\n\
    a&&b\n\
    a||b\n\
    a&&b||c\n\
    a||b&&c&&d\n\
    a && b; c || d\n\
    a|b\n\
    a|b|c\n\
    a | b && c | d\n\
    ! a\n\
    ! a && ! b\n\
    ! !a\n\
    !a\n\
    a !";

/// Operators without their commands.
static NO_LISTS: &[u8] = b"\
    ;\n\
    ;a\n\
    !\n\
    ! ! a\n\
    ! ;\n\
    && a\n\
    a &&\n\
    a && ; b\n\
    a && && b\n\
    a || | b\n\
    | a\n\
    a | | b\n\
    a | ; b\n\
    a;&& b";

/// Groups and subshells (XCU 2.9.4.1).
static GROUPS: &[u8] = b"\
    { a; }\n\
    { a;b; }\n\
    { a | b; }\n\
    { a; } >f\n\
    { a; } >f 2>&1\n\
    { a; } | b\n\
    { { a; }; }\n\
    { { a; } }\n\
    { ( a ) }\n\
    (a)\n\
    ( a )\n\
    (a) <f\n\
    ((a))\n\
    ( (a) )\n\
    (a);(b)\n\
    {a\n\
    a {\n\
    a }\n\
    a { b }\n\
    ! { a; }\n\
    ! (a)\n\
    \"{\" a\n\
    \\{ a\n\
    '}'";

/// Groups and subshells that are empty, unfinished, or beside other words.
static NO_GROUPS: &[u8] = b"\
    {a; }\n\
    { a }\n\
    { a\n\
    { a;\n\
    {\n\
    { }\n\
    { ; }\n\
    }\n\
    ( )\n\
    ()\n\
    (;)\n\
    (a\n\
    )\n\
    a )\n\
    (a))\n\
    (a) b\n\
    { a; } b\n\
    { a; } }\n\
    { a; } { b; }\n\
    (a) x=1\n\
    a (b)\n\
    a ()\n\
    x=1 (a)\n\
    x=1 { a; }\n\
    >f { a; }\n\
    >f (a)\n\
    { a; } >f <g b";

/// Commands with `if` (XCU 2.9.4.4), and words that are no reserved words.
static CONDITIONS: &[u8] = b"\
    if a; then b; fi\n\
    if a; b; then c; d; fi\n\
    if a; then b; else c; fi\n\
    if a; then b; elif c; then d; fi\n\
    if a; then b; elif c; then d; else e; fi\n\
    if a; then b; fi >f\n\
    if a; then b; fi | c\n\
    if ! a; then b; fi\n\
    if a && b; then c; fi\n\
    if (a) then (b) fi\n\
    if { a; } then { b; } else { c; } fi\n\
    if (a) then b; fi\n\
    if if a; then b; fi; then c; fi\n\
    if a; then if b; then c; fi; fi\n\
    if if a; then b; fi then c; fi\n\
    echo fi\n\
    a then\n\
    \"if\" a\n\
    i'f' a";

/// Conditions with a part too few or too many.
static NO_CONDITIONS: &[u8] = b"\
    if true\n\
    if a\n\
    if a then b; fi\n\
    if a; then b\n\
    if a; then b fi\n\
    if a; then fi\n\
    if a; then b; else fi\n\
    if a; then b; elif c; fi\n\
    if a; then b; else c; elif d; then e; fi\n\
    if a; else b; fi\n\
    if a; fi\n\
    if; then a; fi\n\
    if then a; fi\n\
    if a; then ; b; fi\n\
    if a; then b; fi c\n\
    fi\n\
    else\n\
    elif a\n\
    then a\n\
    a; then\n\
    a; fi\n\
    \\if a; then b; fi\n\
    if a; \"then\" b; fi";

/// Loops with `while` and `until` (XCU 2.9.4.5).
static LOOPS: &[u8] = b"\
    while a; do b; done\n\
    until a; do b; done\n\
    while a; do b; done <f\n\
    until ! a; do b; done | c\n\
    while (a) do (b) done\n\
    while a; do while b; do c; done; done\n\
    while a; do until b; do c; done done\n\
    a | while b; do c; done\n\
    echo do done";

/// Loops with a part too few or too many.
static NO_LOOPS: &[u8] = b"\
    while\n\
    while a\n\
    while a; do\n\
    while a; do b done\n\
    while a; do done\n\
    while do a; done\n\
    while a; done\n\
    while a do b; done\n\
    while a; do ; b; done\n\
    do a; done\n\
    done\n\
    a; done\n\
    a; do\n\
    while a; then b; done";

/// Loops over words (XCU 2.9.4.2).
static WORD_LOOPS: &[u8] = b"\
    for i in a b; do c; done\n\
    for i in a; do b; done\n\
    for i in; do a; done\n\
    for i do a; done\n\
    for i; do a; done\n\
    for i in $x \"$y\" 'z'; do a; done\n\
    for i in a=b x=1; do c; done\n\
    for i in do done; do a; done\n\
    for i in in; do a; done\n\
    for i in if; do a; done\n\
    for in in a; do b; done\n\
    for if in a; do b; done\n\
    for _x1 in a; do b; done\n\
    for i in a; do b; done >f\n\
    for i in a; do b; done | c\n\
    for i in a; do for j in b; do c; done; done\n\
    for i in $(a) $(b); do c; done\n\
    for i in a; do b; done >$(c)";

/// Loops over words with a part too few, too many or quoted.
static NO_WORD_LOOPS: &[u8] = b"\
    for\n\
    for i\n\
    for i in a\n\
    for i in a b do c; done\n\
    for i in a; b; done\n\
    for i in a | b; do c; done\n\
    for i in a >f; do b; done\n\
    for i a; do b; done\n\
    for i; in a; do b; done\n\
    for 1 in a; do b; done\n\
    for i.j in a; do b; done\n\
    for \"i\" in a; do b; done\n\
    for $i in a; do b; done\n\
    for i \"in\" a; do b; done\n\
    for i in (a); do b; done\n\
    for ; do a; done\n\
    for i in a; do done\n\
    for i in a; do b; done c";

/// Reserved words (XCU 2.4) where they are words.
static RESERVED: &[u8] = b"\
    a in\n\
    echo if then else elif fi while until do done for case esac in { } !\n\
    x=1 if\n\
    >f if\n\
    >f fi\n\
    >f }\n\
    x=1 }\n\
    a | if b; then c; fi\n\
    a && while b; do c; done\n\
    if}\n\
    }a\n\
    !!\n\
    \"!\" a";

/// Reserved words where no command begins with them.
static NO_RESERVED: &[u8] = b"\
    x=1 if a; then b; fi\n\
    a | then\n\
    ! fi\n\
    { fi; }\n\
    (fi)";

/// Command substitutions (XCU 2.6.3).
static SUBSTITUTIONS: &[u8] = b"\
    $(a)\n\
    $()\n\
    $( )\n\
    $(a;b)\n\
    a $(b) $(c)\n\
    a \"$(b)\"$(c)\n\
    x=$(a)\n\
    x=$(a) y=$(b) c $(d) >$(e)\n\
    >$(a) b $(c)\n\
    a $(b $(c)) $(d)\n\
    a $(b | c && d)\n\
    a $(if b; then c; fi)\n\
    a $( (b) )\n\
    a $({ b; })\n\
    a $((1+$(b))) $(c)\n\
    { a; } >$(b) 2>$(c)\n\
    while a $(b); do c $(d); done <$(e)\n\
    $(a \")\" 'b')";

/// Substitutions that are no scripts, and faults behind words that are read later.
static NO_SUBSTITUTIONS: &[u8] = b"\
    $(a &&)\n\
    echo $(a && ) b\n\
    echo $(;)\n\
    $(fi)\n\
    $(a|)\n\
    a $(if b) c\n\
    a $(b) )\n\
    a $( fi ) ; ;\n\
    a && ; ${x!}\n\
    ${x!} && ; b\n\
    a $(${x!}) )\n\
    echo ${x!} fi; fi\n\
    if ${x!}";

/// Words whose parts aren't looked into (XCU 2.6): also `${ }` of no form, and substitutions beside assigning expansions.
static OPAQUE: &[u8] = b"\
    $x\n\
    \"$x\"\n\
    ${x}\n\
    $1\n\
    ${10}\n\
    \"$@\"\n\
    ${@}\n\
    $#\n\
    ${?}\n\
    ${#x}\n\
    ${x-a}\n\
    ${x:=a}\n\
    ${x:?}\n\
    ${x%}\n\
    ${?#0}\n\
    ${x:-a b}\n\
    \"${x:-a b}\"\n\
    \"${x:-\"a\"b}\"\n\
    \"${x:-a\\}b}\"\n\
    \"${x%'a'b}\"\n\
    ${x:-${y:-z}}\n\
    ${x:-a;b|c}\n\
    $((1))\n\
    $((1 + ${x}))\n\
    $(($(a)))\n\
    $(())\n\
    a$((1))b\n\
    $\n\
    $x.y\n\
    ${}\n\
    echo ${x!}\n\
    ${x/a/b}\n\
    ${1x}\n\
    \"${x!}\"\n\
    $((${x!}))\n\
    a $(b ${x!})\n\
    for i in ${x!}; do a; done\n\
    echo ${x:=1} $(echo 2)\n\
    a $((x=1)) $(b)\n\
    a $(b ${x:=1} $(c))\n\
    b; a ${x:=1} $(c)\n\
    { a; } >${x:=f} <$(b)";

/// Scripts that `dash` doesn't take: redirections before a `}` (own), and `in` as a command's name (own).
static OWN: &[u8] = b"\
    { { a; } >f }\n\
    in\n\
    in a b";

/// No scripts here (own): `case` isn't in the profile.
static NO_OWN: &[u8] = b"\
    case\n\
    case a in b) c;\n\
    esac";

/// Scripts of several lines, and of none.
static LINES: [&str; 26] = [
    "",
    "\n",
    "\n\n\n",
    "# a",
    " # a\n\n",
    "\na",
    "a\\\nb",
    "a\nb",
    "a;\n\nb",
    "a\n\nb",
    "a \n b \n \n",
    "a &&\nb",
    "a |\nb",
    "{ a\n}",
    "{\na;\n}",
    "(\na\n)",
    "if a\nthen b\nfi",
    "while a\ndo b\ndone",
    "for i in\ndo a; done",
    "for i in a\ndo b; done",
    "for i in a;\n\ndo b; done",
    "for i\nin a; do b; done",
    "for i\ndo a; done",
    "for i\n\ndo a; done",
    "$(\n)",
    "$(#x\n)",
];

/// No scripts: of the last (own), a `;` behind a newline isn't a separator of a `for`.
static NO_LINES: [&str; 7] = [
    "a\n;b",
    "a;\n;",
    "a\n&& b",
    "a && \n",
    "{\n}",
    "echo $(a &&\n) b",
    "for i\n; do a; done",
];
