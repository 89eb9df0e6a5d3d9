//! Texts and their tokens or refusals.
use sh_lex::{LexRefusal, Mark, Op, Static, Token, TokenKind, lex, read_marks};
use std::alloc::{AllocError, Global};
use std::process::Abort;
use std::test::Fail;

/// What `lex` answers, in words: tokens as `KIND:from:to`, or the refusal with its details.
fn shown(alloc: Global, text: &[u8]) -> Result<String, AllocError> {
    match lex(alloc, text) {
        Ok(tokens) => tokens_shown(alloc, tokens.as_slice()),
        Err(refusal) => answer_shown(alloc, &refusal),
    }
}

fn tokens_shown(alloc: Global, tokens: &[Token]) -> Result<String, AllocError> {
    let mut words = String::new(alloc);
    for token in tokens {
        if !words.is_empty() {
            words.push_str(" ")?;
        }
        let (kind, from, to) = (kind_name(token.kind), token.from, token.to);
        words.push_str(format!(in alloc; "{kind}:{from}:{to}")?.as_str())?;
    }
    Ok(words)
}

fn answer_shown(alloc: Global, refusal: &LexRefusal) -> Result<String, AllocError> {
    match refusal {
        LexRefusal::Refused(refusal) => refusal_shown(alloc, refusal),
        LexRefusal::Memory => String::from_str(alloc, "Memory"),
    }
}

fn refusal_shown(alloc: Global, refusal: &Static) -> Result<String, AllocError> {
    match refusal {
        Static::UnclosedQuote(offset) => named(alloc, "UnclosedQuote", *offset),
        Static::UnclosedBrace(offset) => named(alloc, "UnclosedBrace", *offset),
        Static::TooDeep(offset) => named(alloc, "TooDeep", *offset),
        Static::OutOfProfile(spelling, offset) => {
            spelling_shown(alloc, spelling.as_slice(), *offset)
        }
        Static::ScriptTooLong => String::from_str(alloc, "ScriptTooLong"),
        Static::BadSyntax | Static::SubstitutionMix(_) | Static::ParameterForm(_) => {
            String::from_str(alloc, "a refusal of the grammar")
        }
    }
}

fn named(alloc: Global, name: &str, offset: u32) -> Result<String, AllocError> {
    format!(in alloc; "{name} {offset}")
}

fn spelling_shown(alloc: Global, spelling: &[u8], offset: u32) -> Result<String, AllocError> {
    let mut words = String::from_str(alloc, "OutOfProfile ")?;
    for byte in spelling {
        words.push(char::from(*byte))?;
    }
    words.push_str(format!(in alloc; " {offset}")?.as_str())?;
    Ok(words)
}

fn kind_name(kind: TokenKind) -> &'static str {
    match kind {
        TokenKind::Word => "Word",
        TokenKind::IoNumber => "IoNumber",
        TokenKind::Newline => "Newline",
        TokenKind::Op(Op::AndIf) => "Op.AndIf",
        TokenKind::Op(Op::OrIf) => "Op.OrIf",
        TokenKind::Op(Op::Semi) => "Op.Semi",
        TokenKind::Op(Op::Pipe) => "Op.Pipe",
        TokenKind::Op(Op::Open) => "Op.Open",
        TokenKind::Op(Op::Close) => "Op.Close",
        TokenKind::Op(Op::Less) => "Op.Less",
        TokenKind::Op(Op::Great) => "Op.Great",
        TokenKind::Op(Op::DGreat) => "Op.DGreat",
        TokenKind::Op(Op::GreatAnd) => "Op.GreatAnd",
    }
}

/// Whether each text of a table has the answer that stands beside it.
///
/// Where a rule isn't the profile's own, dash reads the text or refuses it likewise.
fn expect_all(rt: &impl Abort, alloc: Global, cases: &[(&str, &str)]) -> Result<(), Fail> {
    for (text, expected) in cases {
        let answer = shown(alloc, text.as_bytes())?;
        expect(rt, answer.as_str(), expected, text);
    }
    Ok(())
}

/// What was answered for a text is what is wanted.
fn expect(rt: &impl Abort, answer: &str, wanted: &str, text: &str) {
    assert_eq!(rt; answer, wanted, "at {text:?}");
}

#[test]
fn texts_have_their_tokens_or_their_refusal(rt: HostRuntime) -> Result<(), Fail> {
    expect_all(&rt, rt.alloc(), words_and_operators())?;
    expect_all(&rt, rt.alloc(), comments_and_removed_newlines())?;
    expect_all(&rt, rt.alloc(), quotes())?;
    expect_all(&rt, rt.alloc(), expansions())?;
    expect_all(&rt, rt.alloc(), refused_operators())?;
    expect_all(&rt, rt.alloc(), refused_expansions())?;
    expect_all(&rt, rt.alloc(), tildes())?;
    expect_all(&rt, rt.alloc(), unclosed())?;
    Ok(())
}

/// Words, operators, IoNumbers (XCU 2.3, 2.10).
fn words_and_operators() -> &'static [(&'static str, &'static str)] {
    &[
        ("", ""),
        ("a", "Word:0:1"),
        ("a b", "Word:0:1 Word:2:3"),
        ("a{b}c", "Word:0:5"),
        ("{ a }", "Word:0:1 Word:2:3 Word:4:5"),
        ("a[b]c*?", "Word:0:7"),
        ("\0", "Word:0:1"),
        ("&&", "Op.AndIf:0:2"),
        ("<", "Op.Less:0:1"),
        ("a&&b", "Word:0:1 Op.AndIf:1:3 Word:3:4"),
        ("a&&&&b", "Word:0:1 Op.AndIf:1:3 Op.AndIf:3:5 Word:5:6"),
        ("a<b", "Word:0:1 Op.Less:1:2 Word:2:3"),
        ("a\nb", "Word:0:1 Newline:1:2 Word:2:3"),
        ("a;;", "OutOfProfile ;; 1"),
        ("0<f", "IoNumber:0:1 Op.Less:1:2 Word:2:3"),
        ("1>f", "IoNumber:0:1 Op.Great:1:2 Word:2:3"),
        ("2>>f", "IoNumber:0:1 Op.DGreat:1:3 Word:3:4"),
        ("1 >f", "Word:0:1 Op.Great:2:3 Word:3:4"),
        ("12 >f", "Word:0:2 Op.Great:3:4 Word:4:5"),
        (
            ">&1>f",
            "Op.GreatAnd:0:2 IoNumber:2:3 Op.Great:3:4 Word:4:5",
        ),
        (">&12>f", "OutOfProfile 12 2"),
    ]
}

/// Comments, and backslash-newline in every kind of token (XCU 2.2.1, 2.3).
fn comments_and_removed_newlines() -> &'static [(&'static str, &'static str)] {
    &[
        ("#", ""),
        ("a #b", "Word:0:1"),
        ("a # b c\nd", "Word:0:1 Newline:7:8 Word:8:9"),
        ("a#b", "Word:0:3"),
        ("a;#b\nc", "Word:0:1 Op.Semi:1:2 Newline:4:5 Word:5:6"),
        ("a|#b", "Word:0:1 Op.Pipe:1:2"),
        ("'#'", "Word:0:3"),
        ("\\\n", ""),
        ("a&\\\n&b", "Word:0:1 Op.AndIf:1:5 Word:5:6"),
        ("a 2\\\n>f", "Word:0:1 IoNumber:2:3 Op.Great:5:6 Word:6:7"),
        ("$\\\n{x}", "Word:0:6"),
        ("$\\\n(a)", "Word:0:6"),
        ("'a\\\nb'", "Word:0:6"),
        ("$((1\\\n2))", "Word:0:9"),
        ("a \\\n'b", "UnclosedQuote 4"),
        ("\\\n\\\n'", "UnclosedQuote 4"),
        ("a\\\nb \\\n&", "OutOfProfile & 7"),
        ("\"\\\n", "UnclosedQuote 0"),
        ("\\\n~", "OutOfProfile ~ 2"),
        ("\\\n>&\\\nf", "OutOfProfile >& 2"),
        ("3\\\n<f", "OutOfProfile 3 0"),
    ]
}

/// Quotes and backslashes (XCU 2.2).
fn quotes() -> &'static [(&'static str, &'static str)] {
    &[
        ("'a'", "Word:0:3"),
        ("''", "Word:0:2"),
        ("'a b'", "Word:0:5"),
        ("'a;b|c&d'", "Word:0:9"),
        ("'a\\'", "Word:0:4"),
        ("'$x'", "Word:0:4"),
        ("\"a\"", "Word:0:3"),
        ("\"a;b|c&d\"", "Word:0:9"),
        ("\"\\$x\"", "Word:0:5"),
        ("\"a\nb\"", "Word:0:5"),
        ("\"$x\"", "Word:0:4"),
        ("\"$(a \"b\" c)\"", "Word:0:12"),
        ("\\a", "Word:0:2"),
        ("a\\ b", "Word:0:4"),
        ("\\(\\)", "Word:0:4"),
        ("\\\"", "Word:0:2"),
        ("\\\\\\\\", "Word:0:4"),
        ("\\", "Word:0:1"),
    ]
}

/// What a `$` begins, and where it ends (XCU 2.6).
fn expansions() -> &'static [(&'static str, &'static str)] {
    &[
        ("$", "Word:0:1"),
        ("$\"a\"", "Word:0:4"),
        ("$10", "Word:0:3"),
        ("$@", "Word:0:2"),
        ("${10}", "Word:0:5"),
        ("${x:-{a}", "Word:0:8"),
        ("${x:-\\}}", "Word:0:8"),
        ("\"${x:-'}\"", "Word:0:9"),
        ("\"${x:-\"}\"}\"", "Word:0:11"),
        ("\"${x:-a\\}b}\"", "Word:0:12"),
        ("\"${4294967296%'}\"", "Word:0:17"),
        ("\"${4294967295%'}'}\"", "Word:0:19"),
        ("$()", "Word:0:3"),
        ("a$(b)c", "Word:0:6"),
        ("$(a # )\n)", "Word:0:9"),
        ("\"$(a \")\" b)\"", "Word:0:12"),
        ("$(>&)", "Word:0:5"),
        ("$((1))", "Word:0:6"),
        ("$(((1)+(2)))", "Word:0:12"),
        ("$((1)+2))", "Word:0:9"),
        ("$(($(a)))", "Word:0:9"),
        ("$((#))", "Word:0:6"),
    ]
}

/// Operators and descriptors that are not in the profile (own).
fn refused_operators() -> &'static [(&'static str, &'static str)] {
    &[
        ("&", "OutOfProfile & 0"),
        (";;", "OutOfProfile ;; 0"),
        ("<<-", "OutOfProfile <<- 0"),
        ("<>", "OutOfProfile <> 0"),
        ("1<f", "OutOfProfile 1 0"),
        ("2<f", "OutOfProfile 2 0"),
        ("00<f", "OutOfProfile 00 0"),
        ("4 <f", "Word:0:1 Op.Less:2:3 Word:3:4"),
        ("0>f", "OutOfProfile 0 0"),
        ("3>f", "OutOfProfile 3 0"),
        ("3>&1", "OutOfProfile 3 0"),
        ("01>f", "OutOfProfile 01 0"),
        ("3<<f", "OutOfProfile << 1"),
        ("3<&0", "OutOfProfile <& 1"),
        ("3<>f", "OutOfProfile <> 1"),
        ("3>|f", "OutOfProfile >| 1"),
        (">&f", "OutOfProfile >& 0"),
        (">&\"1\"", "OutOfProfile >& 0"),
        (">&\\1", "OutOfProfile >& 0"),
        (">&1$x", "OutOfProfile >& 0"),
    ]
}

/// Expansions that are not in the profile (own).
fn refused_expansions() -> &'static [(&'static str, &'static str)] {
    &[
        ("$$", "OutOfProfile $$ 0"),
        ("\"$$\"", "OutOfProfile $$ 1"),
        ("$!", "OutOfProfile $! 0"),
        ("$-", "OutOfProfile $- 0"),
        ("${x:-$$}", "OutOfProfile $$ 5"),
        ("$(($$))", "OutOfProfile $$ 3"),
        ("`", "OutOfProfile ` 0"),
        ("`a`", "OutOfProfile ` 0"),
        ("\"`a`\"", "OutOfProfile ` 1"),
        ("\"a`\"", "OutOfProfile ` 2"),
        ("$((`))", "OutOfProfile ` 3"),
        ("${x:-`a`}", "OutOfProfile ` 5"),
        ("${x:-$(a)}", "OutOfProfile $( 5"),
        ("\"${x:-$(a)}\"", "OutOfProfile $( 6"),
        ("${x:-\"$(a)\"}", "OutOfProfile $( 6"),
        ("${x:-${y:-$(a)}}", "OutOfProfile $( 10"),
        ("${x:-$(($(a)))}", "OutOfProfile $( 8"),
        ("$(a ${x:-$(b)})", "OutOfProfile $( 9"),
    ]
}

/// A `~` that begins a tilde-prefix (XCU 2.6.1; refused: own).
fn tildes() -> &'static [(&'static str, &'static str)] {
    &[
        ("~", "OutOfProfile ~ 0"),
        ("\"~\"", "Word:0:3"),
        ("a ~", "OutOfProfile ~ 2"),
        (">~", "OutOfProfile ~ 1"),
        ("a~", "Word:0:2"),
        ("\"\"~", "Word:0:3"),
        ("x=~", "OutOfProfile ~ 2"),
        ("x=a~", "Word:0:4"),
        ("x=\"a\":~", "OutOfProfile ~ 6"),
        ("x=a\\:~", "Word:0:6"),
        ("x=$y~", "Word:0:5"),
        ("1x=~", "Word:0:4"),
        ("${x:-~}", "OutOfProfile ~ 5"),
        ("${x+~}", "OutOfProfile ~ 4"),
        ("${x:-a~}", "Word:0:8"),
        ("x=${y:-a:~}", "Word:0:11"),
        ("${x%~}", "OutOfProfile ~ 4"),
        ("\"${x%~}\"", "OutOfProfile ~ 5"),
        ("${4294967296:-~}", "Word:0:16"),
        ("${04294967295:-~}", "OutOfProfile ~ 15"),
    ]
}

/// Constructs that are not closed, and the offence that is met first.
fn unclosed() -> &'static [(&'static str, &'static str)] {
    &[
        ("'", "UnclosedQuote 0"),
        ("echo 'a", "UnclosedQuote 5"),
        ("'a\\'b'", "UnclosedQuote 5"),
        ("\"a\\\"", "UnclosedQuote 0"),
        ("echo ${x", "UnclosedBrace 5"),
        ("$((exit 3) | cat)", "UnclosedBrace 0"),
        ("\"$(a", "UnclosedBrace 1"),
        ("$(\"a", "UnclosedQuote 2"),
        ("${x:-\"a", "UnclosedQuote 5"),
        ("\"${x:-'a", "UnclosedBrace 1"),
        ("$((${x", "UnclosedBrace 3"),
        ("\"${x%'", "UnclosedQuote 5"),
        ("'a & b", "UnclosedQuote 0"),
        ("a 'b' & ~", "OutOfProfile & 6"),
        ("'a`", "UnclosedQuote 0"),
        ("${x:-$(", "OutOfProfile $( 5"),
        ("$(a `", "OutOfProfile ` 4"),
        ("$x $$ $!", "OutOfProfile $$ 3"),
    ]
}

#[test]
fn bytes_above_127_and_0_are_bytes_of_words(rt: HostRuntime) -> Result<(), Fail> {
    let text = [0xff, 0x80, 0x00, b' ', 0xc3];
    let answer = shown(rt.alloc(), &text)?;
    expect(&rt, answer.as_str(), "Word:0:3 Word:4:5", "other bytes");
    Ok(())
}

/// What opens a level and closes it, how many levels, and what is answered.
static LEVELS: [(&str, &str, usize, &str); 6] = [
    ("$(", ")", 64, "Word:0:192"),
    ("$(", ")", 65, "TooDeep 128"),
    ("${x:-", "}", 64, "Word:0:384"),
    ("${x:-", "}", 65, "TooDeep 320"),
    ("$((", "))", 64, "Word:0:320"),
    ("$((", "))", 65, "TooDeep 192"),
];

/// So many levels.
fn levels_of(
    alloc: Global,
    opening: &str,
    closing: &str,
    levels: usize,
) -> Result<String, AllocError> {
    let mut text = String::new(alloc);
    for _ in 0..levels {
        text.push_str(opening)?;
    }
    for _ in 0..levels {
        text.push_str(closing)?;
    }
    Ok(text)
}

#[test]
fn sixty_four_levels_are_allowed(rt: HostRuntime) -> Result<(), Fail> {
    for &(opening, closing, levels, expected) in LEVELS.iter() {
        let text = levels_of(rt.alloc(), opening, closing, levels)?;
        let answer = shown(rt.alloc(), text.as_bytes())?;
        expect(&rt, answer.as_str(), expected, text.as_str());
    }
    Ok(())
}

/// How many bytes a script has, and what is answered.
static LENGTHS: [(usize, &str); 2] = [(1_048_576, "Word:0:1048576"), (1_048_577, "ScriptTooLong")];

#[test]
fn a_script_has_at_most_1_048_576_bytes(rt: HostRuntime) -> Result<(), Fail> {
    for &(length, expected) in LENGTHS.iter() {
        let text = vec![in rt.alloc(); b'x'; length]?;
        let answer = shown(rt.alloc(), text.as_slice())?;
        expect(&rt, answer.as_str(), expected, "a long word");
    }
    Ok(())
}

/// The marks of a text: `<` and `>` with the ends of words, `$` and `$)` for those of substitutions, `t` with another token's
/// beginning, and `)` for the end of a subshell in a substitution.
fn shown_marks(alloc: Global, text: &[u8]) -> Result<String, AllocError> {
    match read_marks(alloc, text) {
        Ok(marks) => marks_shown(alloc, marks.as_slice()),
        Err(refusal) => answer_shown(alloc, &refusal),
    }
}

fn marks_shown(alloc: Global, marks: &[Mark]) -> Result<String, AllocError> {
    let mut words = String::new(alloc);
    for mark in marks {
        if !words.is_empty() {
            words.push_str(" ")?;
        }
        words.push_str(mark_shown(alloc, *mark)?.as_str())?;
    }
    Ok(words)
}

fn mark_shown(alloc: Global, mark: Mark) -> Result<String, AllocError> {
    match mark {
        Mark::WordBegin(offset) => signed(alloc, "<", offset),
        Mark::WordEnd(offset) => signed(alloc, ">", offset),
        Mark::Token(token) => signed(alloc, "t", token.from),
        Mark::SubOpen(offset) => signed(alloc, "$", offset),
        Mark::SubClose => String::from_str(alloc, "$)"),
        Mark::Close => String::from_str(alloc, ")"),
    }
}

fn signed(alloc: Global, sign: &str, offset: u32) -> Result<String, AllocError> {
    format!(in alloc; "{sign}{offset}")
}

/// Texts and their marks.
static MARKS: [(&str, &str); 15] = [
    ("", ""),
    ("a b\n", "<0 >1 <2 >3 t3"),
    ("(a;b)", "t0 <1 >2 t2 <3 >4 t4"),
    ("a $(b c)", "<0 >1 <2 $2 <4 >5 <6 >7 $) >8"),
    ("a $() b", "<0 >1 <2 $2 $) >5 <6 >7"),
    ("\"$(a)\"b", "<0 $1 <3 >4 $) >7"),
    ("$((1+$(a)))", "<0 $5 <7 >8 $) >11"),
    ("$(a;(b))", "<0 $0 <2 >3 t3 t4 <5 >6 ) $) >8"),
    ("$(a $(b))", "<0 $0 <2 >3 <4 $4 <6 >7 $) >8 $) >9"),
    ("$(a #b)\n)", "<0 $0 <2 >3 t7 $) >9"),
    (
        "$(a>$(b)1 2>c)",
        "<0 $0 <2 >3 t3 <4 $4 <6 >7 $) >9 t10 t11 <12 >13 $) >14",
    ),
    ("$(a\\\nb)\\\n", "<0 $0 <2 >6 $) >7"),
    ("$('a)'${x-)}b)", "<0 $0 <2 >13 $) >14"),
    ("$(a", "UnclosedBrace 0"),
    ("$(a &)", "OutOfProfile & 4"),
];

#[test]
fn texts_have_their_marks(rt: HostRuntime) -> Result<(), Fail> {
    for &(text, expected) in MARKS.iter() {
        let answer = shown_marks(rt.alloc(), text.as_bytes())?;
        expect(&rt, answer.as_str(), expected, text);
    }
    Ok(())
}
