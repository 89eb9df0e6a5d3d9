//! Expressions and lines: by the standard's text, and as GNU grep answers where the rule isn't our own.

use ps_lines::Memory;
use std::alloc::Global;
use std::test::Fail;
use ut_regex::{MAX_PLACES, ReFault, Regex, compile, plain, read_bre, read_ere};

/// What is answered for an expression and a line.
#[derive(Clone, Copy, Debug, PartialEq, Eq)]
enum Answer {
    Has,
    Lacks,
    /// The matcher and the plain program don't agree.
    Differs,
    Refused(ReFault),
}

use Answer::{Differs, Has, Lacks, Refused};
use ut_regex::ReFault::{BackReference, NotARegex, RepeatTooLarge, TooLarge};

/// What the matcher and the plain program answer with these options: `i` for both cases, `x` for the whole line.
fn told_of(
    alloc: Global,
    basic: bool,
    options: &str,
    text: &[u8],
    line: &[u8],
) -> Result<Answer, Memory> {
    let read = if basic {
        read_bre(alloc, text)
    } else {
        read_ere(alloc, text)
    };
    match read {
        Ok(re) => {
            let told = told_by(alloc, &re, options, line);
            drop(re);
            told
        }
        Err(fault) => Ok(Refused(fault)),
    }
}

/// The same of an expression that was read.
fn told_by(alloc: Global, re: &Regex, options: &str, line: &[u8]) -> Result<Answer, Memory> {
    let fold = options == "i" || options == "ix";
    let whole = options == "x" || options == "ix";
    let told = matcher_has(alloc, re, fold, whole, line)?;
    if told != plain::has(alloc, re, fold, whole, line)? {
        return Ok(Differs);
    }
    if told { Ok(Has) } else { Ok(Lacks) }
}

fn matcher_has(
    alloc: Global,
    re: &Regex,
    fold: bool,
    whole: bool,
    line: &[u8],
) -> Result<bool, Memory> {
    let mut matcher = compile(alloc, re, fold, whole)?;
    let told = matcher.has(line);
    // A matcher is let go by a call: going out of scope is proved a part at a time.
    drop(matcher);
    Ok(told)
}

/// The answer as rows have it.
fn name_of(answer: Answer) -> &'static [u8] {
    match answer {
        Has => b"Has",
        Lacks => b"Lacks",
        Differs => b"Differs",
        Refused(BackReference) => b"BackReference",
        Refused(NotARegex) => b"NotARegex",
        Refused(RepeatTooLarge) => b"RepeatTooLarge",
        Refused(TooLarge) => b"TooLarge",
        Refused(ReFault::Memory) => b"Memory",
    }
}

/// Whether the answer to a row is the one wanted.
fn holds(alloc: Global, basic: bool, row: &str) -> Result<bool, Memory> {
    let mut columns = row.split(';');
    let options = columns.next().unwrap_or("");
    let text = columns.next().unwrap_or("").as_bytes();
    let line = columns.next().unwrap_or("").as_bytes();
    let wanted = columns.next().unwrap_or("").as_bytes();
    let told = told_of(alloc, basic, options, text, line)?;
    Ok(name_of(told) == wanted)
}

#[test]
fn basic_expressions_are_answered(rt: HostRuntime) -> Result<(), Fail> {
    for row in BASIC.lines() {
        assert!(rt; holds(rt.alloc(), true, row)?, "{row}");
    }
    for row in OTHER_BASIC.iter() {
        assert!(rt; holds(rt.alloc(), true, row)?, "{row}");
    }
    Ok(())
}

#[test]
fn extended_expressions_are_answered(rt: HostRuntime) -> Result<(), Fail> {
    for row in EXTENDED.lines() {
        assert!(rt; holds(rt.alloc(), false, row)?, "{row}");
    }
    Ok(())
}

/// Rows of bytes: options, basic expression, line, and what is answered, as in `BASIC`.
static BYTES: [(&str, &[u8], &[u8], Answer); 8] = [
    ("-", b"\xff", b"a\xff", Has),
    ("i", b"\xc9", b"\xe9", Lacks),
    ("x", b".", b"\xff", Has),
    ("x", b".", b"\xc3\xa9", Lacks),
    ("x", b"\\\xff", b"\xff", Has),
    ("x", b"[\x80-\xff]", b"\x90", Has),
    ("x", b"[^a]", b"\xff", Has),
    ("x", b"[[:print:]]", b"\xe9", Lacks),
];

#[test]
fn any_byte_may_stand_in_them(rt: HostRuntime) -> Result<(), Fail> {
    for &(options, text, line, wanted) in BYTES.iter() {
        let told = told_of(rt.alloc(), true, options, text, line)?;
        assert!(rt; told == wanted, "{text:?} {line:?}");
    }
    Ok(())
}

/// The fault of so many letters and the text behind them.
fn fault_behind(alloc: Global, letters: u32, text: &[u8]) -> Result<Option<ReFault>, Memory> {
    let mut whole = Vec::new(alloc);
    for _ in 0..letters {
        whole.push(b'a')?;
    }
    whole.extend_from_slice(text)?;
    Ok(read_bre(alloc, &whole).err())
}

/// A sequence of letters counts a place for each and one more.
#[test]
fn as_many_letters_are_read_as_there_are_places(rt: HostRuntime) -> Result<(), Fail> {
    let alloc = rt.alloc();
    let letters = MAX_PLACES - 1;
    assert!(rt; fault_behind(alloc, letters, b"")?.is_none());
    assert!(rt; fault_behind(alloc, letters, b"a")? == Some(TooLarge));
    assert!(rt; fault_behind(alloc, letters, b"a[")? == Some(NotARegex));
    Ok(())
}

/// A row a line: options (`i` both cases, `x` the whole line), a basic expression, a line, and what is answered, with `;` between them.
static BASIC: &str = r"-;;;Has
-;;a;Has
x;;;Has
x;;a;Lacks
-;a;a;Has
-;a;b;Lacks
-;a;;Lacks
-;b;abc;Has
-;bc;abc;Has
-;ac;abc;Lacks
x;a;a;Has
x;a;ab;Lacks
x;a*;aaa;Has
x;a*;aab;Lacks
i;a;A;Has
i;aB1;Ab1;Has
i;[a-c];B;Has
i;[^a];A;Lacks
i;[^a];b;Has
i;[[:upper:]];a;Has
i;[^[:lower:]];A;Lacks
i;[^_];_;Lacks
i;@;`;Lacks
i;[;a;NotARegex
-;.;a;Has
-;.;;Lacks
x;a.c;abc;Has
x;a.c;a.c;Has
x;a.c;ac;Lacks
x;a\.c;abc;Lacks
x;a\.c;a.c;Has
-;^a;ab;Has
-;^a;ba;Lacks
-;a$;ba;Has
-;a$;ab;Lacks
-;^a$;a;Has
-;^a$;aa;Lacks
-;^;;Has
-;$;a;Has
-;^$;;Has
-;^$;a;Lacks
-;a^b;a^b;Has
-;a^b;ab;Lacks
-;a$b;a$b;Has
-;^^a;^a;Has
-;a$$;a$;Has
-;\^a;^a;Has
-;a\$;a$;Has
-;a\$;a;Lacks
-;$a;$a;Has
-;a\|^b;a|^b;Has
-;\(^a\);a;Lacks
-;\(^a\);b^a;Has
-;\(a$\);a;Lacks
-;\(a$\);a$;Has
-;\(^*a\);^^a;Has
x;\(^*a\);a;Has
x;\(^*\);*;Lacks
x;ab*;a;Has
x;ab*;abbb;Has
x;ab*c;abbc;Has
x;.*;abc;Has
x;a.*c;abcabc;Has
-;*a;a;Lacks
-;*a;*a;Has
-;^*a;*a;Has
-;^*a;a;Lacks
-;\(*a\);*a;Has
-;\(*a\);a;Lacks
x;**;***;Has
x;**;;Has
x;a**;aaa;Has
x;a\*;a*;Has
x;a\*;aa;Lacks
x;\(ab\)*;abab;Has
x;\(ab\)*;aba;Lacks
x;[ab]*;abba;Has
x;\(a*\)*;aaa;Has
x;\(a*b\)*c;abbaabc;Has
x;a\{2\};aa;Has
x;a\{2\};aaa;Lacks
x;a\{2,\};aaaa;Has
x;a\{2,\};a;Lacks
x;a\{1,2\};aa;Has
x;a\{1,2\};aaa;Lacks
x;a\{0\};;Has
x;a\{0\};a;Lacks
x;a\{0,1\}b;b;Has
x;\(ab\)\{2\};abab;Has
x;[ab]\{3\};aba;Has
x;a\{2\}\{2\};aaaa;Has
x;a\{002\};aa;Has
x;a{2};aa;Lacks
x;a{2};a{2};Has
x;*\{2\};**;Has
-;a\{255\};a;Lacks
-;a\{256\};a;RepeatTooLarge
-;a\{1,256\};a;RepeatTooLarge
-;a\{256,\};a;RepeatTooLarge
-;a\{\};a;NotARegex
-;a\{,2\};a;NotARegex
-;a\{a\};a;NotARegex
-;a\{1 \};a;NotARegex
-;a\{1,2,3\};a;NotARegex
-;a\{1;a;NotARegex
-;a\{1};a;NotARegex
-;a\{;a;NotARegex
-;a\{2,1\};a;NotARegex
-;a\};a};Has
-;a\{300,2\};a;RepeatTooLarge
-;a\{2,300,1\};a;RepeatTooLarge
-;a\{300;a;RepeatTooLarge
-;a\{300\}\1;a;RepeatTooLarge
-;a\{1\1;a;NotARegex
-;a\{1,300x;a;RepeatTooLarge
-;a\{x,300\};a;NotARegex
-;\{2\};a;NotARegex
-;^\{2\};a;NotARegex
-;\(\{2\}\);a;NotARegex
-;a\|\{2\};a||;Has
x;\(a\);a;Has
x;\(ab\)c;abc;Has
x;\(\);;Has
x;a\(\)b;ab;Has
x;\(a\(b\)\)c;abc;Has
x;(a);(a);Has
x;(a);a;Lacks
-;\(a;a;NotARegex
-;a\);a;NotARegex
-;\(a\)\);a;NotARegex
-;\(;a;NotARegex
-;\);a;NotARegex
x;a|b;a|b;Has
x;a|b;a;Lacks
x;\\;\;Has
x;\[a];[a];Has
x;\];];Has
x;\-;-;Has
x;\_;_;Has
x;\ ; ;Has
x;a\|b;a|b;Has
-;a\|b;b;Lacks
x;a\+;a+;Has
x;a\+;aa;Lacks
x;a\?;a?;Has
x;\?*;??;Has
-;\;\;NotARegex
-;a\;a;NotARegex
-;a\\\;a;NotARegex
-;\a;a;NotARegex
-;\w;a;NotARegex
-;\n;n;NotARegex
-;\0;0;NotARegex
-;\(a\)\1;aa;BackReference
-;\1;1;BackReference
-;a\9;a;BackReference
-;\(a\1\);a;BackReference
-;\\1;\1;Has
-;[\1];1;Has
-;[\1];\;Has
x;[a];a;Has
x;[a];b;Lacks
x;[abc];c;Has
x;[a-c];b;Has
x;[a-c];-;Lacks
x;[0-9a-f];e;Has
x;[.*[\];\;Has
x;[.*[\];[;Has
x;[.*[\];a;Lacks
x;[^a];b;Has
x;[^a];a;Lacks
x;[^a];^;Has
x;[a^];^;Has
x;[^^];^;Lacks
x;[^a-c];d;Has
x;[]];];Has
x;[]a];a;Has
x;[^]];];Lacks
x;[a]];a];Has
x;[-a];-;Has
x;[a-];-;Has
x;[^-a];-;Lacks
x;[!a];!;Has
x;[!a];b;Lacks
x;[$];$;Has
x;[\n];n;Has
x;[\]];\];Has
x;[[:alnum:]]*;aZ9;Has
x;[[:alpha:]];1;Lacks
x;[[:digit:]];5;Has
x;[[:graph:]]; ;Lacks
x;[[:lower:]];A;Lacks
x;[[:print:]]; ;Has
x;[[:punct:]];_;Has
x;[[:upper:]];A;Has
x;[[:xdigit:]]*;aF0;Has
x;[[:xdigit:]];g;Lacks
x;[[:digit:][:upper:]_-]*;A_1-;Has
x;[^[:digit:]];1;Lacks
x;[[:alpha:]-];-;Has
x;[:];:;Has
x;[:a];a;Has
x;[.a];.;Has
-;[;[;NotARegex
-;[a;a;NotARegex
-;[];];NotARegex
-;[^];^;NotARegex
-;[^]a;a;NotARegex
-;[a-;a;NotARegex
-;[c-a];b;NotARegex
-;[b-ac];c;NotARegex
-;[[:foo:]];f;NotARegex
-;[[:alpha:];a;NotARegex
-;[[::]];a;NotARegex
-;[[.a.]];a;NotARegex
-;[[=a=]];a;NotARegex
-;[x[.];x;NotARegex
-;[[=];=;NotARegex
-;[a-[:digit:]];a;NotARegex
-;[[:digit:]-a];1;NotARegex
-;[[:digit:]-[:alpha:]];1;NotARegex
-;[a-[.b.]];a;NotARegex
x;[a-c-e];-;Has
x;[a-c-e];d;Lacks
x;[a-c-e];e;Has
x;[%--];+;Has
x;[]-a];^;Has
x;[]-a];-;Lacks
x;[--/];.;Has
x;[--/];+;Lacks
-;[a--];-;NotARegex
-;[[:a];a;NotARegex
-;[[:];:;NotARegex
-;[[:alpha];a;NotARegex
x;[[a];[;Has
x;[a[];[;Has
x;[[-a];];Has
x;[a-c[:digit:]x-z];y;Has
-;\1[;a;BackReference
-;[\1;a;NotARegex
-;\a\1;a;NotARegex
-;\1\a;a;BackReference
-;\(\1;a;BackReference
-;\(a\{256\};a;RepeatTooLarge
-;a\{256\}\);a;RepeatTooLarge
-;a\)\{256\};a;NotARegex
-;[c-a]\1;a;NotARegex
-;\1[c-a];a;BackReference
-;\(\(\(\(\(\(\(\(\(\(\(\(\(\(\(\(\(\(\(\(\(\(\(\(\(\(\(\(\(\(\(\(\(\(\(\(\(\(\(\(\(\(\(\(\(\(\(\(\(\(\(\(\(\(\(\(\(\(\(\(\(\(\(\(a\)\)\)\)\)\)\)\)\)\)\)\)\)\)\)\)\)\)\)\)\)\)\)\)\)\)\)\)\)\)\)\)\)\)\)\)\)\)\)\)\)\)\)\)\)\)\)\)\)\)\)\)\)\)\)\)\)\)\)\)\)\)\)\);a;Has
-;\(\(\(\(\(\(\(\(\(\(\(\(\(\(\(\(\(\(\(\(\(\(\(\(\(\(\(\(\(\(\(\(\(\(\(\(\(\(\(\(\(\(\(\(\(\(\(\(\(\(\(\(\(\(\(\(\(\(\(\(\(\(\(\(\(a\)\)\)\)\)\)\)\)\)\)\)\)\)\)\)\)\)\)\)\)\)\)\)\)\)\)\)\)\)\)\)\)\)\)\)\)\)\)\)\)\)\)\)\)\)\)\)\)\)\)\)\)\)\)\)\)\)\)\)\)\)\)\)\)\);a;TooLarge
-;\(a\{255\}\)\{255\};a;Lacks
ix;^.\{2\}a*c*;cacaAc;Lacks
x;^\(ab\)[ab]a;caab;Lacks
i;[^b];;Lacks
ix;b\{0,1\}\(ab\)b\{0,1\};B;Lacks
x;^[ab]\{2\}$;AbAa;Lacks
x;[^b]\{2\}a\{2\};cbbBB;Lacks
-;[ab]\{1,\}$;Bbb;Has
x;^[ab]c\{2\};bbcbBB;Lacks
ix;^.*\(ab\)*\(a*b\);aBAc;Lacks
x;.\{2\}b\{0,1\}[^b];;Lacks
ix;^[ab]\{1,\}c\{1,\}$;BAbb;Lacks
x;^a[^b]\{2\};A;Lacks
ix;a*\(ab\)a*$;Aaaaac;Lacks
x;[^b]\{1,\}b*$;abAb;Lacks
i;.b\{2\}[ab]c$;acBA;Lacks
i;^\(a*b\);Aabc;Has
-;^a$;bca;Lacks
x;.*;;Has
x;b\{0,1\}.\{2\}b\{0,1\};ba;Has
-;[ab]\{0,1\}\(ab\)*c\{2\};;Lacks
ix;^[ab]\{2\}c\{0,1\};AbAaaa;Lacks
-;b*\(ab\)*a;aa;Has
ix;a\{0,1\}[ab]*;AAaaB;Has
i;\(ab\);;Lacks
ix;\(ab\)\{2\};A;Lacks
-;b.*ca;AaBb;Lacks
-;^ac\{1,\};AbAb;Lacks
-;^c*.\{2\}.;cbAbcb;Has
i;ab\{2\};;Lacks
-;[ab]*[ab].c\{1,\};acaaB;Lacks
-;.a\{2\}a\{1,\}[^b]*;;Lacks
i;b*;aAabb;Has";

/// The same of bytes that a line of text can't have.
static OTHER_BASIC: [&str; 4] = [
    "-;a\tb;a\tb;Has",
    "x;[[:blank:]]*; \t;Has",
    "x;[[:cntrl:]];\x7f;Has",
    "x;[[:space:]]*;\t \x0b\x0c\r;Has",
];

/// The same of extended expressions.
static EXTENDED: &str = r"-;^(a|b){2}$;ab;Has
-;^(a|b){2}$;abc;Lacks
-;^(a|b){2}$;ba;Has
-;;a;Has
x;;a;Lacks
-;abab;aababb;Has
-;aab;aaab;Has
x;a|ab;ab;Has
x;ab|a;a;Has
x;a|b;ab;Lacks
ix;(a|B)+;AbbA;Has
x;...;abc;Has
-;^a;ba;Lacks
-;a^b;a^b;Lacks
-;a$b;a$b;Lacks
-;(^a);ab;Has
-;(^a);ba;Lacks
-;(a$)|b;ca;Has
-;a|^b;ba;Has
-;a|^b;cb;Lacks
-;^^a;a;Has
-;a$$;a;Has
-;\^a\$;^a$;Has
-;x*^a;a;Has
-;x^*a;x^a;NotARegex
-;^;a;Has
-;$^;;Has
-;$^;a;Lacks
-;(^)*a;ba;Has
-;(^|b)a;ba;Has
-;(^|b)a;ca;Lacks
x;(^a)*b;aab;Lacks
x;(^a)*b;ab;Has
x;a*;;Has
x;a+;;Lacks
x;a+;aa;Has
x;a?;;Has
x;a?;aa;Lacks
x;ab?c;ac;Has
x;(ab)+;abab;Has
x;(ab)?;ab;Has
x;a**;aa;Has
x;a+?;;Has
x;a?+;aaa;Has
x;a*{2};a;Has
x;a{2}{2};aaaa;Has
x;a{2}{2};aaa;Lacks
x;a{2}+;aaaaa;Lacks
x;(a*)+;aa;Has
x;(a|b)*c;ababc;Has
x;(a+b+)+;aabab;Has
x;\*\+\?;*+?;Has
x;[*+?]*;+*?;Has
x;a{2};aa;Has
x;a{2};a{2};Lacks
x;a{2,};aaa;Has
x;a{1,3};aaaa;Lacks
x;a{0};;Has
x;(ab){1,2};abab;Has
x;(a|b){2};ba;Has
x;a\{2\};a{2};Has
-;a{255,};a;Lacks
-;a{0,255};;Has
-;a{256};a;RepeatTooLarge
-;a{99999999999999999999};a;RepeatTooLarge
-;a{0000000000256};a;RepeatTooLarge
-;a{};a;NotARegex
-;a{,2};a;NotARegex
-;a{x};a;NotARegex
-;a{1;a;NotARegex
-;a{1\};a;NotARegex
-;a{;a;NotARegex
-;a{2,1};a;NotARegex
-;a{1,2,3};a;NotARegex
-;a};a};Has
-;a\};a};Has
-;a{300,2};a;RepeatTooLarge
-;*;a;NotARegex
-;+a;a;NotARegex
-;?a;a;NotARegex
-;{2};a;NotARegex
-;^*;a;NotARegex
-;a|*b;a;NotARegex
-;(+);a;NotARegex
-;a|{1};a;NotARegex
x;(a)b;ab;Has
x;((a)(b))c;abc;Has
x;\(a\);(a);Has
-;(a;a;NotARegex
-;(;a;NotARegex
-;a);a);NotARegex
-;););NotARegex
-;(a));a;NotARegex
-;();a;NotARegex
-;a();a;NotARegex
-;()*;a;NotARegex
x;a|b;a;Has
x;a|b;b;Has
x;a|b;c;Lacks
x;ab|cd;cd;Has
x;ab|cd;abd;Lacks
x;a|b|c;c;Has
x;a(b|c)d;acd;Has
x;(a|b)(c|d);bc;Has
x;a|b*;bbb;Has
-;^a|b$;ac;Has
-;^a|b$;cb;Has
-;^a|b$;cac;Lacks
x;a\|b;a|b;Has
x;[|];|;Has
-;|;a;NotARegex
-;|a;a;NotARegex
-;a|;a;NotARegex
-;a||b;a;NotARegex
-;(a|);a;NotARegex
-;(a||b);a;NotARegex
x;\.\[\]\{\}\^\$\|;.[]{}^$|;Has
x;\\;\;Has
x;\-\/\_;-/_;Has
x;a\{1};a{1};Has
x;\+*;++;Has
-;\;\;NotARegex
-;\d;1;NotARegex
-;\0;0;NotARegex
-;(a\);a;NotARegex
-;(a)\1;aa;BackReference
-;\5;5;BackReference
x;[()|]+;(|);Has
x;[ab]{2};ba;Has
x;a[{]2};a{2};Has
-;[;[;NotARegex
-;[z-a];a;NotARegex
-;(\1;a;BackReference
-;()\1;a;NotARegex
-;\1();a;BackReference
-;*\1;a;NotARegex
-;a|\1;a;BackReference
-;a{256});a;RepeatTooLarge
-;((((((((((((((((((((((((((((((((((((((((((((((((((((((((((((((((a))))))))))))))))))))))))))))))))))))))))))))))))))))))))))))))));a;Has
-;(((((((((((((((((((((((((((((((((((((((((((((((((((((((((((((((((a)))))))))))))))))))))))))))))))))))))))))))))))))))))))))))))))));a;TooLarge
-;(a)(a)(a)(a)(a)(a)(a)(a)(a)(a)(a)(a)(a)(a)(a)(a)(a)(a)(a)(a)(a)(a)(a)(a)(a)(a)(a)(a)(a)(a)(a)(a)(a)(a)(a)(a)(a)(a)(a)(a)(a)(a)(a)(a)(a)(a)(a)(a)(a)(a)(a)(a)(a)(a)(a)(a)(a)(a)(a)(a)(a)(a)(a)(a)(a)(a)(a)(a)(a)(a);aaaaaaaaaaaaaaaaaaaaaaaaaaaaaaaaaaaaaaaaaaaaaaaaaaaaaaaaaaaaaaaaaaaaaa;Has
-;(((((((((((((((((((((((((((((((((((((((((((((((((((((((((((((((((\1;a;BackReference
-;(((((((((((((((((((((((((((((((((((((((((((((((((((((((((((((((((a;a;NotARegex
-;(a{255}){255};a;Lacks
-;(a{255}){256};a;RepeatTooLarge
-;((a{255}){128}){2};b;TooLarge
-;((a{255}){128}){3};b;TooLarge
-;(a{255}b{255}){128};a;TooLarge
-;(a{255}b{255}){127};a;Lacks
-;a{255}{255};b;Lacks
-;a{255}{255}{2};b;TooLarge
-;(a{255}){254,};b;Lacks
-;(a{255}){255,};b;TooLarge
-;(a{255}){255}\1;a;BackReference
-;((a{255}){255}){2});a;NotARegex
x;ac;aAb;Lacks
i;.{0,1};c;Has
x;ccca;AbAbab;Lacks
ix;^(a){1,2}$;bA;Lacks
-;[b-c]|b;bB;Has
-;(([^a])*|c)a$;a;Has
-;(b{2,}|.);;Lacks
-;^(ca?|(aa){1,2})|b;;Lacks
-;a*([b-c]a|c)$;aa;Lacks
i;^a{0,1}$;BAab;Lacks
ix;^(.*)?;aa;Has
ix;a+;BBbb;Lacks
ix;(b){1,2};Ba;Lacks
ix;((c|(a)+))+;baaBbc;Lacks
-;^b|b;aca;Lacks
ix;^(b){2}.[^a]a;;Lacks
-;a+a+b;a;Lacks
x;a{2,}|b;;Lacks
i;a?$;A;Has
x;a{0,1}a+$;caBc;Lacks
x;((b)*)*[^a]a$;bb;Lacks
-;^.{0,1};babc;Has
-;a?abc;a;Lacks
x;(.)+[ab]([^a])+[ab];;Lacks
x;ba$;;Lacks
i;^b*c|b;caB;Has
-;.a{0,1};bb;Has
x;cb;;Lacks
i;a;a;Has
x;[ab];;Lacks
-;^([^a]bb){2};;Lacks
x;b?|b;bb;Lacks
i;.{2,};;Lacks
x;a([b-c]|[b-c])a+|b;baaaA;Lacks
-;a|b;;Lacks
ix;b|b;a;Lacks
-;a;Bb;Lacks
i;^b;Aa;Lacks
-;^.;bbab;Has
x;^(a){2};aabBAa;Lacks
x;^b|b;cbbBb;Lacks
x;b(.|b)b$;cABa;Lacks
x;^aa+;Acbbc;Lacks
x;a{0,1}acc(b|b);;Lacks
-;^ca*[^a];bbccBa;Lacks
x;b;B;Lacks
-;a+$;BbBbAA;Lacks
-;.;aBBcb;Has";
