//! Words and their trees.
use ps_lines::Memory;
use sh_tree::{Form, Param, Part, Word};
use sh_words::{ReadWord, assigns_in, read_assign, read_word};
use std::alloc::{AllocError, Global};
use std::process::Abort;
use std::test::Fail;

/// What `read_word` answers for a word whose first substitution has the number 0: its tree, and the offset of a fault behind it.
fn shown(alloc: Global, text: &[u8]) -> Result<String, AllocError> {
    match read_word(alloc, text, 0) {
        Ok(read) => shown_word(alloc, &read),
        Err(Memory) => String::from_str(alloc, "Memory"),
    }
}

/// What `read_assign` answers, the same: the name, and the value.
fn shown_assign(alloc: Global, text: &[u8]) -> Result<String, AllocError> {
    match read_assign(alloc, text, 0) {
        Ok((name, value)) => {
            let mut out = String::new(alloc);
            show_bytes(name.as_slice(), &mut out)?;
            out.push_str(" ")?;
            out.push_str(shown_word(alloc, &value)?.as_str())?;
            Ok(out)
        }
        Err(Memory) => String::from_str(alloc, "Memory"),
    }
}

/// The tree, and the offset of the first `${` without a form behind a `!`.
fn shown_word(alloc: Global, read: &ReadWord) -> Result<String, AllocError> {
    let mut out = String::new(alloc);
    show_word(alloc, &read.word, &mut out)?;
    if let Some(offset) = read.fault {
        out.push_str(format!(in alloc; " !{offset}")?.as_str())?;
    }
    Ok(out)
}

/// `(w PART..)`
#[cycle(show)]
fn show_word(alloc: Global, word: &Word, out: &mut String) -> Result<(), AllocError> {
    out.push_str("(w")?;
    show_parts(alloc, word.parts.as_slice(), out)?;
    out.push_str(")")
}

/// Parts, with a space before each.
#[cycle(show)]
fn show_parts(alloc: Global, parts: &[Part], out: &mut String) -> Result<(), AllocError> {
    for part in parts {
        out.push_str(" ")?;
        show_part(alloc, part, out)?;
    }
    Ok(())
}

/// `p:BYTES`, `q:BYTES`, `(v PARAM FORM)`, `(s NUMBER)`, `(a PART..)`; where an expansion is quoted with a capital letter.
#[cycle(show)]
fn show_part(alloc: Global, part: &Part, out: &mut String) -> Result<(), AllocError> {
    match part {
        Part::Plain(text) => {
            out.push_str("p:")?;
            show_bytes(text.as_slice(), out)
        }
        Part::Quoted(text) => {
            out.push_str("q:")?;
            show_bytes(text.as_slice(), out)
        }
        Part::Param { what, form, quoted } => {
            out.push_str(if *quoted { "(V " } else { "(v " })?;
            show_param(alloc, what, out)?;
            show_form(alloc, form, out)?;
            out.push_str(")")
        }
        Part::Sub { number, quoted } => {
            let (letter, number) = (if *quoted { "S" } else { "s" }, *number);
            out.push_str(format!(in alloc; "({letter} {number})")?.as_str())
        }
        Part::Arith { parts, quoted } => {
            out.push_str(if *quoted { "(A" } else { "(a" })?;
            show_parts(alloc, parts.as_slice(), out)?;
            out.push_str(")")
        }
    }
}

fn show_bytes(bytes: &[u8], out: &mut String) -> Result<(), AllocError> {
    for byte in bytes {
        out.push(char::from(*byte))?;
    }
    Ok(())
}

fn show_param(alloc: Global, what: &Param, out: &mut String) -> Result<(), AllocError> {
    match what {
        Param::Name(name) => show_bytes(name.as_slice(), out),
        Param::Place(place) => {
            let place = *place;
            out.push_str(format!(in alloc; "{place}")?.as_str())
        }
        Param::At => out.push_str("@"),
        Param::Star => out.push_str("*"),
        Param::Count => out.push_str("#"),
        Param::Status => out.push_str("?"),
    }
}

/// The form's operator and word.
#[cycle(show)]
fn show_form(alloc: Global, form: &Form, out: &mut String) -> Result<(), AllocError> {
    match form {
        Form::Plain => Ok(()),
        Form::Length => out.push_str(" len"),
        Form::Default { colon, word } => {
            out.push_str(if *colon { " :- " } else { " - " })?;
            show_word(alloc, word, out)
        }
        Form::Assign { colon, word } => {
            out.push_str(if *colon { " := " } else { " = " })?;
            show_word(alloc, word, out)
        }
        Form::Check { colon, word } => {
            out.push_str(if *colon { " :?" } else { " ?" })?;
            match word {
                Some(word) => {
                    out.push_str(" ")?;
                    show_word(alloc, word, out)
                }
                None => Ok(()),
            }
        }
        Form::Alternate { colon, word } => {
            out.push_str(if *colon { " :+ " } else { " + " })?;
            show_word(alloc, word, out)
        }
        Form::CutSuffix { longest, word } => {
            out.push_str(if *longest { " %% " } else { " % " })?;
            show_word(alloc, word, out)
        }
        Form::CutPrefix { longest, word } => {
            out.push_str(if *longest { " ## " } else { " # " })?;
            show_word(alloc, word, out)
        }
    }
}

static QUOTES: [(&str, &str); 24] = [
    ("a", "(w p:a)"),
    ("", "(w)"),
    ("a''b", "(w p:a q: p:b)"),
    ("'a'\\b", "(w q:ab)"),
    ("'a'b\"c\"", "(w q:a p:b q:c)"),
    ("''", "(w q:)"),
    ("\"\"", "(w q:)"),
    ("a\"\"", "(w p:a q:)"),
    ("''a", "(w q: p:a)"),
    ("''\"\"'b'", "(w q:b)"),
    ("'b'''", "(w q:b)"),
    ("\"$x\"", "(w (V x))"),
    ("\"\"$x", "(w q: (v x))"),
    ("\"a\\$b\\c\\\"\"", "(w q:a$b\\c\")"),
    ("'a\\b\"$x'", "(w q:a\\b\"$x)"),
    ("a\\\nb", "(w p:ab)"),
    ("'a\\\nb'", "(w q:a\\\nb)"),
    ("\"\\\n\"", "(w q:)"),
    ("\"a\\\nb\"", "(w q:ab)"),
    ("a\\", "(w p:a\\)"),
    ("$", "(w p:$)"),
    ("a$", "(w p:a$)"),
    ("\"$\"", "(w q:$)"),
    ("a$%\"b$'c\"", "(w p:a$% q:b$'c)"),
];

static PARAMETERS: [(&str, &str); 27] = [
    ("$x", "(w (v x))"),
    ("${x}", "(w (v x))"),
    ("$1", "(w (v 1))"),
    ("$0", "(w (v 0))"),
    ("$10", "(w (v 1) p:0)"),
    ("${10}", "(w (v 10))"),
    ("${01}", "(w (v 1))"),
    ("${00}", "(w (v 0))"),
    ("${4294967295}", "(w (v 4294967295))"),
    ("${0000000000000000000000000000001}", "(w (v 1))"),
    ("$@", "(w (v @))"),
    ("\"$@\"", "(w (V @))"),
    ("$*", "(w (v *))"),
    ("${@}", "(w (v @))"),
    ("\"${*}\"", "(w (V *))"),
    ("$#", "(w (v #))"),
    ("${#}", "(w (v #))"),
    ("$?", "(w (v ?))"),
    ("${?}", "(w (v ?))"),
    ("${#x}", "(w (v x len))"),
    ("${#1}", "(w (v 1 len))"),
    ("${#?}", "(w (v ? len))"),
    ("\"${#x}\"", "(w (V x len))"),
    ("$x$y", "(w (v x) (v y))"),
    ("$x.y", "(w (v x) p:.y)"),
    ("$x_1-", "(w (v x_1) p:-)"),
    ("$a\\\nb${\\\nc\\\n}", "(w (v ab) (v c))"),
];

static FORMS: [(&str, &str); 26] = [
    ("${x-a}", "(w (v x - (w p:a)))"),
    ("${x:-a}", "(w (v x :- (w p:a)))"),
    ("${x:=a}", "(w (v x := (w p:a)))"),
    ("${x:?a}", "(w (v x :? (w p:a)))"),
    ("${x:+a}", "(w (v x :+ (w p:a)))"),
    ("${x?}", "(w (v x ?))"),
    ("${x:?}", "(w (v x :?))"),
    ("${x-}", "(w (v x - (w)))"),
    ("${x:-}", "(w (v x :- (w)))"),
    ("${x=}", "(w (v x = (w)))"),
    ("${x:+}", "(w (v x :+ (w)))"),
    ("${x%}", "(w (v x % (w)))"),
    ("${x##}", "(w (v x ## (w)))"),
    ("${x:?\"\"}", "(w (v x :? (w q:)))"),
    ("${1:-a}", "(w (v 1 :- (w p:a)))"),
    ("${1?a}", "(w (v 1 ? (w p:a)))"),
    ("${?:-a}", "(w (v ? :- (w p:a)))"),
    ("${?+a}", "(w (v ? + (w p:a)))"),
    ("${x%a}", "(w (v x % (w p:a)))"),
    ("${x#a}", "(w (v x # (w p:a)))"),
    ("${x##a}", "(w (v x ## (w p:a)))"),
    ("${1%a}", "(w (v 1 % (w p:a)))"),
    ("${?#0}", "(w (v ? # (w p:0)))"),
    ("${x%%%}", "(w (v x %% (w p:%)))"),
    ("${x###}", "(w (v x ## (w p:#)))"),
    ("${x:=:}", "(w (v x := (w p::)))"),
];

static INNER_WORDS: [(&str, &str); 20] = [
    ("${x:-a b}", "(w (v x :- (w p:a b)))"),
    ("${x:-\"a b\"c}", "(w (v x :- (w q:a b p:c)))"),
    ("${x:-$y}", "(w (v x :- (w (v y))))"),
    ("${x:-\"$y\"}", "(w (v x :- (w (V y))))"),
    ("\"${x:-a b}\"", "(w (V x :- (w q:a b)))"),
    ("\"${x:-$y}\"", "(w (V x :- (w (V y))))"),
    ("\"${x:-\"a\"b}\"", "(w (V x :- (w q:ab)))"),
    ("\"${x:-'a'}\"", "(w (V x :- (w q:'a')))"),
    ("\"${x:-a\\}b}\"", "(w (V x :- (w q:a}b)))"),
    ("\"${x:-\"a\\}b\"}\"", "(w (V x :- (w q:a\\}b)))"),
    ("\"${x:-\"\"}\"", "(w (V x :- (w q:)))"),
    ("\"${x%'a'b}\"", "(w (V x % (w q:a p:b)))"),
    ("\"${x%\"$y\"}\"", "(w (V x % (w (V y))))"),
    ("${x:-${y:-z}}", "(w (v x :- (w (v y :- (w p:z)))))"),
    ("${x%${y#a}}", "(w (v x % (w (v y # (w p:a)))))"),
    ("\"${x%${y:-'a'}}\"", "(w (V x % (w (v y :- (w q:a)))))"),
    ("${x:-a;b|c}", "(w (v x :- (w p:a;b|c)))"),
    ("${x:--}", "(w (v x :- (w p:-)))"),
    ("${x:-:-}", "(w (v x :- (w p::-)))"),
    ("${x:-a}b}", "(w (v x :- (w p:a)) p:b})"),
];

static ARITHMETIC: [(&str, &str); 19] = [
    ("$((1))", "(w (a p:1))"),
    ("\"$((1))\"", "(w (A p:1))"),
    ("$((x+$y))", "(w (a p:x+ (V y)))"),
    ("$((1 + ${x}))", "(w (a p:1 +  (V x)))"),
    ("$((\"1\"'2'))", "(w (a p:\"1\"'2'))"),
    ("$((\\$\\a\\\"))", "(w (a p:$\\a\"))"),
    ("$(($((1))))", "(w (a (A p:1)))"),
    ("$(($(a)))", "(w (a (S 0)))"),
    ("$(())", "(w (a))"),
    ("$((1)+2))", "(w (a p:1)+2))"),
    ("$((1+$ +2))", "(w (a p:1+$ +2))"),
    ("$(($))", "(w (a p:$))"),
    ("$(((1)+(2)))b", "(w (a p:(1)+(2)) p:b)"),
    ("a$((1))b", "(w p:a (a p:1) p:b)"),
    ("$((${x:-'a'}))", "(w (a (V x :- (w q:'a'))))"),
    ("$(a)b", "(w (s 0) p:b)"),
    ("$(a)\"$(b)\"$(c)", "(w (s 0) (S 1) (s 2))"),
    (
        "$(a \"b)\" $(c))$(($(d)+$(e)))",
        "(w (s 0) (a (S 1) p:+ (S 2)))",
    ),
    ("$()$(\n)", "(w (s 0) (s 1))"),
];

static NO_FORMS: [(&str, &str); 32] = [
    ("${}", "(w) !0"),
    ("${x!}", "(w) !0"),
    ("${ x}", "(w) !0"),
    ("${x y}", "(w) !0"),
    ("${x:}", "(w) !0"),
    ("${x:a}", "(w) !0"),
    ("${-}", "(w) !0"),
    ("${!}", "(w) !0"),
    ("${!x}", "(w) !0"),
    ("${x/a/b}", "(w) !0"),
    ("${x^}", "(w) !0"),
    ("${x[1]}", "(w) !0"),
    ("${1x}", "(w) !0"),
    ("${1=a}", "(w) !0"),
    ("${1:=a}", "(w) !0"),
    ("${?=a}", "(w) !0"),
    ("${@:-a}", "(w) !0"),
    ("${*%a}", "(w) !0"),
    ("${#@}", "(w) !0"),
    ("${##}", "(w) !0"),
    ("${#-w}", "(w) !0"),
    ("${#x%a}", "(w) !0"),
    ("${#x:-a}", "(w) !0"),
    ("${4294967296}", "(w) !0"),
    ("${99999999999999999999}", "(w) !0"),
    ("${x\n}", "(w) !0"),
    ("\"${x!}\"", "(w) !1"),
    ("\"${x:-${y!}}\"", "(w (V x :- (w))) !6"),
    ("${x!}${y!}", "(w) !0"),
    ("${x}${y:-${z!}}${z!}", "(w (v x) (v y :- (w))) !9"),
    ("$((${x!}))", "(w (a)) !3"),
    ("x=${y!}", "(w p:x=) !2"),
];

/// The reading goes on behind a `${ }` without a form.
static BEHIND_NO_FORMS: [(&str, &str); 16] = [
    ("${x:=1}${y!}", "(w (v x := (w p:1))) !7"),
    ("${y!}${x:=1}", "(w (v x := (w p:1))) !0"),
    ("${x!${y:=1}}", "(w) !0"),
    ("\"${y!}\"a", "(w p:a) !1"),
    ("${x:-${y!}}z", "(w (v x :- (w)) p:z) !5"),
    ("a${y!}b", "(w p:ab) !1"),
    ("\"a${y!}b\"", "(w q:ab) !2"),
    ("${x!'}'}a", "(w p:a) !0"),
    ("\"${x!'}a\"", "(w q:a) !1"),
    ("${x!\\}}a", "(w p:a) !0"),
    ("${x!\"}\"}a", "(w p:a) !0"),
    ("${1=${2!}}${x!}b", "(w p:b) !0"),
    ("$((1+${x!}+2))b", "(w (a p:1++2) p:b) !5"),
    ("$\\\n{x!}a", "(w p:a) !0"),
    ("${x:?${y!}}", "(w (v x :?)) !5"),
    ("${x!", "(w) !0"),
];

/// Assignments. The offset of a fault counts from the beginning of the name.
static ASSIGNMENTS: [(&str, &str); 10] = [
    ("x=a", "x (w p:a)"),
    ("x=", "x (w)"),
    ("x=''", "x (w q:)"),
    ("a_1=b'c'$d", "a_1 (w p:b q:c (v d))"),
    ("x=y=z", "x (w p:y=z)"),
    ("a\\\nb\\\n=c", "ab (w p:c)"),
    ("x=$(a)\"$(b)\"", "x (w (s 0) (S 1))"),
    ("x=${y!}", "x (w) !2"),
    ("long=a${y:-${z!}}", "long (w p:a (v y :- (w))) !11"),
    ("a\\\nb=${y!}", "ab (w) !5"),
];

/// Whether an expansion in the word assigns a variable.
static ASSIGNING: [(&str, bool); 24] = [
    ("${x:=1}", true),
    ("${x=1}", true),
    ("a${y:-${x:=1}}", true),
    ("${y##${x=1}}", true),
    ("${y:?${x=1}}", true),
    ("\"${x:=1}\"", true),
    ("$((x=1))", true),
    ("$((x = 1))", true),
    ("$((x===1))", true),
    ("$((x<<=1))", true),
    ("$((x>>=1))", true),
    ("$((x+=1))", true),
    ("$((${x:=1}))", true),
    ("$((${x}=1))", true),
    ("${y!}${x:=1}", true),
    ("$((x==1))", false),
    ("$((x<=1))", false),
    ("$((x>=1))", false),
    ("$((x!=1))", false),
    ("$((${x:-=}))", false),
    ("${x:-=}", false),
    ("x=1", false),
    ("'${x:=1}'", false),
    ("${x!${y:=1}}$(z=${x:=1})", false),
];

/// Sees that the word has this tree, and this fault.
fn reads_as<R: Abort + AllocGlobal>(rt: &R, text: &str, expected: &str) -> Result<(), Fail> {
    assert_eq!(rt;
        shown(rt.alloc(), text.as_bytes())?.as_str(),
        expected,
        "at {text:?}"
    );
    Ok(())
}

#[test]
fn quoted_words_have_their_trees(rt: HostRuntime) -> Result<(), Fail> {
    for &(text, expected) in QUOTES.iter() {
        reads_as(&rt, text, expected)?;
    }
    Ok(())
}

#[test]
fn parameters_have_their_trees(rt: HostRuntime) -> Result<(), Fail> {
    for &(text, expected) in PARAMETERS.iter() {
        reads_as(&rt, text, expected)?;
    }
    for &(text, expected) in FORMS.iter() {
        reads_as(&rt, text, expected)?;
    }
    Ok(())
}

#[test]
fn words_in_words_have_their_trees(rt: HostRuntime) -> Result<(), Fail> {
    for &(text, expected) in INNER_WORDS.iter() {
        reads_as(&rt, text, expected)?;
    }
    for &(text, expected) in ARITHMETIC.iter() {
        reads_as(&rt, text, expected)?;
    }
    Ok(())
}

#[test]
fn all_else_has_no_form(rt: HostRuntime) -> Result<(), Fail> {
    for &(text, expected) in NO_FORMS.iter() {
        reads_as(&rt, text, expected)?;
    }
    Ok(())
}

#[test]
fn the_reading_goes_on_behind_what_has_no_form(rt: HostRuntime) -> Result<(), Fail> {
    for &(text, expected) in BEHIND_NO_FORMS.iter() {
        reads_as(&rt, text, expected)?;
    }
    Ok(())
}

#[test]
fn substitutions_are_counted_from_the_first(rt: HostRuntime) -> Result<(), Fail> {
    let mut out = String::new(rt.alloc());
    let mut subs = None;
    if let Ok(read) = read_word(rt.alloc(), b"$(a)$(b)", 7) {
        show_word(rt.alloc(), &read.word, &mut out)?;
        subs = Some(read.subs);
    }
    assert_eq!(rt; (out.as_str(), subs), ("(w (s 7) (s 8))", Some(2)));
    Ok(())
}

#[test]
fn assignments_have_a_name_and_a_value(rt: HostRuntime) -> Result<(), Fail> {
    for &(text, expected) in ASSIGNMENTS.iter() {
        assert_eq!(rt;
            shown_assign(rt.alloc(), text.as_bytes())?.as_str(),
            expected,
            "at {text:?}"
        );
    }
    Ok(())
}

#[test]
fn words_assign_as_they_are_written(rt: HostRuntime) -> Result<(), Fail> {
    for &(text, expected) in ASSIGNING.iter() {
        let assigns = match read_word(rt.alloc(), text.as_bytes(), 0) {
            Ok(read) => Some(assigns_in(&read.word)),
            Err(Memory) => None,
        };
        assert_eq!(rt; assigns, Some(expected), "at {text:?}");
    }
    Ok(())
}
